// Numbers 1 and 2, which every call that is handed a state checks first.
ghost use Rattle.std.specs.Prelude.{◌≡◌, ◌-◌, ◌≤◌};
ghost use Rattle.layout.specs.{max_txs};
ghost use Rattle.recovery.specs.Lists.{any};
ghost use Rattle.transaction.specs.Lists.{up_from};
ghost use Rattle.transaction.specs.Rules.{alike};
ghost use Rattle.store.specs.State.{outline_at};
ghost use Rattle.store.specs.Extents.{bare_state};
ghost use Rattle.store.specs.Rules.{all_zero};
ghost use Rattle.store.specs.Admission.{counters_ok, measured_txs, measured_tail, admission, of_admitted};

use crate::extents::StateExtents;
use crate::judged::Admitted;
use layout::refusal::Refusal;
use layout::{LOG_LEN, MEMORY_LEN, TAIL_LEN};
use redolog::Csn;
use redolog::scan::read_log;
use transaction::Key;

const ZERO_PART: usize = 512;

// An or over all bytes instead of a stop at the first one that is not 0: it runs in wide registers.
fn zero_part(s: &[u8]) -> bool
    ensures { result ≡ all_zero s.now }
{
    let mut seen: u8 = 0;
    for b in s {
        seen |= *b;
    }
    seen == 0
}

// In parts of a length that the compiler knows, it runs in fewer steps.
fn all_zero(s: &[u8]) -> bool
    ensures { result ≡ all_zero s.now }
{
    let (parts, rest) = s.as_chunks::<ZERO_PART>();
    for part in parts {
        if !zero_part(part) {
            return false;
        }
    }
    zero_part(rest)
}

// The log room of whole groups with commit numbers from the one on disk up to the one assigned, then zeros.
fn measure_tail(tail: &[u8], ondisk: Csn, assigned: Csn) -> Option<usize>
    ensures { result ≡ measured_tail ondisk.0 assigned.0 tail.now }
{
    let log = read_log(tail, ondisk);
    let end = log.end;
    if log.csn != assigned {
        return None;
    }
    if !all_zero(&tail[end..]) {
        return None;
    }
    Some(end)
}

impl StateExtents {
    // Recovered, and the image rules of the counters.
    #[tactic(auto, unfolding(crate::specs::Admission::counters_ok))]
    fn counters_ok(self) -> bool
        ensures { result ≡ counters_ok self.recovered self.counters.logend self.counters.ondisk.0 self.counters.assigned.0 self.counters.count }
    {
        self.recovered && self.counters.ok()
    }

    // Whether one from slot i on has this id, or this commit number where that is one.
    fn alike_from(self, i: usize, key: Key) -> bool
        requires { (i ≤ self.counters.count) × (self.counters.count ≤ max_txs) }
        ensures { result ≡ any (alike key.id.0 key.csn.0) (up_from (outline_at (bare_state self)) (self.counters.count - i) i) }
    {
        for t in &self.txs[i..self.counters.count as usize] {
            if key.alike(t.key()) {
                return true;
            }
        }
        false
    }

    // The log room that the transactions have reserved, if they keep their rules.
    fn measure_txs(self) -> Option<usize>
        requires { self.counters.count ≤ max_txs }
        ensures { result ≡ measured_txs (bare_state self) }
    {
        let n = self.counters.count as usize;
        let last = Key {
            id: self.counters.lastid,
            csn: self.counters.assigned,
        };
        let mut room: usize = 0;
        for (i, t) in self.txs[..n].iter().enumerate() {
            if !t.image_ok(last) {
                return None;
            }
            if !t.state_ok() {
                return None;
            }
            if self.alike_from(i + 1, t.key()) {
                return None;
            }
            room += t.room();
        }
        Some(room)
    }

    // memory is the length of the memory that was lent.
    pub(crate) fn admit(self, memory: usize, tail: &[u8]) -> Result<Admitted, Refusal>
        ensures { of_admitted result ≡ admission (bare_state self) memory tail.now }
    {
        if memory != MEMORY_LEN {
            return Err(Refusal::WrongLength);
        }
        if tail.len() != TAIL_LEN {
            return Err(Refusal::WrongLength);
        }
        if !self.counters_ok() {
            return Err(Refusal::Unfit);
        }
        let Some(reserved) = self.measure_txs() else {
            return Err(Refusal::Unfit);
        };
        let Some(end) = measure_tail(tail, self.counters.ondisk, self.counters.assigned) else {
            return Err(Refusal::Unfit);
        };
        let room = self.counters.logend as usize + end + reserved;
        if LOG_LEN < room {
            return Err(Refusal::Unfit);
        }
        Ok(Admitted {
            end: end,
            room: room,
        })
    }
}
