// The numbers that refuse a call, those of its admission first, and the slot of the transaction that it is about.
ghost use Rattle.std.specs.Prelude.{cond, eqb, Some, None, ◌≡◌, true, [], ◌∷◌, ◌+◌, ◌≤◌, ◌<◌};
ghost use Rattle.layout.specs.{memory_len, max_txs, max_write};
ghost use Rattle.layout.specs.Refusal.{refused_by};
ghost use Rattle.recovery.specs.Lists.{any};
ghost use Rattle.transaction.specs.Lists.{every};
ghost use Rattle.transaction.specs.View.{used_by};
ghost use Rattle.transaction.specs.Rules.{state_ok, held_against, covered};
ghost use Rattle.store.specs.State.{tx_at, txs_of, slot_of};
ghost use Rattle.store.specs.Extents.{bare_state};
ghost use Rattle.store.specs.Rules.{keeps_image_rules};
ghost use Rattle.store.specs.Numbers.{first_number, check8, check16, begin_checks, read_checks, answer_checks, write_checks, savepoint_checks, go_back_checks, precommit_checks, abort_checks, settle_checks};
ghost use Rattle.store.specs.Admission.{listed_checks, of_choice, judged_number, judged_choice};

use crate::extents::StateExtents;
use crate::judged::Chosen;
use crate::{COUNT_MAX, RECORDS_MAX};
use layout::refusal::Refusal;
use layout::{COMMIT_LEN, COMMITTING, LOG_LEN, MAX_RECORDS, PAGE_LEN, REDO_LEN, RUNNING};
use redolog::TxId;
use redolog::record::in_range;

// What bytes are wanted for, to number 9: a `bool`, as crate `transaction` and its rule take it.
const READING: bool = false;

const WRITING: bool = true;

// Number 8.
fn check_range(addr: usize, len: usize) -> Result<(), Refusal>
    ensures { refused_by result ≡ first_number (check8 addr len ∷ []) }
{
    if !in_range(addr, len) {
        return Err(Refusal::BadRange);
    }
    Ok(())
}

// Number 16: less than len is left of the page that addr lies in.
fn check_page(addr: usize, len: usize) -> Result<(), Refusal>
    ensures { refused_by result ≡ first_number (check16 addr len ∷ []) }
{
    if PAGE_LEN - addr % PAGE_LEN < len {
        return Err(Refusal::TwoPages);
    }
    Ok(())
}

// Numbers 8 and 16.
fn check_write_range(addr: usize, len: usize) -> Result<(), Refusal>
    ensures { refused_by result ≡ first_number (check8 addr len ∷ check16 addr len ∷ []) }
{
    check_range(addr, len).and(check_page(addr, len))
}

// The choosers are handed what the calls are: memory's length, the tail and the id. A struct of the three would be made by each call for one use.
impl StateExtents {
    // The slot of the transaction of this id, if it is listed. No `position`: the search doesn't follow a chain over structs, and the proof of it
    // didn't close.
    fn find(self, id: TxId) -> Option<usize>
        requires { self.counters.count ≤ max_txs }
        ensures { result ≡ cond (eqb (slot_of (bare_state self) id.0) self.counters.count) None (Some (slot_of (bare_state self) id.0)) }
    {
        let n = self.counters.count as usize;
        for (i, t) in self.txs[..n].iter().enumerate() {
            if id == t.id {
                return Some(i);
            }
        }
        None
    }

    // Number 9, of one that is to read or to write.
    fn held(self, writing: bool, id: TxId, addr: usize, len: usize) -> bool
        requires { (self.counters.count ≤ max_txs) × (addr ≤ memory_len) × (len ≤ max_write) }
        ensures { result ≡ any (held_against writing id.0 addr len) (txs_of (bare_state self)) }
    {
        for t in &self.txs[..self.counters.count as usize] {
            if t.holds_against(writing, id, addr, len) {
                return true;
            }
        }
        false
    }

    // Begin's: numbers 1, 2, 11, 12 and 13.
    pub(crate) fn begin_number(self, memory: usize, tail: &[u8]) -> Result<(), Refusal>
        ensures { refused_by result ≡ judged_number (bare_state self) memory tail.now (λ room. begin_checks self.counters.count self.counters.lastid.0 room) }
    {
        let admitted = self.admit(memory, tail)?;
        if self.counters.count == COUNT_MAX {
            return Err(Refusal::TooManyTransactions);
        }
        if self.counters.lastid.0 == u16::MAX {
            return Err(Refusal::CounterAtEnd);
        }
        if LOG_LEN < admitted.room + COMMIT_LEN {
            return Err(Refusal::LogFull);
        }
        Ok(())
    }

    // Numbers 1, 2 and 6.
    fn choose_listed(self, memory: usize, tail: &[u8], id: TxId) -> Result<Chosen, Refusal>
        ensures { of_choice result ≡ judged_choice (bare_state self) memory tail.now id.0 (λ room. listed_checks (bare_state self) id.0) }
    {
        let admitted = self.admit(memory, tail)?;
        let Some(slot) = self.find(id) else {
            return Err(Refusal::NotListed);
        };
        Ok(Chosen { slot, admitted })
    }

    // Numbers 1, 2, 6 and 7.
    pub(crate) fn choose_running(
        self,
        memory: usize,
        tail: &[u8],
        id: TxId,
    ) -> Result<Chosen, Refusal>
        ensures { of_choice result ≡ judged_choice (bare_state self) memory tail.now id.0 (λ room. abort_checks (bare_state self) id.0) }
    {
        let listed = self.choose_listed(memory, tail, id)?;
        if self.txs[listed.slot].status == COMMITTING {
            return Err(Refusal::Committing);
        }
        Ok(listed)
    }

    // Numbers 1, 2 and 6 to 9.
    pub(crate) fn choose_read(
        self,
        memory: usize,
        tail: &[u8],
        id: TxId,
        addr: usize,
        len: usize,
    ) -> Result<Chosen, Refusal>
        ensures { of_choice result ≡ judged_choice (bare_state self) memory tail.now id.0 (λ room. read_checks (bare_state self) id.0 addr len) }
    {
        let running = self.choose_running(memory, tail, id)?;
        check_range(addr, len)?;
        if self.held(READING, id, addr, len) {
            return Err(Refusal::Held);
        }
        Ok(running)
    }

    // Numbers 1, 2, 6 to 9 and 15.
    pub(crate) fn choose_answer(
        self,
        memory: usize,
        tail: &[u8],
        id: TxId,
        addr: usize,
        len: usize,
    ) -> Result<Chosen, Refusal>
        ensures { of_choice result ≡ judged_choice (bare_state self) memory tail.now id.0 (λ room. answer_checks (bare_state self) id.0 addr len) }
    {
        let free = self.choose_read(memory, tail, id, addr, len)?;
        if self.txs[free.slot].extras.reads.count == RECORDS_MAX {
            return Err(Refusal::TooManyReads);
        }
        Ok(free)
    }

    // Whether the transaction chosen has read or written each of the len bytes from addr on.
    pub(crate) fn covers(self, chosen: Chosen, addr: usize, len: usize) -> bool
        requires { addr + len ≤ memory_len }
        ensures { result ≡ covered (used_by (tx_at (bare_state self) chosen.slot)) addr len }
    {
        self.txs[chosen.slot].covers(addr, len)
    }

    // Numbers 1, 2, 6 to 8, 16, 9, 10 and 13.
    pub(crate) fn choose_write(
        self,
        memory: usize,
        tail: &[u8],
        id: TxId,
        addr: usize,
        len: usize,
    ) -> Result<Chosen, Refusal>
        ensures { of_choice result ≡ judged_choice (bare_state self) memory tail.now id.0 (λ room. write_checks (bare_state self) room id.0 addr len) }
    {
        let running = self.choose_running(memory, tail, id)?;
        check_write_range(addr, len)?;
        if self.held(WRITING, id, addr, len) {
            return Err(Refusal::Held);
        }
        if self.txs[running.slot].undo.count == RECORDS_MAX {
            return Err(Refusal::TooManyWrites);
        }
        if LOG_LEN < running.admitted.room + (REDO_LEN + len) {
            return Err(Refusal::LogFull);
        }
        Ok(running)
    }

    // Numbers 1, 2, 6, 7 and 19.
    pub(crate) fn choose_savepoint(
        self,
        memory: usize,
        tail: &[u8],
        id: TxId,
        name: u8,
    ) -> Result<Chosen, Refusal>
        ensures { of_choice result ≡ judged_choice (bare_state self) memory tail.now id.0 (λ room. savepoint_checks (bare_state self) id.0 name) }
    {
        let running = self.choose_running(memory, tail, id)?;
        let t = self.txs[running.slot];
        if t.refuses_name(name) {
            return Err(Refusal::TooManySavepoints);
        }
        Ok(running)
    }

    // Numbers 1, 2, 6, 7 and 18, then 10 and 13 on the totals.
    // A hint to LLVM: what is left of the call is small enough then that it copies the state no more than it has to.
    #[inline(never)]
    pub(crate) fn choose_go_back(
        self,
        memory: usize,
        tail: &[u8],
        id: TxId,
        name: u8,
    ) -> Result<Chosen, Refusal>
        ensures { of_choice result ≡ judged_choice (bare_state self) memory tail.now id.0 (λ room. go_back_checks (bare_state self) room id.0 name) }
    {
        let running = self.choose_running(memory, tail, id)?;
        let t = self.txs[running.slot];
        if !t.has_savepoint(name) {
            return Err(Refusal::NoSavepoint);
        }
        let total = t.undo.count as usize + t.later_count(name);
        let used = running.admitted.room + t.later_size(name);
        if MAX_RECORDS < total {
            return Err(Refusal::TooManyWrites);
        }
        if LOG_LEN < used {
            return Err(Refusal::LogFull);
        }
        Ok(running)
    }

    // Numbers 1, 2, 6, 7 and 12.
    // A hint to LLVM: what is left of the call is small enough then that it copies the state no more than it has to.
    #[inline(never)]
    pub(crate) fn choose_precommit(
        self,
        memory: usize,
        tail: &[u8],
        id: TxId,
    ) -> Result<Chosen, Refusal>
        ensures { of_choice result ≡ judged_choice (bare_state self) memory tail.now id.0 (λ room. precommit_checks (bare_state self) id.0) }
    {
        let running = self.choose_running(memory, tail, id)?;
        if self.counters.assigned.0 == u32::MAX {
            return Err(Refusal::CounterAtEnd);
        }
        Ok(running)
    }

    // Numbers 1, 2, 6 and 14.
    pub(crate) fn choose_settle(
        self,
        memory: usize,
        tail: &[u8],
        id: TxId,
    ) -> Result<Chosen, Refusal>
        ensures { of_choice result ≡ judged_choice (bare_state self) memory tail.now id.0 (λ room. settle_checks (bare_state self) id.0) }
    {
        let listed = self.choose_listed(memory, tail, id)?;
        let t = self.txs[listed.slot];
        if t.status == RUNNING {
            return Err(Refusal::NotDurable);
        }
        if self.counters.ondisk < t.csn {
            return Err(Refusal::NotDurable);
        }
        Ok(listed)
    }
}
