// Steps 2 and 3: once over the log. A group is applied when it is found whole.
ghost use Rattle.std.specs.Prelude.{List, ◌≡◌, ℕ, ◌≤◌, length};
ghost use Rattle.std.proofs.Math.Option.{some};
ghost use Rattle.layout.specs.{max_txs};
ghost use Rattle.recovery.specs.Group.{Write, redo_size};
ghost use Rattle.recovery.specs.Replay.{redo_all, lay_bytes};
ghost use Rattle.redolog.specs.Record.{redo, read_record};
ghost use Rattle.redolog.specs.Group.{read_body};
ghost use Rattle.image.specs.Heads.{image_by, HeadsFit};
ghost use Rattle.restart.specs.Forward.{went_by, past, first_of};
ghost use Rattle.restart.specs.Turns.{Below, slot_in, unfinished_at, lay_front, front_size, front_writes, turn_step};

use image::read::{Heads, TxHead, lay_back};
use layout::{COMMIT_LEN, MAX_TXS, MEMORY_LEN, REDO_LEN};
use redolog::group::{GroupEnd, read_group};
use redolog::number::be16;
use redolog::stores::copy;
use redolog::{Csn, TxId};

// How a group ends its transaction.
#[derive(Clone, Copy, PartialEq, Eq)]
pub enum Ending {
    Commit,
    Abort,
}

// What the pass has found: the end that it reached, the last commit number, the highest id, and how the first group of its id ends each
// transaction of the image; one without a group is unfinished.
#[derive(Clone, Copy)]
pub struct Pass {
    pub end: usize,
    pub csn: Csn,
    pub last: TxId,
    pub found: [Option<Ending>; MAX_TXS],
}

impl Pass {
    // The slot if its transaction is unfinished.
    fn unfinished(self, slot: Option<usize>) -> Option<usize>
        requires { Below max_txs slot }
        ensures { result ≡ unfinished_at self.found slot }
    {
        slot.filter(|i| self.found[*i].is_none())
    }

    // Past a group of the id in this slot, which ends it so, with that commit number after it, to where the group ends.
    #[tactic(auto, unfolding(crate::specs::Forward::past))]
    fn past(mut self, slot: Option<usize>, id: TxId, csn: Csn, ending: Ending, end: usize) -> Pass
        requires { Below max_txs slot }
        ensures { result ≡ past self slot id.0 csn.0 ending end }
    {
        self.end = end;
        self.csn = csn;
        self.last = self.last.max(id);
        // Most groups are of no transaction of the image: what was found is not copied for them.
        let Some(i) = slot else {
            return self;
        };
        if self.found[i].is_none() {
            self.found[i] = Some(ending);
        }
        self
    }
}

// A turn of the pass: what it has found then, and the slot of the transaction that is to be undone.
#[derive(Clone, Copy)]
struct Turn {
    pass: Pass,
    undo: Option<usize>,
}

// The slot of an id.
fn find(txs: &[TxHead], id: TxId) -> Option<usize>
    ensures { result ≡ slot_in txs.now id.0 }
{
    txs.iter().position(|tx| tx.key.id == id)
}

// Does the redo record at the front of s and returns its size.
fn redo_one(memory: &mut [u8; MEMORY_LEN], s: &[u8]) -> usize
    requires by_index { (id : ℕ) × (w : Write) × (read_record s.now ≡ some (redo id w)) }
    ensures value { result ≡ front_size (read_record s.now) }
    ensures memory_after { memory.new ≡ lay_front (read_record s.now) memory.old }
{
    let at = be16(s, 3) as usize;
    let n = s[5] as usize;
    let bytes = &s[6..6 + n];
    copy(memory, at, bytes);
    REDO_LEN + n
}

// Does the redo records of the group at the front of s, in order: its first size bytes. They were read with the group, and are not tested again.
// No iterator of a slice goes by the records' sizes. s goes on past them: by the commit there the contract knows them.
fn redo_all(memory: &mut [u8; MEMORY_LEN], s: &[u8], size: usize)
    requires by_index { (next : ℕ) × (id : ℕ) × (ws : List Write) × (read_body next id s.now ≡ some ws) × (redo_size ws ≡ size) }
    ensures { memory.new ≡ redo_all lay_bytes (front_writes s.now) memory.old }
{
    let mut at: usize = 0;
    while at < size {
        let k = redo_one(memory, &s[at..]);
        at += k;
    }
}

// Past the group at the end that p has reached; none where no group stands. A commit is applied; an abort leaves its transaction to be undone.
fn step(txs: &[TxHead], p: Pass, log: &[u8], memory: &mut [u8; MEMORY_LEN]) -> Option<Turn>
    requires txs_few { length txs.now ≤ max_txs }
    requires end_in_bounds { p.end ≤ length log.now }
    ensures value { result ≡ (turn_step txs.now log.now (went_by memory.old p)).turn }
    ensures memory_after { memory.new ≡ (turn_step txs.now log.now (went_by memory.old p)).memory }
{
    let at = p.end;
    match read_group(&log[at..], p.csn) {
        Ok(GroupEnd::Aborted { id, end }) => {
            let slot = find(txs, id);
            let undo = p.unfinished(slot);
            let pass = p.past(slot, id, p.csn, Ending::Abort, at + end);
            Some(Turn { pass, undo })
        }
        Ok(GroupEnd::Committed { id, csn, end }) => {
            let slot = find(txs, id);
            let pass = p.past(slot, id, csn, Ending::Commit, at + end);
            // A commit alone: a log can have thousands.
            if end != COMMIT_LEN {
                redo_all(memory, &log[at..], end - COMMIT_LEN);
            }
            Some(Turn { pass, undo: None })
        }
        Err(_) => None,
    }
}

// Over the first groups of the log, or all if fewer. s has the transactions of the image that h shows.
pub fn forward(h: Heads, s: &[u8], log: &[u8], groups: usize, memory: &mut [u8; MEMORY_LEN]) -> Pass
    requires heads_fit { HeadsFit h s.now × (h.counters.count ≤ max_txs) }
    ensures value { result ≡ (first_of groups (image_by h s.now) log.now memory.old).pass }
    ensures memory_after { memory.new ≡ (first_of groups (image_by h s.now) log.now memory.old).memory }
{
    let txs = &h.txs[..h.counters.count as usize];
    let mut p = Pass {
        end: 0,
        csn: h.counters.ondisk,
        last: h.counters.lastid,
        found: [None; MAX_TXS],
    };
    for _group in 0..groups {
        let Some(turn) = step(txs, p, log, memory) else {
            return p;
        };
        p = turn.pass;
        if let Some(i) = turn.undo {
            let tx = txs[i];
            lay_back(&s[tx.at..], memory);
        }
    }
    p
}
