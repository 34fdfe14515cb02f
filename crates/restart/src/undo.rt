// Step 4: what the pass left unfinished is undone, each with an abort record in the tail.
ghost use Rattle.std.specs.Prelude.{◌≡◌, ◌≤◌, length};
ghost use Rattle.layout.specs.{max_txs};
ghost use Rattle.recovery.specs.Replay.{undo_each, lay_bytes};
ghost use Rattle.image.specs.Heads.{image_by, HeadsFit};
ghost use Rattle.restart.specs.Undo.{undone_of};
ghost use Rattle.restart.specs.Turns.{StatusByCsn, first_running, best_of, next_of, undone_list, aborts_laid};

use crate::forward::{Ending, Pass};
use image::read::{Heads, TxHead, lay_back};
use layout::{ABORT_LEN, MAX_TXS, MEMORY_LEN, TAIL_LEN};
use redolog::record::put_abort;
use redolog::{Csn, TxId};

// Those undone, in order: the first count ids. There is no heap for a list.
#[derive(Clone, Copy)]
pub(crate) struct Undone {
    pub(crate) count: usize,
    pub(crate) ids: [TxId; MAX_TXS],
}

// The first one that is unfinished and without a number: the image rules give one to each that is committing.
fn first_running(txs: &[TxHead], found: &[Option<Ending>; MAX_TXS]) -> Option<usize>
    ensures { result ≡ first_running txs.now found.now }
{
    txs.iter()
        .zip(found)
        .position(|(tx, ending)| ending.is_none() && tx.key.csn == Csn(0))
}

// The unfinished one with the highest number above the last one found.
#[tactic(auto, unfolding(crate::specs::Turns::better_of))]
fn highest(txs: &[TxHead], found: &[Option<Ending>; MAX_TXS], last: Csn) -> Option<usize>
    requires { length txs.now ≤ max_txs }
    ensures { result ≡ (best_of txs.now found.now last (length txs.now)).at }
{
    let mut best = None;
    let mut top = last;
    for (i, tx) in txs.iter().enumerate() {
        if found[i].is_none() && top < tx.key.csn {
            best = Some(i);
            top = tx.key.csn;
        }
    }
    best
}

// The next one to undo: the running ones in image order, then the committing ones whose number exceeds the last found, highest number first.
fn next(txs: &[TxHead], found: &[Option<Ending>; MAX_TXS], last: Csn) -> Option<usize>
    requires { length txs.now ≤ max_txs }
    ensures { result ≡ next_of txs.now found.now last }
{
    first_running(txs, found).or_else(|| highest(txs, found, last))
}

// Undoes what p left unfinished. s has the transactions of the image that h shows.
pub(crate) fn undo_left(h: Heads, s: &[u8], p: Pass, memory: &mut [u8; MEMORY_LEN]) -> Undone
    requires heads_fit { HeadsFit h s.now × StatusByCsn (image_by h s.now) }
    ensures value { result ≡ undone_list (undone_of (image_by h s.now) p) }
    ensures memory_after { memory.new ≡ undo_each lay_bytes (undone_of (image_by h s.now) p) memory.old }
{
    let txs = &h.txs[..h.counters.count as usize];
    let mut found = p.found;
    let mut ids = [TxId(0); MAX_TXS];
    let mut count: usize = 0;
    while let Some(i) = next(txs, &found, p.csn) {
        let tx = txs[i];
        lay_back(&s[tx.at..], memory);
        ids[count] = tx.key.id;
        count += 1;
        found[i] = Some(Ending::Abort);
    }
    Undone { count, ids }
}

// Lays the abort records of these ids into the front of a tail.
pub fn put_aborts(ids: &[TxId], tail: &mut [u8; TAIL_LEN])
    requires { length ids.now ≤ max_txs }
    ensures { tail.new ≡ aborts_laid ids.now (length ids.now) tail.old }
{
    for (i, id) in ids.iter().enumerate() {
        put_abort(tail, i * ABORT_LEN, *id);
    }
}
