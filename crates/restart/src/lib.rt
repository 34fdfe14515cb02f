// Restart's core, steps 2 to 5, from the heads of an image on: once over the log, then what is left unfinished is undone.
#![tactic(auto)]

pub mod forward;
pub mod undo;

ghost use Rattle.std.specs.Prelude.{◌≡◌, true, replicate};
ghost use Rattle.layout.specs.{tail_len};
ghost use Rattle.image.specs.Rules.{keeps_rules};
ghost use Rattle.image.specs.Heads.{image_by, HeadsFit};
ghost use Rattle.restart.specs.Restart.{recover_of};
ghost use Rattle.restart.specs.Turns.{undone_ids};

use crate::forward::{Ending, forward};
use crate::undo::undo_left;
use image::read::Heads;
use layout::{MAX_TXS, MEMORY_LEN};
use redolog::{Csn, TxId};

// Where the log ends, counted from the front of the part handed in, the last commit number found, the last id given, how many transactions
// step 4 undid, and how the first group of its id ends each transaction of the image, where there is one.
#[derive(Clone, Copy)]
pub struct Recovered {
    pub end: usize,
    pub csn: Csn,
    pub last: TxId,
    pub undone: usize,
    pub found: [Option<Ending>; MAX_TXS],
}

// With the ids of those undone, in order: their abort records make the tail (undo::put_aborts). There is no heap: an array, of which the first
// `undone` count.
#[derive(Clone, Copy)]
pub struct Replayed {
    pub answer: Recovered,
    pub ids: [TxId; MAX_TXS],
}

// s has the transactions of the image that h shows, log is the log from the image's log end on; memory comes in as the image's. h and s are no struct
// with `HeadsFit` as its invariant: `forward` asks less of the image than this does, so that each would still ask for something.
pub fn recover(h: Heads, s: &[u8], log: &[u8], memory: &mut [u8; MEMORY_LEN]) -> Replayed
    requires heads_fit { HeadsFit h s.now × (keeps_rules (image_by h s.now) ≡ true) }
    ensures answer_value { result.answer ≡ (recover_of (image_by h s.now) log.now memory.old (replicate tail_len 0)).answer }
    ensures memory_after { memory.new ≡ (recover_of (image_by h s.now) log.now memory.old (replicate tail_len 0)).memory }
    ensures ids_value { result.ids ≡ undone_ids (image_by h s.now) log.now memory.old }
{
    // The log can't have more groups than bytes.
    let p = forward(h, s, log, log.len(), memory);
    let left = undo_left(h, s, p, memory);
    let found = p.found;
    let answer = Recovered {
        end: p.end,
        csn: p.csn,
        last: p.last,
        undone: left.count,
        found,
    };
    let ids = left.ids;
    Replayed { answer, ids }
}
