// The checkpoint image: the counters and transactions that it holds beside the memory, and the image rules.
#![tactic(auto)]

pub mod keys;
pub mod read;
pub mod write;

ghost use Rattle.std.specs.Prelude.{◌≡◌};
ghost use Rattle.image.specs.Rules.{bounds_ok};

use layout::{LOG_LEN, MAX_TXS};
use redolog::{Csn, TxId};
use transaction::Tx;

// What an image begins with, and a state too.
#[derive(Clone, Copy)]
pub struct Counters {
    pub logend: u16,
    pub ondisk: Csn,
    pub assigned: Csn,
    pub lastid: TxId,
    pub count: u8,
}

impl Counters {
    // The image rules of the counters.
    pub fn ok(self) -> bool
        ensures { result ≡ bounds_ok self.logend self.ondisk.0 self.assigned.0 self.count }
    {
        self.logend as usize <= LOG_LEN
            && self.ondisk <= self.assigned
            && self.count as usize <= MAX_TXS
    }
}

// Transactions in order of begin, in the first count slots.
#[derive(Clone, Copy)]
pub struct Image {
    pub logend: u16,
    pub ondisk: Csn,
    pub assigned: Csn,
    pub lastid: TxId,
    pub count: u8,
    pub txs: [Tx; MAX_TXS],
}
