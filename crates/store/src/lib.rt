// The state between calls, and every call but restart: begin, write, read and its sister, precommit, abort and settle in memory alone, flush and
// checkpoint with counted stores on the disk.
#![tactic(auto)]

mod admit;
pub mod call;
mod checkpoint;
mod choose;
mod extents;
mod flush;
mod judged;
mod step;
pub mod stored;

ghost use Rattle.std.specs.Prelude.{◌≡◌};
ghost use Rattle.store.specs.State.{unrecovered};

use layout::refusal::Refusal;
use layout::{MAX_RECORDS, MAX_TXS};
use redolog::{Csn, TxId};
use transaction::Tx;

// Bounds of the state's fields, at their widths.
pub(crate) const COUNT_MAX: u8 = MAX_TXS as u8;

pub(crate) const RECORDS_MAX: u8 = MAX_RECORDS as u8;

// Transactions in order of begin, in the first count slots. Laid out as C does it, with all that it holds, for hosts in other languages
// (crate `luppaneth`).
#[repr(C)]
#[derive(Clone, Copy)]
pub struct State {
    pub recovered: bool,
    pub logend: u16,
    pub ondisk: Csn,
    pub assigned: Csn,
    pub lastid: TxId,
    pub count: u8,
    pub txs: [Tx; MAX_TXS],
}

// Why a call that stores on the disk isn't done: a power cut, or a refusal.
#[derive(Clone, Copy)]
pub enum Failure {
    Cut,
    Refused(Refusal),
}

impl State {
    // The one value that nothing but a restart goes on from.
    pub fn unrecovered() -> Self
        ensures { result ≡ unrecovered }
    {
        let t = Tx::empty();
        State {
            recovered: false,
            logend: 0,
            ondisk: Csn(0),
            assigned: Csn(0),
            lastid: TxId(0),
            count: 0,
            txs: [t; MAX_TXS],
        }
    }
}
