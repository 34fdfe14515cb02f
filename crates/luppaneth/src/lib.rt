// The calls for hosts that are not written in Rattle, by C's rules: numbers, structs laid out as in C, a slice as a pointer and a length.
// include/luppaneth.h declares them for C. Each is the call of `store`, `disk`, `inspect` or `listing`, and its contract says so.
#![tactic(auto)]

mod disks;
mod looks;
mod memory;
mod sizes;
mod version;

ghost use Rattle.std.specs.Prelude.{◌≡◌, Some};
ghost use Rattle.store.specs.State.{unrecovered};
ghost use Rattle.store.specs.Answer.{says_stored, tells, of_begun, of_precommitted, of_returned, of_stored};
ghost use Rattle.luppaneth.specs.Reply.{reply_of, stop_number, value_by};

use redolog::stop::Stop;
use redolog::{Csn, TxId};
use store::call::Returned;
use store::stored::Stored;
use store::{Failure, State};

// answer: 0 done, 1 cut, 2 refused. number: document 01's where refused, else 0. value: begin's id, precommit's commit number, restart's count
// of transactions undone, else 0. stores: those made, where the call stores on the disk, else 0. stop: of a restart that is done why the log
// ended, 1 full, 2 zero, 3 torn; else 0. C reads them: numbers, and no enum, Option or Result.
#[repr(C)]
#[derive(Clone, Copy)]
pub struct Reply {
    pub answer: u8,
    pub number: u8,
    pub stop: u8,
    pub value: u32,
    pub stores: usize,
    pub state: State,
}

pub(crate) const DONE: u8 = 0;

pub(crate) const CUT: u8 = 1;

pub(crate) const REFUSED: u8 = 2;

impl Reply {
    // Of a call that gives a value if it is done.
    pub(crate) fn new(told: Result<u32, Failure>, stores: usize, state: State) -> Self
        ensures { result ≡ reply_of (tells (says_stored told) (value_by told) stores state) }
    {
        let (answer, number, value) = match told {
            Ok(value) => (DONE, 0, value),
            Err(Failure::Cut) => (CUT, 0, 0),
            Err(Failure::Refused(refusal)) => (REFUSED, refusal.number(), 0),
        };
        Reply {
            answer,
            number,
            stop: 0,
            value,
            stores,
            state,
        }
    }
}

// Each call's value has a type of its own: a trait for all three would have more lines than these.
impl From<Returned<TxId>> for Reply {
    ghost from_gives = { λ r reply. reply ≡ reply_of (of_begun r) };

    fn from(r: Returned<TxId>) -> Reply {
        let value = r.result.map(|id| u32::from(id.0));
        Reply::new(value.map_err(Failure::Refused), 0, r.state)
    }
}

impl From<Returned<Csn>> for Reply {
    ghost from_gives = { λ r reply. reply ≡ reply_of (of_precommitted r) };

    fn from(r: Returned<Csn>) -> Reply {
        let value = r.result.map(|csn| csn.0);
        Reply::new(value.map_err(Failure::Refused), 0, r.state)
    }
}

impl From<Returned<()>> for Reply {
    ghost from_gives = { λ r reply. reply ≡ reply_of (of_returned r) };

    fn from(r: Returned<()>) -> Reply {
        let value = r.result.map(|()| 0);
        Reply::new(value.map_err(Failure::Refused), 0, r.state)
    }
}

impl From<Stored> for Reply {
    ghost from_gives = { λ r reply. reply ≡ reply_of (of_stored r) };

    fn from(r: Stored) -> Reply {
        Reply::new(r.result.map(|()| 0), r.stores, r.state)
    }
}

pub(crate) fn stop_number(stop: Stop) -> u8
    ensures { result ≡ stop_number (Some stop) }
{
    match stop {
        Stop::Full => 1,
        Stop::Zero => 2,
        Stop::Torn => 3,
    }
}

#[unsafe(no_mangle)]
pub extern "C" fn luppaneth_unrecovered() -> State
    ensures { result ≡ unrecovered }
{
    State::unrecovered()
}
