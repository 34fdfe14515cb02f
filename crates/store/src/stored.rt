// Calls that store on the disk: numbers 1 and 2 with the disk lent, and what a power cut leaves.
ghost use Rattle.std.specs.Prelude.{◌≡◌};
ghost use Rattle.layout.specs.Refusal.{number_of};
ghost use Rattle.store.specs.State.{unrecovered};
ghost use Rattle.store.specs.Answer.{cut, tells, of_stored};
ghost use Rattle.store.specs.Calls.{refusing};
ghost use Rattle.store.specs.Extents.{bare_state};
ghost use Rattle.store.specs.Admission.{disk_admission, of_admitted};
ghost use Rattle.store.specs.Stored.{zeroed};

use crate::extents::StateExtents;
use crate::judged::Admitted;
use crate::{Failure, State};
use layout::DISK_LEN;
use layout::refusal::Refusal;
use redolog::stores::fill_zero;

// stores is the number of stores made.
#[derive(Clone, Copy)]
pub struct Stored {
    pub state: State,
    pub result: Result<(), Failure>,
    pub stores: usize,
}

// The current failed after so many stores.
pub fn cut_off(memory: &mut [u8], tail: &mut [u8], stores: usize) -> Stored
    ensures result_value { of_stored result ≡ tells cut 0 stores unrecovered }
    ensures memory_after { memory.new ≡ zeroed memory.old }
    ensures tail_after { tail.new ≡ zeroed tail.old }
{
    fill_zero(memory);
    fill_zero(tail);
    let s = State::unrecovered();
    Stored {
        state: s,
        result: Err(Failure::Cut),
        stores,
    }
}

// Refused before any store: the state comes back as it was.
pub(crate) fn refused(refusal: Refusal, state: State) -> Stored
    ensures { of_stored result ≡ refusing (number_of refusal) state }
{
    Stored {
        state,
        result: Err(Failure::Refused(refusal)),
        stores: 0,
    }
}

impl StateExtents {
    // disk and memory are the lengths of those lent.
    #[tactic(auto, unfolding(crate::specs::Admission::disk_admission))]
    pub(crate) fn admit_disk(
        self,
        disk: usize,
        memory: usize,
        tail: &[u8],
    ) -> Result<Admitted, Refusal>
        ensures { of_admitted result ≡ disk_admission (bare_state self) disk memory tail.now }
    {
        if disk != DISK_LEN {
            return Err(Refusal::WrongLength);
        }
        self.admit(memory, tail)
    }
}
