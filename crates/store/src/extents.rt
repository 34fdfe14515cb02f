// A state without the bytes of its records. What judges a call looks at no more, and a whole state is too long to hand on for that.
ghost use Rattle.std.specs.Prelude.{◌≡◌};
ghost use Rattle.store.specs.Extents.{with_extents, Taken, HasExtents};

use crate::State;
use image::Counters;
use layout::MAX_TXS;
use transaction::TxExtents;

// The counters, and the transactions listed; what stands in the other slots is not asked for. A host may hand in any count, which number 2 judges by
// these extents: a bound of it is asked for where it is needed and is no invariant, since extents of which it holds would be one more copy of them.
#[derive(Clone, Copy)]
pub(crate) struct StateExtents {
    pub recovered: bool,
    pub counters: Counters,
    pub txs: [TxExtents; MAX_TXS],
}

impl State {
    // The extents of the transactions after the first one, into those that were taken.
    fn later(self, mut seen: StateExtents) -> StateExtents
        requires { (seen ≡ with_extents self seen.txs) × Taken self seen.txs 1 }
        ensures { HasExtents self result }
    {
        let n = MAX_TXS.min(self.count as usize);
        for i in 1..n {
            seen.txs[i] = self.txs[i].extents();
        }
        seen
    }

    // The first transaction by itself: so a state of one is not copied for them. It fills the slots past the count too.
    pub(crate) fn extents(self) -> StateExtents
        ensures { HasExtents self result }
    {
        let first = self.txs[0].extents();
        let seen = StateExtents {
            recovered: self.recovered,
            counters: Counters {
                logend: self.logend,
                ondisk: self.ondisk,
                assigned: self.assigned,
                lastid: self.lastid,
                count: self.count,
            },
            txs: [first; MAX_TXS],
        };
        if self.count <= 1 {
            return seen;
        }
        self.later(seen)
    }
}
