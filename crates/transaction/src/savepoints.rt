// The savepoints of a transaction in flat arrays (document 02, A.7: marks).
ghost use Rattle.std.specs.Prelude.{◌≡◌, ◌≤◌, ◌<◌, cond, None, Some};
ghost use Rattle.layout.specs.{max_savepoints};
ghost use Rattle.recovery.specs.Savepoint.{count_at};
ghost use Rattle.transaction.specs.Flat.{empty_savepoints};
ghost use Rattle.transaction.specs.View.{savepoints_in};
ghost use Rattle.transaction.specs.Rules.{is_set, savepoints_ok, place_of, or_zero};
ghost use Rattle.transaction.specs.Steps.{name_set};

use layout::MAX_SAVEPOINTS;

// The i-th has names[i] and was set when counts[i] writes stood. Laid out as C does it, and of any count: a host may hand in any bytes, and `ok` tells.
#[repr(C)]
#[derive(Clone, Copy)]
pub struct Savepoints {
    pub count: u8,
    pub names: [u8; MAX_SAVEPOINTS],
    pub counts: [u8; MAX_SAVEPOINTS],
}

impl Savepoints {
    pub(crate) fn empty() -> Self
        ensures { result ≡ empty_savepoints }
    {
        Savepoints {
            count: 0,
            names: [0; MAX_SAVEPOINTS],
            counts: [0; MAX_SAVEPOINTS],
        }
    }

    // The place of a name, if it is set.
    fn find(self, name: u8) -> Option<usize>
        requires { self.count ≤ max_savepoints }
        ensures { result ≡ cond (is_set name (savepoints_in self)) (Some (place_of self name)) None }
    {
        self.names[..self.count as usize]
            .iter()
            .position(|x| name == *x)
    }

    // At most MAX_SAVEPOINTS; no name is 0 or there twice, no count is above the writes.
    pub(crate) fn ok(self, writes: u8) -> bool
        ensures { result ≡ savepoints_ok writes (savepoints_in self) }
    {
        let n = self.count as usize;
        if MAX_SAVEPOINTS < n {
            return false;
        }
        for i in 0..n {
            let name = self.names[i];
            if name == 0 {
                return false;
            }
            if writes < self.counts[i] {
                return false;
            }
            if self.names[i + 1..n].contains(&name) {
                return false;
            }
        }
        true
    }

    pub(crate) fn is_set(self, name: u8) -> bool
        requires { self.count ≤ max_savepoints }
        ensures { result ≡ is_set name (savepoints_in self) }
    {
        self.find(name).is_some()
    }

    // How many writes stood when a name was set; 0 if it is not set.
    pub(crate) fn stood(self, name: u8) -> usize
        requires { self.count ≤ max_savepoints }
        ensures { result ≡ or_zero (count_at name (savepoints_in self)) }
    {
        match self.find(name) {
            Some(at) => self.counts[at] as usize,
            None => 0,
        }
    }

    // A name that is set moves, another goes last.
    pub(crate) fn set(mut self, name: u8, writes: u8) -> Self
        requires { (self.count ≤ max_savepoints) × (place_of self name < max_savepoints) }
        ensures { result ≡ name_set self name writes }
    {
        let n = self.count as usize;
        let at = self.find(name).unwrap_or(n);
        self.names[at] = name;
        self.counts[at] = writes;
        if at == n {
            self.count += 1;
        }
        self
    }
}
