// One transaction: its undo and redo records, the rules that it has to keep, and what a call does to it.
#![tactic(auto)]

pub mod ranges;
pub mod records;
pub mod savepoints;

ghost use Rattle.std.specs.Prelude.{◌≡◌, true, [], ◌+◌, ◌≤◌, ◌<◌, length, take, drop};
ghost use Rattle.std.proofs.lemmas.List.Edits.{sets};
ghost use Rattle.layout.specs.{memory_len, commit_len, max_records, max_write, max_savepoints, status_running};
ghost use Rattle.recovery.specs.Group.{committed};
ghost use Rattle.recovery.specs.Replay.{redo_all, lay_bytes};
ghost use Rattle.redolog.specs.Group.{encode_group};
ghost use Rattle.transaction.specs.Flat.{empty_extras, empty_tx};
ghost use Rattle.transaction.specs.View.{ranges_of, savepoints_of, used_by, writes_of, outline, outline_of, extents_of, bare_tx};
ghost use Rattle.transaction.specs.Rules.{records_ok, head_ok, outline_ok, alike, savepoints_ok, state_ok, held_against, covered, reach, ranges_size, room_of, is_set, place_of, name_refused, later_ranges};
ghost use Rattle.transaction.specs.Steps.{fresh_tx, written, with_read, savepointed, return_writes, gone_back, precommitted};

use crate::ranges::Ranges;
use crate::records::Records;
use crate::savepoints::Savepoints;
use layout::{COMMIT_LEN, COMMITTING, MAX_SAVEPOINTS, MAX_WRITE, MEMORY_LEN, RUNNING};
use redolog::group::put_group;
use redolog::stores::copy;
use redolog::{Csn, TxId};

// What a running transaction keeps besides its records: off the image, emptied by precommit, its rule a conjunct of `state_ok`. The ranges that it
// has read, oldest first; its savepoints.
#[repr(C)]
#[derive(Clone, Copy)]
pub struct Extras {
    pub reads: Ranges,
    pub savepoints: Savepoints,
}

impl Extras {
    pub(crate) fn empty() -> Self
        ensures { result ≡ empty_extras }
    {
        Extras {
            reads: Ranges::empty(),
            savepoints: Savepoints::empty(),
        }
    }
}

// A transaction. Its status is RUNNING or COMMITTING: a byte and no enum, since a host may hand in any.
#[repr(C)]
#[derive(Clone, Copy)]
pub struct Tx {
    pub id: TxId,
    pub status: u8,
    pub csn: Csn,
    pub undo: Records,
    pub redo: Records,
    pub extras: Extras,
}

// The id and the commit number that tell a transaction apart; or the last id given and the last number assigned.
#[derive(Clone, Copy)]
pub struct Key {
    pub id: TxId,
    pub csn: Csn,
}

impl Key {
    // Whether two transactions have one id, or one commit number where that is one.
    pub fn alike(self, other: Key) -> bool
        ensures { result ≡ alike self.id.0 self.csn.0 (outline other.id.0 0 other.csn.0 []) }
    {
        self.id == other.id || (self.csn != Csn(0) && self.csn == other.csn)
    }

    // The image rules of id, status and commit number.
    #[tactic(auto, unfolding(crate::specs::Rules::head_ok))]
    pub fn head_ok(self, status: u8, last: Key) -> bool
        ensures { result ≡ head_ok last.id.0 last.csn.0 self.id.0 status self.csn.0 }
    {
        if self.id == TxId(0) || last.id < self.id {
            return false;
        }
        match status {
            RUNNING => self.csn == Csn(0),
            COMMITTING => self.csn != Csn(0) && self.csn <= last.csn,
            _ => false,
        }
    }
}

// A transaction without the bytes of its records: the rules look at no more, and handing on the bytes takes time.
#[derive(Clone, Copy)]
pub struct TxExtents {
    pub id: TxId,
    pub status: u8,
    pub csn: Csn,
    pub undo: Ranges,
    pub redo: Ranges,
    pub extras: Extras,
}

impl TxExtents {
    pub fn key(self) -> Key
        ensures { result ≡ record { id = self.id; csn = self.csn } }
    {
        Key {
            id: self.id,
            csn: self.csn,
        }
    }

    // The image rules of one transaction.
    pub fn image_ok(self, last: Key) -> bool
        ensures { result ≡ outline_ok last.id.0 last.csn.0 (outline_of (bare_tx self)) }
    {
        self.key().head_ok(self.status, last) && self.undo.ok()
    }

    // The rules that number 2 adds to those of an image.
    #[tactic(auto, unfolding(crate::specs::Rules::state_ok))]
    pub fn state_ok(self) -> bool
        ensures { result ≡ state_ok (bare_tx self) }
    {
        if self.status != RUNNING {
            return self.extras.reads.count == 0 && self.extras.savepoints.count == 0;
        }
        self.undo.same_ranges(self.redo)
            && self.extras.reads.ok()
            && self.extras.savepoints.ok(self.undo.count)
    }

    // The log room that it has reserved.
    pub fn room(self) -> usize
        requires { self.status ≡ status_running → records_ok (ranges_of self.redo) ≡ true }
        ensures { result ≡ room_of (bare_tx self) }
    {
        if self.status != RUNNING {
            return 0;
        }
        self.redo.size(0) + COMMIT_LEN
    }

    // Whether it holds one of the len bytes from addr on against the transaction of this id, which wants to read or write them.
    #[tactic(auto, unfolding(crate::specs::Rules::held_against))]
    pub fn holds_against(self, writing: bool, id: TxId, addr: usize, len: usize) -> bool
        requires { (addr ≤ memory_len) × (len ≤ max_write) }
        ensures { result ≡ held_against writing id.0 addr len (bare_tx self) }
    {
        if id == self.id || self.status != RUNNING {
            return false;
        }
        self.undo.meets(addr, len) || (writing && self.extras.reads.meets(addr, len))
    }

    // How far the bytes from a place on lie in ranges that it has written or read, each looked at once.
    #[tactic(auto, using(crate::proofs::Cover::reach_append))]
    fn reach(self, at: usize) -> usize
        ensures { result ≡ reach at (used_by (bare_tx self)) }
    {
        self.extras.reads.reach(self.undo.reach(at))
    }

    // Whether each of the len bytes from addr on lies in a range that it has written or read. Each turn goes on where the last one came to, by
    // more than one byte: no range of a `for`.
    #[tactic(auto, using(crate::proofs::Cover::reach_above, crate::proofs::Cover::covered_stuck, crate::proofs::Cover::covered_reach))]
    pub fn covers(self, addr: usize, len: usize) -> bool
        requires { addr + len ≤ memory_len }
        ensures { result ≡ covered (used_by (bare_tx self)) addr len }
    {
        let end = addr + len;
        let mut at = addr;
        while at < end {
            let to = self.reach(at);
            if to == at {
                return false;
            }
            at = to;
        }
        true
    }

    // Number 19: the name 0, or a fifth one.
    #[tactic(auto, using(crate::proofs::SavepointLaws::savepoints_length), unfolding(crate::specs::Rules::name_refused))]
    pub fn refuses_name(self, name: u8) -> bool
        requires { self.extras.savepoints.count ≤ max_savepoints }
        ensures { result ≡ name_refused name (savepoints_of (bare_tx self)) }
    {
        let saved = self.extras.savepoints;
        name == 0 || (!saved.is_set(name) && saved.count as usize == MAX_SAVEPOINTS)
    }

    // Number 18, if not.
    pub fn has_savepoint(self, name: u8) -> bool
        requires { self.extras.savepoints.count ≤ max_savepoints }
        ensures { result ≡ is_set name (savepoints_of (bare_tx self)) }
    {
        self.extras.savepoints.is_set(name)
    }

    // How many writes it has made since a savepoint.
    pub fn later_count(self, name: u8) -> usize
        requires { savepoints_ok self.undo.count (savepoints_of (bare_tx self)) ≡ true }
        ensures { result ≡ length (later_ranges name (bare_tx self)) }
    {
        let n = self.extras.savepoints.stood(name);
        self.undo.count as usize - n
    }

    // The bytes that redo records of these writes take in the log.
    pub fn later_size(self, name: u8) -> usize
        requires { (records_ok (ranges_of self.undo) ≡ true) × (savepoints_ok self.undo.count (savepoints_of (bare_tx self)) ≡ true) }
        ensures { result ≡ ranges_size (later_ranges name (bare_tx self)) }
    {
        let n = self.extras.savepoints.stood(name);
        self.undo.size(n)
    }
}

impl Tx {
    #[tactic(auto, unfolding(crate::specs::Flat::empty_tx))]
    pub fn empty() -> Self
        ensures { result ≡ empty_tx }
    {
        Tx {
            id: TxId(0),
            status: 0,
            csn: Csn(0),
            undo: Records::empty(),
            redo: Records::empty(),
            extras: Extras::empty(),
        }
    }

    // As begin makes it: running, without records.
    #[tactic(auto, unfolding(crate::specs::Steps::fresh_tx))]
    pub fn fresh(id: TxId) -> Self
        ensures { result ≡ fresh_tx id }
    {
        Tx {
            id,
            status: RUNNING,
            csn: Csn(0),
            undo: Records::empty(),
            redo: Records::empty(),
            extras: Extras::empty(),
        }
    }

    pub fn extents(self) -> TxExtents
        ensures { result ≡ extents_of self }
    {
        TxExtents {
            id: self.id,
            status: self.status,
            csn: self.csn,
            undo: self.undo.ranges,
            redo: self.redo.ranges,
            extras: self.extras,
        }
    }

    // One undo record and one redo record more.
    #[tactic(auto, unfolding(crate::specs::Steps::written))]
    pub fn write(mut self, addr: u16, old: &[u8], new: &[u8]) -> Self
        requires { (length old.now ≤ max_write) × (length new.now ≤ max_write) × (self.undo.ranges.count < max_records) × (self.redo.ranges.count < max_records) }
        ensures { result ≡ written self addr old.now new.now }
    {
        self.undo = self.undo.push(addr, old);
        self.redo = self.redo.push(addr, new);
        self
    }

    // One read range more.
    #[tactic(auto, unfolding(crate::specs::Steps::with_read))]
    pub fn read(mut self, addr: u16, len: u8) -> Self
        requires { self.extras.reads.count < max_records }
        ensures { result ≡ with_read self addr len }
    {
        self.extras.reads = self.extras.reads.push(addr, len);
        self
    }

    // A savepoint where its writes stand.
    #[tactic(auto, unfolding(crate::specs::Steps::savepointed))]
    pub fn savepoint(mut self, name: u8) -> Self
        requires { (self.extras.savepoints.count ≤ max_savepoints) × (place_of self.extras.savepoints name < max_savepoints) }
        ensures { result ≡ savepointed self name }
    {
        self.extras.savepoints = self.extras.savepoints.set(name, self.undo.ranges.count);
        self
    }

    // A write with what stands in memory as its old bytes; then memory has the new ones.
    pub fn lay(self, memory: &mut [u8; MEMORY_LEN], addr: usize, bytes: &[u8]) -> Self
        requires in_range { (length bytes.now ≤ max_write) × (addr + length bytes.now ≤ memory_len) }
        requires count_lt_max_records { (self.undo.ranges.count < max_records) × (self.redo.ranges.count < max_records) }
        ensures value { result ≡ written self addr (take (length bytes.now) (drop addr memory.old)) bytes.now }
        ensures memory_after { memory.new ≡ sets memory.old addr bytes.now }
    {
        let n = bytes.len();
        let u = self.write(addr as u16, &memory[addr..addr + n], bytes);
        copy(memory, addr, bytes);
        u
    }

    // The old bytes of every write since a savepoint, the newest first, as writes.
    pub fn go_back(self, memory: &mut [u8; MEMORY_LEN], name: u8) -> Self
        requires ranges_value { (records_ok (ranges_of self.undo.ranges) ≡ true) × (self.redo.ranges.count ≡ self.undo.ranges.count) }
        requires self_value { (savepoints_ok self.undo.ranges.count (savepoints_of self) ≡ true) × (self.undo.ranges.count + length (later_ranges name self) ≤ max_records) }
        ensures value { result ≡ gone_back self memory.old name }
        ensures memory_after { memory.new ≡ redo_all lay_bytes (return_writes self name) memory.old }
    {
        let kept = self.extras.savepoints.stood(name);
        let ranges = self.undo.ranges;
        let bytes = self.undo.bytes;
        let mut t = self;
        for k in (kept..ranges.count as usize).rev() {
            let from = k * MAX_WRITE;
            t = t.lay(
                memory,
                ranges.addr[k] as usize,
                &bytes[from..from + ranges.len[k] as usize],
            );
        }
        t
    }

    // Committing, with its redo records and extras gone.
    #[tactic(auto, unfolding(crate::specs::Steps::precommitted))]
    pub fn precommit(mut self, csn: Csn) -> Self
        ensures { result ≡ precommitted self csn }
    {
        self.status = COMMITTING;
        self.csn = csn;
        self.redo = Records::empty();
        self.extras = Extras::empty();
        self
    }

    // Writes its group into a log tail.
    pub fn put_group(self, tail: &mut [u8], at: usize, csn: Csn)
        requires { (records_ok (ranges_of self.redo.ranges) ≡ true) × (at + ranges_size (ranges_of self.redo.ranges) + commit_len ≤ length tail.old) }
        ensures { tail.new ≡ sets tail.old at (encode_group (committed self.id.0 csn.0 (writes_of self.redo))) }
    {
        let ranges = self.redo.ranges;
        put_group(
            tail,
            at,
            self.id,
            csn,
            ranges.count as usize,
            &ranges.addr,
            &ranges.len,
            &self.redo.bytes,
        );
    }
}
