// What the calls do once nothing refuses them. Each step has its own exact definition, so that later calls can be made of steps.
ghost use Rattle.std.specs.Prelude.{◌≡◌, true, ◌+◌, ◌≤◌, ◌<◌, length};
ghost use Rattle.std.proofs.lemmas.List.Edits.{sets};
ghost use Rattle.layout.specs.{memory_len, max_txs, max_records, max_write, max_savepoints, commit_len, abort_len};
ghost use Rattle.recovery.specs.Group.{committed, aborted};
ghost use Rattle.recovery.specs.Replay.{redo_all, undo_all, lay_bytes};
ghost use Rattle.redolog.specs.Group.{encode_group};
ghost use Rattle.transaction.specs.View.{ranges_of, savepoints_of, writes_of};
ghost use Rattle.transaction.specs.Rules.{records_ok, savepoints_ok, ranges_size, place_of, later_ranges};
ghost use Rattle.transaction.specs.Steps.{return_writes};
ghost use Rattle.store.specs.State.{tx_at};
ghost use Rattle.store.specs.Steps.{begun_state, written_state, read_state, savepoint_state, went_back_state, precommitted_state, dropped_state};

use crate::State;
use crate::judged::Chosen;
use layout::MEMORY_LEN;
use redolog::record::put_abort;
use redolog::{Csn, TxId};
use transaction::Tx;

impl State {
    #[tactic(auto, unfolding(crate::specs::Steps::begun_state))]
    pub(crate) fn begin_step(mut self) -> Self
        requires { (self.count < max_txs) × (self.lastid.0 < 65535) }
        ensures { result ≡ begun_state self }
    {
        let id = TxId(self.lastid.0 + 1);
        let n = self.count as usize;
        self.txs[n] = Tx::fresh(id);
        self.count += 1;
        self.lastid = id;
        self
    }

    #[tactic(auto, unfolding(crate::specs::Steps::written_state))]
    pub(crate) fn write_step(
        mut self,
        memory: &mut [u8; MEMORY_LEN],
        chosen: Chosen,
        addr: usize,
        bytes: &[u8],
    ) -> Self
        requires in_range { (length bytes.now ≤ max_write) × (addr + length bytes.now ≤ memory_len) }
        requires slot_bound { ((tx_at self chosen.slot).undo.ranges.count < max_records) × ((tx_at self chosen.slot).redo.ranges.count < max_records) }
        ensures value { result ≡ written_state self chosen.slot memory.old addr bytes.now }
        ensures memory_after { memory.new ≡ sets memory.old addr bytes.now }
    {
        self.txs[chosen.slot] = self.txs[chosen.slot].lay(memory, addr, bytes);
        self
    }

    #[tactic(auto, unfolding(crate::specs::Steps::read_state))]
    pub(crate) fn read_step(mut self, chosen: Chosen, addr: usize, len: usize) -> Self
        requires { (len ≤ max_write) × (addr ≤ memory_len) × ((tx_at self chosen.slot).extras.reads.count < max_records) }
        ensures { result ≡ read_state self chosen.slot addr len }
    {
        self.txs[chosen.slot] = self.txs[chosen.slot].read(addr as u16, len as u8);
        self
    }

    #[tactic(auto, unfolding(crate::specs::Steps::savepoint_state))]
    pub(crate) fn savepoint_step(mut self, chosen: Chosen, name: u8) -> Self
        requires { ((tx_at self chosen.slot).extras.savepoints.count ≤ max_savepoints) × (place_of (tx_at self chosen.slot).extras.savepoints name < max_savepoints) }
        ensures { result ≡ savepoint_state self chosen.slot name }
    {
        self.txs[chosen.slot] = self.txs[chosen.slot].savepoint(name);
        self
    }

    #[tactic(auto, unfolding(crate::specs::Steps::went_back_state))]
    pub(crate) fn go_back_step(
        mut self,
        memory: &mut [u8; MEMORY_LEN],
        chosen: Chosen,
        name: u8,
    ) -> Self
        requires records { (records_ok (ranges_of (tx_at self chosen.slot).undo.ranges) ≡ true)
            × ((tx_at self chosen.slot).redo.ranges.count ≡ (tx_at self chosen.slot).undo.ranges.count) }
        requires slot_value { (savepoints_ok (tx_at self chosen.slot).undo.ranges.count (savepoints_of (tx_at self chosen.slot)) ≡ true)
            × ((tx_at self chosen.slot).undo.ranges.count + length (later_ranges name (tx_at self chosen.slot)) ≤ max_records) }
        ensures value { result ≡ went_back_state self chosen.slot memory.old name }
        ensures memory_after { memory.new ≡ redo_all lay_bytes (return_writes (tx_at self chosen.slot) name) memory.old }
    {
        self.txs[chosen.slot] = self.txs[chosen.slot].go_back(memory, name);
        self
    }

    #[tactic(auto, unfolding(crate::specs::Steps::precommitted_state))]
    pub(crate) fn precommit_step(mut self, tail: &mut [u8], chosen: Chosen) -> Self
        requires unspent { self.assigned.0 < 4294967295 }
        requires slot_value { (records_ok (ranges_of (tx_at self chosen.slot).redo.ranges) ≡ true)
            × (chosen.admitted.end + ranges_size (ranges_of (tx_at self chosen.slot).redo.ranges) + commit_len ≤ length tail.old) }
        ensures value { result ≡ precommitted_state self chosen.slot }
        ensures tail_after { tail.new ≡ sets tail.old chosen.admitted.end
            (encode_group (committed (tx_at self chosen.slot).id.0 (self.assigned.0 + 1) (writes_of (tx_at self chosen.slot).redo))) }
    {
        let csn = Csn(self.assigned.0 + 1);
        let t = self.txs[chosen.slot];
        t.put_group(tail, chosen.admitted.end, csn);
        let u = t.precommit(csn);
        self.txs[chosen.slot] = u;
        self.assigned = csn;
        self
    }

    // Takes the transaction of a slot out of the list: the later ones move down, and the slot that falls free is all zero.
    pub(crate) fn drop_step(mut self, chosen: Chosen) -> Self
        requires { (chosen.slot < self.count) × (self.count ≤ max_txs) }
        ensures { result ≡ dropped_state self chosen.slot }
    {
        let n = self.count as usize;
        self.txs.copy_within(chosen.slot + 1..n, chosen.slot);
        self.txs[n - 1] = Tx::empty();
        self.count -= 1;
        self
    }

    pub(crate) fn abort_step(
        self,
        memory: &mut [u8; MEMORY_LEN],
        tail: &mut [u8],
        chosen: Chosen,
    ) -> Self
        requires slot_lt_count { (chosen.slot < self.count) × (self.count ≤ max_txs) }
        requires slot_value { (records_ok (ranges_of (tx_at self chosen.slot).undo.ranges) ≡ true) × (chosen.admitted.end + abort_len ≤ length tail.old) }
        ensures value { result ≡ dropped_state self chosen.slot }
        ensures memory_after { memory.new ≡ undo_all lay_bytes (writes_of (tx_at self chosen.slot).undo) memory.old }
        ensures tail_after { tail.new ≡ sets tail.old chosen.admitted.end (encode_group (aborted (tx_at self chosen.slot).id.0)) }
    {
        let t = self.txs[chosen.slot];
        let undo = t.undo;
        undo.lay_back(memory);
        put_abort(tail, chosen.admitted.end, t.id);
        self.drop_step(chosen)
    }
}
