// The three log records.
ghost use Rattle.std.specs.Prelude.{◌≡◌, ◌+◌, ◌≤◌, ◌<◌, length};
ghost use Rattle.std.proofs.lemmas.List.Edits.{sets};
ghost use Rattle.layout.specs.{redo_len, commit_len, abort_len};
ghost use Rattle.redolog.specs.Record.{in_range, encode, redo, commit, abort, read_redo, read_commit, read_abort, read_record, head_of};
ghost use Rattle.redolog.specs.Stop.{stop_of};
ghost use Rattle.redolog.specs.declared.stop.Stop.TheVariants.{Torn};

use crate::number::{be16, be32, put16, put32};
use crate::stop::{Stop, stop_at};
use crate::stores::copy;
use crate::{Csn, TxId};
use layout::{ABORT, ABORT_LEN, COMMIT, COMMIT_LEN, MAX_WRITE, MEMORY_LEN, REDO, REDO_LEN};

// A record as read. The new bytes of a redo record are the len bytes at 6. A commit's number stands before its id: so a record has twelve bytes, and
// not eight, which LLVM would pack into one number and take apart again.
#[derive(Clone, Copy)]
pub enum Record {
    Redo { id: TxId, addr: u16, len: u8 },
    Commit { csn: Csn, id: TxId },
    Abort(TxId),
}

// The range rule of redo and undo records. Any two numbers may be asked about: nothing wraps.
pub fn in_range(addr: usize, len: usize) -> bool
    ensures { result ≡ in_range addr len }
{
    0 < len && len <= MAX_WRITE && addr <= MEMORY_LEN - len
}

// Of the three below: the rest of a record of this kind and id.
#[tactic(auto, unfolding(crate::specs::Record::read_redo))]
fn read_redo(s: &[u8], id: TxId) -> Result<Record, Stop>
    ensures { result ≡ head_of Torn (read_redo id.0 s.now) }
{
    if s.len() < REDO_LEN {
        return Err(Stop::Torn);
    }
    let len = s[5];
    let last = 6 + len as usize;
    if s.len() <= last {
        return Err(Stop::Torn);
    }
    if s[last] != REDO {
        return Err(Stop::Torn);
    }
    let addr = be16(s, 3);
    if !in_range(addr as usize, len as usize) {
        return Err(Stop::Torn);
    }
    Ok(Record::Redo { id, addr, len })
}

#[tactic(auto, unfolding(crate::specs::Record::read_commit))]
fn read_commit(s: &[u8], id: TxId) -> Result<Record, Stop>
    ensures { result ≡ head_of Torn (read_commit id.0 s.now) }
{
    if s.len() < COMMIT_LEN {
        return Err(Stop::Torn);
    }
    if s[7] != COMMIT {
        return Err(Stop::Torn);
    }
    let csn = be32(s, 3);
    Ok(Record::Commit { id, csn: Csn(csn) })
}

#[tactic(auto, unfolding(crate::specs::Record::read_abort))]
fn read_abort(s: &[u8], id: TxId) -> Result<Record, Stop>
    ensures { result ≡ head_of Torn (read_abort id.0 s.now) }
{
    if s.len() < ABORT_LEN {
        return Err(Stop::Torn);
    }
    if s[3] != ABORT {
        return Err(Stop::Torn);
    }
    Ok(Record::Abort(id))
}

// The well-formed record at the front of a slice, or why none stands there.
#[tactic(auto, using(crate::proofs::StopLaws::record_fronts), unfolding(crate::specs::Record::read_record))]
pub fn read_record(s: &[u8]) -> Result<Record, Stop>
    ensures { result ≡ head_of (stop_of s.now) (read_record s.now) }
{
    // An abort is the shortest.
    if s.len() < ABORT_LEN {
        return Err(stop_at(s, 0));
    }
    let kind = s[0];
    if kind == 0 {
        return Err(Stop::Zero);
    }
    let id = be16(s, 1);
    if id == 0 {
        return Err(Stop::Torn);
    }
    match kind {
        REDO => read_redo(s, TxId(id)),
        COMMIT => read_commit(s, TxId(id)),
        ABORT => read_abort(s, TxId(id)),
        _ => Err(Stop::Torn),
    }
}

#[tactic(auto, using(crate::proofs::StoreLaws::redo_stores))]
pub(crate) fn put_redo(b: &mut [u8], at: usize, id: TxId, addr: u16, src: &[u8])
    requires src_len_bound { length src.now < 256 }
    requires src_in_bounds { at + (redo_len + length src.now) ≤ length b.old }
    ensures { b.new ≡ sets b.old at (encode (redo id.0 (record { addr = addr; bytes = src.now }))) }
{
    b[at] = REDO;
    put16(b, at + 1, id.0);
    put16(b, at + 3, addr);
    b[at + 5] = src.len() as u8;
    copy(b, at + 6, src);
    b[at + 6 + src.len()] = REDO;
}

pub(crate) fn put_commit(b: &mut [u8], at: usize, id: TxId, csn: Csn)
    requires { at + commit_len ≤ length b.old }
    ensures { b.new ≡ sets b.old at (encode (commit id.0 csn.0)) }
{
    b[at] = COMMIT;
    put16(b, at + 1, id.0);
    put32(b, at + 3, csn.0);
    b[at + 7] = COMMIT;
}

pub fn put_abort(b: &mut [u8], at: usize, id: TxId)
    requires { at + abort_len ≤ length b.old }
    ensures { b.new ≡ sets b.old at (encode (abort id.0)) }
{
    b[at] = ABORT;
    put16(b, at + 1, id.0);
    b[at + 3] = ABORT;
}
