// Groups: an abort, or the redo records of one transaction and their commit.
ghost use Rattle.std.specs.Prelude.{◌≡◌, ℕ, ◌+◌, ◌*◌, ◌≤◌, ◌<◌, length, get_or};
ghost use Rattle.std.proofs.lemmas.List.Edits.{sets};
ghost use Rattle.layout.specs.{kind_commit, max_write};
ghost use Rattle.recovery.specs.Group.{group_size, committed};
ghost use Rattle.redolog.specs.Number.{be16};
ghost use Rattle.redolog.specs.Group.{encode_group, read_body, committed_if, group_with, read_group, end_of};
ghost use Rattle.redolog.specs.Stop.{stop_of};
ghost use Rattle.redolog.specs.Flat.{writes_from};

use crate::number::{be16, be32};
use crate::record::{Record, put_commit, put_redo, read_record};
use crate::stop::{Stop, stop_at};
use crate::{Csn, TxId};
use layout::{ABORT, ABORT_LEN, COMMIT, COMMIT_LEN, MAX_WRITE, REDO_LEN};

// A whole group as read, and where it ends.
#[derive(Clone, Copy)]
pub enum GroupEnd {
    Aborted { id: TxId, end: usize },
    Committed { id: TxId, csn: Csn, end: usize },
}

// The redo records of this id at the front of s, and their commit.
// A hint to LLVM: an abort is read without the registers that this takes.
#[inline(never)]
fn read_body(s: &[u8], id: TxId, next: u64) -> Result<GroupEnd, Stop>
    ensures { result ≡ end_of (stop_of s.now) (committed_if id.0 next (read_body next id.0 s.now)) }
{
    let mut at: usize = 0;
    // Each record has its own length, and no iterator steps by what it reads.
    while let Ok(record) = read_record(&s[at..]) {
        match record {
            Record::Redo { id: r, len, .. } => {
                if r != id {
                    return Err(Stop::Torn);
                }
                at += REDO_LEN + len as usize;
            }
            Record::Commit { id: c, csn } => {
                if c != id {
                    return Err(Stop::Torn);
                }
                if csn.0 as u64 != next {
                    return Err(Stop::Torn);
                }
                return Ok(GroupEnd::Committed {
                    id,
                    csn,
                    end: at + COMMIT_LEN,
                });
            }
            Record::Abort(_) => {
                return Err(Stop::Torn);
            }
        }
    }
    // After whole records it is torn, whatever follows them.
    if at != 0 {
        return Err(Stop::Torn);
    }
    Err(stop_at(s, 0))
}

// The group of this id at the front of s, which begins with a commit: no redo record is in it.
#[inline(always)]
#[tactic(auto, using(crate::proofs::GroupLaws::lone_fronts))]
fn read_lone(s: &[u8], id: TxId, next: u64) -> Result<GroupEnd, Stop>
    requires { (get_or s.now 0 0 ≡ kind_commit) × (be16 s.now 1 ≡ id.0) }
    ensures { result ≡ end_of (stop_of s.now) (group_with next s.now) }
{
    if id == TxId(0) {
        return Err(Stop::Torn);
    }
    if s.len() < COMMIT_LEN {
        return Err(Stop::Torn);
    }
    if s[7] != COMMIT {
        return Err(Stop::Torn);
    }
    let csn = be32(s, 3);
    if csn as u64 != next {
        return Err(Stop::Torn);
    }
    Ok(GroupEnd::Committed {
        id,
        csn: Csn(csn),
        end: COMMIT_LEN,
    })
}

// next is the commit number expected. Behind the highest one it is 2^32, which no commit has.
// A hint to LLVM: a log can have thousands of aborts, and of commits alone, each told without a call then.
#[inline(always)]
#[tactic(auto, using(crate::proofs::GroupLaws::group_fronts))]
pub fn read_next(s: &[u8], next: u64) -> Result<GroupEnd, Stop>
    ensures { result ≡ end_of (stop_of s.now) (group_with next s.now) }
{
    // An abort is the shortest.
    if s.len() < ABORT_LEN {
        return Err(stop_at(s, 0));
    }
    let id = be16(s, 1);
    if s[0] == COMMIT {
        return read_lone(s, TxId(id), next);
    }
    if s[0] != ABORT {
        return read_body(s, TxId(id), next);
    }
    if id == 0 {
        return Err(Stop::Torn);
    }
    if s[3] != ABORT {
        return Err(Stop::Torn);
    }
    Ok(GroupEnd::Aborted {
        id: TxId(id),
        end: ABORT_LEN,
    })
}

// prev is the commit number before the group.
#[tactic(auto, unfolding(crate::specs::Group::read_group))]
pub fn read_group(s: &[u8], prev: Csn) -> Result<GroupEnd, Stop>
    ensures { result ≡ end_of (stop_of s.now) (read_group prev.0 s.now) }
{
    read_next(s, prev.0 as u64 + 1)
}

// Writes the group of the first n redo records of these arrays and their commit. The i-th record has the len[i] bytes from MAX_WRITE * i on.
// Parallel arrays and a count, since a transaction's records are laid out as C does it.
pub fn put_group(
    b: &mut [u8],
    at: usize,
    id: TxId,
    csn: Csn,
    n: usize,
    addr: &[u16],
    len: &[u8],
    bytes: &[u8],
)
    requires n_in_bounds { (n ≤ length addr.now) × (n ≤ length len.now) × (n * max_write ≤ length bytes.now) }
    requires by_index { (k : ℕ) → k < n → get_or len.now k 0 ≤ max_write }
    requires n_in_bounds_2 { at + group_size (committed id.0 csn.0 (writes_from addr.now len.now bytes.now n 0)) ≤ length b.old }
    ensures { b.new
        ≡ sets b.old at (encode_group (committed id.0 csn.0 (writes_from addr.now len.now bytes.now n 0))) }
{
    let mut o = at;
    for i in 0..n {
        let l = len[i] as usize;
        let from = i * MAX_WRITE;
        put_redo(b, o, id, addr[i], &bytes[from..from + l]);
        o += REDO_LEN + l;
    }
    put_commit(b, o, id, csn);
}
