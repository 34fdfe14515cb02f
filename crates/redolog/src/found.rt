// The first commit number of a log, as found (document 02, A.9).
ghost use Rattle.std.specs.Prelude.{◌≡◌};
ghost use Rattle.redolog.specs.Found.{found_number, or_one};

use crate::record::{Record, read_record};
use layout::{ABORT_LEN, REDO_LEN};

// That of the first commit record among the records that stand one after the other at the front of s; 1 if none is there.
pub fn found_number(s: &[u8]) -> u64
    ensures { result ≡ or_one (found_number s.now) }
{
    let mut at: usize = 0;
    // Each record has its own length, and no iterator steps by what it reads.
    while let Ok(record) = read_record(&s[at..]) {
        match record {
            Record::Redo { len, .. } => {
                at += REDO_LEN + len as usize;
            }
            Record::Commit { csn, .. } => {
                return csn.0 as u64;
            }
            Record::Abort(_) => {
                at += ABORT_LEN;
            }
        }
    }
    1
}
