// The log: its groups one after the other, up to the first offset where no whole group stands.
ghost use Rattle.std.specs.Prelude.{◌≡◌, take};
ghost use Rattle.redolog.specs.Log.{read_log, reached_of, log_end_of};

use crate::Csn;
use crate::group::{GroupEnd, read_group};
use crate::stop::{Stop, stop_at};

// Where the first groups of a log end, and the last commit number.
#[derive(Clone, Copy)]
pub struct Reached {
    pub end: usize,
    pub csn: Csn,
}

// Where a log ends, its last commit number, and why it ends there.
#[derive(Clone, Copy)]
pub struct LogEnd {
    pub end: usize,
    pub csn: Csn,
    pub stop: Stop,
}

// The first k groups, or all if fewer. prev is the commit number before the log's first group.
pub fn read_first(s: &[u8], prev: Csn, k: usize) -> Reached
    ensures { result ≡ reached_of prev.0 (take k (read_log prev.0 s.now)) }
{
    let mut at: usize = 0;
    let mut csn = prev;
    for _ in 0..k {
        let Ok(found) = read_group(&s[at..], csn) else {
            break;
        };
        match found {
            GroupEnd::Aborted { end, .. } => {
                at += end;
            }
            GroupEnd::Committed { csn: n, end, .. } => {
                at += end;
                csn = n;
            }
        }
    }
    Reached { end: at, csn }
}

// The whole log: it can't have more groups than bytes.
#[tactic(auto, using(crate::proofs::LogLaws::log_whole), unfolding(crate::specs::Log::log_stop))]
pub fn read_log(s: &[u8], prev: Csn) -> LogEnd
    ensures { result ≡ log_end_of prev.0 s.now }
{
    let Reached { end, csn } = read_first(s, prev, s.len());
    let stop = stop_at(s, end);
    LogEnd { end, csn, stop }
}
