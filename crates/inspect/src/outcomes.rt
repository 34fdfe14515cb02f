// Which transactions went through (document 02, A.8): of a list of ids, by one walk over the log from its first byte.
ghost use Rattle.std.specs.Prelude.{true, ◌≡◌, ◌≤◌, length};
ghost use Rattle.redolog.specs.Log.{read_log_with};
ghost use Rattle.inspect.specs.Outcomes.{rising, of_walked, outcomes_of};
ghost use Rattle.inspect.specs.Walk.{FoundAs, noted_in, group_at, passed_by, walked_over};

use layout::refusal::Refusal;
use layout::{DISK_LEN, LOG_LEN, LOG_START};
use redolog::TxId;
use redolog::group::{GroupEnd, read_next};
use redolog::stores::fill_zero;

// What an id's last group is. No group: 0. Numbers, since they are the bytes of a list that C lends.
pub const COMMITTED: u8 = 1;

pub const ABORTED: u8 = 2;

// Where the walk is in the log, the commit number expected there, and the groups walked so far.
#[derive(Clone, Copy)]
struct Walk {
    at: usize,
    next: u64,
    groups: usize,
}

// A group of the walk: its id, its outcome, and where the walk is behind it.
#[derive(Clone, Copy)]
struct Passed {
    id: TxId,
    outcome: u8,
    walk: Walk,
}

// How many pairs of neighbours are compared before the answer is looked at.
const PART: usize = 64;

// Without a branch for each id: LLVM compares several of them at a time.
fn part_rises(part: &[u16]) -> bool
    ensures { result ≡ rising part.now }
{
    let mut rises = true;
    for i in 1..part.len() {
        rises &= part[i - 1] < part[i];
    }
    rises
}

// By parts, each of which begins with the last id of the one before it. A list can have 65,535 ids.
fn is_rising(ids: &[u16]) -> bool
    ensures { result ≡ rising ids.now }
{
    let mut at: usize = 0;
    while at + PART < ids.len() {
        if !part_rises(&ids[at..at + PART + 1]) {
            return false;
        }
        at += PART;
    }
    ids[at..].is_sorted_by(|a, b| *a < *b)
}

// By halves: the list is rising. No `binary_search`: it goes on to the end, also where it has met the id on the way.
fn find(ids: &[u16], id: u16) -> Option<usize>
    requires { rising ids.now ≡ true }
    ensures { FoundAs ids.now id result }
{
    let mut low: usize = 0;
    let mut high = ids.len();
    while low < high {
        let middle = low + (high - low) / 2;
        let here = ids[middle];
        if here == id {
            return Some(middle);
        }
        if here < id {
            low = middle + 1;
        } else {
            high = middle;
        }
    }
    None
}

// A group of this id: its outcome takes the place of an earlier one.
fn note(ids: &[u16], out: &mut [u8], id: TxId, outcome: u8)
    requires { (rising ids.now ≡ true) × (length out.old ≡ length ids.now) }
    ensures { out.new ≡ noted_in ids.now id.0 outcome out.old }
{
    if let Some(i) = find(ids, id.0) {
        out[i] = outcome;
    }
}

// The group that stands where w is, if one does.
fn step(log: &[u8], w: Walk) -> Option<Passed>
    requires { (w.at ≤ length log.now) × (w.groups ≤ w.at) }
    ensures { result ≡ passed_by (group_at log.now w) w }
{
    let Ok(group) = read_next(&log[w.at..], w.next) else {
        return None;
    };
    let (id, outcome, end, next) = match group {
        GroupEnd::Aborted { id, end } => (id, ABORTED, end, w.next),
        GroupEnd::Committed { id, csn, end } => (id, COMMITTED, end, csn.0 as u64 + 1),
    };
    Some(Passed {
        id,
        outcome,
        walk: Walk {
            at: w.at + end,
            next,
            groups: w.groups + 1,
        },
    })
}

// The groups of the log, which is walked once. next is its first commit number.
fn walk_log(log: &[u8], next: u64, ids: &[u16], out: &mut [u8]) -> usize
    requires { (rising ids.now ≡ true) × (length out.old ≡ length ids.now) }
    ensures value { result ≡ length (read_log_with next log.now) }
    ensures out_after { out.new ≡ walked_over ids.now (read_log_with next log.now) out.old }
{
    let mut w = Walk {
        at: 0,
        next,
        groups: 0,
    };
    // A group has its own length, and no iterator steps by what it reads.
    while let Some(group) = step(log, w) {
        note(ids, out, group.id, group.outcome);
        w = group.walk;
    }
    w.groups
}

// Each outcome is that of the id in its place. Returns the groups walked.
pub fn outcomes(disk: &[u8], ids: &[u16], out: &mut [u8]) -> Result<usize, Refusal>
    ensures result_value { of_walked result ≡ (outcomes_of disk.now ids.now out.old).result }
    ensures out_after { out.new ≡ (outcomes_of disk.now ids.now out.old).outcomes }
{
    if disk.len() != DISK_LEN {
        return Err(Refusal::WrongLength);
    }
    if ids.len() != out.len() {
        return Err(Refusal::BadList);
    }
    if !is_rising(ids) {
        return Err(Refusal::BadList);
    }
    fill_zero(out);
    let groups = walk_log(&disk[LOG_START..LOG_START + LOG_LEN], 1, ids, out);
    Ok(groups)
}
