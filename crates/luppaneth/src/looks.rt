// Calls that look at a disk without a state. They store nothing on it.
ghost use Rattle.std.specs.Prelude.{◌≡◌};
ghost use Rattle.inspect.specs.Groups.{first_groups_of, of_applied};
ghost use Rattle.inspect.specs.Page.{page_of};
ghost use Rattle.inspect.specs.Outcomes.{outcomes_of, of_walked};
ghost use Rattle.luppaneth.specs.Reply.{number_of};
ghost use Rattle.luppaneth.specs.Looks.{groups_reply, outcomes_reply};

use crate::{DONE, REFUSED};
use inspect::groups::first_groups;
use inspect::outcomes::outcomes;
use inspect::page::read_page;
use layout::refusal::Refusal;
use redolog::scan::Reached;

// answer and number as in `Reply`. csn and end: the last commit number and the log's end reached; 0 where refused.
#[repr(C)]
#[derive(Clone, Copy)]
pub struct GroupsReply {
    pub answer: u8,
    pub number: u8,
    pub csn: u32,
    pub end: usize,
}

impl From<Result<Reached, Refusal>> for GroupsReply {
    ghost from_gives = { λ r reply. reply ≡ groups_reply (of_applied r) };

    fn from(told: Result<Reached, Refusal>) -> GroupsReply {
        match told {
            Ok(reached) => GroupsReply {
                answer: DONE,
                number: 0,
                csn: reached.csn.0,
                end: reached.end,
            },
            Err(refusal) => GroupsReply {
                answer: REFUSED,
                number: refusal.number(),
                csn: 0,
                end: 0,
            },
        }
    }
}

#[unsafe(no_mangle)]
pub extern "C" fn luppaneth_first_groups(
    disk: &[u8],
    memory: &mut [u8],
    groups: usize,
) -> GroupsReply
    ensures value { result ≡ groups_reply (first_groups_of disk.now memory.old groups).result }
    ensures memory_after { memory.new ≡ (first_groups_of disk.now memory.old groups).memory }
{
    first_groups(disk, memory, groups).into()
}

// The number that refuses, 0 where it is done.
#[unsafe(no_mangle)]
pub extern "C" fn luppaneth_read_page(disk: &[u8], buffer: &mut [u8], page: usize) -> u8
    ensures value { result ≡ number_of (page_of disk.now buffer.old page).says }
    ensures buffer_after { buffer.new ≡ (page_of disk.now buffer.old page).buffer }
{
    match read_page(disk, buffer, page) {
        Ok(()) => 0,
        Err(refusal) => refusal.number(),
    }
}

// answer and number as in `Reply`. groups: those of the log, which were walked; 0 where refused.
#[repr(C)]
#[derive(Clone, Copy)]
pub struct OutcomesReply {
    pub answer: u8,
    pub number: u8,
    pub groups: usize,
}

impl From<Result<usize, Refusal>> for OutcomesReply {
    ghost from_gives = { λ r reply. reply ≡ outcomes_reply (of_walked r) };

    fn from(told: Result<usize, Refusal>) -> OutcomesReply {
        match told {
            Ok(groups) => OutcomesReply {
                answer: DONE,
                number: 0,
                groups,
            },
            Err(refusal) => OutcomesReply {
                answer: REFUSED,
                number: refusal.number(),
                groups: 0,
            },
        }
    }
}

#[unsafe(no_mangle)]
pub extern "C" fn luppaneth_outcomes(disk: &[u8], ids: &[u16], out: &mut [u8]) -> OutcomesReply
    ensures value { result ≡ outcomes_reply (outcomes_of disk.now ids.now out.old).result }
    ensures out_after { out.new ≡ (outcomes_of disk.now ids.now out.old).outcomes }
{
    outcomes(disk, ids, out).into()
}
