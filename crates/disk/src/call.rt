// The call that takes no state: restart.
ghost use Rattle.std.specs.Prelude.{◌-◌, min, ◌≡◌, length, take, drop, None};
ghost use Rattle.layout.specs.Refusal.{number_of};
ghost use Rattle.redolog.specs.Stop.{stop_of};
ghost use Rattle.redolog.specs.Stores.{apply, clears};
ghost use Rattle.disk.specs.Restart.{recovered_state, of_restarted, refused_restart, restart_of, stop_told, stopped_of};

use crate::examine::examine;
use layout::refusal::Refusal;
use layout::{DISK_LEN, LOG_LEN, LOG_START, MAX_TXS, MEMORY_LEN, TAIL_LEN};
use redolog::stop::{Stop, stop_at};
use redolog::stores::clear_down;
use redolog::{Csn, TxId};
use store::stored::cut_off;
use store::{Failure, State};
use transaction::Tx;

// How many transactions step 4 undid, and why the log ended where it did, before step 6 cleared it.
#[derive(Clone, Copy)]
pub struct Recovery {
    pub undone: usize,
    pub stop: Stop,
}

// Not done, the state is the unrecovered one.
#[derive(Clone, Copy)]
pub struct Restarted {
    pub state: State,
    pub result: Result<Recovery, Failure>,
    pub stores: usize,
}

// Step 5's state. "No transaction is left."
#[tactic(auto, unfolding(crate::specs::Restart::recovered_state))]
fn recovered(end: u16, csn: Csn, last: TxId) -> State
    ensures { result ≡ recovered_state end csn last }
{
    State {
        recovered: true,
        logend: end,
        ondisk: csn,
        assigned: csn,
        lastid: last,
        count: 0,
        txs: [Tx::empty(); MAX_TXS],
    }
}

// The stores that step 6 made, and why the log ended before it.
#[derive(Clone, Copy)]
struct Cleared {
    made: usize,
    stop: Stop,
}

// Step 6, as far as stores are allowed. What it clears is looked at first.
fn clear_log(log: &mut [u8], end: usize, allowed: usize) -> Cleared
    ensures stop_value { result.stop ≡ stop_of (drop end log.old) }
    ensures made_value { result.made ≡ min allowed (length (clears end (length log.old - end))) }
    ensures log_after { log.new ≡ apply (take allowed (clears end (length log.old - end))) log.old }
{
    let stop = stop_at(&*log, end);
    let made = clear_down(log, end, allowed);
    Cleared { made, stop }
}

fn refused(refusal: Refusal) -> Restarted
    ensures result_value { of_restarted result ≡ refused_restart (number_of refusal) }
    ensures stop_value { stop_told result.result ≡ None }
{
    Restarted {
        state: State::unrecovered(),
        result: Err(Failure::Refused(refusal)),
        stores: 0,
    }
}

// Of buffers that have their lengths.
fn restart_lent(
    disk: &mut [u8; DISK_LEN],
    memory: &mut [u8; MEMORY_LEN],
    tail: &mut [u8; TAIL_LEN],
    allowed: usize,
) -> Restarted
    ensures result_value { of_restarted result ≡ (restart_of disk.old memory.old tail.old allowed).result }
    ensures disk_after { disk.new ≡ (restart_of disk.old memory.old tail.old allowed).disk }
    ensures memory_after { memory.new ≡ (restart_of disk.old memory.old tail.old allowed).memory }
    ensures tail_after { tail.new ≡ (restart_of disk.old memory.old tail.old allowed).tail }
    ensures stop_value { stop_told result.result ≡ stopped_of disk.old memory.old tail.old allowed }
{
    let found = match examine(&*disk, memory, tail) {
        Ok(found) => found,
        Err(refusal) => return refused(refusal),
    };
    let end = found.end;
    let cleared = clear_log(&mut disk[LOG_START..LOG_START + LOG_LEN], end, allowed);
    let made = cleared.made;
    if made < LOG_LEN - end {
        let off = cut_off(memory, tail, made);
        return Restarted {
            state: off.state,
            result: Err(Failure::Cut),
            stores: made,
        };
    }
    Restarted {
        state: recovered(end as u16, found.csn, found.last),
        result: Ok(Recovery {
            undone: found.undone,
            stop: cleared.stop,
        }),
        stores: made,
    }
}

// A hint to LLVM: the state that is given back is copied twice less.
#[inline(always)]
pub fn restart(disk: &mut [u8], memory: &mut [u8], tail: &mut [u8], allowed: usize) -> Restarted
    ensures result_value { of_restarted result ≡ (restart_of disk.old memory.old tail.old allowed).result }
    ensures disk_after { disk.new ≡ (restart_of disk.old memory.old tail.old allowed).disk }
    ensures memory_after { memory.new ≡ (restart_of disk.old memory.old tail.old allowed).memory }
    ensures tail_after { tail.new ≡ (restart_of disk.old memory.old tail.old allowed).tail }
    ensures stop_value { stop_told result.result ≡ stopped_of disk.old memory.old tail.old allowed }
{
    let Some(disk) = disk.as_mut_array::<DISK_LEN>() else {
        return refused(Refusal::WrongLength);
    };
    let Some(memory) = memory.as_mut_array::<MEMORY_LEN>() else {
        return refused(Refusal::WrongLength);
    };
    let Some(tail) = tail.as_mut_array::<TAIL_LEN>() else {
        return refused(Refusal::WrongLength);
    };
    restart_lent(disk, memory, tail, allowed)
}
