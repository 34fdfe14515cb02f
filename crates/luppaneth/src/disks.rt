// Calls that a disk is lent to.
ghost use Rattle.std.specs.Prelude.{◌≡◌};
ghost use Rattle.store.specs.Flush.{flush_of};
ghost use Rattle.store.specs.Checkpoint.{checkpoint_of};
ghost use Rattle.disk.specs.Restart.{restart_of, stopped_of};
ghost use Rattle.disk.specs.Equal.{equal_of};
ghost use Rattle.listing.specs.Listing.{restart_whole, listing_of, Printed};
ghost use Rattle.luppaneth.specs.Reply.{reply_of, restart_reply};

use crate::{Reply, stop_number};
use disk::call::restart;
use disk::equal::equal;
use listing::{TEXT_LEN, list};
use store::State;

#[unsafe(no_mangle)]
pub extern "C" fn luppaneth_flush(
    state: State,
    disk: &mut [u8],
    memory: &mut [u8],
    tail: &mut [u8],
    groups: usize,
    allowed: usize,
) -> Reply
    ensures value { result ≡ reply_of (flush_of state disk.old memory.old tail.old groups allowed).result }
    ensures disk_after { disk.new ≡ (flush_of state disk.old memory.old tail.old groups allowed).disk }
    ensures memory_after { memory.new ≡ (flush_of state disk.old memory.old tail.old groups allowed).memory }
    ensures tail_after { tail.new ≡ (flush_of state disk.old memory.old tail.old groups allowed).tail }
{
    state.flush(disk, memory, tail, groups, allowed).into()
}

#[unsafe(no_mangle)]
pub extern "C" fn luppaneth_checkpoint(
    state: State,
    disk: &mut [u8],
    memory: &mut [u8],
    tail: &mut [u8],
    allowed: usize,
) -> Reply
    ensures value { result ≡ reply_of (checkpoint_of state disk.old memory.old tail.old allowed).result }
    ensures disk_after { disk.new ≡ (checkpoint_of state disk.old memory.old tail.old allowed).disk }
    ensures memory_after { memory.new ≡ (checkpoint_of state disk.old memory.old tail.old allowed).memory }
    ensures tail_after { tail.new ≡ (checkpoint_of state disk.old memory.old tail.old allowed).tail }
{
    state.checkpoint(disk, memory, tail, allowed).into()
}

#[unsafe(no_mangle)]
pub extern "C" fn luppaneth_restart(
    disk: &mut [u8],
    memory: &mut [u8],
    tail: &mut [u8],
    allowed: usize,
) -> Reply
    ensures value { result ≡ restart_reply (restart_of disk.old memory.old tail.old allowed).result (stopped_of disk.old memory.old tail.old allowed) }
    ensures disk_after { disk.new ≡ (restart_of disk.old memory.old tail.old allowed).disk }
    ensures memory_after { memory.new ≡ (restart_of disk.old memory.old tail.old allowed).memory }
    ensures tail_after { tail.new ≡ (restart_of disk.old memory.old tail.old allowed).tail }
{
    let r = restart(disk, memory, tail, allowed);
    match r.result {
        Ok(recovery) => Reply {
            stop: stop_number(recovery.stop),
            ..Reply::new(Ok(recovery.undone as u32), r.stores, r.state)
        },
        Err(failure) => Reply::new(Err(failure), r.stores, r.state),
    }
}

#[unsafe(no_mangle)]
pub extern "C" fn luppaneth_equal(a: &[u8], b: &[u8]) -> bool
    ensures { result ≡ equal_of a.now b.now }
{
    equal(a, b)
}

// Of a copy of a disk, which is restarted. The text goes to the front, zeros after it; its length is returned.
#[unsafe(no_mangle)]
pub extern "C" fn luppaneth_list(disk: &mut [u8], text: &mut [u8; TEXT_LEN]) -> usize
    ensures printed { Printed (listing_of disk.old) result text.new }
    ensures disk_after { disk.new ≡ (restart_whole disk.old).disk }
{
    list(disk, text)
}
