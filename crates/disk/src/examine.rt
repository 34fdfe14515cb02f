// What a disk means: restart's steps 1 to 5. Nothing is stored.
ghost use Rattle.std.specs.Prelude.{◌≡◌};
ghost use Rattle.disk.specs.Examine.{examine_of};
ghost use Rattle.disk.specs.Heads.{examined_by, JudgedAs};

use crate::open::open;
use layout::refusal::Refusal;
use layout::{ABORT_LEN, DISK_LEN, LOG_LEN, MEMORY_LEN, TAIL_LEN};
use redolog::stores::fill_zero;
use restart::undo::put_aborts;
use restart::{Recovered, Replayed, recover};

// All but the tail; the end is counted from the log's first byte. What memory held doesn't matter.
pub fn judge(disk: &[u8; DISK_LEN], memory: &mut [u8; MEMORY_LEN]) -> Result<Replayed, Refusal>
    ensures judged_as { JudgedAs result (examine_of disk.now) }
    ensures memory_after { memory.new ≡ (examine_of disk.now).memory }
{
    let opened = open(disk, memory)?;
    let heads = opened.heads;
    let mut replayed = recover(heads, opened.txs, opened.log, memory);
    let end = heads.counters.logend as usize + replayed.answer.end;
    if LOG_LEN < end + ABORT_LEN * replayed.answer.undone {
        fill_zero(memory);
        return Err(Refusal::NoRoomToUndo);
    }
    replayed.answer.end = end;
    Ok(replayed)
}

// What memory and tail held doesn't matter.
pub(crate) fn examine(
    disk: &[u8; DISK_LEN],
    memory: &mut [u8; MEMORY_LEN],
    tail: &mut [u8; TAIL_LEN],
) -> Result<Recovered, Refusal>
    ensures value { examined_by result ≡ (examine_of disk.now).result }
    ensures memory_after { memory.new ≡ (examine_of disk.now).memory }
    ensures tail_after { tail.new ≡ (examine_of disk.now).tail }
{
    fill_zero(tail);
    let replayed = judge(disk, memory)?;
    let found = replayed.answer;
    put_aborts(&replayed.ids[..found.undone], tail);
    Ok(found)
}
