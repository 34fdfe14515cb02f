// The first groups of the log (document 02, A.3): memory as it is on the way through restart's step 3.
ghost use Rattle.std.specs.Prelude.{◌≡◌};
ghost use Rattle.inspect.specs.Groups.{of_applied, first_groups_of};

use disk::open::open;
use layout::refusal::Refusal;
use layout::{DISK_LEN, MEMORY_LEN};
use redolog::scan::Reached;
use restart::forward::forward;

// Memory becomes what it is after the first groups, or all if fewer. The end reached is counted from the log's first byte.
pub fn first_groups(disk: &[u8], memory: &mut [u8], groups: usize) -> Result<Reached, Refusal>
    ensures result_value { of_applied result ≡ (first_groups_of disk.now memory.old groups).result }
    ensures memory_after { memory.new ≡ (first_groups_of disk.now memory.old groups).memory }
{
    let Some(disk) = disk.as_array::<DISK_LEN>() else {
        return Err(Refusal::WrongLength);
    };
    let Some(memory) = memory.as_mut_array::<MEMORY_LEN>() else {
        return Err(Refusal::WrongLength);
    };
    let opened = open(disk, memory)?;
    let heads = opened.heads;
    let p = forward(heads, opened.txs, opened.log, groups, memory);
    Ok(Reached {
        end: heads.counters.logend as usize + p.end,
        csn: p.csn,
    })
}
