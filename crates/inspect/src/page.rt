// One page of the pattern (document 02, A.6, where it is called a drawer), as a restart with stores enough would leave it.
ghost use Rattle.std.specs.Prelude.{◌≡◌};
ghost use Rattle.store.specs.Answer.{says};
ghost use Rattle.inspect.specs.Page.{page_of};

use disk::examine::judge;
use layout::refusal::Refusal;
use layout::{DISK_LEN, MEMORY_LEN, PAGE_LEN, PAGES};
use redolog::stores::fill_zero;

// The buffer becomes the page of that number, counted from 0.
pub fn read_page(disk: &[u8], buffer: &mut [u8], page: usize) -> Result<(), Refusal>
    ensures result_value { says result ≡ (page_of disk.now buffer.old page).says }
    ensures buffer_after { buffer.new ≡ (page_of disk.now buffer.old page).buffer }
{
    let Some(disk) = disk.as_array::<DISK_LEN>() else {
        return Err(Refusal::WrongLength);
    };
    if buffer.len() != PAGE_LEN {
        return Err(Refusal::WrongLength);
    }
    if PAGES <= page {
        return Err(Refusal::BadPage);
    }
    let mut memory = [0u8; MEMORY_LEN];
    if let Err(refusal) = judge(disk, &mut memory) {
        fill_zero(buffer);
        return Err(refusal);
    }
    let at = page * PAGE_LEN;
    buffer.copy_from_slice(&memory[at..at + PAGE_LEN]);
    Ok(())
}
