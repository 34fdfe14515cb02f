// How many bytes a host has to reserve for each buffer.
ghost use Rattle.std.specs.Prelude.{◌≡◌};
ghost use Rattle.layout.specs.{memory_len, tail_len, disk_len};
ghost use Rattle.listing.specs.Listing.{text_len};

use layout::{DISK_LEN, MEMORY_LEN, TAIL_LEN};
use listing::TEXT_LEN;

#[unsafe(no_mangle)]
pub extern "C" fn luppaneth_disk_len() -> usize
    ensures { result ≡ disk_len }
{
    DISK_LEN
}

#[unsafe(no_mangle)]
pub extern "C" fn luppaneth_memory_len() -> usize
    ensures { result ≡ memory_len }
{
    MEMORY_LEN
}

#[unsafe(no_mangle)]
pub extern "C" fn luppaneth_tail_len() -> usize
    ensures { result ≡ tail_len }
{
    TAIL_LEN
}

#[unsafe(no_mangle)]
pub extern "C" fn luppaneth_text_len() -> usize
    ensures { result ≡ text_len }
{
    TEXT_LEN
}
