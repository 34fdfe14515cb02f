// Equal in meaning.
ghost use Rattle.std.specs.Prelude.{◌≡◌};
ghost use Rattle.disk.specs.Equal.{same_bytes, equal_of};

use crate::examine::judge;
use layout::{DISK_LEN, MEMORY_LEN};

// An or over all differences instead of a stop at the first: it runs in wide registers.
fn same(a: &[u8; MEMORY_LEN], b: &[u8; MEMORY_LEN]) -> bool
    ensures { result ≡ same_bytes a.now b.now }
{
    let mut seen: u8 = 0;
    for (x, y) in a.iter().zip(b) {
        seen |= *x ^ *y;
    }
    seen == 0
}

pub fn equal(a: &[u8], b: &[u8]) -> bool
    ensures { result ≡ equal_of a.now b.now }
{
    let Some(a) = a.as_array::<DISK_LEN>() else {
        return false;
    };
    let Some(b) = b.as_array::<DISK_LEN>() else {
        return false;
    };
    let mut memory = [0u8; MEMORY_LEN];
    let mut other = [0u8; MEMORY_LEN];
    if judge(a, &mut memory).is_err() {
        return false;
    }
    if judge(b, &mut other).is_err() {
        return false;
    }
    same(&memory, &other)
}
