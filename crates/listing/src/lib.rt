// disklist's text: what restart finds on a disk (document 01, "Program disklist").
#![tactic(auto)]

mod lines;

ghost use Rattle.std.specs.Prelude.{◌++◌, ◌≡◌, take, drop};
ghost use Rattle.layout.specs.Parts.{pointer_of};
ghost use Rattle.listing.specs.Listing.{restart_whole, listing_of, Printed, PrintedWhole};

use crate::lines::{put_found, put_line, put_stop};
use disk::call::restart;
use layout::{DISK_LEN, LOG_LEN, MEMORY_LEN, TAIL_LEN};
use redolog::stores::fill_zero;
use store::Failure;

// Bytes of a text: the longest has 68.
pub const TEXT_LEN: usize = 80;

// 0 of no bytes at all, which restart refuses.
fn pointer_of(disk: &[u8]) -> u8
    ensures { result ≡ pointer_of disk.now }
{
    disk.first().copied().unwrap_or(0)
}

// Runs restart on the copy that is lent, with stores enough. The text goes to the front of out, zeros after it; its length is returned.
pub fn list(disk: &mut [u8], out: &mut [u8; TEXT_LEN]) -> usize
    ensures printed { Printed (listing_of disk.old) result out.new }
    ensures disk_after { disk.new ≡ (restart_whole disk.old).disk }
{
    let pointer = pointer_of(&*disk);
    let mut memory = [0u8; MEMORY_LEN];
    let mut tail = [0u8; TAIL_LEN];
    let found = restart(disk, &mut memory, &mut tail, LOG_LEN);
    fill_zero(out);
    match found.result {
        Ok(recovery) => {
            let at = put_found(out, pointer, found.state, recovery.undone);
            put_stop(out, at, recovery.stop)
        }
        Err(Failure::Refused(refusal)) => put_line(out, 0, b"refused=", refusal.number() as u32),
        // No log has more places than that.
        Err(Failure::Cut) => unreachable!(),
    }
}

// The text of the first count bytes, or of all if there are fewer.
fn list_front(buffer: &mut [u8], count: usize, out: &mut [u8; TEXT_LEN]) -> usize
    ensures printed { Printed (listing_of (take count buffer.old)) result out.new }
    ensures buffer_after { buffer.new ≡ (restart_whole (take count buffer.old)).disk ++ drop count buffer.old }
{
    if buffer.len() <= count {
        return list(buffer, out);
    }
    list(&mut buffer[..count], out)
}

// One byte more than a disk has, so that an input too long is seen to be one: a shorter buffer would not keep `list_input`'s first promise.
pub const INPUT_LEN: usize = DISK_LEN + 1;

// The text of a whole input, of which count bytes were read into the front of the buffer.
pub fn list_input(buffer: &mut [u8; INPUT_LEN], count: usize, out: &mut [u8; TEXT_LEN]) -> usize
    ensures printed_whole { PrintedWhole buffer.old count result out.new }
    ensures printed { Printed (listing_of (take count buffer.old)) result out.new }
    ensures buffer_after { buffer.new ≡ (restart_whole (take count buffer.old)).disk ++ drop count buffer.old }
{
    list_front(buffer, count, out)
}
