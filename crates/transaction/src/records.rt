// The undo or redo records of a transaction in flat arrays.
ghost use Rattle.std.specs.Prelude.{◌≡◌, true, ◌≤◌, ◌<◌, length};
ghost use Rattle.layout.specs.{memory_len, max_records, max_write};
ghost use Rattle.recovery.specs.Replay.{undo_all, lay_bytes};
ghost use Rattle.transaction.specs.Flat.{empty_records};
ghost use Rattle.transaction.specs.View.{ranges_of, writes_of};
ghost use Rattle.transaction.specs.Rules.{records_ok};
ghost use Rattle.transaction.specs.Steps.{pushed};

use crate::ranges::Ranges;
use layout::{MAX_RECORDS, MAX_WRITE, MEMORY_LEN};
use redolog::stores::copy;

// Undo or redo records, oldest first: the i-th has its range's bytes from MAX_WRITE * i on. Laid out as C does it.
#[repr(C)]
#[derive(Clone, Copy)]
pub struct Records {
    pub ranges: Ranges,
    pub bytes: [u8; MAX_RECORDS * MAX_WRITE],
}

impl Records {
    pub fn empty() -> Self
        ensures { result ≡ empty_records }
    {
        Records {
            ranges: Ranges::empty(),
            bytes: [0; MAX_RECORDS * MAX_WRITE],
        }
    }

    // One record more. The bytes go where they stand: the 512 are not taken out and back.
    pub fn push(mut self, addr: u16, src: &[u8]) -> Self
        requires { (length src.now ≤ max_write) × (self.ranges.count < max_records) }
        ensures { result ≡ pushed self addr src.now }
    {
        let from = self.ranges.count as usize * MAX_WRITE;
        self.bytes[from..from + src.len()].copy_from_slice(src);
        self.ranges = self.ranges.push(addr, src.len() as u8);
        self
    }

    // Lays the records into memory, the newest first.
    pub fn lay_back(self, memory: &mut [u8; MEMORY_LEN])
        requires { records_ok (ranges_of self.ranges) ≡ true }
        ensures { memory.new ≡ undo_all lay_bytes (writes_of self) memory.old }
    {
        let ranges = self.ranges;
        for k in (0..ranges.count as usize).rev() {
            let from = k * MAX_WRITE;
            copy(
                memory,
                ranges.addr[k] as usize,
                &self.bytes[from..from + ranges.len[k] as usize],
            );
        }
    }
}
