// Flush: the first groups of the tail go to the log's end on disk.
ghost use Rattle.std.specs.Prelude.{◌≡◌, ◌+◌, ◌≤◌};
ghost use Rattle.layout.specs.{log_len};
ghost use Rattle.store.specs.Answer.{of_stored};
ghost use Rattle.store.specs.Flush.{with_log, flush_of};

use crate::State;
use crate::stored::{Stored, cut_off, refused};
use layout::{LOG_LEN, LOG_START};
use redolog::Csn;
use redolog::scan::read_first;
use redolog::stores::{copy_up, shift_down};

impl State {
    // n bytes more in the log, and the last commit number on disk.
    pub(crate) fn flush_step(mut self, n: usize, csn: Csn) -> Self
        requires { self.logend + n ≤ log_len }
        ensures { result ≡ with_log self (self.logend + n) csn }
    {
        self.logend = self.logend + n as u16;
        self.ondisk = csn;
        self
    }

    pub fn flush(
        mut self,
        disk: &mut [u8],
        memory: &mut [u8],
        tail: &mut [u8],
        k: usize,
        allowed: usize,
    ) -> Stored
        ensures result_value { of_stored result ≡ (flush_of self disk.old memory.old tail.old k allowed).result }
        ensures disk_after { disk.new ≡ (flush_of self disk.old memory.old tail.old k allowed).disk }
        ensures memory_after { memory.new ≡ (flush_of self disk.old memory.old tail.old k allowed).memory }
        ensures tail_after { tail.new ≡ (flush_of self disk.old memory.old tail.old k allowed).tail }
    {
        let admitted = match self.extents().admit_disk(disk.len(), memory.len(), &*tail) {
            Ok(admitted) => admitted,
            Err(refusal) => return refused(refusal, self),
        };
        let first = read_first(&*tail, self.ondisk, k);
        let size = first.end;
        if size == 0 {
            return Stored {
                state: self,
                result: Ok(()),
                stores: 0,
            };
        }
        let end = self.logend as usize;
        let stores = copy_up(
            &mut disk[LOG_START..LOG_START + LOG_LEN],
            end,
            &tail[..size],
            allowed,
        );
        if stores < size {
            return cut_off(memory, tail, stores);
        }
        // From the end that admission found on stand zeros, which stay.
        let used = admitted.end;
        shift_down(&mut tail[..used], size);
        let s = self.flush_step(size, first.csn);
        Stored {
            state: s,
            result: Ok(()),
            stores,
        }
    }
}
