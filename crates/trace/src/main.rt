// trace: a stream of calls on standard input, 64 bytes each; after each call one line of what it answered and left (docs/STREAM.md).
#![tactic(auto)]

ghost use Rattle.std.specs.Prelude.{◌≡◌};
ghost use Rattle.std.proofs.lemmas.List.Edits.{sets};

use disk::call::restart;
use disk::equal::equal;
use inspect::groups::first_groups;
use inspect::outcomes::outcomes;
use inspect::page::read_page;
use layout::{DISK_LEN, MEMORY_LEN, PAGE_LEN, TAIL_LEN};
use redolog::stores::copy;
use report::call::Call;
use report::line::{Report, Verdict, adler, print_line, print_unknown};
use report::record::{IDS, RECORD_LEN, Record, data_of, ids_count, ids_of, read_record};
use std::io;
use std::io::{Read, Write};
use store::State;

// What the stream fills a buffer with before a call looks at it.
const FILLED: u8 = 165;

// Stores the bytes of src from an offset on, those that lie within dst: `sets` leaves out what is past the end.
#[tactic(auto, using(crate::proofs::PastEnd::sets_out, crate::proofs::PastEnd::sets_room))]
fn lay(dst: &mut [u8], at: usize, src: &[u8])
    ensures { dst.new ≡ sets dst.old at src.now }
{
    if dst.len() <= at {
        return;
    }
    let room = src.len().min(dst.len() - at);
    copy(dst, at, &src[..room]);
}

// What the calls of a stream work on, and the copy of the disk that the stream keeps.
#[derive(Clone, Copy)]
struct Store {
    disk: [u8; DISK_LEN],
    kept: [u8; DISK_LEN],
    memory: [u8; MEMORY_LEN],
    tail: [u8; TAIL_LEN],
    state: State,
}

impl Store {
    // The current fails between two calls.
    fn power_fails(&mut self) -> Report {
        self.memory = [FILLED; MEMORY_LEN];
        self.tail = [FILLED; TAIL_LEN];
        Report::done(State::unrecovered())
    }

    // The first groups; value and stores are the end and the number reached. The line's memory is the buffer lent.
    fn first_groups<W: Write>(&self, to: &mut W, r: Record) -> io::Result<()> {
        let mut seen = [FILLED; MEMORY_LEN];
        let out = match first_groups(&self.disk, &mut seen, r.groups) {
            Ok(x) => Report::stored(Verdict::Done, x.end, x.csn.0 as usize, self.state),
            Err(refusal) => Report::refused(refusal, self.state),
        };
        print_line(to, r.call, out, &self.disk, &seen, &self.tail)
    }

    // The line's memory is the buffer lent.
    fn one_page<W: Write>(&self, to: &mut W, r: Record) -> io::Result<()> {
        let mut seen = [FILLED; PAGE_LEN];
        let out = match read_page(&self.disk, &mut seen, r.addr) {
            Ok(()) => Report::done(self.state),
            Err(refusal) => Report::refused(refusal, self.state),
        };
        print_line(to, r.call, out, &self.disk, &seen, &self.tail)
    }

    // The outcomes of the record's ids. They go into the first len places of the list, or into all of it where it has fewer. The line's value and
    // stores are the groups walked and the checksum of these places.
    #[tactic(auto, using(report::proofs::Ids::count_few, report::proofs::Ids::ids_length, report::proofs::Ids::ids_taken))]
    fn outcomes(&self, bytes: &[u8], len: usize) -> Report {
        let ids = ids_of(bytes);
        let count = ids_count(bytes);
        let mut list = [FILLED; IDS];
        let room = len.min(IDS);
        let walked = outcomes(&self.disk, &ids[..count], &mut list[..room]);
        let groups = walked.unwrap_or(0);
        Report::stored(
            walked.into(),
            groups,
            adler(&list[..room]) as usize,
            self.state,
        )
    }

    // One record: the call, and its line.
    fn step<W: Write>(&mut self, to: &mut W, bytes: &[u8]) -> io::Result<()> {
        let r = read_record(bytes);
        match Call::try_from(r.call) {
            Ok(call) => self.answer(to, bytes, r, call),
            Err(_) => print_unknown(to),
        }
    }

    // A hint to LLVM: the room for what the calls give back is cleared for a call alone.
    #[inline(never)]
    fn answer<W: Write>(
        &mut self,
        to: &mut W,
        bytes: &[u8],
        r: Record,
        call: Call,
    ) -> io::Result<()> {
        let s = self.state;
        let (disk, memory, tail) = (&mut self.disk, &mut self.memory, &mut self.tail);
        let out = match call {
            Call::Begin => s.begin(memory, tail).into(),
            Call::Write => s.write(memory, tail, r.id, r.addr, data_of(bytes)).into(),
            Call::Read => Report::read(s.read(memory, tail, r.id, r.addr, r.len), s),
            Call::CheckRead => s.read_answer(memory, tail, r.id, r.addr, r.len).into(),
            Call::Precommit => s.precommit(memory, tail, r.id).into(),
            Call::Abort => s.abort(memory, tail, r.id).into(),
            Call::Flush => s.flush(disk, memory, tail, r.groups, r.allowed).into(),
            Call::Settle => s.settle(memory, tail, r.id).into(),
            Call::Checkpoint => s.checkpoint(disk, memory, tail, r.allowed).into(),
            Call::Restart => restart(disk, memory, tail, r.allowed).into(),
            Call::PowerFails => self.power_fails(),
            Call::Damage => {
                lay(disk, r.addr, data_of(bytes));
                Report::done(s)
            }
            Call::KeepCopy => {
                self.kept = *disk;
                Report::done(s)
            }
            Call::Equal => Report::compared(equal(disk, &self.kept), s),
            Call::FirstGroups => return self.first_groups(to, r),
            Call::OnePage => return self.one_page(to, r),
            Call::SetSavepoint => s.savepoint(memory, tail, r.id, r.name).into(),
            Call::GoBack => s.go_back(memory, tail, r.id, r.name).into(),
            Call::Outcomes => self.outcomes(bytes, r.len),
        };
        self.state = out.state;
        print_line(to, r.call, out, &self.disk, &self.memory, &self.tail)
    }
}

fn main(rt: HostRuntime) -> io::Result<()> {
    let mut store = Store {
        disk: [0; DISK_LEN],
        kept: [0; DISK_LEN],
        memory: [0; MEMORY_LEN],
        tail: [0; TAIL_LEN],
        state: State::unrecovered(),
    };
    let mut record = [0u8; RECORD_LEN];
    let mut from = rt.reader();
    let mut to = io::writer(&rt);
    // A proved loop ends: no stream has so many records.
    for _ in 0..u64::MAX {
        if from.read_exact(&mut record).is_err() {
            break;
        }
        store.step(&mut to, &record)?;
    }
    Ok(())
}
