// The line that a call prints.
ghost use Rattle.std.specs.Prelude.{◌≡◌, ◌≤◌, length, take, Some, None};
ghost use Rattle.std.specs.Fn.{FnReturnsAt};
ghost use Rattle.layout.specs.Refusal.{number_of};
ghost use Rattle.report.specs.declared.line.Verdict.TheVariants.{Done, Refused};
ghost use Rattle.report.specs.Adler.{adler_of};
ghost use Rattle.report.specs.Report.{answered, judged, stored_of, restarted_of, begun_of, precommitted_of, returned_of, recovered_of, read_of, savepoints_in, reads_in, counted_in, Counts, compared_of, verdict_text};

use crate::call::Call;
use disk::call::Restarted;
use layout::refusal::Refusal;
use redolog::stop::Stop;
use redolog::{Csn, TxId};
use std::io::Write;
use std::{fmt, io};
use store::call::Returned;
use store::stored::Stored;
use store::{Failure, State};
use transaction::Tx;

// A line's second field: a call's answer, the length of read's part, or whether two disks are equal in meaning.
#[derive(Clone, Copy)]
pub enum Verdict {
    Done,
    Cut,
    // Any number, whether the list of refusals has it or not.
    Refused(u8),
    Part(usize),
    Equal(bool),
}

#[derive(Clone, Copy)]
pub struct Report {
    pub verdict: Verdict,
    pub value: usize,
    pub stores: usize,
    pub stop: Option<Stop>,
    pub state: State,
}

impl<T: Drop> From<Result<T, Failure>> for Verdict {
    ghost from_gives = { λ x v. v ≡ answered x };

    fn from(x: Result<T, Failure>) -> Verdict {
        match x {
            Ok(_) => Verdict::Done,
            Err(Failure::Cut) => Verdict::Cut,
            Err(Failure::Refused(refusal)) => Verdict::Refused(refusal.number()),
        }
    }
}

impl<T: Drop> From<Result<T, Refusal>> for Verdict {
    ghost from_gives = { λ x v. v ≡ judged x };

    fn from(x: Result<T, Refusal>) -> Verdict {
        match x {
            Ok(_) => Verdict::Done,
            Err(refusal) => Verdict::Refused(refusal.number()),
        }
    }
}

impl Report {
    pub fn restarted(
        verdict: Verdict,
        value: usize,
        stores: usize,
        stop: Option<Stop>,
        state: State,
    ) -> Self
        ensures { result ≡ restarted_of verdict value stores stop state }
    {
        Report {
            verdict,
            value,
            stores,
            stop,
            state,
        }
    }

    // Any call but restart.
    pub fn stored(verdict: Verdict, value: usize, stores: usize, state: State) -> Self
        ensures { result ≡ stored_of verdict value stores state }
    {
        Report::restarted(verdict, value, stores, None, state)
    }

    // A call of the stream's own, which is always done.
    pub fn done(state: State) -> Self
        ensures { result ≡ stored_of Done 0 0 state }
    {
        Report::stored(Verdict::Done, 0, 0, state)
    }

    pub fn refused(refusal: Refusal, state: State) -> Self
        ensures { result ≡ stored_of (Refused (number_of refusal)) 0 0 state }
    {
        Report::stored(Verdict::Refused(refusal.number()), 0, 0, state)
    }

    pub fn read(part: &[u8], state: State) -> Self
        ensures { result ≡ read_of part.now state }
    {
        Report {
            verdict: Verdict::Part(part.len()),
            value: adler(part) as usize,
            stores: 0,
            stop: None,
            state,
        }
    }

    pub fn compared(equal: bool, state: State) -> Self
        ensures { result ≡ compared_of equal state }
    {
        Report {
            verdict: Verdict::Equal(equal),
            value: 0,
            stores: 0,
            stop: None,
            state,
        }
    }
}

// Each call's value has a type of its own: a trait for all three would have more lines than these.
impl From<Returned<TxId>> for Report {
    ghost from_gives = { λ x r. r ≡ begun_of x };

    fn from(x: Returned<TxId>) -> Report {
        match x.result {
            Ok(id) => Report::stored(Verdict::Done, usize::from(id.0), 0, x.state),
            Err(refusal) => Report::refused(refusal, x.state),
        }
    }
}

impl From<Returned<Csn>> for Report {
    ghost from_gives = { λ x r. r ≡ precommitted_of x };

    fn from(x: Returned<Csn>) -> Report {
        match x.result {
            Ok(csn) => Report::stored(Verdict::Done, csn.0 as usize, 0, x.state),
            Err(refusal) => Report::refused(refusal, x.state),
        }
    }
}

impl From<Returned<()>> for Report {
    ghost from_gives = { λ x r. r ≡ returned_of x };

    fn from(x: Returned<()>) -> Report {
        match x.result {
            Ok(()) => Report::done(x.state),
            Err(refusal) => Report::refused(refusal, x.state),
        }
    }
}

impl From<Stored> for Report {
    ghost from_gives = { λ x r. r ≡ stored_of (answered x.result) 0 x.stores x.state };

    fn from(x: Stored) -> Report {
        Report::stored(x.result.into(), 0, x.stores, x.state)
    }
}

impl From<Restarted> for Report {
    ghost from_gives = { λ x r. r ≡ recovered_of x };

    fn from(x: Restarted) -> Report {
        match x.result {
            Ok(found) => Report::restarted(
                Verdict::Done,
                found.undone,
                x.stores,
                Some(found.stop),
                x.state,
            ),
            Err(_) => Report::stored(x.result.into(), 0, x.stores, x.state),
        }
    }
}

// Adler-32 (RFC 1950).
#[tactic(auto, using(crate::proofs::Adler::sums_more, crate::proofs::Adler::sums_done), unfolding(crate::specs::Adler::adler_of))]
pub fn adler(s: &[u8]) -> u32
    ensures { result ≡ adler_of s.now }
{
    let mut a: u32 = 1;
    let mut b: u32 = 0;
    for x in s {
        a = (a + u32::from(*x)) % 65521;
        b = (b + a) % 65521;
    }
    b * 65536 + a
}

impl fmt::Display for Verdict {
    ghost output = { λ v. Some (verdict_text v) };

    fn fmt<W: fmt::Write>(&self, f: &mut fmt::Formatter<W>) -> fmt::Result {
        match self {
            Verdict::Done => f.write_str("done"),
            Verdict::Cut => f.write_str("cut"),
            Verdict::Refused(number) => write!(f, "refused={number}"),
            Verdict::Part(length) => write!(f, "part={length}"),
            Verdict::Equal(true) => f.write_str("yes"),
            Verdict::Equal(false) => f.write_str("no"),
        }
    }
}

// The transactions listed.
fn listed(s: &State) -> &[Tx]
    ensures value { result.now ≡ take s.now.count s.now.txs }
    ensures few { length result.now ≤ 255 }
{
    let txs = &s.txs[..];
    let count = usize::from(s.count).min(txs.len());
    &txs[..count]
}

// What is counted of each of them, together.
fn counted<F: Fn(&Tx) -> u8>(s: &State, count: F) -> usize
    requires { F.IsAlwaysCallable count }
    ensures { Counts (FnReturnsAt F.Fn count) s.now result }
{
    let txs = listed(s);
    let mut sum = 0;
    for t in txs {
        sum += usize::from(count(t));
    }
    sum
}

// How many savepoints they have together.
fn savepoints(s: &State) -> usize
    ensures { result ≡ counted_in savepoints_in s.now }
{
    counted(s, |t| t.extras.savepoints.count)
}

// How many ranges they have read together.
fn reads(s: &State) -> usize
    ensures { result ≡ counted_in reads_in s.now }
{
    counted(s, |t| t.extras.reads.count)
}

// Recovered, log end, number on disk, number assigned, last id, transactions listed, ranges that they have read, savepoints.
fn print_state<W: Write>(to: &mut W, s: &State) -> io::Result<()> {
    write!(
        to,
        " {},{},{},{},{},{},{},{}",
        u8::from(s.recovered),
        s.logend,
        s.ondisk.0,
        s.assigned.0,
        s.lastid.0,
        s.count,
        reads(s),
        savepoints(s)
    )
}

// Restart's ninth field.
fn stop_word(stop: Option<Stop>) -> &'static str {
    match stop {
        None => "-",
        Some(Stop::Full) => "full",
        Some(Stop::Zero) => "zero",
        Some(Stop::Torn) => "torn",
    }
}

// In one piece: each piece of a format is a write of its own.
pub fn print_unknown<W: Write>(to: &mut W) -> io::Result<()> {
    to.write_all(b"unknown\n")
}

// Of any byte, as before: that it is a call is asked where the ninth field is.
pub fn print_line<W: Write>(
    to: &mut W,
    call: u8,
    out: Report,
    disk: &[u8],
    memory: &[u8],
    tail: &[u8],
) -> io::Result<()> {
    write!(
        to,
        "{call} {} {} {} {} {} {}",
        out.verdict,
        out.value,
        out.stores,
        adler(disk),
        adler(memory),
        adler(tail)
    )?;
    print_state(to, &out.state)?;
    if Call::try_from(call) == Ok(Call::Restart) {
        write!(to, " {}", stop_word(out.stop))?;
    }
    writeln!(to)
}
