// What the story is told with: plain text on standard output.
use layout::refusal::Refusal;
use layout::{DISK_LEN, MEMORY_LEN};
use listing::{TEXT_LEN, list};
use std::io::Write;
use std::{fmt, io};
use store::Failure;

// The three places that a booking writes.
pub(crate) const PANE: usize = 100;

pub(crate) const LEAD: usize = 200;

pub(crate) const COLOUR: usize = 300;

// What a call answered.
#[derive(Clone, Copy)]
pub(crate) struct Told<T, E>(pub(crate) Result<T, E>);

impl<T> fmt::Display for Told<T, Refusal> {
    fn fmt<W: fmt::Write>(&self, f: &mut fmt::Formatter<W>) -> fmt::Result {
        match self.0 {
            Ok(_) => f.write_str("done"),
            Err(refusal) => write!(f, "refused by number {}", refusal.number()),
        }
    }
}

impl<T> fmt::Display for Told<T, Failure> {
    fn fmt<W: fmt::Write>(&self, f: &mut fmt::Formatter<W>) -> fmt::Result {
        match self.0 {
            Ok(_) => f.write_str("done"),
            Err(Failure::Cut) => f.write_str("cut"),
            Err(Failure::Refused(refusal)) => {
                write!(f, "refused by number {}", refusal.number())
            }
        }
    }
}

// The bytes at a place of memory; a dot for 0.
fn place<W: Write>(to: &mut W, addr: usize, bytes: &[u8]) -> io::Result<()> {
    write!(to, "    at {addr}: ")?;
    for b in bytes {
        let shown = if *b == 0 { b'.' } else { *b };
        to.write_all(&[shown])?;
    }
    writeln!(to)
}

// The bytes at these places.
pub(crate) fn memory_places<W: Write>(to: &mut W, memory: &[u8; MEMORY_LEN]) -> io::Result<()> {
    writeln!(to, "  memory:")?;
    let m = &memory[..];
    place(to, PANE, &m[PANE..PANE + 6])?;
    place(to, LEAD, &m[LEAD..LEAD + 10])?;
    place(to, COLOUR, &m[COLOUR..COLOUR + 4])
}

// disklist's lines, of a copy of the disk.
pub(crate) fn listing<W: Write>(to: &mut W, mut disk: [u8; DISK_LEN]) -> io::Result<()> {
    let mut out = [0u8; TEXT_LEN];
    let n = list(&mut disk, &mut out);
    to.write_all(&out[..n])
}
