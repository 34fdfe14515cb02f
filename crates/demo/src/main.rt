// demo: two bookings, a power failure in the middle of the second's flush, and the restart, told line by line.
#![tactic(auto)]

mod print;

use crate::print::{COLOUR, LEAD, PANE, Told, listing, memory_places};
use disk::call::restart;
use layout::{DISK_LEN, LOG_LEN, MEMORY_LEN, TAIL_LEN};
use redolog::TxId;
use std::io;
use std::io::Write;
use store::State;

// A pane, its lead strip and its colour.
#[derive(Clone, Copy)]
struct Booking {
    pane: &'static str,
    lead: &'static str,
    colour: &'static str,
}

// The disk, which lasts, and what a power failure takes.
#[derive(Clone, Copy)]
struct Store {
    disk: [u8; DISK_LEN],
    memory: [u8; MEMORY_LEN],
    tail: [u8; TAIL_LEN],
    state: State,
}

impl Store {
    fn fresh() -> Self {
        Store {
            disk: [0; DISK_LEN],
            memory: [0; MEMORY_LEN],
            tail: [0; TAIL_LEN],
            state: State::unrecovered(),
        }
    }

    fn restart<W: Write>(&mut self, to: &mut W) -> io::Result<()> {
        let x = restart(&mut self.disk, &mut self.memory, &mut self.tail, LOG_LEN);
        self.state = x.state;
        writeln!(
            to,
            "  restart: {} after {} stores, transactions undone: {}",
            Told(x.result),
            x.stores,
            x.result.map_or(0, |found| found.undone)
        )
    }

    fn write<W: Write>(&mut self, to: &mut W, id: TxId, addr: usize, text: &str) -> io::Result<()> {
        let x = self
            .state
            .write(&mut self.memory, &self.tail, id, addr, text.as_bytes());
        self.state = x.state;
        writeln!(to, "  write: {}, at {addr}: {text}", Told(x.result))
    }

    // One transaction, precommitted.
    fn book<W: Write>(&mut self, to: &mut W, b: Booking) -> io::Result<()> {
        let begun = self.state.begin(&self.memory, &self.tail);
        let id = begun.result.unwrap_or(TxId(0));
        self.state = begun.state;
        writeln!(to, "  begin: {}, transaction {}", Told(begun.result), id.0)?;
        self.write(to, id, PANE, b.pane)?;
        self.write(to, id, LEAD, b.lead)?;
        self.write(to, id, COLOUR, b.colour)?;
        let x = self.state.precommit(&self.memory, &mut self.tail, id);
        self.state = x.state;
        writeln!(
            to,
            "  precommit: {}, commit number {}",
            Told(x.result),
            x.result.map_or(0, |csn| csn.0)
        )
    }

    // How many stores a flush of the whole tail needs, found out on copies.
    fn stores_needed(&self) -> usize {
        let mut disk = self.disk;
        let mut memory = self.memory;
        let mut tail = self.tail;
        let x = self
            .state
            .flush(&mut disk, &mut memory, &mut tail, LOG_LEN, LOG_LEN);
        x.stores
    }

    fn flush<W: Write>(&mut self, to: &mut W, allowed: usize) -> io::Result<()> {
        let needed = self.stores_needed();
        let x = self.state.flush(
            &mut self.disk,
            &mut self.memory,
            &mut self.tail,
            LOG_LEN,
            allowed,
        );
        self.state = x.state;
        writeln!(
            to,
            "  flush: {} after {} of {needed} stores",
            Told(x.result),
            x.stores
        )
    }

    // Without a restart nothing goes on.
    fn try_begin<W: Write>(&self, to: &mut W) -> io::Result<()> {
        let x = self.state.begin(&self.memory, &self.tail);
        writeln!(to, "  begin: {}", Told(x.result))
    }
}

fn first_booking<W: Write>(to: &mut W, store: &mut Store) -> io::Result<()> {
    writeln!(to, "A fresh disk: {DISK_LEN} zero bytes.")?;
    store.restart(to)?;
    writeln!(
        to,
        "\nThe first booking: three writes together, on disk after the flush."
    )?;
    let booking = Booking {
        pane: "pane 7",
        lead: "lead 12 mm",
        colour: "ruby",
    };
    store.book(to, booking)?;
    store.flush(to, LOG_LEN)?;
    memory_places(to, &store.memory)
}

fn second_booking<W: Write>(to: &mut W, store: &mut Store) -> io::Result<()> {
    writeln!(
        to,
        "\nThe second booking, at the same places; the power fails in the middle of its flush."
    )?;
    let booking = Booking {
        pane: "pane 9",
        lead: "lead 15 mm",
        colour: "jade",
    };
    store.book(to, booking)?;
    memory_places(to, &store.memory)?;
    store.flush(to, 25)
}

fn recovery<W: Write>(to: &mut W, store: &mut Store) -> io::Result<()> {
    writeln!(
        to,
        "\nMemory, tail and state are gone; only the disk lasts."
    )?;
    memory_places(to, &store.memory)?;
    store.try_begin(to)?;
    writeln!(to, "\ndisklist of this disk:")?;
    listing(to, store.disk)?;
    writeln!(to, "\nThe restart.")?;
    store.restart(to)?;
    memory_places(to, &store.memory)?;
    writeln!(to, "\ndisklist of the disk after it:")?;
    listing(to, store.disk)?;
    writeln!(
        to,
        "\nThe first booking is there whole, and nothing of the second."
    )
}

fn main(rt: HostRuntime) -> io::Result<()> {
    let mut store = Store::fresh();
    let mut to = io::writer(&rt);
    first_booking(&mut to, &mut store)?;
    second_booking(&mut to, &mut store)?;
    recovery(&mut to, &mut store)
}
