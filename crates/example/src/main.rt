// A memory of one group and two rows: four packets written to a row, spread over fifteen banks, and a cycle of eight reads of them, two of
// each packet, every bank opened once. With a ninth read a cycle is refused.
#![tactic(auto)]

use layout::{Geometry, Shape, Store};
use lines::hex::Hexadecimal;
use memory::{Outcome, State};
use std::{fmt, io};

// The symbols of the group.
const K: usize = 4;

// The bytes of a packet.
const P: usize = 5;

// The rows.
const G: usize = 2;

// The banks of the group.
const BANKS: usize = (1 << K) - 1;

// The memory's shape.
const SHAPE: Shape = Shape {
    k: K,
    m: 1,
    p: P,
    g: G,
};

// The bytes of the store.
const STORE: usize = BANKS * G * P;

// The most reads in a cycle.
const READS: usize = 1 << (K - 1);

// The row that is written.
const ROW: u8 = 1;

// A read that a cycle served: the symbol, the one or two banks that it opened, and the packet.
#[derive(Clone, Copy, Debug, PartialEq, Eq)]
struct ServedRead<'a> {
    symbol: u8,
    first: u8,
    second: Option<u8>,
    packet: &'a [u8],
}

impl fmt::Display for ServedRead<'_> {
    fn fmt<W: fmt::Write>(&self, f: &mut fmt::Formatter<W>) -> fmt::Result {
        write!(f, "packet {} from bank {}", self.symbol, self.first)?;
        if let Some(second) = self.second {
            write!(f, " and bank {second}")?;
        }
        write!(f, ": {}", str::from_utf8(self.packet).unwrap_or("no text"))
    }
}

fn print_answer(rt: &impl Print, outcome: Outcome) -> io::Result<()> {
    match outcome.answer {
        Ok(answer) => println!(rt; "{answer}"),
        Err(refusal) => println!(rt; "refused with {}", refusal.reason.number()),
    }
}

// What each bank holds in the row.
#[tactic(auto, unfolding(layout::specs::Shape::store_size))]
fn print_banks(rt: &impl Print, bytes: &[u8; STORE]) -> io::Result<()> {
    let geometry = Geometry { shape: SHAPE };
    let store = Store { geometry, bytes };
    for bank in 1..=BANKS {
        let degree = simplex::degree(bank);
        let cell = Hexadecimal(store.cell_at(0, bank, usize::from(ROW)));
        println!(rt; "bank {bank}, degree {degree}: {cell}")?;
    }
    Ok(())
}

// What a cycle put out for its reads, and the banks that it opened for each.
fn print_reads(
    rt: &impl Print,
    reads: &[[u8; 3]],
    out: &[[u8; P]],
    schedule: &[[u8; 2]],
) -> io::Result<()> {
    for (([_, _, symbol], [first, second]), packet) in reads.iter().zip(schedule).zip(out) {
        let served = ServedRead {
            symbol: *symbol,
            first: *first,
            // A schedule has a second bank of 0 where there is none.
            second: (*second != 0).then_some(*second),
            packet,
        };
        println!(rt; "{served}")?;
    }
    Ok(())
}

// The memory that is read: its state, and its store.
#[derive(Clone, Copy, Debug, PartialEq, Eq)]
struct Memory<'a> {
    state: State,
    store: &'a [u8; STORE],
}

impl Memory<'_> {
    // Reads a list in one cycle, and prints the answer.
    fn read(
        self,
        rt: &impl Print,
        reads: &[[u8; 3]],
        out: &mut [[u8; P]],
        schedule: &mut [[u8; 2]],
    ) -> io::Result<()> {
        print!(rt; "cycle of {} reads: ", reads.len())?;
        let Memory { state, store } = self;
        let outcome = state.read_cycle(
            store,
            reads.as_flattened(),
            out.as_flattened_mut(),
            schedule.as_flattened_mut(),
        );
        print_answer(rt, outcome)
    }

    // A cycle of eight reads: what it puts out.
    fn print_cycle(self, rt: &impl Print, reads: &[[u8; 3]]) -> io::Result<()> {
        let mut out = [[0; P]; READS];
        let mut schedule = [[0; 2]; READS];
        self.read(rt, reads, &mut out, &mut schedule)?;
        print_reads(rt, reads, &out, &schedule)
    }

    // Of nine reads (row, group, symbol), two of each packet of the row and packet 0 once more, the first eight, and all.
    fn print_cycles(self, rt: &impl Print) -> io::Result<()> {
        let reads = [0, 0, 1, 1, 2, 2, 3, 3, 0].map(|symbol| [ROW, 0, symbol]);
        let mut out = [[0; P]; READS + 1];
        let mut schedule = [[0; 2]; READS + 1];
        self.print_cycle(rt, &reads[..READS])?;
        self.read(rt, &reads, &mut out, &mut schedule)
    }
}

fn main(rt: HostRuntime) -> io::Result<()> {
    let group = simplex::group_of(K);
    println!(&rt; "banks in the group: {}", group.banks)?;
    println!(&rt; "most reads in a cycle: {}", group.limit)?;
    let row = usize::from(ROW);
    let packets = *b"northeast.southwest.";
    let mut store = [0; STORE];
    let new = State::set_up(SHAPE);
    let written = new.state.write(&mut store, row, &packets);
    print!(&rt; "write to row {row}: ")?;
    print_answer(&rt, written)?;
    let again = written.state.write(&mut store, row, &packets);
    print!(&rt; "write to row {row}: ")?;
    print_answer(&rt, again)?;
    print_banks(&rt, &store)?;
    let memory = Memory {
        state: again.state,
        store: &store,
    };
    memory.print_cycles(&rt)?;
    let released = again.state.release(row);
    print!(&rt; "release of row {row}: ")?;
    print_answer(&rt, released)
}
