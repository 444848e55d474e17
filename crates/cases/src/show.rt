// How a memory's operations and stores are printed.
use lines::hex::Hexadecimal;
use memory::{Outcome, State};
use std::io;

// What the buffers hold before a cycle.
pub const UNTOUCHED: u8 = 238;

// The program example has texts of its own for an answer and a cycle: those are for people, these for tools/cases.py, which wants each
// place and buffer.
pub fn print_answer(rt: &impl Print, outcome: Outcome) -> io::Result<()> {
    match outcome.answer {
        Ok(answer) => println!(rt; "{answer}"),
        Err(refusal) => println!(rt; "{refusal}"),
    }
}

// An operation's answer, and the rows that are full then, as marks.
pub fn print_outcome(rt: &impl Print, outcome: Outcome) -> io::Result<()> {
    print_answer(rt, outcome)?;
    println!(rt; "full {}", outcome.state.rows.full_set())
}

pub fn print_store(rt: &impl Print, store: &[u8]) -> io::Result<()> {
    println!(rt; "store {}", Hexadecimal(store))
}

// Reads a list in one cycle, and shows the answer and every buffer.
pub fn show_read(
    rt: &impl Print,
    state: State,
    store: &[u8],
    reads: &[u8],
    packets: &mut [u8],
    schedule: &mut [u8],
) -> io::Result<()> {
    let outcome = state.read_cycle(store, reads, packets, schedule);
    print!(rt; "cycle of {} reads: ", reads.len() / 3)?;
    print_answer(rt, outcome)?;
    println!(rt; "reads {}", Hexadecimal(reads))?;
    println!(rt; "packets {}", Hexadecimal(packets))?;
    println!(rt; "schedule {}", Hexadecimal(schedule))
}
