// Set-ups: each refusal where later numbers apply too, and the state of zeros that it leaves. Then a small memory: its whole store, and the
// refusals that no session meets (5, 6 and 16), again where later numbers apply too. It has K = 2, two groups, packets of one byte and two
// rows. Last, the refusals of an audit. tools/cases.py has the answers by the rules.
ghost use Rattle.std.specs.Prelude.{◌≤◌};

use crate::memories::Memory;
use crate::show::{UNTOUCHED, print_answer, print_outcome, print_store, show_read};
use layout::Shape;
use memory::State;
use simplex::MOST_SYMBOLS;
use std::io;

const SHAPE: Shape = Shape {
    k: 2,
    m: 2,
    p: 1,
    g: 2,
};

const STORE: usize = 12;

// A generation that is too short.
const SHORT_GENERATION: [u8; 3] = [0; 3];

// Both rows full, the writes of which are shown.
fn filled(rt: &impl Print) -> io::Result<Memory<STORE>> {
    let mut store = [0; STORE];
    let new = State::set_up(SHAPE);
    let first = new.state.write(&mut store, 0, &[0x01, 0x02, 0x04, 0x08]);
    print_answer(rt, first)?;
    let second = first.state.write(&mut store, 1, &[0x10, 0x20, 0x40, 0x80]);
    print_answer(rt, second)?;
    print_store(rt, &store)?;
    let state = second.state;
    Ok(Memory { state, store })
}

// No operation that is shown on a memory changes its store.
impl Memory<STORE> {
    // A write of a generation that is too short, with the first `size` bytes of the store.
    fn show_write(self, rt: &impl Print, size: usize, row: usize) -> io::Result<()>
        requires { size ≤ STORE }
    {
        let Memory { state, mut store } = self;
        let outcome = state.write(&mut store[..size], row, &SHORT_GENERATION);
        print_answer(rt, outcome)?;
        print_store(rt, &store)
    }

    // To row 2, which is not there: 5, 6, 7. To a full row: 8. To an empty one: 10.
    fn show_writes(self, rt: &impl Print) -> io::Result<()> {
        self.broken().show_write(rt, STORE - 1, 2)?;
        self.show_write(rt, STORE - 1, 2)?;
        self.show_write(rt, STORE, 2)?;
        self.show_write(rt, STORE, 1)?;
        let released = self.state.release(1);
        print_answer(rt, released)?;
        let state = released.state;
        Memory { state, ..self }.show_write(rt, STORE, 1)
    }

    // A release of a row that is not there: 5, 7. Of an empty row: 9.
    fn show_releases(self, rt: &impl Print) -> io::Result<()> {
        print_answer(rt, self.broken().state.release(2))?;
        print_answer(rt, self.state.release(2))?;
        let released = self.state.release(1);
        print_answer(rt, released.state.release(1))
    }

    // A list of three reads of group 1, the last of a symbol that is not there, and buffers that are too long: 5, 6, 13, 15. With three
    // reads that are there: 12. With two: 16 for the output, 16 for the schedule, served. A refused cycle leaves the buffers as they are,
    // so the next one gets them.
    fn show_cycles(self, rt: &impl Print) -> io::Result<()> {
        let wrong = [0, 1, 0, 1, 1, 1, 0, 1, 2];
        let right = [0, 1, 0, 1, 1, 1, 0, 1, 1];
        let broken = self.broken().state;
        let Memory { state, store } = self;
        let short = &store[..STORE - 1];
        let (mut out, mut lines) = ([UNTOUCHED; 9], [UNTOUCHED; 9]);
        show_read(rt, broken, short, &wrong[..8], &mut out, &mut lines)?;
        show_read(rt, state, short, &wrong[..8], &mut out, &mut lines)?;
        show_read(rt, state, &store, &wrong[..8], &mut out, &mut lines)?;
        show_read(rt, state, &store, &wrong, &mut out, &mut lines)?;
        show_read(rt, state, &store, &right, &mut out, &mut lines)?;
        let two = &right[..6];
        show_read(rt, state, &store, two, &mut out[..3], &mut lines[..4])?;
        show_read(rt, state, &store, two, &mut out[..2], &mut lines[..5])?;
        show_read(rt, state, &store, two, &mut out[..2], &mut lines[..4])
    }
}

// Sets up a memory of this shape, and shows the answer and the state.
fn show_set_up(rt: &impl Print, k: usize, m: usize, p: usize, g: usize) -> io::Result<()> {
    let outcome = State::set_up(Shape { k, m, p, g });
    print_outcome(rt, outcome)?;
    let Shape { k, m, p, g } = outcome.state.shape;
    println!(rt; "shape {k} {m} {p} {g}")
}

// Refused with 1 to 4, each at both ends of its range; then accepted at both ends of every range.
fn show_set_ups(rt: &impl Print) -> io::Result<()> {
    println!(rt; "set-ups")?;
    show_set_up(rt, 1, 0, 0, 0)?;
    show_set_up(rt, 6, 9, 2049, 65)?;
    show_set_up(rt, 2, 0, 0, 0)?;
    show_set_up(rt, 5, 9, 2049, 65)?;
    show_set_up(rt, 2, 1, 0, 0)?;
    show_set_up(rt, 5, 8, 2049, 65)?;
    show_set_up(rt, 2, 1, 1, 0)?;
    show_set_up(rt, 5, 8, 2048, 65)?;
    show_set_up(rt, 2, 1, 1, 1)?;
    show_set_up(rt, 5, 8, 2048, 64)
}

// An audit of one byte for these counts.
fn show_audit(rt: &impl Print, k: usize, counts: [usize; MOST_SYMBOLS]) -> io::Result<()> {
    print!(rt; "audit: ")?;
    match audit::audit(k, counts, &[0]) {
        Ok(true) => println!(rt; "yes"),
        Ok(false) => println!(rt; "no"),
        Err(refusal) => println!(rt; "{refusal}"),
    }
}

pub fn run(rt: &impl Print) -> io::Result<()> {
    show_set_ups(rt)?;
    println!(rt; "small memory")?;
    let memory = filled(rt)?;
    memory.show_writes(rt)?;
    memory.show_releases(rt)?;
    memory.show_cycles(rt)?;
    show_audit(rt, 6, [9, 0, 0, 0, 1])?;
    show_audit(rt, 4, [9, 0, 0, 0, 1])?;
    show_audit(rt, 4, [9, 0, 0, 0, 0])
}
