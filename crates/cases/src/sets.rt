// Releases of row sets: a memory with K = 2, one group, packets of one byte and six rows, of which 0, 1, 3 and 5 are full. tools/cases.py
// has the answers, by the rules.
use crate::memories::filled;
use crate::show::print_outcome;
use layout::Shape;
use memory::State;
use std::io;

const SHAPE: Shape = Shape {
    k: 2,
    m: 1,
    p: 1,
    g: 6,
};

const STORE: usize = 18;

// Releases a set of rows, and shows what that gives. Gives the state.
fn show(rt: &impl Print, state: State, set: u64) -> io::Result<State> {
    let outcome = state.release_set(set);
    print_outcome(rt, outcome)?;
    Ok(outcome.state)
}

// Rows 2 and 6, where row 6 is full but is not there: 5. Rows 1, 2, 6 and 63: 7 at row 6, though row 2 is empty. Rows 0, 2, 4 and 5: 9 at
// row 2. No row; then rows 0 and 3, and 1 and 5: accepted.
pub fn run(rt: &impl Print) -> io::Result<()> {
    println!(rt; "row sets")?;
    let generation: &[u8] = &[0x5a, 0x3c];
    let rows = [0, 1, 3, 5].map(|row| (row, generation));
    let state = filled(&mut [0; STORE], SHAPE, &rows);
    let broken = State {
        rows: state.rows.with_full(6),
        ..state
    };
    show(rt, broken, 0x44)?;
    show(rt, state, 0x8000000000000046)?;
    show(rt, state, 0x35)?;
    show(rt, state, 0)?;
    let left = show(rt, state, 0x09)?;
    show(rt, left, 0x22)?;
    Ok(())
}
