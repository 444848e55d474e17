// The memories that are shown: how they are filled, and a small one with its store.
use layout::Shape;
use memory::State;

// A small memory, and its store of N bytes.
#[derive(Clone, Copy, Debug, PartialEq, Eq)]
pub struct Memory<const N: usize> {
    pub state: State,
    pub store: [u8; N],
}

// Sets up a memory of this shape over a store, and writes generations to rows.
pub fn filled(store: &mut [u8], shape: Shape, rows: &[(usize, &[u8])]) -> State {
    rows.iter().fold(
        State::set_up(shape).state,
        |state, (row, generation)| state.write(store, *row, generation).state,
    )
}

impl<const N: usize> Memory<N> {
    // With row 2 full, which is not there: these memories have two rows.
    pub fn broken(self) -> Memory<N> {
        let rows = self.state.rows.with_full(2);
        let state = State { rows, ..self.state };
        Memory { state, ..self }
    }
}
