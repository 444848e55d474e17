// Read cycles of a memory of eight groups, four rows and packets of three bytes, at each K: the largest mixed cycle, the same with one read
// more, equal reads, each symbol once in every group but one, and the mixed cycle again after a row is released. tools/cases.py knows the
// packets and the lists by the formulas below, and judges what is printed.
ghost use Rattle.std.specs.Prelude.{◌≡◌, ◌+◌, ◌*◌, ◌≤◌, ◌<◌, length};
ghost use Rattle.simplex.specs.declared.TheConstants.{MOST_PAIRS};
ghost use Rattle.simplex.specs.Shape.{SymbolsInRange};
ghost use Rattle.layout.specs.declared.TheConstants.{MOST_GROUPS};
ghost use Rattle.layout.specs.Shape.{store_size};

use crate::memories::filled;
use crate::show::{UNTOUCHED, print_answer, show_read};
use layout::{Geometry, MOST_GROUPS, Shape};
use memory::State;
use simplex::{LEAST_SYMBOLS, MOST_PAIRS, MOST_SYMBOLS};
use std::{array, io};

const ROWS: usize = 4;

const BYTES: usize = 3;

// Room for the largest K, and for one read more than its limit.
const STORE: usize = MOST_GROUPS * ((1 << MOST_SYMBOLS) - 1) * ROWS * BYTES;

const GENERATION: usize = MOST_GROUPS * MOST_SYMBOLS * BYTES;

const READS: usize = MOST_GROUPS * MOST_PAIRS + 1;

// A memory: its geometry, the most reads of a group in a cycle, its state and its store.
#[derive(Clone, Copy, Debug, PartialEq, Eq)]
struct Memory<'a> {
    geometry: Geometry,
    limit: usize,
    state: State,
    store: &'a [u8],
    ghost reads: { limit ≤ MOST_PAIRS },
}

// The generation of a row; one of a smaller K is its first bytes.
fn generation(row: usize) -> [u8; GENERATION]
    requires { row < ROWS }
{
    // `as`, since u8 has no From<usize>: what is below 251 fits.
    array::from_fn(|n| ((row + 1) * (n * n * 3 + n * 7 + 5) % 251) as u8)
}

// A place in a list where the groups take turns, and each goes from row to row.
#[derive(Clone, Copy, Debug, PartialEq, Eq)]
struct Place {
    group: usize,
    turn: usize,
    ghost groups: { group < MOST_GROUPS },
    ghost turns: { turn ≤ MOST_PAIRS },
}

impl Place {
    fn of(n: usize) -> Place
        requires { n ≤ MOST_GROUPS * MOST_PAIRS }
    {
        Place {
            group: n % MOST_GROUPS,
            turn: n / MOST_GROUPS,
        }
    }

    // A read of this symbol there (row, group, symbol).
    fn read(self, symbol: usize) -> [u8; 3]
        requires { symbol < MOST_SYMBOLS }
    {
        // `as`, since u8 has no From<usize>.
        [
            ((self.group + self.turn) % ROWS) as u8,
            self.group as u8,
            symbol as u8,
        ]
    }
}

// A list where each group reads each symbol once, but group 5 reads symbol 0 again and again.
fn one_colliding() -> [[u8; 3]; READS] {
    array::from_fn(
        |n|
            requires { n ≤ MOST_GROUPS * MOST_PAIRS }
        {
            let place = Place::of(n);
            place.read(if place.group == 5 {
                0
            } else {
                place.turn % MOST_SYMBOLS
            })
        },
    )
}

impl Memory<'_> {
    // A mixed list: each group goes through the symbols at a pace of its own. After as many reads as a cycle takes, one more of group 5.
    fn mixed(self) -> [[u8; 3]; READS] {
        let k = self.geometry.shape.k;
        let mut reads = array::from_fn(
            |n|
                requires { (n ≤ MOST_GROUPS * MOST_PAIRS) × SymbolsInRange k }
            {
                let place = Place::of(n);
                place.read((place.group * 3 + place.turn * (place.group + 1)) % k)
            },
        );
        reads[MOST_GROUPS * self.limit] = [1, 5, 0];
        reads
    }

    // A cycle with buffers of the right lengths.
    fn show_cycle(self, rt: &impl Print, reads: &[[u8; 3]]) -> io::Result<()>
        requires { length reads.now ≤ MOST_GROUPS * MOST_PAIRS + 1 }
    {
        let mut packets = [[UNTOUCHED; BYTES]; READS];
        let mut schedule = [[UNTOUCHED; 2]; READS];
        show_read(
            rt,
            self.state,
            self.store,
            reads.as_flattened(),
            packets[..reads.len()].as_flattened_mut(),
            schedule[..reads.len()].as_flattened_mut(),
        )
    }

    // As many equal reads as the limit.
    fn show_equal(self, rt: &impl Print) -> io::Result<()> {
        self.show_cycle(rt, &[[2, 3, 1]; MOST_PAIRS][..self.limit])
    }

    // As many reads of each group as it has symbols.
    fn show_one_colliding(self, rt: &impl Print) -> io::Result<()> {
        self.show_cycle(rt, &one_colliding()[..MOST_GROUPS * self.geometry.shape.k])
    }

    // The cycles while every row is full, and one after a row is released.
    fn show(self, rt: &impl Print) -> io::Result<()> {
        let most = MOST_GROUPS * self.limit;
        let mixed = self.mixed();
        self.show_cycle(rt, &mixed[..most])?;
        self.show_cycle(rt, &mixed[..=most])?;
        self.show_equal(rt)?;
        self.show_one_colliding(rt)?;
        let released = self.state.release(2);
        print_answer(rt, released)?;
        // No `..self`, which a struct with a ghost field does not take.
        let mut left = self;
        left.state = released.state;
        left.show_cycle(rt, &mixed[..most])
    }
}

// A memory's geometry at this K: there is room for its store.
fn geometry_of(k: usize) -> Geometry
    requires { SymbolsInRange k }
    ensures { store_size result.shape ≤ STORE }
{
    let shape = Shape {
        k,
        m: MOST_GROUPS,
        p: BYTES,
        g: ROWS,
    };
    Geometry { shape }
}

// The cycles of one K.
#[tactic(auto, using(simplex::proofs::Tables::limit_most))]
fn show_cycles(rt: &impl Print, k: usize) -> io::Result<()>
    requires { SymbolsInRange k }
{
    println!(rt; "K {k}")?;
    let geometry = geometry_of(k);
    let mut space = [0; STORE];
    let store = &mut space[..geometry.store_size()];
    let generations = array::from_fn::<_, ROWS, _>(generation);
    let rows = array::from_fn::<_, ROWS, _>(
        |row|
            requires { (row < ROWS) × SymbolsInRange k }
        { (row, &generations[row][..MOST_GROUPS * k * BYTES]) },
    );
    let state = filled(store, geometry.shape, &rows);
    let limit = simplex::group_of(geometry.shape.k).limit;
    let memory = Memory {
        geometry,
        limit,
        state,
        store,
    };
    memory.show(rt)
}

// The cycles of every K.
pub fn run(rt: &impl Print) -> io::Result<()> {
    for k in LEAST_SYMBOLS..=MOST_SYMBOLS {
        show_cycles(rt, k)?;
    }
    Ok(())
}
