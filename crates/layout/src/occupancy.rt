// Which rows of a memory are full. How that is kept, this file alone knows (and specs/Occupancy.antt).
ghost use Rattle.std.specs.Prelude.{◌≡◌, ℕ, ◌≤◌, ◌<◌};
ghost use Rattle.bits.specs.Marks.{marked};
ghost use Rattle.layout.specs.Occupancy.{is_full, is_empty, with_full, with_empty, without, full_count, none_from};

use crate::MOST_ROWS;

// The rows of a memory, each full or empty: row r is full where bit r is 1. By default all are empty [state.content].
#[derive(Clone, Copy, Debug, Default, PartialEq, Eq)]
pub struct Rows {
    pub full: u64,
}

impl Rows {
    // Whether a row is full.
    pub fn is_full(self, row: usize) -> bool
        requires { row < MOST_ROWS }
        ensures { result ≡ is_full self row }
    {
        bits::is_marked(self.full, row)
    }

    // Whether a row is empty.
    pub fn is_empty(self, row: usize) -> bool
        requires { row < MOST_ROWS }
        ensures { result ≡ is_empty self row }
    {
        !self.is_full(row)
    }

    // The rows with one made full.
    pub fn with_full(self, row: usize) -> Rows
        requires { row < MOST_ROWS }
        ensures { result ≡ with_full self row }
    {
        Rows {
            full: bits::with_number(self.full, row),
        }
    }

    // The rows with one made empty.
    pub fn with_empty(self, row: usize) -> Rows
        requires { row < MOST_ROWS }
        ensures { result ≡ with_empty self row }
    {
        Rows {
            full: bits::without_number(self.full, row),
        }
    }

    // The rows with each of a set made empty, row r's mark being bit r.
    pub fn without(self, set: u64) -> Rows
        ensures { result ≡ without self set }
    {
        Rows {
            full: bits::without(self.full, set),
        }
    }

    // How many are full.
    pub fn full_count(self) -> usize
        ensures { result ≡ full_count self MOST_ROWS }
    {
        bits::count(self.full)
    }

    // The full rows as a set, row r's mark being bit r.
    pub fn full_set(self) -> u64
        ensures { (row : ℕ) → marked result row ≡ is_full self row }
    {
        self.full
    }

    // Whether no row from `g` on is full.
    pub fn none_from(self, g: usize) -> bool
        requires { g ≤ MOST_ROWS }
        ensures { result ≡ none_from self g }
    {
        bits::none_from(self.full, g)
    }
}
