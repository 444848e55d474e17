// Sets of numbers below 64, as marks in one word. They have no type of their own, since a caller hands in a set of rows as one word of 64
// marks.
#![tactic(auto)]

ghost use Rattle.std.specs.Prelude.{◌≡◌, ◌==◌, ◌&&◌, ◌||◌, not, ◌≤◌, ◌<◌, nat_lt};
ghost use Rattle.bits.specs.Marks.{marked, none_from, how_many, TheMarks};
ghost use Rattle.bits.specs.Sets.{set_of, First, TheSets};

// How many numbers a word has marks for.
const MARKS: usize = 64;

// Carries the laws of marks. It does nothing.
pub fn the_marks()
    ensures { TheMarks }
{}

// Carries the laws of sets by a test. It does nothing.
pub fn the_sets()
    ensures { TheSets }
{}

// Whether `i` is marked.
pub fn is_marked(set: u64, i: usize) -> bool
    requires { i < 64 }
    ensures { result ≡ marked set i }
{
    (set >> i) % 2 == 1
}

// Whether nothing from `n` on is marked.
pub fn none_from(set: u64, n: usize) -> bool
    requires { n ≤ 64 }
    ensures { result ≡ none_from set n }
{
    // The machine has no shift by a word's whole width.
    if n == MARKS {
        return true;
    }
    set >> n == 0
}

// How many are marked.
pub fn count(set: u64) -> usize
    ensures { result ≡ how_many (marked set) 64 }
{
    // `as`, here and below, since usize has no From<u32>.
    set.count_ones() as usize
}

// The set of the numbers below `n`.
#[tactic(auto, using(crate::proofs::Sets::below_set))]
pub fn below(n: usize) -> u64
    requires { (1 ≤ n) × (n ≤ 64) }
    ensures { result ≡ set_of (λ i. nat_lt i n) 64 }
{
    // With n = 0 the shift would be by a word's whole width.
    u64::MAX >> (MARKS - n)
}

// The set with `i` put in.
#[tactic(auto, using(crate::proofs::Sets::with_set))]
pub fn with_number(set: u64, i: usize) -> u64
    requires { i < 64 }
    ensures { result ≡ set_of (λ j. j == i || marked set j) 64 }
{
    set | (1 << i)
}

// The set with `i` taken out.
#[tactic(auto, using(crate::proofs::Sets::taken_set))]
pub fn without_number(set: u64, i: usize) -> u64
    requires { i < 64 }
    ensures { result ≡ set_of (λ j. not (j == i) && marked set j) 64 }
{
    set & !(1 << i)
}

// The set without what another has.
#[tactic(auto, using(crate::proofs::Sets::without_set))]
pub fn without(set: u64, other: u64) -> u64
    ensures { result ≡ set_of (λ i. marked set i && not (marked other i)) 64 }
{
    set & !other
}

// The first that is marked.
#[tactic(auto, using(crate::proofs::Sets::first_some, crate::proofs::Sets::first_none))]
pub fn first(set: u64) -> Option<usize>
    ensures { First (marked set) 64 result }
{
    if set == 0 {
        return None;
    }
    Some(set.trailing_zeros() as usize)
}
