// What a plan is, the judging of a request's counts, and the audit of a plan.
#![tactic(auto)]

ghost use Rattle.std.specs.Prelude.{◌≡◌, ℕ, ◌*◌, ◌≤◌, ◌<◌, ◌&&◌, ◌==◌, not, length, slice_index, sum};
ghost use Rattle.bits.specs.Marks.{marked};
ghost use Rattle.refusals.specs.Verdict.{between};
ghost use Rattle.simplex.specs.Shape.{SymbolsInRange, is_bank};
ghost use Rattle.simplex.specs.Limit.{start};
ghost use Rattle.audit.specs.Plan.{serves, is_plan};
ghost use Rattle.audit.specs.Audit.{all_zero, counts_refusal, rest_of, pairs_of, audit_of};
ghost use Rattle.audit.specs.Laws.{ThePlans};

use refusals::{Reason, Refusal, Verdict, check, is_between};
use simplex::{Group, LEAST_SYMBOLS, MOST_PAIRS, MOST_SYMBOLS};
use std::iter;

// A recovery pair (customers say: a pair of bank numbers): the banks that are opened for one read. Where b is 0, that is bank a alone
// [plan.pair].
#[derive(Clone, Copy, Debug, PartialEq, Eq)]
pub struct Pair {
    pub a: u8,
    pub b: u8,
}

// The recovery pairs of a group's reads. As the planner gives it, `len` of them are used, and the places after them hold (0, 0)
// [form.plan], [plan.places].
#[derive(Clone, Copy, Debug, Default, PartialEq, Eq)]
pub struct Plan {
    pub first: [u8; MOST_PAIRS],
    pub second: [u8; MOST_PAIRS],
    pub len: usize,
}

// Carries the laws of plans. It does nothing.
pub fn the_plans()
    ensures { ThePlans }
{}

// Whether every count is 0. (Of the planner's `is_collision_free`, a like test with the bound 1, the reason stands there.)
fn are_zero(counts: &[usize]) -> bool
    ensures { result ≡ all_zero counts.now }
{
    counts.iter().all(|c| *c == 0)
}

// The refusal of a request vector by its form: 1, then 11.
// K and the counts come apart here and in `audit`, since whether they are a request is what is judged [audit.refusals].
pub fn judge_counts(k: usize, counts: [usize; MOST_SYMBOLS]) -> Verdict
    ensures { result ≡ counts_refusal k counts }
{
    check(
        is_between(LEAST_SYMBOLS, MOST_SYMBOLS, k),
        Reason::SymbolsOutOfRange,
        0,
    )?;
    check(are_zero(&counts[k..]), Reason::ForeignCount, 0)
}

// Where the reads of each symbol start.
#[tactic(auto, using(crate::proofs::Places::start_next, cells::proofs::Turns::set_more))]
pub fn starts_of(counts: [usize; MOST_SYMBOLS]) -> [usize; MOST_SYMBOLS]
    requires { sum counts ≤ MOST_PAIRS }
    ensures { (p : ℕ) → p < MOST_SYMBOLS → slice_index result p ≡ start counts p }
{
    let mut starts = [0; MOST_SYMBOLS];
    let mut at = 0;
    // `starts` by index: of what is written through a `zip` the prover knows nothing afterwards, and the closure of `counts.map(..)` does
    // not know that its sum fits.
    for (i, count) in counts.iter().enumerate() {
        starts[i] = at;
        at += *count;
    }
    starts
}

// What the counts leave of `room`; nothing where they total more. They are taken from it one by one, since their sum may be no number of
// the machine.
pub fn take_from(room: usize, counts: [usize; MOST_SYMBOLS]) -> Option<usize>
    ensures { result ≡ rest_of room counts }
{
    counts.iter().try_fold(room, |left, c| left.checked_sub(*c))
}

// Whether the group has a bank of this number.
fn is_bank(group: Group, bank: usize) -> bool
    ensures { result ≡ between 1 group.banks bank }
{
    is_between(1, group.banks, bank)
}

// Whether the pair of banks a and b serves a symbol in a group.
fn serves_symbol(group: Group, symbol: usize, a: usize, b: usize) -> bool
    requires { symbol < MOST_SYMBOLS }
    ensures { result ≡ serves (between 1 group.banks) symbol (record { a = a; b = b }) }
{
    is_bank(group, a) && (b == 0 || is_bank(group, b)) && b < a && a ^ b == 1 << symbol
}

// Whether a bank is among those met. No `Option`: a pair has b = 0 for no second bank [plan.pair].
fn is_met(met: u64, bank: usize) -> bool
    requires { bank < 64 }
    ensures { result ≡ (not (bank == 0) && marked met bank) }
{
    bank != 0 && bits::is_marked(met, bank)
}

// Whether the bytes, two for each read, are a plan for the counts. Bank b is marked in `met` where a pair before the one at hand opens it.
// K and the counts come apart, as in the definitions; what the planner needs of a judged request besides, its own type keeps.
fn audit_pairs(k: usize, counts: [usize; MOST_SYMBOLS], bytes: &[u8]) -> bool
    requires symbols_in_range { SymbolsInRange k }
    requires even { length bytes.now ≡ sum counts * 2 }
    ensures { result ≡ is_plan (is_bank k) counts (pairs_of bytes.now) }
{
    let group = simplex::group_of(k);
    let mut met = 0;
    let (pairs, _) = bytes.as_chunks::<2>();
    // The symbol of each read: the reads stand symbol by symbol.
    let symbols = counts
        .iter()
        .enumerate()
        .flat_map(|(i, c)| iter::repeat_n(i, *c));
    for ([a, b], symbol) in pairs.iter().zip(symbols) {
        let (a, b) = (usize::from(*a), usize::from(*b));
        if !serves_symbol(group, symbol, a, b) || is_met(met, a) || is_met(met, b) {
            return false;
        }
        met = bits::with_number(bits::with_number(met, b), a);
    }
    true
}

// Audits a plan in a group of k symbols: refused with 1 or 11, or whether the bytes, two for each pair, are a plan for the counts
// [audit.yes], [audit.no], [audit.refusals].
#[tactic(auto, unfolding(crate::specs::Audit::audit_of))]
pub fn audit(k: usize, counts: [usize; MOST_SYMBOLS], bytes: &[u8]) -> Result<bool, Refusal>
    ensures { result ≡ audit_of k counts bytes.now }
{
    judge_counts(k, counts)?;
    if bytes.len() % 2 != 0 || take_from(bytes.len() / 2, counts) != Some(0) {
        return Ok(false);
    }
    Ok(audit_pairs(k, counts, bytes))
}
