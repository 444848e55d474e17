// How an operation answers: what it says where it is accepted; where not, the reasons, a refusal with its place, and a check that gives it.
#![tactic(auto)]

ghost use Rattle.std.specs.Prelude.{◌≡◌, Some};
ghost use Rattle.refusals.specs.Verdict.{between, number_of, refused, check};
ghost use Rattle.refusals.specs.Text.{refusal_text, answer_text};
ghost use Rattle.refusals.specs.Laws.{TheNumbers};

use std::error::Error;
use std::fmt;

// Why an operation says no, in the order of the refusals' numbers, from 1 to 20 [refusal.1] to [refusal.20].
#[derive(Clone, Copy, Debug, PartialEq, Eq)]
pub enum Reason {
    SymbolsOutOfRange = 1,
    GroupsOutOfRange,
    PacketSizeOutOfRange,
    RowsOutOfRange,
    BrokenState,
    StoreLength,
    NoSuchRow,
    FullRow,
    EmptyRow,
    PacketsLength,
    ForeignCount,
    TooManyReads,
    ListLength,
    NoSuchGroup,
    NoSuchSymbol,
    BufferLengths,
    NoHexadecimal,
    UnknownFrame,
    NoMemory,
    StoreTooLarge,
}

// A refusal: its reason and its place [refusal.place].
#[derive(Clone, Copy, Debug, PartialEq, Eq)]
pub struct Refusal {
    pub reason: Reason,
    pub place: usize,
}

// What an accepted operation answers. A set-up: the banks of all groups, and the limit of one. A write, an update, a release: how many rows
// are full with it. A read cycle: that it is served [form.answer].
#[derive(Clone, Copy, Debug, PartialEq, Eq)]
pub enum Answer {
    Ready { banks: usize, most_reads: usize },
    FullRows(usize),
    Served,
}

// Accepted, or refused.
pub type Verdict = Result<(), Refusal>;

impl Reason {
    // The number of a refusal for this reason.
    pub fn number(self) -> u8
        ensures { result ≡ number_of self }
    {
        // `as` gives an enum's number, and no `From` does.
        self as u8
    }
}

impl fmt::Display for Refusal {
    ghost output = { λ refusal. Some (refusal_text refusal) };

    fn fmt<W: fmt::Write>(&self, f: &mut fmt::Formatter<W>) -> fmt::Result {
        write!(f, "refused {}, place {}", self.reason.number(), self.place)
    }
}

impl Error for Refusal {}

impl fmt::Display for Answer {
    ghost output = { λ answer. Some (answer_text answer) };

    fn fmt<W: fmt::Write>(&self, f: &mut fmt::Formatter<W>) -> fmt::Result {
        match self {
            Answer::Ready { banks, most_reads } => {
                write!(f, "banks {banks}, most reads of a group {most_reads}")
            }
            Answer::FullRows(rows) => write!(f, "full rows {rows}"),
            Answer::Served => write!(f, "served"),
        }
    }
}

// Carries the laws of refusals. It does nothing.
pub fn the_refusals()
    ensures { TheNumbers }
{}

// Refused for this reason, at this place.
pub fn refused<T>(reason: Reason, place: usize) -> Result<T, Refusal>
    ensures { result ≡ refused (number_of reason) place }
{
    Err(Refusal { reason, place })
}

// Accepted if a test is passed, else refused for this reason, at this place.
pub fn check(passed: bool, reason: Reason, place: usize) -> Verdict
    ensures { result ≡ check (number_of reason) place passed }
{
    if passed {
        Ok(())
    } else {
        refused(reason, place)
    }
}

// Whether `n` is from `low` to `high`.
pub fn is_between(low: usize, high: usize, n: usize) -> bool
    ensures { result ≡ between low high n }
{
    (low..=high).contains(&n)
}
