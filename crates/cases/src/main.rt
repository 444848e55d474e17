// Plans requests. A request is how often each packet of one group is read in a cycle; its plan says which banks each of these reads opens,
// no bank twice. Requests come from standard input, one a line: K, which is the number of packets in the group (2 to 5), and five counts, of
// which those behind the Kth are 0, with one space between, as in `5 4 3 3 3 3`. Each line is answered by a line:
//
//     K 5, counts 4 3 3 3 3: (11,10) (25,24) .. (28,12); the audit says yes
//     K 2, counts 2 1 0 0 0: refused 12, place 0
//     line 7: six numbers are needed, K and five counts, and these are 4
//
// The first is a plan, a pair of banks for each read (the second is 0 where one bank is opened) [plan.pairs], and whether the audit finds it
// right. The second refuses a request [plan.refusals]: with 1 where K is not 2 to 5, 11 where a count behind the Kth is not 0, 12 where there
// are more reads than the group serves in a cycle, 2^(K-1). The third is for a line that is no request: its number, from 1, and what is wrong
// with it. At most 32,768 bytes are read. Of a longer text the lines that end within them are answered, and one line more says where it was
// left.
//
//     cases [--self-test] < requests
//
// With --self-test, the self-test follows: every request there is, of every K, that totals at most one read more than the limit; then read
// cycles of a memory at each K, served and refused, as cycles.rt says; set-ups and a small memory, as refused.rt says; releases of row sets,
// as sets.rt says; last, updates of packets, as updates.rt says.
//
// The exit status is 0 where each line was a request, refused or not, and the text was read to its end; else 1, also where reading or
// writing failed; and 2 where the program is called with other words, which it says on standard error.
//
// With L = 2^(K-1), C(L+K, K) requests total at most L and ask K * C(L+K, K+1) reads, and C(L+K, K-1) total L + 1. tools/cases.py computes
// these, and judges each plan and refusal of the requests by the rules, with no planner in it: which plan a request gets is free [plan.own],
// except where no packet is read more than once (2^K requests) [plan.systematic]. All plans but that of no reads have a first pair.
#![tactic(auto)]

ghost use Rattle.std.specs.Prelude.{◌≤◌, ◌<◌};
ghost use Rattle.simplex.specs.Shape.{SymbolsInRange};

mod cycles;
mod memories;
mod refused;
mod requests;
mod sets;
mod show;
mod updates;

use audit::Plan;
use refusals::{Reason, Refusal};
use simplex::{LEAST_SYMBOLS, MOST_PAIRS, MOST_SYMBOLS};
use std::env::FillError;
use std::num::Saturating;
use std::process::ExitCode;
use std::rt::Env;
use std::{array, fmt, io, mem};

// The word that asks for the self-test.
const SELF_TEST: &[u8] = b"--self-test";

const USAGE: &str =
    "usage: cases [--self-test] < requests, one a line: K and five counts, with one space between";

// What is asked of one group: its K, and how often each symbol is read. It is input that nothing has judged, so it may be one that plan's
// own Request, which is within the limit, cannot be.
#[derive(Clone, Copy, Debug, PartialEq, Eq)]
struct Request {
    k: usize,
    counts: [usize; MOST_SYMBOLS],
}

// A plan's pairs, as they are printed.
#[derive(Clone, Copy, Debug, PartialEq, Eq)]
struct Pairs(Plan);

// What a run over many requests counts: those within the limit, the plans that the audit says yes to and their pairs, the plans that open
// one bank a read for requests that read no symbol twice, the requests of one read more, the refusals by number 12, and the plans, each
// with the banks of its first pair exchanged, that the audit says no to. No run comes near the largest number.
#[derive(Clone, Copy, Debug, Default, PartialEq, Eq)]
struct Tally {
    within: Saturating<usize>,
    passed: Saturating<usize>,
    pairs: Saturating<usize>,
    systematic: Saturating<usize>,
    above: Saturating<usize>,
    refused: Saturating<usize>,
    denied: Saturating<usize>,
}

// The pairs of a plan, used or not.
fn pairs_of(plan: Plan) -> [[u8; 2]; MOST_PAIRS] {
    array::from_fn(|n| [plan.first[n], plan.second[n]])
}

impl fmt::Display for Request {
    fn fmt<W: fmt::Write>(&self, f: &mut fmt::Formatter<W>) -> fmt::Result {
        write!(f, "K {}, counts", self.k)?;
        for count in &self.counts {
            write!(f, " {count}")?;
        }
        Ok(())
    }
}

impl fmt::Display for Pairs {
    fn fmt<W: fmt::Write>(&self, f: &mut fmt::Formatter<W>) -> fmt::Result {
        for [a, b] in pairs_of(self.0).iter().take(self.0.len) {
            write!(f, " ({a},{b})")?;
        }
        Ok(())
    }
}

impl fmt::Display for Tally {
    fn fmt<W: fmt::Write>(&self, f: &mut fmt::Formatter<W>) -> fmt::Result {
        write!(f, "requests within the limit {}, ", self.within)?;
        write!(f, "plans that the audit says yes to {}, ", self.passed)?;
        write!(f, "pairs in them {}, ", self.pairs)?;
        write!(
            f,
            "plans of one bank a read where no symbol is read twice {}, ",
            self.systematic
        )?;
        write!(f, "exchanged and said no to {}; ", self.denied)?;
        write!(f, "requests of one read more {}, ", self.above)?;
        write!(f, "refused 12 {}", self.refused)
    }
}

impl Request {
    fn plan(self) -> Result<Plan, Refusal> {
        plan::plan_group(self.k, self.counts)
    }

    // Audits the first pairs of a plan, as many as it says.
    fn audit(self, plan: Plan) -> Result<bool, Refusal> {
        let pairs = pairs_of(plan);
        let Some(used) = pairs.get(..plan.len) else {
            return Ok(false);
        };
        audit::audit(self.k, self.counts, used.as_flattened())
    }

    // Whether the audit says yes to a plan.
    fn is_passed(self, plan: Plan) -> bool {
        self.audit(plan) == Ok(true)
    }

    // Whether the audit says no to a plan when the banks of its first pair are exchanged.
    fn is_denied(self, plan: Plan) -> bool {
        let Plan {
            mut first,
            mut second,
            len,
        } = plan;
        mem::swap(&mut first[0], &mut second[0]);
        self.audit(Plan { first, second, len }) == Ok(false)
    }
}

// Whether every read of a plan opens one bank.
fn is_systematic(plan: Plan) -> bool {
    plan.second.iter().all(|b| *b == 0)
}

impl Tally {
    // Plans one request, and counts the answer.
    fn count(&mut self, request: Request) {
        match request.plan() {
            Ok(plan) => self.count_plan(request, plan),
            Err(refusal) if refusal.reason == Reason::TooManyReads => self.refused += 1,
            Err(_) => {}
        }
    }

    fn count_plan(&mut self, request: Request, plan: Plan) {
        if request.is_passed(plan) {
            self.passed += 1;
            self.pairs += plan.len;
        }
        if plan::is_collision_free(request.counts) && is_systematic(plan) {
            self.systematic += 1;
        }
        if request.is_denied(plan) {
            self.denied += 1;
        }
    }
}

// The counts of request x of those whose counts are each below `base`: the digits of x.
fn counts_of(x: usize, base: usize) -> [usize; MOST_SYMBOLS]
    requires { 1 ≤ base }
{
    let mut rest = x;
    array::from_fn(|_| {
        let count = rest % base;
        rest /= base;
        count
    })
}

// Every request of k symbols that totals at most one read more than the limit. They are among those whose counts are each at most that.
// K comes alone, here and to the cycles, since the program goes over the range itself.
fn show_requests(rt: &impl Print, k: usize) -> io::Result<()>
    requires { SymbolsInRange k }
{
    let most = simplex::group_of(k).limit + 1;
    let base = most + 1;
    // `as`, since u32 has no From<usize>.
    let many = base.saturating_pow(k as u32);
    let mut tally = Tally::default();
    for counts in (0..many).map(
        |x|
            requires { 1 ≤ base }
        { counts_of(x, base) },
    ) {
        match audit::take_from(most, counts) {
            // It is one read more.
            Some(0) => tally.above += 1,
            Some(_) => tally.within += 1,
            None => continue,
        }
        tally.count(Request { k, counts });
    }
    println!(rt; "K {k}: {tally}")
}

// Whether the self-test is asked for, by the words behind the program's name; none where it is called wrongly.
fn asks_self_test(rt: &impl Env) -> Option<bool> {
    let mut word = [0; SELF_TEST.len()];
    match (rt.arg(1, &mut word), rt.arg(2, &mut [])) {
        (Err(FillError::NotPresent), _) => Some(false),
        (Ok(len), Err(FillError::NotPresent)) if &word[..len] == SELF_TEST => Some(true),
        _ => None,
    }
}

// Prints the self-test.
fn self_test(rt: &impl Print) -> io::Result<()> {
    for k in LEAST_SYMBOLS..=MOST_SYMBOLS {
        show_requests(rt, k)?;
    }
    cycles::run(rt)?;
    refused::run(rt)?;
    sets::run(rt)?;
    updates::run(rt)
}

fn main(rt: HostRuntime) -> io::Result<ExitCode> {
    let Some(has_self_test) = asks_self_test(&rt) else {
        eprintln!(rt; "{USAGE}")?;
        return Ok(ExitCode::from(2));
    };
    let all_right = requests::answer_all(rt.reader(), &mut io::writer(&rt))?;
    if has_self_test {
        self_test(&rt)?;
    }
    Ok(if all_right {
        ExitCode::SUCCESS
    } else {
        ExitCode::FAILURE
    })
}
