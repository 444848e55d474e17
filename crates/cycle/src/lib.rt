// A read cycle: its list is judged, its reads are counted by group and symbol, each group is planned, and every read is served.
#![tactic(auto)]

ghost use Rattle.std.specs.Prelude.{◌≡◌, ◌≢◌, ℕ, ◌+◌, ◌*◌, ◌≤◌, ◌<◌, length, slice_index, IfOk};
ghost use Rattle.refusals.specs.Verdict.{verdict_of, if_refused, first_refusal};
ghost use Rattle.cells.specs.Cell.{put};
ghost use Rattle.audit.specs.Plan.{opens};
ghost use Rattle.plan.specs.Planned.{plan_of, plan_refusal};
ghost use Rattle.layout.specs.Shape.{CellOf, banks};
ghost use Rattle.layout.specs.Occupancy.{is_full};
ghost use Rattle.reads.specs.Reads.{names_of, reads_in};
ghost use Rattle.reads.specs.Refusals.{group_refusal, reads_refusal, list_refusal};
ghost use Rattle.reads.specs.Parts.{Named, Few};
ghost use Rattle.cycle.specs.Cycle.{plans_of, xor_of_cells, packets_out, lines_out};
ghost use Rattle.cycle.specs.Laws.{TheCycle};
ghost use Rattle.cycle.specs.Parts.{GroupAfter, GroupsAfter};

use audit::{Pair, Plan};
use layout::{Geometry, MOST_GROUPS, PacketName, Rows, Store};
use refusals::{Reason, Refusal, Verdict, check};
use simplex::{MOST_PAIRS, MOST_SYMBOLS};

// The reads of a group: their plan, and for each symbol where its next pair stands in it. By default those of a group that no read names.
// Its place is a number: an iterator would borrow the plan that stands beside it.
#[derive(Clone, Copy, Debug, Default, PartialEq, Eq)]
struct GroupReads {
    plan: Plan,
    next: [usize; MOST_SYMBOLS],
}

impl GroupReads {
    // The next pair of a symbol, which is handed out.
    fn next_pair(&mut self, symbol: usize) -> Pair
        requires { (symbol < MOST_SYMBOLS) × (slice_index self.old.next symbol < MOST_PAIRS) }
        ensures first { let slot = slice_index self.old.next symbol in
            result.a ≡ slice_index self.old.plan.first slot }
        ensures second { let slot = slice_index self.old.next symbol in
            result.b ≡ slice_index self.old.plan.second slot }
        ensures plan { self.new.plan ≡ self.old.plan }
        ensures later { slice_index self.new.next symbol ≡ slice_index self.old.next symbol + 1 }
        ensures others { (other : ℕ) → other ≢ symbol
            → slice_index self.new.next other ≡ slice_index self.old.next other }
    {
        let slot = self.next[symbol];
        self.next[symbol] += 1;
        Pair {
            a: self.plan.first[slot],
            b: self.plan.second[slot],
        }
    }
}

// Carries the laws of what a cycle puts out. It does nothing.
pub fn the_cycle()
    ensures { TheCycle }
{}

// Plans the reads of a group, of which none is served yet.
#[tactic(auto, unfolding(plan::specs::Planned::plan_answer, plan::specs::Planned::plan_refusal))]
fn begin_group(geometry: Geometry, counts: [usize; MOST_SYMBOLS]) -> Result<GroupReads, Refusal>
    ensures verdict { verdict_of result ≡ plan_refusal geometry.shape.k counts }
    ensures planned { let pairs = plan_of geometry.shape.k counts in
        IfOk result (GroupAfter pairs counts (λ symbol. 0)) }
{
    let plan = plan::plan_group(geometry.shape.k, counts)?;
    Ok(GroupReads {
        plan,
        next: audit::starts_of(counts),
    })
}

// Plans each group of some reads; or refuses with 12 and the lowest group that has too many.
fn begin_groups(geometry: Geometry, reads: &[[u8; 3]]) -> Result<[GroupReads; MOST_GROUPS], Refusal>
    requires { Named geometry.shape (names_of reads.now) }
    ensures verdict { let shape = geometry.shape in
        verdict_of result ≡ first_refusal (group_refusal shape (names_of reads.now)) shape.m }
    ensures plans { let names = names_of reads.now in
        IfOk result (GroupsAfter (plans_of geometry.shape.k names) names 0 geometry.shape.m) }
{
    let counts = reads::count_reads(reads);
    let mut groups = [GroupReads::default(); MOST_GROUPS];
    // Written by number: a proof knows nothing of what a `zip` over `groups.iter_mut()` has written, and of a refusal by
    // `array::try_from_fn` its contract says only that it is some group's.
    for (x, own) in counts[..geometry.shape.m].iter().enumerate() {
        groups[x] = begin_group(geometry, *own).map_err(|refusal| Refusal {
            place: x,
            ..refusal
        })?;
    }
    Ok(groups)
}

// The cell of `out` at `at` becomes the XOR of the cells of a pair's banks, in the row and the group of a packet. A cell goes by group,
// bank and row as three numbers: a `PacketName` has a symbol in the bank's place.
#[tactic(auto, using(crate::proofs::Serving::long_here, crate::proofs::Serving::read_one, crate::proofs::Serving::read_two))]
fn read_packet(out: &mut [u8], at: usize, store: Store<'_>, name: PacketName, pair: Pair)
    requires room { at + store.geometry.shape.p ≤ length out.old }
    requires first_there { CellOf store.geometry.shape name.group pair.a name.row }
    requires second_there { pair.b ≤ banks store.geometry.shape }
    ensures { let shape = store.entry.geometry.shape in
        let banks = opens pair.a pair.b in
        out.new ≡ put out.old at
        (xor_of_cells shape store.entry.bytes.now name.group name.row banks) }
{
    let first = store.cell_at(name.group, usize::from(pair.a), name.row);
    if pair.b == 0 {
        cells::copy_into(out, at, first);
    } else {
        let second = store.cell_at(name.group, usize::from(pair.b), name.row);
        cells::xor_cells(out, at, first, second);
    }
}

// Serves every read: each symbol's pairs are handed out in their order.
// Output and schedule stand apart, here and in `run`: what a struct of the two leaves in them, a clause could say only as `exit.1.0.now`.
fn serve(
    store: Store<'_>,
    reads: &[[u8; 3]],
    mut groups: [GroupReads; MOST_GROUPS],
    out: &mut [u8],
    schedule: &mut [u8],
)
    requires named { Named store.geometry.shape (names_of reads.now) }
    requires few { Few store.geometry.shape (names_of reads.now) }
    requires planned { let names = names_of reads.now in
        GroupsAfter (plans_of store.geometry.shape.k names) names 0 store.geometry.shape.m groups }
    requires out_len { length out.old ≡ length reads.now * store.geometry.shape.p }
    requires schedule_len { length schedule.old ≡ length reads.now * 2 }
    ensures output { let names = names_of reads.now in
        let shape = store.entry.geometry.shape in
        out.new ≡ packets_out shape (plans_of shape.k names) store.entry.bytes.now names out.old }
    ensures lines { let names = names_of reads.now in
        schedule.new ≡ lines_out (plans_of store.entry.geometry.shape.k names) names schedule.old }
{
    let p = store.geometry.shape.p;
    // By number: a proof knows nothing of what a `zip` over `out.chunks_exact_mut(p)` and `schedule.as_chunks_mut::<2>()` has written.
    for (n, read) in reads.iter().enumerate() {
        let name = PacketName::from(*read);
        let pair = groups[name.group].next_pair(name.symbol);
        cells::copy_into(schedule, n * 2, &[pair.a, pair.b]);
        read_packet(out, n * p, store, name, pair);
    }
}

// A read cycle over reads, with these rows full: refused, or served. Read by read 7, 14, 15, 9; 12; 16.
// The full rows come beside the store, since they are the state's.
#[tactic(auto, using(reads::proofs::Cutting::names_many))]
fn run_reads(
    store: Store<'_>,
    rows: Rows,
    reads: &[[u8; 3]],
    out: &mut [u8],
    schedule: &mut [u8],
) -> Verdict
    ensures verdict { let shape = store.entry.geometry.shape in
        result ≡ reads_refusal shape (is_full rows) (names_of reads.now)
        (length out.old) (length schedule.old) }
    ensures output { let names = names_of reads.now in
        let shape = store.entry.geometry.shape in
        out.new ≡ if_refused out.old
        (packets_out shape (plans_of shape.k names) store.entry.bytes.now names out.old) result }
    ensures lines { let names = names_of reads.now in
        schedule.new ≡ if_refused schedule.old
        (lines_out (plans_of store.entry.geometry.shape.k names) names schedule.old) result }
{
    let geometry = store.geometry;
    reads::judge_reads(geometry, rows, reads)?;
    let groups = begin_groups(geometry, reads)?;
    let p = geometry.shape.p;
    let fit = reads::buffers_fit(p, reads.len(), out.len(), schedule.len());
    check(fit, Reason::BufferLengths, 0)?;
    serve(store, reads, groups, out, schedule);
    Ok(())
}

// A read cycle over a store, with these rows full: refused, or served. 13; then what its reads are refused for. A list comes as bytes, and
// is cut into reads here. The cycle is a part of the memory's, which tests the state and the store before it.
#[tactic(auto, unfolding(reads::specs::Refusals::list_refusal))]
pub fn run(
    store: Store<'_>,
    rows: Rows,
    list: &[u8],
    out: &mut [u8],
    schedule: &mut [u8],
) -> Verdict
    ensures verdict { let shape = store.entry.geometry.shape in
        result ≡ list_refusal shape (is_full rows) list.now
        (length out.old) (length schedule.old) }
    ensures output { let reads = reads_in list.now in
        let shape = store.entry.geometry.shape in
        out.new ≡ if_refused out.old
        (packets_out shape (plans_of shape.k reads) store.entry.bytes.now reads out.old) result }
    ensures lines { let reads = reads_in list.now in
        schedule.new ≡ if_refused schedule.old
        (lines_out (plans_of store.entry.geometry.shape.k reads) reads schedule.old) result }
{
    check(list.len() % 3 == 0, Reason::ListLength, 0)?;
    let (reads, _) = list.as_chunks::<3>();
    run_reads(store, rows, reads, out, schedule)
}
