// A memory: its state, and the operations that set it up, write a row, update a packet of one, release one or several and read packets.
#![tactic(auto)]

ghost use Rattle.std.specs.Prelude.{◌≡◌, length, Ok};
ghost use Rattle.bits.specs.Marks.{marked};
ghost use Rattle.refusals.specs.Verdict.{number_of, answer_by};
ghost use Rattle.layout.specs.Judged.{Judged};
ghost use Rattle.memory.specs.State.{empty, with_rows, row_filled, row_emptied, rows_emptied};
ghost use Rattle.memory.specs.Operations.{ready, set_up_of, outcome_after, state_refusal, store_refusal, write_refusal, write_outcome, write_store, update_refusal, update_outcome, update_store, release_refusal, release_outcome, each_row, release_set_refusal, release_set_outcome, cycle_refusal, cycle_outcome, cycle_output, cycle_schedule};
ghost use Rattle.reads.specs.Reads.{reads_in};
ghost use Rattle.cycle.specs.Served.{PlansAudited, SystematicLines};
ghost use Rattle.refusals.specs.declared.Answer.TheVariants.{Served};
ghost use Rattle.memory.specs.CycleLaw.{CycleLaw};
ghost use Rattle.memory.specs.Laws.{StateLaws, SetUpLaws, WriteLaws, UpdateLaws, ReleaseLaws, ReleaseSetLaws, CycleLaws};
ghost use Rattle.memory.specs.History.{RecallLaw};

use layout::{Geometry, PacketName, Rows, Shape, Store};
use refusals::{Answer, Reason, Refusal, Verdict, check, refused};
use simplex::Group;

// What a memory's operations are given and give back [state.content], [form.state].
#[derive(Clone, Copy, Debug, Default, PartialEq, Eq)]
pub struct State {
    pub shape: Shape,
    pub rows: Rows,
}

// What an operation gives: the state, and its answer or refusal. The state comes back refused or not, so it stands beside the `Result`:
// refused, it is the one that was given, and after a refused set-up one of zeros.
#[derive(Clone, Copy, Debug, PartialEq, Eq)]
pub struct Outcome {
    pub state: State,
    pub answer: Result<Answer, Refusal>,
}

impl Outcome {
    // What an operation gives by the state after it, or its refusal.
    fn of(before: State, after: Result<State, Refusal>) -> Outcome
        ensures { result ≡ outcome_after before after }
    {
        Outcome {
            state: after.unwrap_or(before),
            answer: after.map(|state| Answer::FullRows(state.rows.full_count())),
        }
    }
}

// Carries the laws of the memory. It does nothing.
pub fn the_memory()
    ensures states { StateLaws }
    ensures set_ups { SetUpLaws }
    ensures writes { WriteLaws }
    ensures updates { UpdateLaws }
    ensures releases { ReleaseLaws }
    ensures release_sets { ReleaseSetLaws }
    ensures cycles { CycleLaws }
    ensures recall { RecallLaw }
{}

// What set-up answers.
#[tactic(auto, using(simplex::proofs::Tables::banks_of_lem))]
fn ready(geometry: Geometry) -> Answer
    ensures { result ≡ ready geometry.shape }
{
    let Shape { k, m, .. } = geometry.shape;
    let Group { banks, limit } = simplex::group_of(k);
    Answer::Ready {
        banks: m * banks,
        most_reads: limit,
    }
}

// Accepted where every row of a set is in another; else refused for this reason, at the first that isn't.
#[tactic(auto, using(crate::proofs::Emptying::refused_by_first, crate::proofs::Emptying::accepted_by_first))]
fn judge_rows(reason: Reason, set: u64, within: u64) -> Verdict
    ensures { result ≡ each_row (number_of reason) set (marked within) }
{
    bits::first(bits::without(set, within)).map_or(Ok(()), |row| refused(reason, row))
}

impl State {
    // A state of this shape, with every row empty.
    fn empty(shape: Shape) -> State
        ensures { result ≡ empty shape }
    {
        State {
            shape,
            rows: Rows::default(),
        }
    }

    // Sets up a memory with every row empty, and answers how many banks it has in all and how many reads a group serves at most; or
    // refuses the shape: 1 to 4 [set-up.state] to [set-up.refusals].
    pub fn set_up(shape: Shape) -> Outcome
        ensures { result ≡ set_up_of shape }
    {
        match Geometry::try_from(shape) {
            Ok(geometry) => Outcome {
                state: State::empty(shape),
                answer: Ok(ready(geometry)),
            },
            Err(refusal) => Outcome {
                state: State::default(),
                answer: Err(refusal),
            },
        }
    }

    // The geometry of a state that is not broken; else 5: it breaks set-up's ranges, or a row from G on is full.
    #[tactic(auto, unfolding(crate::specs::State::sound))]
    fn judge(self) -> Result<Geometry, Refusal>
        ensures { Judged self.shape (state_refusal self) result }
    {
        match Geometry::try_from(self.shape) {
            Ok(geometry) if self.rows.none_from(self.shape.g) => Ok(geometry),
            _ => refused(Reason::BrokenState, 0),
        }
    }

    // The geometry where a store of this length is lent, or the refusal: 5, 6.
    fn judge_store(self, size: usize) -> Result<Geometry, Refusal>
        ensures { Judged self.shape (store_refusal self size) result }
    {
        let geometry = self.judge()?;
        check(size == geometry.store_size(), Reason::StoreLength, 0)?;
        Ok(geometry)
    }

    // The state with these rows.
    fn with_rows(self, rows: Rows) -> State
        ensures { result ≡ with_rows self rows }
    {
        State { rows, ..self }
    }

    // The state after a write of a generation to an empty row, or its refusal: 5, 6, 7, 8, 10.
    #[tactic(auto, unfolding(crate::specs::Operations::write_refusal))]
    fn try_write(self, store: &mut [u8], row: usize, generation: &[u8]) -> Result<State, Refusal>
        ensures after { result ≡ answer_by (row_filled self row)
            (write_refusal self (length store.old) row (length generation.now)) }
        ensures store { store.new ≡ write_store self store.old row generation.now }
    {
        let geometry = self.judge_store(store.len())?;
        check(row < self.shape.g, Reason::NoSuchRow, 0)?;
        check(self.rows.is_empty(row), Reason::FullRow, 0)?;
        let whole = generation.len() == geometry.generation_size();
        check(whole, Reason::PacketsLength, 0)?;
        rows::write_row(store, geometry, row, generation);
        Ok(self.with_rows(self.rows.with_full(row)))
    }

    // Writes a generation, m·K packets, to an empty row, which it makes full; or refuses: 5, 6, 7, 8, 10 [write.cells] to [write.refusals].
    #[tactic(auto, using(crate::proofs::States::outcome))]
    pub fn write(self, store: &mut [u8], row: usize, generation: &[u8]) -> Outcome
        ensures outcome { result ≡ write_outcome self
            (length store.old) row (length generation.now) }
        ensures store { store.new ≡ write_store self store.old row generation.now }
    {
        Outcome::of(self, self.try_write(store, row, generation))
    }

    // The state after an update, as it was, or its refusal: 5, 6, 7, 14, 15, 9, 10.
    #[tactic(auto, unfolding(crate::specs::Operations::update_refusal))]
    fn try_update(self, store: &mut [u8], name: PacketName, packet: &[u8]) -> Result<State, Refusal>
        ensures after { result ≡ answer_by self
            (update_refusal self (length store.old) name (length packet.now)) }
        ensures store { store.new ≡ update_store self store.old name packet.now }
    {
        let geometry = self.judge_store(store.len())?;
        reads::judge_packet(geometry, self.rows, name, 0)?;
        check(packet.len() == self.shape.p, Reason::PacketsLength, 0)?;
        rows::update_packet(store, geometry, name, packet);
        Ok(self)
    }

    // Changes one packet of a full row (customers say: a patch). In that row the XOR of two packets, the one that the systematic bank
    // has and the new one, is XORed into the cells of the group's 2^(K-1) banks with that symbol. The state stays as it is. Or
    // refuses: 5, 6, 7, 14, 15, 9, 10 [update.cells] to [update.refusals].
    #[tactic(auto, using(crate::proofs::States::outcome))]
    pub fn update(self, store: &mut [u8], name: PacketName, packet: &[u8]) -> Outcome
        ensures outcome { result ≡ update_outcome self (length store.old) name (length packet.now) }
        ensures store { store.new ≡ update_store self store.old name packet.now }
    {
        Outcome::of(self, self.try_update(store, name, packet))
    }

    // The state after a release, or its refusal: 5, 7, 9.
    #[tactic(auto, unfolding(crate::specs::Operations::release_refusal))]
    fn try_release(self, row: usize) -> Result<State, Refusal>
        ensures { result ≡ answer_by (row_emptied self row) (release_refusal self row) }
    {
        self.judge()?;
        check(row < self.shape.g, Reason::NoSuchRow, 0)?;
        check(self.rows.is_full(row), Reason::EmptyRow, 0)?;
        Ok(self.with_rows(self.rows.with_empty(row)))
    }

    // Makes a full row empty; or refuses: 5, 7, 9. No byte of a store changes: it is given none [release.row] to [release.refusals].
    #[tactic(auto, using(crate::proofs::States::outcome))]
    pub fn release(self, row: usize) -> Outcome
        ensures { result ≡ release_outcome self row }
    {
        Outcome::of(self, self.try_release(row))
    }

    // The state after a release of a row set, or its refusal: 5; 7 at its first row that is not there; then 9 at its first empty row.
    #[tactic(auto, using(crate::proofs::Emptying::there_by_set))]
    fn try_release_set(self, set: u64) -> Result<State, Refusal>
        ensures { result ≡ answer_by (rows_emptied self set) (release_set_refusal self set) }
    {
        self.judge()?;
        judge_rows(Reason::NoSuchRow, set, bits::below(self.shape.g))?;
        judge_rows(Reason::EmptyRow, set, self.rows.full_set())?;
        Ok(self.with_rows(self.rows.without(set)))
    }

    // Makes every row of a set empty: row r where bit r is set. Or refuses, and then none is: 5; 7 at its first row that is not there;
    // then 9 at its first empty row. No byte of a store changes: it is given none [release-set.marks] to [release-set.refusals].
    #[tactic(auto, using(crate::proofs::States::outcome))]
    pub fn release_set(self, set: u64) -> Outcome
        ensures { result ≡ release_set_outcome self set }
    {
        Outcome::of(self, self.try_release_set(set))
    }

    // A read cycle's answer, or its refusal: 5, 6, 13, read by read 7, 14, 15, 9, then 12, 16.
    // Output and schedule stand apart, here and below: what a struct of the two leaves in them, a clause could say only as `exit.1.0.now`.
    #[tactic(auto, unfolding(crate::specs::Operations::cycle_refusal))]
    fn try_read_cycle(
        self,
        store: &[u8],
        list: &[u8],
        out: &mut [u8],
        schedule: &mut [u8],
    ) -> Result<Answer, Refusal>
        ensures answer { result ≡ answer_by Served
            (cycle_refusal self (length store.now) list.now
            (length out.old) (length schedule.old)) }
        ensures output { out.new ≡ cycle_output self store.now list.now out.old schedule.old }
        ensures lines { schedule.new ≡ cycle_schedule self store.now list.now out.old schedule.old }
    {
        let geometry = self.judge_store(store.len())?;
        let store = Store {
            geometry,
            bytes: store,
        };
        cycle::run(store, self.rows, list, out, schedule)?;
        Ok(Answer::Served)
    }

    // Serves a list of reads (customers say: asks; three bytes each: row, group, symbol) in one cycle: the packets to the output, P bytes
    // each, and the banks opened for each to the schedule (customers say: the sheet), two bytes each, systematic banks alone in a group
    // where no symbol is read more than once; or refuses: 5, 6, 13, read by read 7, 14, 15, 9, then 12, 16. The store is lent for reading
    // only [cycle.list] to [cycle.refusals], [promise.cycle].
    #[tactic(auto, using(crate::proofs::Cycles::cycle_law))]
    pub fn read_cycle(
        self,
        store: &[u8],
        list: &[u8],
        out: &mut [u8],
        schedule: &mut [u8],
    ) -> Outcome
        ensures outcome { result ≡ cycle_outcome self (length store.now) list.now
            (length out.old) (length schedule.old) }
        ensures output { out.new ≡ cycle_output self store.now list.now out.old schedule.old }
        ensures lines { schedule.new ≡ cycle_schedule self store.now list.now out.old schedule.old }
        ensures cycle_law { CycleLaw self store.now list.now (length out.old) (length schedule.old)
            result.answer out.new schedule.new }
        ensures plans { result.answer ≡ Ok Served → PlansAudited self.shape (reads_in list.now) }
        ensures systematic { result.answer ≡ Ok Served →
            SystematicLines (reads_in list.now) schedule.new }
    {
        Outcome {
            state: self,
            answer: self.try_read_cycle(store, list, out, schedule),
        }
    }
}
