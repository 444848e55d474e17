// One step of a session: what each frame does with the memory and the store, and the line that answers it.
#![tactic(auto)]

ghost use Rattle.std.specs.Prelude.{◌≡◌, List, ◌∷◌, ℕ, ◌*◌, ◌≤◌, ◌<◌, min, length};
ghost use Rattle.lines.specs.Reader.{left_of};
ghost use Rattle.frames.specs.Frame.{set_up, write, release, read, shown, first_byte};
ghost use Rattle.frames.specs.Printing.{refusal_said, said, Fits, Prints};
ghost use Rattle.steps.specs.Session.{Session, Running, set_up_refusal, frame_done, line_done};
ghost use Rattle.steps.specs.Laws.{TheRefusedLines, TheAnswers, TheSession};
ghost use Rattle.steps.specs.Steps.{Gives, Answers};
ghost use Rattle.steps.specs.Parts.{lent_size, FewReads, Tries};

use frames::{Frame, MOST_FRAME, MOST_OUTPUT, MOST_STORE};
use layout::{Geometry, Shape};
use lines::hex;
use lines::reader::Reader;
use memory::State;
use refusals::{Answer, Reason, Refusal, Verdict, check, refused};

// The bytes that a session reads [session.cut].
pub const MOST_TEXT: usize = 32768;

// The bytes of the schedule of as many reads as fit in a frame.
const MOST_SCHEDULE: usize = MOST_FRAME / 3 * 2;

// What a session has from line to line, beside its store: the memory of the last accepted 01, if there was one [session.memory].
pub type Session = Option<State>;

// What a line gives, or a text: the session, and how long its output is. A session is handed by value to a step, which gives it back, as a
// state is [form.state]. The output stands in the caller's array, since no heap is asked for: the length says how
// much of the array it is, as `Prints` does.
#[derive(Clone, Copy, Debug, PartialEq, Eq)]
pub struct Reply {
    pub session: Session,
    pub len: usize,
}

// What the next line of a text gives: its reply, and the reader moved on to the line after it.
#[derive(Clone, Copy, Debug, PartialEq, Eq)]
pub struct Next<'a> {
    pub reply: Reply,
    pub reader: Reader<'a>,
}

// Carries the laws of a session, of its refused lines and of its answers, and how much of a text it reads. It does nothing.
#[tactic(auto, using(crate::proofs::Sessions::the_session, crate::proofs::Refused::the_refused_lines, crate::proofs::Told::the_answers))]
pub fn the_session()
    ensures session { TheSession }
    ensures refused { TheRefusedLines }
    ensures answers { TheAnswers }
    ensures text { MOST_TEXT ≡ 32768 }
{}

// Prints the answer to a frame, with these packets if it is a cycle that is served. The session goes on as given.
// Store and output stand apart, here and below: what a struct of the two leaves in them, a clause could say only as `exit.1.0.now`.
fn answer(
    session: Session,
    frame: Frame<'_>,
    answer: Result<Answer, Refusal>,
    packets: &[u8],
    out: &mut [u8; MOST_OUTPUT],
) -> Reply
    requires fits { Fits answer }
    requires room { length packets.now ≤ MOST_STORE }
    ensures session { result.session ≡ session }
    ensures line { let bytes = first_byte (shown frame.entry) ∷ said packets.now answer in
        Prints bytes out.old result.len out.new }
{
    let len = frames::print_answer(frame, answer, packets, out);
    Reply { session, len }
}

// Prints the answer that refuses a frame; `first` is the answer's first byte. The session goes on as given. Apart from `answer`, since to
// pass its frame and `Result` by value takes a refused line half as many instructions again.
fn refuse(session: Session, first: u8, refusal: Refusal, out: &mut [u8; MOST_OUTPUT]) -> Reply
    requires { refusal.place < 65536 }
    ensures session { result.session ≡ session }
    ensures line { Prints (first ∷ refusal_said refusal) out.old result.len out.new }
{
    let len = frames::print_refusal(first, refusal, out);
    Reply { session, len }
}

// How many bytes of the session's store a memory of this shape is lent: as many as it needs, if there are so many; of no memory's shape,
// none.
#[tactic(auto, unfolding(crate::specs::Parts::lent_size))]
fn lent_size(shape: Shape) -> usize
    ensures { result ≡ min (lent_size shape) MOST_STORE }
{
    Geometry::try_from(shape).map_or(0, |geometry| geometry.store_size().min(MOST_STORE))
}

// The bytes of so many packets of p bytes, if there is room for them.
fn packets_size(count: usize, p: usize) -> usize
    ensures { result ≡ min (count * p) MOST_STORE }
{
    count.saturating_mul(p).min(MOST_STORE)
}

// The refusal of a set-up: 1 to 4, 20.
#[tactic(auto, unfolding(crate::specs::Session::set_up_refusal))]
fn judge_set_up(shape: Shape) -> Verdict
    ensures { result ≡ set_up_refusal shape }
{
    let geometry = Geometry::try_from(shape)?;
    let fits = geometry.store_size() <= MOST_STORE;
    check(fits, Reason::StoreTooLarge, 0)
}

// Frame 01, or its refusal.
#[tactic(auto, using(crate::proofs::Fitting::set_up_fits), unfolding(crate::specs::Session::frame_done))]
fn try_set_up(
    shape: Shape,
    store: &mut [u8; MOST_STORE],
    out: &mut [u8; MOST_OUTPUT],
) -> Result<Reply, Refusal>
    ensures { (session : Session)
        → Tries session store.old out.old (set_up shape) result store.new out.new }
{
    judge_set_up(shape)?;
    cells::clear(store);
    let outcome = State::set_up(shape);
    let frame = Frame::SetUp(shape);
    Ok(answer(Some(outcome.state), frame, outcome.answer, &[], out))
}

// Frame 02.
#[tactic(auto, using(crate::proofs::Fitting::fits_write))]
fn do_write(
    state: State,
    row: usize,
    packets: &[u8],
    store: &mut [u8; MOST_STORE],
    out: &mut [u8; MOST_OUTPUT],
) -> Reply
    ensures { let after = frame_done (Running state) store.old (write row packets.now) in
        Gives after out.old result store.new out.new }
{
    let lent = lent_size(state.shape);
    let outcome = state.write(&mut store[..lent], row, packets);
    let frame = Frame::Write(row, packets);
    answer(Some(outcome.state), frame, outcome.answer, &[], out)
}

// Frame 03.
#[tactic(auto, using(crate::proofs::Fitting::fits_release), unfolding(crate::specs::Session::frame_done))]
fn do_release(state: State, row: usize, out: &mut [u8; MOST_OUTPUT]) -> Reply
    ensures { (store : List ℕ)
        → Gives (frame_done (Running state) store (release row)) out.old result store out.new }
{
    let outcome = state.release(row);
    let frame = Frame::Release(row);
    answer(Some(outcome.state), frame, outcome.answer, &[], out)
}

// Frame 04. The schedule is not printed.
#[tactic(auto, using(crate::proofs::Fitting::fits_cycle, crate::proofs::Cycles::within))]
fn do_read(
    state: State,
    list: &[u8],
    store: &[u8; MOST_STORE],
    out: &mut [u8; MOST_OUTPUT],
) -> Reply
    requires { length list.now < MOST_FRAME }
    ensures { let after = frame_done (Running state) store.now (read list.now) in
        Gives after out.old result store.now out.new }
{
    // With room for any list, and a length: no heap is asked for.
    let mut packets = [0u8; MOST_STORE];
    let mut schedule = [0u8; MOST_SCHEDULE];
    let count = list.len() / 3;
    let size = packets_size(count, state.shape.p);
    let lent = lent_size(state.shape);
    let outcome = state.read_cycle(
        &store[..lent],
        list,
        &mut packets[..size],
        &mut schedule[..count * 2],
    );
    let frame = Frame::Read(list);
    answer(
        Some(outcome.state),
        frame,
        outcome.answer,
        &packets[..size],
        out,
    )
}

// What a frame does, by its kind, or the refusal before an operation: 1 to 4, 20; 18; 19.
#[tactic(auto, unfolding(crate::specs::Session::frame_done))]
fn try_frame(
    session: Session,
    frame: Frame<'_>,
    store: &mut [u8; MOST_STORE],
    out: &mut [u8; MOST_OUTPUT],
) -> Result<Reply, Refusal>
    requires { FewReads (shown frame) }
    ensures { Tries session store.old out.old (shown frame.entry) result store.new out.new }
{
    // By kind [form.frame]; and by the memory, for 19.
    match (frame, session) {
        (Frame::SetUp(shape), _) => try_set_up(shape, store, out),
        (Frame::Write(row, packets), Some(state)) => Ok(do_write(state, row, packets, store, out)),
        (Frame::Release(row), Some(state)) => Ok(do_release(state, row, out)),
        (Frame::Read(list), Some(state)) => Ok(do_read(state, list, store, out)),
        (Frame::Unknown, _) => refused(Reason::UnknownFrame, 0),
        (_, None) => refused(Reason::NoMemory, 0),
    }
}

// What a frame does, and the line that answers it, refused or not.
fn do_frame(
    session: Session,
    frame: Frame<'_>,
    store: &mut [u8; MOST_STORE],
    out: &mut [u8; MOST_OUTPUT],
) -> Reply
    requires { FewReads (shown frame) }
    ensures { let after = frame_done session store.old (shown frame.entry) in
        Gives after out.old result store.new out.new }
{
    match try_frame(session, frame, store, out) {
        Ok(done) => done,
        Err(refusal) => refuse(session, frame.first_byte(), refusal, out),
    }
}

// One step of a session: what a line does with the memory and the store, and the line that answers it, at the front of the output
// [session.hex] to [session.order].
#[tactic(auto, using(crate::proofs::Done::line_fits), unfolding(crate::specs::Session::line_done))]
pub fn step(
    session: Session,
    line: &[u8],
    store: &mut [u8; MOST_STORE],
    out: &mut [u8; MOST_OUTPUT],
) -> Reply
    ensures { Gives (line_done session store.old line.now) out.old result store.new out.new }
{
    match frames::judge_line(line) {
        Ok(()) => {
            let mut bytes = [0u8; MOST_FRAME];
            hex::decode(line, &mut bytes);
            let frame = frames::frame_of(&bytes[..line.len() / 2]);
            do_frame(session, frame, store, out)
        }
        Err(refusal) => refuse(session, Frame::Unknown.first_byte(), refusal, out),
    }
}

// One step of a session over a text: answers the line that a reader finds next, if one is left.
pub fn answer_next<'a>(
    reader: Reader<'a>,
    session: Session,
    store: &mut [u8; MOST_STORE],
    out: &mut [u8; MOST_OUTPUT],
) -> Option<Next<'a>>
    ensures { Answers session store.old (left_of reader.entry) out.old result store.new out.new }
{
    let (line, reader) = reader.next_line()?;
    let reply = step(session, line, store, out);
    Some(Next { reply, reader })
}
