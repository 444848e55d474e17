// Frames and answers of a session: what a line is read as, and how an answer is written.
#![tactic(auto)]

ghost use Rattle.std.specs.Prelude.{◌≡◌, ◌∷◌, ◌++◌, ◌+◌, ◌*◌, ◌≤◌, ◌<◌, length};
ghost use Rattle.frames.specs.Bounds.{TheBounds};
ghost use Rattle.frames.specs.Frame.{line_refusal, shown, set_up_frame, write_frame, release_frame, frame_of, first_byte};
ghost use Rattle.frames.specs.Printing.{refusal_said, said, Fits, Prints};
ghost use Rattle.frames.specs.Laws.{TheFrames};

use layout::Shape;
use lines::hex;
use refusals::{Answer, Reason, Refusal, Verdict, check, is_between};

// The most characters of a line, and the bytes of the longest frame [session.hex].
pub const MOST_CHARACTERS: usize = 4096;

pub const MOST_FRAME: usize = MOST_CHARACTERS / 2;

// The bytes of a session's store, and room for any output line: of the first byte, 00 and an answer's values, at most two, and behind them
// packets [session.store].
pub const MOST_STORE: usize = 16384;

pub const MOST_OUTPUT: usize = 2 * (4 + MOST_STORE) + 1;

// Carries the bounds of lines and stores, and the laws of lines and of frames. It does nothing.
#[tactic(auto, using(crate::proofs::Framed::the_frames))]
pub fn the_frames()
    ensures bounds { TheBounds }
    ensures line { TheFrames }
{}

// A frame, by its first byte, with what it carries; unknown where that byte or the length is wrong. The unknown ones are a kind of their
// own [form.frame].
#[derive(Clone, Copy, Debug, PartialEq, Eq)]
pub enum Frame<'a> {
    SetUp(Shape),
    Write(usize, &'a [u8]),
    Release(usize),
    Read(&'a [u8]),
    Unknown,
}

impl Frame<'_> {
    // The first byte of the answer to a frame.
    pub fn first_byte(self) -> u8
        ensures { result ≡ first_byte (shown self.entry) }
    {
        match self {
            Frame::SetUp(_) => 0x81,
            Frame::Write(..) => 0x82,
            Frame::Release(_) => 0x83,
            Frame::Read(_) => 0x84,
            Frame::Unknown => 0xff,
        }
    }
}

// The refusal of a line: 17 [session.hex].
#[tactic(auto, unfolding(crate::specs::Frame::line_refusal))]
pub fn judge_line(line: &[u8]) -> Verdict
    ensures { result ≡ line_refusal line.now }
{
    let whole = is_between(1, MOST_CHARACTERS, line.len())
        && line.len() % 2 == 0
        && hex::all_digits(line);
    check(whole, Reason::NoHexadecimal, 0)
}

// The frame of each kind with these bytes behind its first. 01: K, m, P (its high byte, its low one), G.
fn set_up_frame(fields: &[u8]) -> Frame<'_>
    ensures { shown result ≡ set_up_frame fields.now }
{
    match fields {
        [k, m, high, low, g] => Frame::SetUp(Shape {
            k: usize::from(*k),
            m: usize::from(*m),
            p: usize::from(u16::from_be_bytes([*high, *low])),
            g: usize::from(*g),
        }),
        _ => Frame::Unknown,
    }
}

// 02: row packets.
fn write_frame(fields: &[u8]) -> Frame<'_>
    ensures { shown result ≡ write_frame fields.now }
{
    match fields {
        [row, packets @ ..] => Frame::Write(usize::from(*row), packets),
        _ => Frame::Unknown,
    }
}

// 03: row.
fn release_frame(fields: &[u8]) -> Frame<'_>
    ensures { shown result ≡ release_frame fields.now }
{
    match fields {
        [row] => Frame::Release(usize::from(*row)),
        _ => Frame::Unknown,
    }
}

// The frame that bytes are: by the first of them one of the four kinds, or unknown [form.frame]. Each kind judges its own fields.
#[tactic(auto, unfolding(crate::specs::Frame::frame_of))]
pub fn frame_of(bytes: &[u8]) -> Frame<'_>
    ensures { shown result ≡ frame_of bytes.now }
{
    let Some((kind, fields)) = bytes.split_first() else {
        return Frame::Unknown;
    };
    match kind {
        1 => set_up_frame(fields),
        2 => write_frame(fields),
        3 => release_frame(fields),
        4 => Frame::Read(fields),
        _ => Frame::Unknown,
    }
}

// Prints bytes as a line, to the front of the caller's array, since no heap is asked for. Gives its length, here and below: `Prints` speaks
// of the whole array.
#[tactic(auto, using(crate::proofs::Printing::length_printed, crate::proofs::Printing::put_printed))]
pub fn print_line(bytes: &[u8], out: &mut [u8]) -> usize
    requires { 2 * length bytes.now + 1 ≤ length out.old }
    ensures { Prints bytes.now out.old result out.new }
{
    hex::encode(bytes, out);
    let end = 2 * bytes.len();
    out[end] = b'\n';
    end + 1
}

// Prints some bytes and others behind them as one line.
fn print_both(front: &[u8], rest: &[u8], out: &mut [u8]) -> usize
    requires { 2 * (length front.now + length rest.now) + 1 ≤ length out.old }
    ensures { Prints (front.now ++ rest.now) out.old result out.new }
{
    hex::encode(front, out);
    let len = 2 * front.len();
    len + print_line(rest, &mut out[len..])
}

// Prints the answer that refuses a frame; `first` is the answer's first byte.
#[tactic(auto, using(crate::proofs::Printing::high_byte))]
pub fn print_refusal(first: u8, refusal: Refusal, out: &mut [u8; MOST_OUTPUT]) -> usize
    requires { refusal.place < 65536 }
    ensures { Prints (first ∷ refusal_said refusal) out.old result out.new }
{
    let [.., high, low] = refusal.place.to_be_bytes();
    print_line(&[first, refusal.reason.number(), high, low], out)
}

// Prints the answer to a frame. The packets, which are read if it is of a cycle that is served, stand beside it, since an `Answer` has no
// bytes [session.answer].
pub fn print_answer(
    frame: Frame<'_>,
    answer: Result<Answer, Refusal>,
    packets: &[u8],
    out: &mut [u8; MOST_OUTPUT],
) -> usize
    requires fits { Fits answer }
    requires room { 2 * (4 + length packets.now) < length out.old }
    ensures { let bytes = first_byte (shown frame.entry) ∷ said packets.now answer in
        Prints bytes out.old result out.new }
{
    let first = frame.first_byte();
    match answer {
        // `as` is proved to lose nothing, and no `From` narrows.
        Ok(Answer::Ready { banks, most_reads }) => {
            print_both(&[first, 0, banks as u8, most_reads as u8], packets, out)
        }
        Ok(Answer::FullRows(rows)) => print_both(&[first, 0, rows as u8], packets, out),
        Ok(Answer::Served) => print_both(&[first, 0], packets, out),
        Err(refusal) => print_refusal(first, refusal, out),
    }
}
