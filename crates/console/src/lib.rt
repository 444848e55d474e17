// A session over a reader and a writer. What a line does and answers is said and proved in `steps`; here each line of a text is read, once
// and in order, and its answer is written.
#![tactic(auto)]

ghost use Rattle.std.specs.Prelude.{◌≡◌, ◌≢◌, ◌≤◌, ◌<◌, ◌↔◌, length, take, IsTrue, IfOk, IfErr, IfSome};
ghost use Rattle.std.specs.IoError.{error_kind};
ghost use Rattle.steps.specs.Session.{text_read, session_of};
ghost use Rattle.console.specs.Written.{Writes, Answered};

use frames::{MOST_OUTPUT, MOST_STORE};
use lines::input::read_text;
use lines::reader::Reader;
use std::io::{self, ErrorKind, Read, Write};
use steps::{MOST_TEXT, Session};

// The part of a text that a session reads [session.cut].
#[tactic(auto, using(std::proofs::lemmas::List::take_min))]
fn cut(text: &[u8]) -> &[u8]
    ensures { result.now ≡ take MOST_TEXT text.now }
{
    &text[..MOST_TEXT.min(text.len())]
}

// Writes some bytes, all of them; where it fails, a front of them. A write that is interrupted is tried again, up to 2^64 - 1 times.
fn write_all<W: Write>(writer: &mut W, bytes: &[u8]) -> io::Result<()>
    requires { 0 < length bytes.now }
    ensures written { Writes (W.contents writer.old) (W.contents writer.new) result bytes.now }
    ensures uninterrupted { IfErr result (λ e. error_kind e ≢ ErrorKind.Interrupted) }
{
    // Not by `Write::write_all`, which does not say what is written where it fails.
    let mut rest = bytes;
    // Not `loop`: a writer may be interrupted without end.
    for _ in 0..u64::MAX {
        match writer.write(rest) {
            Ok(0) => return Err(ErrorKind::WriteZero.into()),
            Ok(n) if n < rest.len() => rest = &rest[n..],
            Ok(_) => return Ok(()),
            Err(e) if e.kind() == ErrorKind::Interrupted => continue,
            Err(e) => return Err(e),
        }
    }
    Err(ErrorKind::TimedOut.into())
}

// Answers each line of a text, from a session and its store on. After a line whose answer cannot be written it stops, since nobody would
// learn what the lines behind it did [session.failure]. Gives the session, and whether all was written.
pub fn answer<W: Write>(
    text: &[u8],
    mut session: Session,
    store: &mut [u8; MOST_STORE],
    writer: &mut W,
) -> (Session, io::Result<()>)
    ensures answered { Answered session store.old (text_read text.now)
        result.0 store.new (W.contents writer.old) (W.contents writer.new) result.1 }
    ensures uninterrupted { IfErr result.1 (λ e. error_kind e ≢ ErrorKind.Interrupted) }
{
    let mut reader = Reader::new(cut(text));
    let mut out = [0u8; MOST_OUTPUT];
    // No `for`: a step takes the session and the reader by value, and hands them back.
    while let Some(next) = steps::answer_next(reader, session, store, &mut out) {
        session = next.reply.session;
        reader = next.reader;
        if let Err(e) = write_all(writer, &out[..next.reply.len]) {
            return (session, Err(e));
        }
    }
    (session, Ok(()))
}

// Whether a reader has a byte more; it is read, and lost.
fn has_more<R: Read>(reader: &mut R) -> io::Result<bool>
    ensures more { IfSome (R.remaining reader.old) (λ left.
        IfOk result (λ has_more. IsTrue has_more ↔ (0 < length left))) }
    ensures uninterrupted { IfErr result (λ e. error_kind e ≢ ErrorKind.Interrupted) }
{
    Ok(read_text(reader, &mut [0])? > 0)
}

// Answers what a reader has, from the start of a session on: its first 32,768 bytes, and reads none behind them before all is answered.
// Then it looks for one byte more, and gives whether the text was cut [session.cut], or the error of that look. Nothing is written where
// reading the text fails [session.failure]: of a failure the clauses say what is written of the output, and the tests that it is nothing
// then, and which error is given.
pub fn answer_all<R: Read + Drop, W: Write>(
    mut reader: R,
    writer: &mut W,
) -> io::Result<io::Result<bool>>
    ensures written { IfSome (R.remaining reader) (λ input.
        Writes (W.contents writer.old) (W.contents writer.new) result (session_of input)) }
    ensures cut { IfSome (R.remaining reader) (λ input.
        IfOk result (λ look. IfOk look (λ is_cut. IsTrue is_cut ↔ (MOST_TEXT < length input)))) }
    ensures uninterrupted { IfErr result (λ e. error_kind e ≢ ErrorKind.Interrupted) }
    ensures whole { IfSome (R.remaining reader) (λ input.
        IfOk result (λ look. IfErr look (λ e. MOST_TEXT ≤ length input))) }
    ensures looked { IfOk result (λ look. IfErr look (λ e. error_kind e ≢ ErrorKind.Interrupted)) }
{
    // With room for any text, and a length: no heap is asked for.
    let mut text = [0; MOST_TEXT];
    let mut store = [0; MOST_STORE];
    let len = read_text(&mut reader, &mut text)?;
    let (_, written) = answer(&text[..len], None, &mut store, writer);
    written?;
    // A reader that has come to its end is not asked again.
    if len < MOST_TEXT {
        return Ok(Ok(false));
    }
    Ok(has_more(&mut reader))
}

// Answers what standard input has, on standard output: what `answer_all` promises, of this reader and this writer. Where the text was cut,
// it says so on standard error, after the last answer, if that takes the line; where it cannot know, since the look for one byte more
// fails, it ends with that error. It has no clause, since none can say that the bytes which the reader gives are those that a terminal, a
// file or a pipe has sent, or that those which the writer takes come out there.
pub fn run(rt: &(impl Input + Print + Eprint)) -> io::Result<()> {
    if answer_all(rt.reader(), &mut io::writer(rt))?? {
        // All is answered: where standard error does not take the line, the session has not failed.
        let _ = eprintln!(rt;
            "The text is longer than {MOST_TEXT} bytes: nothing behind these was answered."
        );
    }
    Ok(())
}

#[cfg(test)]
mod tests;
