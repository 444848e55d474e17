// A reader and a writer that fail in mid-stream: no clause says which error they give, or how often they are asked.
ghost use Rattle.std.specs.Prelude.{◌≡◌, ◌++◌, ◌<◌, ◌↔◌, length, IsTrue, OnOk, OnErr, IfOk};
ghost use Rattle.std.specs.Io.{StartsWith};
ghost use Rattle.steps.specs.Session.{session_of};

use crate::{answer_all, run};
use std::alloc::{Allocator, Global};
use std::cell::Cell;
use std::fmt::Display;
use std::io::{self, BufRead, ErrorKind, Lines, Read, Write};
use std::test::*;

const TEXT: &[u8; 46] = b"010201000102\n02005a3c\n020117e8\n04000000010000\n";

const ANSWERS: &[u8; 32] = b"81000302\n820001\n820002\n84005a17\n";

// Gives its text a byte at a time. Once, before this byte, it fails.
#[derive(Drop)]
struct Bytewise {
    at: usize,
    fails_at: Option<usize>,
    kind: ErrorKind,
}

impl Read for Bytewise {
    fn read(&mut self, buf: &mut [u8]) -> io::Result<usize> {
        if self.fails_at == Some(self.at) {
            self.fails_at = None;
            return Err(self.kind.into());
        }
        match (TEXT.get(self.at), buf.first_mut()) {
            (Some(byte), Some(place)) => {
                *place = *byte;
                self.at = self.at.saturating_add(1);
                Ok(1)
            }
            _ => Ok(0),
        }
    }
}

// Takes a byte a call. Once, when it holds so many, it fails.
#[derive(Drop)]
struct Stepwise {
    held: Vec<u8>,
    fails_at: Option<usize>,
    kind: ErrorKind,
}

impl Write for Stepwise {
    fn write(&mut self, buf: &[u8]) -> io::Result<usize> {
        if self.fails_at == Some(self.held.len()) {
            self.fails_at = None;
            return Err(self.kind.into());
        }
        let taken = buf.len().min(1);
        self.held.extend_from_slice(&buf[..taken])?;
        Ok(taken)
    }

    fn flush(&mut self) -> io::Result<()> {
        Ok(())
    }
}

fn reader_of(fails_at: Option<usize>, kind: ErrorKind) -> Bytewise {
    Bytewise {
        at: 0,
        fails_at,
        kind,
    }
}

fn writer_of(alloc: Global, fails_at: Option<usize>, kind: ErrorKind) -> Stepwise {
    Stepwise {
        held: Vec::new(alloc),
        fails_at,
        kind,
    }
}

#[test]
fn goes_on_after_an_interruption(rt: HostRuntime) -> Result<(), Fail> {
    let mut writer = writer_of(rt.alloc(), Some(11), ErrorKind::Interrupted);
    let is_cut = answer_all(reader_of(Some(20), ErrorKind::Interrupted), &mut writer)??;
    assert!(rt; !is_cut);
    assert_eq!(rt; writer.held.as_slice(), ANSWERS.as_slice());
    Ok(())
}

#[test]
fn stops_at_a_failed_write(rt: HostRuntime) {
    for fails_at in [0, 1, 9, 11, 31] {
        let mut writer = writer_of(rt.alloc(), Some(fails_at), ErrorKind::BrokenPipe);
        let answered = answer_all(reader_of(None, ErrorKind::Other), &mut writer);
        assert!(rt; answered.is_err_and(|e| e.kind() == ErrorKind::BrokenPipe));
        assert_eq!(rt; writer.held.as_slice(), &ANSWERS[..fails_at]);
    }
}

#[test]
fn writes_nothing_after_a_failed_read(rt: HostRuntime) {
    for fails_at in [0, 14, 46] {
        let mut writer = writer_of(rt.alloc(), None, ErrorKind::Other);
        let answered = answer_all(
            reader_of(Some(fails_at), ErrorKind::BrokenPipe),
            &mut writer,
        );
        assert!(rt; answered.is_err_and(|e| e.kind() == ErrorKind::BrokenPipe));
        assert!(rt; writer.held.is_empty());
    }
}

// Gives so many characters of a line, and then its end, or a failure. Notes how many bytes a writer had when it was last asked.
#[derive(Drop)]
struct Ending<'a> {
    left: usize,
    fails: bool,
    written: &'a Cell<usize>,
    noted: &'a Cell<usize>,
}

impl Read for Ending<'_> {
    fn read(&mut self, buf: &mut [u8]) -> io::Result<usize> {
        self.noted.set(self.written.get());
        if self.left == 0 {
            return if self.fails {
                Err(ErrorKind::BrokenPipe.into())
            } else {
                Ok(0)
            };
        }
        let n = buf.len().min(self.left);
        buf[..n].fill(b'0');
        self.left -= n;
        Ok(n)
    }
}

// Counts the bytes that it takes.
#[derive(Drop)]
struct Counter<'a> {
    written: &'a Cell<usize>,
}

impl Write for Counter<'_> {
    fn write(&mut self, buf: &[u8]) -> io::Result<usize> {
        self.written
            .set(self.written.get().saturating_add(buf.len()));
        Ok(buf.len())
    }

    fn flush(&mut self) -> io::Result<()> {
        Ok(())
    }
}

// A text of 32,768 bytes is answered before a byte more is looked for: a look that fails or waits takes no answer. A shorter one is read to
// its end before it is answered, and no look follows.
#[test]
fn looks_behind_the_text_once_it_is_answered(rt: HostRuntime) -> Result<(), Fail> {
    for (left, fails, before) in [
        (32767, false, 0),
        (32768, false, 9),
        (32768, true, 9),
        (32769, false, 9),
    ] {
        let written = Cell::new(0);
        let noted = Cell::new(0);
        let reader = Ending {
            left,
            fails,
            written: &written,
            noted: &noted,
        };
        let mut writer = Counter { written: &written };
        match answer_all(reader, &mut writer)? {
            Ok(is_cut) => assert_eq!(rt; (is_cut, fails), (left > 32768, false), "at {left}"),
            Err(e) => assert!(rt; fails && e.kind() == ErrorKind::BrokenPipe, "at {left}"),
        }
        assert_eq!(rt; written.get(), 9usize, "at {left}");
        assert_eq!(rt; noted.get(), before, "at {left}");
    }
    Ok(())
}

// A caller over memory, where a clause knows both sides.
fn answers_of(text: &[u8], out: &mut Vec<u8>) -> io::Result<bool>
    ensures ok { OnOk result (out.new.items ≡ out.old.items ++ session_of text.now) }
    ensures cut { IfOk result (λ is_cut. IsTrue is_cut ↔ (32768 < length text.now)) }
    ensures err { OnErr result (StartsWith out.new.items out.old.items) }
{
    answer_all(text, out)?
}

#[test]
fn answers_from_memory(rt: HostRuntime) -> Result<(), Fail> {
    let mut out = Vec::new(rt.alloc());
    let is_cut = answers_of(TEXT, &mut out)?;
    assert!(rt; !is_cut);
    assert_eq!(rt; out.as_slice(), ANSWERS.as_slice());
    Ok(())
}

// A runtime over a text, that counts what a session prints: bytes on the output, lines on standard error, which takes none of them.
#[derive(Drop)]
struct Counting<'a> {
    text: &'a [u8],
    bytes: Cell<usize>,
    lines: Cell<usize>,
}

impl<'a> Input for Counting<'a> {
    type Reader = &'a [u8];

    fn read_line<A: Allocator + Clone>(&self, _buf: &mut String<A>) -> io::Result<usize> {
        Err(ErrorKind::Unsupported.into())
    }

    fn lines<A: Allocator>(&self, alloc: A) -> Lines<&'a [u8], A> {
        self.text.lines(alloc)
    }

    fn reader(&self) -> &'a [u8] {
        self.text
    }
}

impl Print for Counting<'_> {
    fn print<D: Display + Drop>(&self, _value: D) -> io::Result<()> {
        Err(ErrorKind::Unsupported.into())
    }

    fn println<D: Display + Drop>(&self, _value: D) -> io::Result<()> {
        Err(ErrorKind::Unsupported.into())
    }

    fn write_all(&self, bytes: &[u8]) -> io::Result<()> {
        self.bytes.set(self.bytes.get().saturating_add(bytes.len()));
        Ok(())
    }
}

impl Eprint for Counting<'_> {
    fn eprint<D: Display + Drop>(&self, _value: D) -> io::Result<()> {
        Err(ErrorKind::Unsupported.into())
    }

    fn eprintln<D: Display + Drop>(&self, _value: D) -> io::Result<()> {
        self.lines.set(self.lines.get().saturating_add(1));
        Err(ErrorKind::BrokenPipe.into())
    }
}

// A line of 32,767 characters is refused with 17, and its line feed is the last byte that is read: what stands behind it gets no answer.
#[test]
fn says_that_a_text_was_cut(rt: HostRuntime) -> Result<(), Fail> {
    let mut text = [b'0'; 32770];
    text[32767] = b'\n';
    for (len, want) in [
        (32766, false),
        (32767, false),
        (32768, false),
        (32769, true),
        (32770, true),
    ] {
        let mut out = Vec::new(rt.alloc());
        let text = &text[..len];
        let is_cut = answers_of(text, &mut out)?;
        assert_eq!(rt; is_cut, want, "at {len}");
        assert_eq!(rt; out.as_slice(), b"ff110000\n".as_slice(), "at {len}");
        let counting = Counting {
            text,
            bytes: Cell::new(0),
            lines: Cell::new(0),
        };
        run(&counting)?;
        assert_eq!(rt; counting.bytes.get(), 9usize, "at {len}");
        assert_eq!(rt; counting.lines.get(), usize::from(want), "at {len}");
    }
    Ok(())
}

#[test]
fn fails_where_nothing_is_taken(rt: HostRuntime) {
    let mut room = [b'-'; 12];
    let mut out = &mut room[..];
    let answered = answer_all(TEXT.as_slice(), &mut out);
    assert!(rt; answered.is_err_and(|e| e.kind() == ErrorKind::WriteZero));
    assert_eq!(rt; &room, b"81000302\n820");
}
