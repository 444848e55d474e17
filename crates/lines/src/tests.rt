// Readers that give a byte at a time, are interrupted, and fail: no clause says how often such a reader is asked, or which error it gives.
use crate::input::read_text;
use std::io::{self, ErrorKind, Read};
use std::test::*;

const TEXT: &[u8; 12] = b"0301\n8300 \r\n";

// Gives its text a byte at a time. Before each byte it is interrupted so many times; before the byte at `fails_at` it then fails.
#[derive(Drop)]
struct Halting {
    at: usize,
    interruptions: usize,
    interrupted: usize,
    fails_at: usize,
    kind: ErrorKind,
}

impl Read for Halting {
    fn read(&mut self, buf: &mut [u8]) -> io::Result<usize> {
        if self.interrupted < self.interruptions {
            self.interrupted = self.interrupted.saturating_add(1);
            return Err(ErrorKind::Interrupted.into());
        }
        if self.at == self.fails_at {
            return Err(self.kind.into());
        }
        match (TEXT.get(self.at), buf.first_mut()) {
            (Some(byte), Some(place)) => {
                *place = *byte;
                self.at = self.at.saturating_add(1);
                self.interrupted = 0;
                Ok(1)
            }
            _ => Ok(0),
        }
    }
}

// A reader that fails before this byte, with this error.
fn reader_of(interruptions: usize, fails_at: usize, kind: ErrorKind) -> Halting {
    Halting {
        at: 0,
        interruptions,
        interrupted: 0,
        fails_at,
        kind,
    }
}

#[test]
fn reads_on_after_interruptions(rt: HostRuntime) -> Result<(), Fail> {
    for interruptions in [0, 1, 7] {
        let mut text = [b'-'; 15];
        let len = read_text(
            &mut reader_of(interruptions, 99, ErrorKind::Other),
            &mut text,
        )?;
        assert_eq!(rt; len, TEXT.len());
        assert_eq!(rt; &text, b"0301\n8300 \r\n---");
    }
    Ok(())
}

#[test]
fn stops_where_there_is_no_more_room(rt: HostRuntime) -> Result<(), Fail> {
    let mut text = [b'-'; 6];
    let len = read_text(&mut reader_of(1, 99, ErrorKind::Other), &mut text)?;
    assert_eq!(rt; len, 6usize);
    assert_eq!(rt; &text, b"0301\n8");
    Ok(())
}

#[test]
fn gives_the_error_of_the_reader(rt: HostRuntime) {
    for kind in [ErrorKind::BrokenPipe, ErrorKind::TimedOut, ErrorKind::Other] {
        for fails_at in [0, 6, 12] {
            let mut text = [b'-'; 15];
            let read = read_text(&mut reader_of(2, fails_at, kind), &mut text);
            assert!(rt;
                read.is_err_and(|e| e.kind() == kind),
                "{kind:?} at {fails_at}"
            );
        }
    }
}
