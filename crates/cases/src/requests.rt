// The requests of a text, one a line, and their answers; and what is wrong with a line that is none.
use crate::{Pairs, Request};
use lines::reader::Reader;
use simplex::MOST_SYMBOLS;
use std::io::{self, Read, Write};
use std::{array, fmt};

// The bytes of a text that are read.
const MOST_TEXT: usize = 32768;

// What is wrong with a text that is to be a number.
#[derive(Clone, Copy, Debug, PartialEq, Eq)]
pub enum Fault {
    Empty,
    NoDigit(u8),
    TooLarge,
}

// What is wrong with a line that is to be a request: one of its numbers, which are counted from 1, or how many there are.
#[derive(Clone, Copy, Debug, PartialEq, Eq)]
pub enum Malformed {
    Number { place: usize, fault: Fault },
    Numbers(usize),
}

impl fmt::Display for Fault {
    fn fmt<W: fmt::Write>(&self, f: &mut fmt::Formatter<W>) -> fmt::Result {
        match self {
            Fault::Empty => write!(f, "is empty"),
            Fault::NoDigit(c) => write!(
                f,
                "has a character that is no digit: {}",
                c.escape_ascii()
            ),
            Fault::TooLarge => write!(f, "is above {}", usize::MAX),
        }
    }
}

impl fmt::Display for Malformed {
    fn fmt<W: fmt::Write>(&self, f: &mut fmt::Formatter<W>) -> fmt::Result {
        match self {
            Malformed::Number { place, fault } => write!(f, "number {place} {fault}"),
            Malformed::Numbers(many) => write!(
                f,
                "six numbers are needed, K and five counts, and these are {many}"
            ),
        }
    }
}

// A number with one more decimal digit; none where this is no digit, or the number does not fit.
fn with_digit(number: usize, digit: u8) -> Option<usize> {
    // `as`, since usize has no From<u32>.
    let digit = char::from(digit).to_digit(10)? as usize;
    number.checked_mul(10)?.checked_add(digit)
}

// The number that a text is. No `parse`: it takes a plus sign too.
fn number_of(text: &[u8]) -> Result<usize, Fault> {
    if text.is_empty() {
        return Err(Fault::Empty);
    }
    match text.iter().find(|c| !c.is_ascii_digit()) {
        Some(c) => Err(Fault::NoDigit(*c)),
        None => text
            .iter()
            .try_fold(0, |number, c| with_digit(number, *c))
            .ok_or(Fault::TooLarge),
    }
}

// The request of a line. A number stands at its front and behind each space. Of what is wrong the first is said, and how many numbers
// there are only where each is one.
impl TryFrom<&[u8]> for Request {
    type Error = Malformed;

    fn try_from(line: &[u8]) -> Result<Request, Malformed> {
        let mut numbers = [0; MOST_SYMBOLS + 1];
        let mut many: usize = 0;
        for text in line.split(|c| *c == b' ') {
            let place = many.saturating_add(1);
            let number = match number_of(text) {
                Ok(number) => number,
                Err(fault) => return Err(Malformed::Number { place, fault }),
            };
            if many < numbers.len() {
                numbers[many] = number;
            }
            many = place;
        }
        if many != numbers.len() {
            return Err(Malformed::Numbers(many));
        }
        Ok(Request {
            k: numbers[0],
            counts: array::from_fn(|n| numbers[n + 1]),
        })
    }
}

// Plans a request, and writes the answer.
fn write_plan<W: Write>(writer: &mut W, request: Request) -> io::Result<()> {
    match request.plan() {
        Ok(plan) => {
            let said = if request.is_passed(plan) { "yes" } else { "no" };
            writeln!(writer, "{request}:{}; the audit says {said}", Pairs(plan))
        }
        Err(refusal) => writeln!(writer, "{request}: {refusal}"),
    }
}

// Answers the line of this number. Gives whether it was a request.
fn answer_line<W: Write>(writer: &mut W, number: usize, line: &[u8]) -> io::Result<bool> {
    match Request::try_from(line) {
        Ok(request) => {
            write_plan(writer, request)?;
            Ok(true)
        }
        Err(malformed) => {
            writeln!(writer, "line {number}: {malformed}")?;
            Ok(false)
        }
    }
}

// The part of a text that is judged: all of it, or of a longer one than is read the lines that end within what is read.
fn judged(text: &[u8]) -> &[u8] {
    if text.len() <= MOST_TEXT {
        return text;
    }
    let read = &text[..MOST_TEXT];
    match read.iter().rposition(|c| *c == b'\n') {
        Some(end) => &read[..end + 1],
        None => &[],
    }
}

// Answers each line of a text, by its number. Gives whether each was a request, and none was left.
fn answer<W: Write>(writer: &mut W, text: &[u8]) -> io::Result<bool> {
    let mut all_right = true;
    let mut number: usize = 1;
    let mut reader = Reader::new(judged(text));
    while let Some((line, next)) = reader.next_line() {
        all_right &= answer_line(writer, number, line)?;
        number = number.saturating_add(1);
        reader = next;
    }
    if text.len() <= MOST_TEXT {
        return Ok(all_right);
    }
    writeln!(
        writer,
        "line {number}: only {MOST_TEXT} bytes of a text are read, and nothing from this line on is judged"
    )?;
    Ok(false)
}

// Answers what a reader has. Gives whether each line was a request, and the text was read to its end.
pub fn answer_all<R: Read + Drop, W: Write>(mut reader: R, writer: &mut W) -> io::Result<bool> {
    // With room for any text and one byte more, by which a longer one is known, and a length: no heap is asked for.
    let mut text = [0; MOST_TEXT + 1];
    let len = lines::input::read_text(&mut reader, &mut text)?;
    answer(writer, &text[..len])
}

#[cfg(test)]
mod tests;
