// Hexadecimal both ways: two characters a byte, 0-9 and a-f, the high digit first.
ghost use Rattle.std.specs.Prelude.{◌≡◌, true, ◌*◌, ◌<◌, ◌≤◌, length, Some};
ghost use Rattle.std.specs.Fmt.{WritesOnOk};
ghost use Rattle.std.specs.List.{list_all};
ghost use Rattle.cells.specs.Cell.{put};
ghost use Rattle.lines.specs.Hex.{is_digit, value_of, digit_of, bytes_of, byte_digits, digits_of};

use std::fmt;

// Bytes, printed as two digits each.
#[derive(Clone, Copy, Debug, PartialEq, Eq)]
pub struct Hexadecimal<'a>(pub &'a [u8]);

// Prints a byte as two digits.
#[tactic(auto, using(std::proofs::lemmas::Fmt::hex_byte, crate::proofs::Digits::glyph_digit))]
fn write_byte<W: fmt::Write>(b: u8, f: &mut fmt::Formatter<W>) -> fmt::Result
    ensures { WritesOnOk W.write_str_gives f.old result (byte_digits b) f.new }
{
    write!(f, "{b:02x}")
}

impl fmt::Display for Hexadecimal<'_> {
    ghost output = { λ h. Some (digits_of h.0.now) };

    fn fmt<W: fmt::Write>(&self, f: &mut fmt::Formatter<W>) -> fmt::Result {
        // Not by `encode`, which fills a slice: printing is lent none.
        for b in self.0 {
            write_byte(*b, f)?;
        }
        Ok(())
    }
}

// Whether a character is a digit.
fn is_digit(c: u8) -> bool
    ensures { result ≡ is_digit c }
{
    c.is_ascii_digit() || (b'a'..=b'f').contains(&c)
}

// The value of a digit.
fn value_of(c: u8) -> u8
    requires { is_digit c ≡ true }
    ensures { (result ≡ value_of c) × (result < 16) }
{
    // Not by `to_digit`, which takes A to F too, and longer.
    match c {
        b'0'..=b'9' => c - b'0',
        _ => c - b'a' + 10,
    }
}

// The digit of a value.
fn digit_of(v: u8) -> u8
    requires { v < 16 }
    ensures { result ≡ digit_of v }
{
    // `char::from_digit` gives a char, which would have to be narrowed.
    match v {
        0..=9 => b'0' + v,
        _ => b'a' + v - 10,
    }
}

// Whether a text has digits alone.
pub fn all_digits(text: &[u8]) -> bool
    ensures { result ≡ list_all is_digit text.now }
{
    text.iter().all(|c| is_digit(*c))
}

// The bytes that digits stand for, over the front of `bytes`.
#[tactic(auto, using(cells::proofs::Cells::put_none, crate::proofs::Digits::pair_digits, crate::proofs::Digits::low_digit))]
pub fn decode(digits: &[u8], bytes: &mut [u8])
    requires { (list_all is_digit digits.now ≡ true) × (length digits.now ≤ 2 * length bytes.old) }
    ensures { bytes.new ≡ put bytes.old 0 (bytes_of digits.now) }
{
    // By index: a proof knows nothing of what a `zip` over `bytes.iter_mut()` has written.
    let (pairs, _) = digits.as_chunks::<2>();
    for (i, [high, low]) in pairs.iter().enumerate() {
        bytes[i] = value_of(*high) * 16 + value_of(*low);
    }
}

// The digits of bytes, over the front of `text`.
#[tactic(auto, using(cells::proofs::Cells::put_none))]
pub fn encode(bytes: &[u8], text: &mut [u8])
    requires { 2 * length bytes.now ≤ length text.old }
    ensures { text.new ≡ put text.old 0 (digits_of bytes.now) }
{
    // By index: a proof knows nothing of what a `zip` over `text.chunks_exact_mut(2)` has written.
    for (i, b) in bytes.iter().enumerate() {
        text[2 * i] = digit_of(*b / 16);
        text[2 * i + 1] = digit_of(*b % 16);
    }
}
