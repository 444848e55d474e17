// The lines of a text, a reader of them, hexadecimal, and the reading of a text from standard input or another reader.
#![tactic(auto)]

ghost use Rattle.lines.specs.Laws.{TheLines, TheDigits};

pub mod hex;
pub mod input;
pub mod reader;

// Carries the laws of the lines of a text and of hexadecimal. It does nothing.
#[tactic(auto, using(crate::proofs::Lines::the_lines, crate::proofs::Digits::the_digits))]
pub fn the_lines()
    ensures lines { TheLines }
    ensures digits { TheDigits }
{}

#[cfg(test)]
mod tests;
