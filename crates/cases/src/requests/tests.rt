// Texts of as many bytes as are read, and longer ones; and whether a text was right, which the gate's run of the program sees once alone.
use super::{MOST_TEXT, answer};
use std::process::Abort;
use std::test::*;

const PLANNED: &str = "K 2, counts 0 0 0 0 0:; the audit says yes\n";

const REFUSED: &str = "K 2, counts 2 1 0 0 0: refused 12, place 0\n";

const LONG: &str = "line 1: six numbers are needed, K and five counts, and these are 1\n";

const LEFT_AT_1: &str =
    "line 1: only 32768 bytes of a text are read, and nothing from this line on is judged\n";

const LEFT_AT_2: &str =
    "line 2: only 32768 bytes of a text are read, and nothing from this line on is judged\n";

// What is written of a text, and whether the text was right.
fn check(
    rt: &(impl Abort + AllocGlobal),
    text: &[u8],
    wanted: &[&str],
    right: bool,
) -> Result<(), Fail> {
    let mut out = Vec::new(rt.alloc());
    let is_right = answer(&mut out, text)?;
    let mut all = Vec::new(rt.alloc());
    for line in wanted {
        all.extend_from_slice(line.as_bytes())?;
    }
    assert_eq!(rt; out.as_slice(), all.as_slice());
    assert_eq!(rt; is_right, right);
    Ok(())
}

#[test]
fn says_whether_a_text_is_right(rt: HostRuntime) -> Result<(), Fail> {
    check(&rt, b"", &[], true)?;
    check(&rt, b"2 0 0 0 0 0\n2 2 1 0 0 0", &[PLANNED, REFUSED], true)?;
    check(&rt, b"0\n2 0 0 0 0 0\n", &[LONG, PLANNED], false)
}

// The first line fills what is read: with its line feed, and without.
#[test]
fn says_where_a_text_was_left(rt: HostRuntime) -> Result<(), Fail> {
    let mut text = [b'0'; MOST_TEXT + 1];
    check(&rt, &text[..MOST_TEXT], &[LONG], false)?;
    check(&rt, &text, &[LEFT_AT_1], false)?;
    text[MOST_TEXT - 1] = b'\n';
    check(&rt, &text[..MOST_TEXT], &[LONG], false)?;
    check(&rt, &text, &[LONG, LEFT_AT_2], false)
}
