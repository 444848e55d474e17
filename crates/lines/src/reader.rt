// The lines of a text, and a reader of them.
ghost use Rattle.std.specs.Prelude.{◌≡◌, [], IfSome, IfNone};
ghost use Rattle.lines.specs.Lines.{line_end, line_found};
ghost use Rattle.lines.specs.Reader.{left_of, FrontLine};

// A line: where it ends, and where the next one starts.
#[derive(Clone, Copy, Debug, PartialEq, Eq)]
struct Line {
    end: usize,
    next: usize,
}

// A text, and where its next line starts. The functions on it are thin ones over others on slice and position [form.reader].
#[derive(Clone, Copy, Debug, PartialEq, Eq)]
pub struct Reader<'a> {
    text: &'a [u8],
    at: usize,
}

// Where the line that starts at `at` ends: at the first line feed from there on, or with the text; at `at` where that is past it.
fn line_end(text: &[u8], at: usize) -> usize
    ensures { result ≡ line_end text.now at }
{
    let rest = &text[at.min(text.len())..];
    at + rest.iter().take_while(|c| **c != b'\n').count()
}

// The line that starts at `at`, if the text does not end there.
fn line_at(text: &[u8], at: usize) -> Option<Line>
    ensures { result ≡ line_found text.now at }
{
    if text.len() <= at {
        return None;
    }
    let end = line_end(text, at);
    let next = if end < text.len() { end + 1 } else { end };
    Some(Line { end, next })
}

impl<'a> Reader<'a> {
    // A reader at the start of a text.
    pub fn new(text: &'a [u8]) -> Reader<'a>
        ensures { left_of result ≡ text.now }
    {
        Reader { text, at: 0 }
    }

    // The line that comes next, and the reader moved on to the line after it; none where the text ends.
    pub fn next_line(self) -> Option<(&'a [u8], Reader<'a>)>
        ensures line { IfSome result (λ found.
            FrontLine (left_of self.entry) found.0.now (left_of found.1)) }
        ensures end { IfNone result (left_of self.entry ≡ []) }
    {
        let Reader { text, at } = self;
        let Line { end, next } = line_at(text, at)?;
        Some((&text[at..end], Reader { text, at: next }))
    }
}
