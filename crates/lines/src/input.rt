// Reads a text into a buffer, from standard input or another reader.
ghost use Rattle.std.specs.Prelude.{◌≡◌, ◌≢◌, ◌≤◌, length, take, drop, IfOk, IfErr, IfSome};
ghost use Rattle.std.specs.Io.KnownBytes.{Consumes};
ghost use Rattle.std.specs.IoError.{error_kind};
ghost use Rattle.lines.specs.Input.{Fills};

use std::io::{self, ErrorKind, Read};

// Reads what a reader has to the front of `text`, as much as there is room for, and no byte behind it. Gives how many bytes that is; those
// behind them stay. Where it fails, any byte of `text` may have been set. A read that is interrupted is tried again, up to 2^64 - 1 times.
pub fn read_text<R: Read>(reader: &mut R, text: &mut [u8]) -> io::Result<usize>
    ensures room { IfOk result (λ n. n ≤ length text.old) }
    ensures rest { IfOk result (λ n. drop n text.new ≡ drop n text.old) }
    ensures all { IfOk result (λ n. IfSome (R.remaining reader.old) (Fills text.old n text.new)) }
    ensures left { IfOk result (λ n. Consumes (R.remaining reader.old) (R.remaining reader.new) (take n text.new)) }
    ensures uninterrupted { IfErr result (λ e. error_kind e ≢ ErrorKind.Interrupted) }
{
    // Not straight to `text`: a reader may write past the bytes that it gives.
    let mut room = [0; 8192];
    let mut len = 0;
    // Not `loop`: a reader may be interrupted without end. `io::copy` gives up so too.
    for _ in 0..u64::MAX {
        let most = room.len().min(text.len() - len);
        if most == 0 {
            return Ok(len);
        }
        let chunk = &mut room[..most];
        let n = match reader.read(chunk) {
            Ok(0) => return Ok(len),
            Ok(n) => n,
            Err(e) if e.kind() == ErrorKind::Interrupted => continue,
            Err(e) => return Err(e),
        };
        text[len..len + n].copy_from_slice(&chunk[..n]);
        len += n;
    }
    Err(ErrorKind::TimedOut.into())
}
