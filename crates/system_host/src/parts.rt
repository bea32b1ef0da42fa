//! Parts of a piece that a call moves.

ghost use Rattle.std.specs.Prelude.{◌≡◌, ◌≤◌, length, is_some, IfSome, MatchOption, Ok};
ghost use Rattle.system_host.specs.Told.{Gave, Took, TookNone, told_by};

use std::io;
use std::io::{Read, Write};

/// How many bytes a call took, where it was at least one.
pub fn some_taken(taken: io::Result<usize>) -> Option<usize>
    ensures some { IfSome result (λ n. 1 ≤ n) }
    ensures same { MatchOption result (TookNone taken) (λ n. taken ≡ Ok n) }
{
    match taken {
        Ok(0) | Err(_) => None,
        Ok(n) => Some(n),
    }
}

/// Moves bytes of the input that is open to the front of `buf`.
pub fn moved<R: Read>(input: &mut Option<R>, buf: &mut [u8]) -> Option<usize>
    ensures fits { IfSome result (λ n. n ≤ length buf.new) }
    ensures still_open { is_some input.new ≡ is_some input.old }
    ensures gave { Gave (told_by R.remaining input.old) (told_by R.remaining input.new) buf.new
        result }
{
    match input {
        Some(input) => input.read(buf).ok(),
        None => None,
    }
}

/// Writes a prefix of `piece`, of at least one byte, to the output that is open.
pub fn written<W: Write>(output: &mut Option<W>, piece: &[u8]) -> Option<usize>
    ensures some { IfSome result (λ n. 1 ≤ n) }
    ensures fits { IfSome result (λ n. n ≤ length piece.now) }
    ensures still_open { is_some output.new ≡ is_some output.old }
    ensures took { Took (told_by W.contents output.old) (told_by W.contents output.new) piece.now
        result }
{
    match output {
        Some(output) => some_taken(output.write(piece)),
        None => None,
    }
}
