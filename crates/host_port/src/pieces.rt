//! A whole piece goes to a side.

ghost use Rattle.std.specs.Prelude.{◌≡◌, ◌<◌, true, length};
ghost use Rattle.host_port.specs.Host.{act_of, CountsOf, KeepsLast, Puts, Takes};
ghost use Rattle.host_port.specs.Buffered.{IsReady};

use crate::host::{Failed, Host};
use crate::side::Side;

/// Writes the whole piece to the file that is being written. After `Failed` a prefix of the piece was
/// written, and not the whole. An empty piece makes no call on the host.
pub fn write_all_of<H: Host>(host: &mut H, piece: &[u8]) -> Result<(), Failed>
    requires { (H.outside host.old).is_writing ≡ true }
    ensures puts { Puts Side.File piece.now (H.outside host.old) (H.outside host.new) result }
    ensures idle { length piece.now ≡ 0 → host.new ≡ host.old }
{
    put_all(Side::File, host, piece)
}

/// Prints the whole piece on the output. After `Failed` a prefix of the piece was printed, and not the
/// whole. An empty piece makes no call on the host.
pub fn out_all_of<H: Host>(host: &mut H, piece: &[u8]) -> Result<(), Failed>
    ensures puts { Puts Side.Output piece.now (H.outside host.old) (H.outside host.new) result }
    ensures idle { length piece.now ≡ 0 → host.new ≡ host.old }
{
    put_all(Side::Output, host, piece)
}

/// Prints the whole piece on the error output. After `Failed` a prefix of the piece was printed, and not
/// the whole. An empty piece makes no call on the host.
pub fn err_all_of<H: Host>(host: &mut H, piece: &[u8]) -> Result<(), Failed>
    ensures puts { Puts Side.ErrorOutput piece.now (H.outside host.old)
        (H.outside host.new) result }
    ensures idle { length piece.now ≡ 0 → host.new ≡ host.old }
{
    put_all(Side::ErrorOutput, host, piece)
}

/// Puts the whole piece to a side.
pub(crate) fn put_all<H: Host>(side: Side, host: &mut H, piece: &[u8]) -> Result<(), Failed>
    requires { IsReady side (H.outside host.old) }
    ensures puts { Puts side piece.now (H.outside host.old) (H.outside host.new) result }
    ensures idle { length piece.now ≡ 0 → host.new ≡ host.old }
{
    let mut rest = piece;
    while !rest.is_empty() {
        let n = put_some(side, host, rest)?;
        rest = rest.split_at(n).1;
    }
    Ok(())
}

/// Puts a prefix of the piece to a side, and answers how many bytes: at least one.
fn put_some<H: Host>(side: Side, host: &mut H, piece: &[u8]) -> Result<usize, Failed>
    requires ready { IsReady side (H.outside host.old) }
    requires some_bytes { 0 < length piece.now }
    ensures takes { Takes (act_of side) piece.now (H.outside host.old) (H.outside host.new) result }
    ensures counts { CountsOf side (H.outside host.old) (H.outside host.new) result }
    ensures last { KeepsLast side (H.outside host.old) (H.outside host.new) }
{
    match side {
        Side::File => host.write(piece),
        Side::Output => host.out(piece),
        Side::ErrorOutput => host.err(piece),
    }
}
