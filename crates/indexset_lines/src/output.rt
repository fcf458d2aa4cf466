//! Flushes a writer.

ghost use Rattle.std.specs.Prelude.{◌≡◌, IfErr};
ghost use Rattle.std.specs.Io.KnownBytes.{Keeps};

use crate::fault::RunFault;
use std::io::Write;

/// Writes all buffered bytes of the writer.
pub fn flush<W: Write>(writer: &mut W) -> Result<(), RunFault>
    ensures unwritten { Keeps (W.contents writer.old) (W.contents writer.new) }
    ensures fault { IfErr result (λ fault. fault ≡ RunFault.Write) }
{
    writer.flush().map_err(|_| RunFault::Write)
}
