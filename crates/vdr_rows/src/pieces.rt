// A text in pieces.
ghost use Rattle.std.specs.Prelude.{OnOk, flat_map};
ghost use Rattle.std.specs.Io.KnownBytes.{Appends};
ghost use Rattle.vdr_outside.specs.Causes.{HasCause};
ghost use Rattle.vdr_outside.specs.Writes.{AppendsFront};

use vdr_outside::{Failed, Sink, write_all};

/// Prints pieces one behind the other.
pub(crate) fn print_pieces<O: Sink>(pieces: &[&[u8]], out: &mut O) -> Result<(), Failed>
    ensures all { OnOk result (Appends (O.taken out.old) (O.taken out.new) (flat_map (λ piece. piece.now) pieces.now)) }
    ensures front { AppendsFront (O.taken out.old) (O.taken out.new) (flat_map (λ piece. piece.now) pieces.now) }
    ensures cause { HasCause (O.faults out.old) (O.faults out.new) result }
{
    for piece in pieces {
        write_all(out, piece)?;
    }
    Ok(())
}
