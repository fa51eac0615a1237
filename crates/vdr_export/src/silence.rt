// Samples of silence, in the place of frames that are missing.
ghost use Rattle.std.specs.Prelude.{◌≡◌, OnOk};
ghost use Rattle.std.specs.Io.KnownBytes.{Appends};
ghost use Rattle.vdr_outside.specs.Causes.{HasCause};
ghost use Rattle.vdr_outside.specs.Writes.{AppendsFront};
ghost use Rattle.vdr_export.specs.Sounds.{silence};

use vdr_outside::{Failed, Sink, write_all};

/// How many samples of silence are written at once.
const BLOCK: u64 = 512;

/// Writes so many samples of silence.
pub(crate) fn write_silence<O: Sink>(samples: u64, out: &mut O) -> Result<(), Failed>
    ensures all { OnOk result (Appends (O.taken out.old) (O.taken out.new) (silence samples)) }
    ensures front { AppendsFront (O.taken out.old) (O.taken out.new) (silence samples) }
    ensures cause { HasCause (O.faults out.old) (O.faults out.new) result }
{
    let zeros = [0; 2 * BLOCK as usize];
    let mut left = samples;
    while left > 0 {
        let now = left.min(BLOCK);
        write_all(out, &zeros[..2 * now as usize])?;
        left -= now;
    }
    Ok(())
}
