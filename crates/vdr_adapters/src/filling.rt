// A file that was made is locked, filled with zeros and synced.
ghost use Rattle.std.specs.Prelude.{◌≡◌, ℕ, List, [], IfOk, OnOk};
ghost use Rattle.vdr_adapters.specs.Files.{Call, IsFile, Makes};
ghost use Rattle.vdr_adapters.specs.Making.{IsFilled, WritesZeros};
ghost use Rattle.vdr_adapters.specs.declared.folder.Access.TheVariants.{Full};

use crate::Trouble;
use crate::folder::{Access, MediumFile};
use std::io;

/// How many zeros are written at a time.
const PIECE: u64 = 65_536;

// Writes zeros up to this length.
fn write_zeros<F: MediumFile>(file: &mut F, size: u64) -> io::Result<()>
    ensures { OnOk result ((writes : List Call) × WritesZeros 0 size writes × Makes (F.seen file.old) (F.seen file.new) writes) }
{
    let zeros = [0; 65_536];
    for piece in 0..size.div_ceil(PIECE) {
        let at = piece * PIECE;
        let count = PIECE.min(size - at) as usize;
        file.write_all_at(&zeros[..count], at)?;
    }
    Ok(())
}

/// Takes a file that was made, for nobody else: zeros fill it up to this length and are synced.
pub(crate) fn filled<F: MediumFile + Drop>(mut file: F, size: u64) -> Result<F, Trouble>
    ensures { (name mark : List ℕ) → IsFile (F.seen file) (record { name = name; mark = mark; access = Full; calls = [] })
        → IfOk result (λ now. IsFilled (F.seen now) name mark size) }
{
    file.try_lock(Access::Full)?;
    if let Err(error) = write_zeros(&mut file, size) {
        return Err(Trouble::System(error));
    }
    match file.sync_data() {
        Ok(()) => Ok(file),
        Err(error) => Err(Trouble::System(error)),
    }
}
