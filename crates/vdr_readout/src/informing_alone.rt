// What one medium alone is: its line by the records that it gives, the live incidents, and the configuration.
ghost use Rattle.std.specs.Prelude.{◌≡◌, ◌≤◌, ◌+◌, ℕ, length, Err, IfOk};
ghost use Rattle.vdr_outside.specs.Disk.{Unchanged, content};
ghost use Rattle.vdr_outside.specs.declared.fault.PartRefused.TheVariants.{Damaged};
ghost use Rattle.vdr_segment.specs.Areas.{HasRoom};
ghost use Rattle.vdr_directory.specs.Opening.{HasFaultCause};
ghost use Rattle.vdr_rescue.specs.Alones.{IsAloneOn};
ghost use Rattle.vdr_rescue.specs.Costs.{ReadsNoOther};
ghost use Rattle.vdr_command.specs.Endings.{ending};
ghost use Rattle.vdr_command.specs.declared.status.Status.TheVariants.{Words};
ghost use Rattle.vdr_readout.specs.Informs.{IsToldAlone, RescuesInfo};

use crate::informing::below_of;
use crate::reading::{ALL, Wanted};
use crate::rescuing::{number_of, rescue_opened, status_of_part};
use std::alloc::Global;
use vdr_command::{Outer, Status, World};
use vdr_entry::Medium;
use vdr_info::{Held, Teller, area_of, count_used, read_text};
use vdr_outside::{Media, PartRefused, Sink, Source};
use vdr_rescue::{Alone, law_of_alone};
use vdr_terms::LAST_STAMP;

// What tells of the medium that was opened alone, before its records are read.
fn teller_for<M: Media>(alloc: Global, alone: &Alone, media: &mut M) -> Result<Teller, PartRefused>
    requires room { HasRoom alone.now.cursor.area (M.disk media.old).sizes }
    ensures told { IfOk result (λ teller. M.tells → (m : ℕ) → IsAloneOn m (content (M.disk media.old).reads m) alone.now
        → IsToldAlone m (content (M.disk media.old).reads m) teller) }
    ensures damaged { (k offset : ℕ) → result ≡ Err (Damaged k offset) → (k ≡ alone.now.cursor.area.medium)
        × (M.tells → (m : ℕ) → IsAloneOn m (content (M.disk media.old).reads m) alone.now → ⊥) }
    ensures unchanged { Unchanged (M.disk media.old) (M.disk media.new) }
    ensures others { ReadsNoOther alone.now.cursor.area.medium (M.bytes_read media.old) (M.bytes_read media.new) }
    ensures cause { HasFaultCause alone.now.cursor.area.medium (M.faults media.old) (M.faults media.new) result }
{
    let m = alone.medium();
    let area = area_of(alone.config(), m, media.size(m));
    let used = count_used(media, area)?;
    let text = read_text(alloc, media, m)?;
    let Ok(below) = below_of(alloc, alone, &text) else {
        return Err(PartRefused::NoMemory);
    };
    Ok(Teller::new(Held::empty(area, used as u64), below))
}

/// Tells what a medium alone is: the capsule or the long-term one. It is opened as for each rescue; its slots are counted and its text is
/// read, and then its records, for its line. Nothing is written to any medium, and no other one is read.
pub fn answer_rescue_info<I: Source + Drop, O: Sink + Drop, M: Media + Drop>(
    alloc: Global,
    medium: Medium,
    world: &mut World<I, O, M>,
) -> Result<(), Status>
    requires two { 2 ≤ length (M.disk world.old.media).sizes }
    ensures owed { let at = ⟦<World<I, O, M> as Outer>⟧.outside in RescuesInfo medium (at world.old) (at world.new) (ending result) }
    ensures known { ending result ≡ Words → ⊥ }
    ensures later { O.faults world.old.output ≤ O.faults world.new.output }
    ensures sizes { (M.disk world.new.media).sizes ≡ (M.disk world.old.media).sizes }
    ensures unread { world.new.input ≡ world.old.input }
{
    law_of_alone();
    let alone = match Alone::open(alloc, &mut world.media, number_of(medium)) {
        Ok(alone) => alone,
        Err(refused) => return Err(status_of_part(refused)),
    };
    let mut teller = match teller_for(alloc, &alone, &mut world.media) {
        Ok(teller) => teller,
        Err(refused) => return Err(status_of_part(refused)),
    };
    let wanted = Wanted {
        medium,
        channel: ALL,
        from: 0,
        to: LAST_STAMP,
    };
    rescue_opened(alloc, alone, wanted, &mut teller, world)
}
