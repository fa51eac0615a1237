// What both media are.
ghost use Rattle.std.specs.Prelude.{◌≡◌, ◌≤◌, ℕ, length, All, IfOk, OnOk, Err};
ghost use Rattle.vdr_outside.specs.Disk.{Durable, Unchanged};
ghost use Rattle.vdr_outside.specs.Moments.{AtEachMoment};
ghost use Rattle.vdr_media.specs.Formatted.{IsFormatted, IsUnformatted};
ghost use Rattle.vdr_opening.specs.Answers.{HasOpenCause, RefusesAsRead};
ghost use Rattle.vdr_outside.specs.declared.fault.PartRefused.TheVariants.{Damaged as PartDamaged};
ghost use Rattle.vdr_opening.specs.Costs.{ReadsParts};
ghost use Rattle.vdr_opening.specs.Media.{Contents, HoldsParts, members_with};
ghost use Rattle.vdr_opening.specs.Parts.{HasPartCause, HasRoomBefore};
ghost use Rattle.vdr_opening.specs.Refusals.{IsRefused};
ghost use Rattle.vdr_opening.specs.declared.refused.OpenRefused.TheVariants.{Damaged, NotFormatted};
ghost use Rattle.vdr_info.specs.Infos.{AreParts, HasBothCause, OpensInfo};

use crate::surveying::{area_of, survey};
use crate::{Held, read_text};
use std::alloc::Global;
use std::marker::Model;
use vdr_config::Config;
use vdr_incident::{LONG_TERM, Table};
use vdr_opening::{MEMBERS, OpenRefused, read_media};
use vdr_outside::{Failed, Media, PartRefused};

/// What both media are: what stands on each, the incident saves, and the text of the configuration.
#[derive(Drop)]
pub struct Info {
    pub capsule: Held,
    pub long_term: Held,
    pub table: Table,
    pub text: Vec<u8>,
}

impl Model for Info {
    ghost use Rattle.vdr_info.specs.Infos.{InfoState};

    ghost Value = { InfoState };

    ghost view = { λ i. record { capsule = i.capsule; long_term = i.long_term; table = i.table; text = i.text.items } };
}

// Syncs both media, so that what is said of damage holds behind a stop too.
fn sync_both<M: Media>(media: &mut M) -> Result<(), Failed>
    requires two { 2 ≤ length (M.disk media.old).sizes }
    ensures durable { OnOk result (All (λ m. Durable m (M.disk media.new)) (members_with 0)) }
    ensures reads { M.tells → (M.disk media.new).reads ≡ (M.disk media.old).reads }
    ensures moments { AtEachMoment (M.disk media.old) (M.disk media.new) (λ i. (M.disk media.old).now i) }
    ensures sizes { (M.disk media.new).sizes ≡ (M.disk media.old).sizes }
    ensures counts { M.bytes_read media.new ≡ M.bytes_read media.old }
    ensures cause { HasBothCause (M.faults media.old) (M.faults media.new) result }
{
    for m in 0..MEMBERS {
        media.sync(m)?;
    }
    Ok(())
}

// What is read of media once they were opened.
#[derive(Drop)]
struct Parts {
    capsule: Held,
    long_term: Held,
    text: Vec<u8>,
}

// Reads what stands on each medium, and the text of the configuration that they hold.
fn read_parts<M: Media>(alloc: Global, media: &mut M, config: &Config) -> Result<Parts, PartRefused>
    requires capsule { HasRoomBefore 0 (M.disk media.old).sizes }
    requires long_term { HasRoomBefore 1 (M.disk media.old).sizes }
    ensures told { IfOk result (λ parts. M.tells → (x : Contents) → HoldsParts (M.disk media.old).reads x → config.now ≡ x.config
        → AreParts x (M.disk media.old).sizes parts.capsule parts.long_term parts.text.items) }
    ensures counts { IfOk result (λ parts. M.tells → (x : Contents) → HoldsParts (M.disk media.old).reads x → config.now ≡ x.config
        → ReadsParts x.further 16385 x.config.segment x.placed (M.disk media.old).sizes (M.bytes_read media.old) (M.bytes_read media.new)) }
    ensures legal { (k offset : ℕ) → result ≡ Err (PartDamaged k offset) → M.tells → (x : Contents) → HoldsParts (M.disk media.old).reads x → config.now ≡ x.config → ⊥ }
    ensures unchanged { Unchanged (M.disk media.old) (M.disk media.new) }
    ensures cause { HasPartCause (members_with 0) (M.faults media.old) (M.faults media.new) result }
{
    let capsule = survey(alloc, media, area_of(config, 0, media.size(0)))?;
    let long_term = survey(
        alloc,
        media,
        area_of(config, LONG_TERM, media.size(LONG_TERM)),
    )?;
    let text = read_text(alloc, media, 0)?;
    Ok(Parts {
        capsule,
        long_term,
        text,
    })
}

// Reads media of which nothing is unsynced.
fn read_synced<M: Media>(alloc: Global, media: &mut M) -> Result<Info, OpenRefused>
    requires two { 2 ≤ length (M.disk media.old).sizes }
    requires three { length (M.disk media.old).sizes ≤ 3 }
    ensures info { IfOk result (λ info. M.tells → OpensInfo info (M.disk media.old) (M.bytes_read media.old) (M.bytes_read media.new)) }
    ensures refused { RefusesAsRead result (M.disk media.old) }
    ensures unchanged { Unchanged (M.disk media.old) (M.disk media.new) }
    ensures cause { HasOpenCause (members_with 0) (M.faults media.old) (M.faults media.new) result }
{
    let opened = read_media(alloc, media)?;
    let parts = read_parts(alloc, media, &opened.config)?;
    Ok(Info {
        capsule: parts.capsule,
        long_term: parts.long_term,
        table: opened.table,
        text: parts.text,
    })
}

/// Reads what both media are, and writes nothing. They are opened as `vdr_opening::read_media` does, whose refusals come first; then of each
/// what that reads of its segments is read once more, and the text of the configuration.
///
/// `NotFormatted` and `Damaged` come exactly as `vdr_opening::read_media` says. `Fault`: a call failed, and the count of faults of that
/// medium rose.
pub fn read_info<M: Media>(alloc: Global, media: &mut M) -> Result<Info, OpenRefused>
    requires two { 2 ≤ length (M.disk media.old).sizes }
    requires three { length (M.disk media.old).sizes ≤ 3 }
    ensures info { IfOk result (λ info. M.tells → OpensInfo info (M.disk media.old) (M.bytes_read media.old) (M.bytes_read media.new)) }
    ensures unformatted { result ≡ Err NotFormatted → M.tells → IsUnformatted (M.disk media.old).reads }
    ensures damaged { (m offset : ℕ) → result ≡ Err (Damaged m offset) → M.tells → IsFormatted (M.disk media.old).reads × IsRefused (M.disk media.old).reads m offset }
    ensures moments { AtEachMoment (M.disk media.old) (M.disk media.new) (λ i. (M.disk media.old).now i) }
    ensures reads { M.tells → (M.disk media.new).reads ≡ (M.disk media.old).reads }
    ensures sizes { (M.disk media.new).sizes ≡ (M.disk media.old).sizes }
    ensures cause { HasOpenCause (members_with 0) (M.faults media.old) (M.faults media.new) result }
{
    sync_both(media)?;
    read_synced(alloc, media)
}
