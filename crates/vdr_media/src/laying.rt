// Laying out one medium so that it is empty: its gates closed, its configuration and its superblock written.
ghost use Rattle.std.specs.Prelude.{◌≡◌, ◌+◌, ◌*◌, ◌<◌, ◌≤◌, ◌^◌, length, get_or, Ok, OnOk, ⊤};
ghost use Rattle.vdr_bytes.specs.Numbers.{le_u32};
ghost use Rattle.vdr_terms.specs.Needs.{Fits};
ghost use Rattle.vdr_outside.specs.Causes.{HasCauseOn};
ghost use Rattle.vdr_outside.specs.Disk.{SameBut, content, over};
ghost use Rattle.vdr_outside.specs.Moments.{ChangesOnly, Settled};
ghost use Rattle.vdr_config.specs.Sizes.{sizes_of};
ghost use Rattle.vdr_config.specs.Grammar.{configuration};
ghost use Rattle.vdr_terms.specs.Slots.{slots_from};
ghost use Rattle.vdr_media.specs.Layout.{text_from};
ghost use Rattle.vdr_media.specs.Medium.{IsEmptyMedium};
ghost use Rattle.vdr_media.specs.Writing.{WritesBehindGate, HasClosedGates, IsLaidOut, ClosedOrEmpty, HasClosedGate};

use crate::gates::close_gates;
use crate::layout::TEXT_FROM;
use crate::superblock::superblock_bytes;
use vdr_bytes::put_u32;
use vdr_config::Config;
use vdr_outside::{Failed, Fault, Media, write_through};
use vdr_segment::OPEN_GATE;
use vdr_terms::{INCIDENT_SIZE, INCIDENTS_FROM, MOST_INCIDENTS, SLOTS_FROM, slot_count};

// Closes the gates of all slots and incident slots of medium m.
fn close_all_gates<M: Media>(media: &mut M, m: u8, segment: u32, slots: u32) -> Result<(), Failed>
    requires there { m < length (M.disk media.old).sizes }
    requires room { slots_from + slots * segment ≤ get_or (M.disk media.old).sizes m 0 }
    requires fits { slots_from + slots * segment < 2 ^ 64 }
    requires apart { 1 ≤ segment }
    ensures writes { WritesBehindGate m (M.disk media.old) (M.disk media.new) }
    ensures closed { OnOk result (M.tells → HasClosedGates segment slots (content (M.disk media.new).reads m)) }
    ensures counts { M.bytes_read media.new ≡ M.bytes_read media.old }
    ensures cause { HasCauseOn m (M.faults media.old) (M.faults media.new) result }
{
    close_gates(media, m, SLOTS_FROM, segment as u64, slots as u64)?;
    close_gates(
        media,
        m,
        INCIDENTS_FROM,
        INCIDENT_SIZE,
        MOST_INCIDENTS as u64,
    )
}

// Writes the configuration's text to medium m, behind its length.
fn write_text<M: Media>(media: &mut M, m: u8, text: &[u8]) -> Result<(), Failed>
    requires there { m < length (M.disk media.old).sizes }
    requires room { slots_from ≤ get_or (M.disk media.old).sizes m 0 }
    requires short { length text.now ≤ 16_380 }
    ensures writes { WritesBehindGate m (M.disk media.old) (M.disk media.new) }
    ensures reads { OnOk result (M.tells → content (M.disk media.new).reads m
        ≡ over (over (content (M.disk media.old).reads m) text_from (le_u32 (length text.now))) (text_from + 4) text.now) }
    ensures counts { M.bytes_read media.new ≡ M.bytes_read media.old }
    ensures cause { HasCauseOn m (M.faults media.old) (M.faults media.new) result }
{
    let mut length = [0; 4];
    put_u32(&mut length, 0, text.len() as u32);
    media.write(m, TEXT_FROM, &length)?;
    media.write(m, TEXT_FROM + 4, text)
}

/// Lays out medium m behind the gate of its superblock, and syncs it: the gates of all its slots and incident slots are closed, and its
/// configuration and its superblock are written. Byte 0, the gate of the superblock, is left as it is: with an open one the medium is an
/// empty one with this configuration. `text` is the bytes of the configuration, and the medium has the slots that it needs.
///
/// `Failed`: a write or the sync failed, and the count of faults of this medium rose.
pub fn lay_out<M: Media>(media: &mut M, m: u8, config: &Config, text: &[u8]) -> Result<(), Failed>
    requires there { m < length (M.disk media.old).sizes }
    requires reads { configuration text.now ≡ Ok config.now }
    requires fits { Fits (sizes_of config.now) m (get_or (M.disk media.old).sizes m 0) }
    ensures writes { WritesBehindGate m (M.disk media.old) (M.disk media.new) }
    ensures laid_out { OnOk result (Settled m (IsLaidOut m config.now text.now) (M.disk media.new)) }
    ensures counts { M.bytes_read media.new ≡ M.bytes_read media.old }
    ensures cause { HasCauseOn m (M.faults media.old) (M.faults media.new) result }
{
    let size = media.size(m);
    let slots = slot_count(config.segment, size);
    close_all_gates(media, m, config.segment, slots)?;
    write_text(media, m, text)?;
    let superblock = superblock_bytes(m, size, config.segment, slots);
    media.write(m, 1, &superblock)?;
    media.sync(m)
}

// Makes medium m an empty one with this configuration, which its superblock's gate decides last.
pub(crate) fn make_empty<M: Media>(
    media: &mut M,
    m: u8,
    config: &Config,
    text: &[u8],
) -> Result<(), Fault>
    requires there { m < length (M.disk media.old).sizes }
    requires reads { configuration text.now ≡ Ok config.now }
    requires fits { Fits (sizes_of config.now) m (get_or (M.disk media.old).sizes m 0) }
    ensures meanwhile { ChangesOnly m (λ _. ⊤) (M.disk media.old) (M.disk media.new) }
    ensures moments { Settled m HasClosedGate (M.disk media.old) → ChangesOnly m (ClosedOrEmpty m config.now text.now) (M.disk media.old) (M.disk media.new) }
    ensures done { OnOk result (Settled m (IsEmptyMedium m config.now text.now) (M.disk media.new)) }
    ensures others { M.tells → SameBut m (M.disk media.old).reads (M.disk media.new).reads }
    ensures sizes { (M.disk media.new).sizes ≡ (M.disk media.old).sizes }
    ensures counts { M.bytes_read media.new ≡ M.bytes_read media.old }
    ensures cause { HasCauseOn m (M.faults media.old) (M.faults media.new) result }
{
    lay_out(media, m, config, text)?;
    write_through(media, m, 0, &[OPEN_GATE])
}
