// What the fronts of a medium's slots show, legal or not.
ghost use Rattle.std.specs.Prelude.{◌≡◌, ◌<◌, ◌≤◌, ◌*◌, ℕ, All, Err, IfOk, OnOk};
ghost use Rattle.vdr_outside.specs.declared.fault.PartRefused.TheVariants.{Damaged};
ghost use Rattle.vdr_outside.specs.Causes.{counted};
ghost use Rattle.vdr_outside.specs.Disk.{Unchanged, content};
ghost use Rattle.vdr_segment.specs.Areas.{HasRoom};
ghost use Rattle.vdr_rescue.specs.Fronts.{AreFronts, ShowsFront, no_fronts, with_front};
ghost use Rattle.vdr_directory.specs.Costs.{ReadsAtMost};
ghost use Rattle.vdr_directory.specs.Opening.{HasFaultCause, front_bytes};

use crate::Front;
use crate::front::front_of;
use std::alloc::{AllocError, Global};
use std::marker::Model;
use vdr_outside::{Media, PartRefused};
use vdr_segment::{Area, HEADER_SIZE, read_front};

/// An open slot with a legal header, and the numbers in that.
#[derive(Clone, Copy, Drop)]
pub struct Head {
    pub slot: u32,
    pub seq: u64,
    pub first: u64,
}

/// What the fronts of slots show, in order of slot.
#[derive(Drop)]
pub struct Fronts {
    pub(crate) heads: Vec<Head>,
    pub(crate) torn: Vec<u32>,
    pub(crate) headless: Vec<u32>,
    // How many slots are not open, and the last one whose gate is 0.
    pub(crate) closed: u32,
    pub(crate) last_closed: Option<u32>,
}

impl Model for Fronts {
    ghost use Rattle.vdr_rescue.specs.Fronts.{FrontsState};

    ghost Value = { FrontsState };

    ghost view = { λ f. record { heads = f.heads.items; torn = f.torn.items; headless = f.headless.items; closed = f.closed; last_closed = f.last_closed } };
}

impl Fronts {
    // Of no slot, with room for so many segments.
    fn new(alloc: Global, slots: u32) -> Result<Fronts, AllocError>
        ensures { IfOk result (λ fronts. fronts ≡ no_fronts) }
    {
        Ok(Fronts {
            heads: Vec::with_capacity(alloc, slots as usize)?,
            torn: Vec::new(alloc),
            headless: Vec::new(alloc),
            closed: 0,
            last_closed: None,
        })
    }

    // Adds what one more slot shows.
    fn add(&mut self, slot: u32, front: Front) -> Result<(), AllocError>
        requires { self.old.closed < 1_000_000 }
        ensures { OnOk result (self.new ≡ with_front slot front self.old) }
    {
        match front {
            Front::Closed => {
                self.closed += 1;
                self.last_closed = Some(slot);
            }
            Front::Torn => {
                self.closed += 1;
                self.torn.push(slot)?;
            }
            Front::Headless => self.headless.push(slot)?,
            Front::Segment { seq, first } => self.heads.push(Head { slot, seq, first })?,
        }
        Ok(())
    }
}

// What the front of a slot shows.
fn read_one<M: Media>(media: &mut M, area: Area, slot: u32) -> Result<Front, PartRefused>
    requires room { HasRoom area (M.disk media.old).sizes }
    requires within { slot < area.slots }
    ensures shows { IfOk result (λ front. M.tells → ShowsFront (front_bytes area.segment slot (content (M.disk media.old).reads area.medium)) front) }
    ensures damaged { (k offset : ℕ) → result ≡ Err (Damaged k offset) → ⊥ }
    ensures unchanged { Unchanged (M.disk media.old) (M.disk media.new) }
    ensures counts { M.bytes_read media.new ≡ counted (M.bytes_read media.old) area.medium 64 }
    ensures cause { HasFaultCause area.medium (M.faults media.old) (M.faults media.new) result }
{
    let mut bytes = [0; HEADER_SIZE];
    let Ok(()) = read_front(media, area, slot, &mut bytes) else {
        return Err(PartRefused::Fault);
    };
    Ok(front_of(&bytes))
}

/// Reads the fronts of all slots of a medium, 64 bytes of each. None is refused. `NoMemory`: there was no room for what they
/// show. `Fault`: a read failed, and the count of faults of this medium rose.
pub fn read_fronts<M: Media>(
    alloc: Global,
    media: &mut M,
    area: Area,
) -> Result<Fronts, PartRefused>
    requires room { HasRoom area (M.disk media.old).sizes }
    ensures slots { IfOk result (λ fronts. All (λ head. head.slot < area.slots) fronts.heads) }
    ensures few { IfOk result (λ fronts. fronts.closed ≤ area.slots) }
    ensures shown { IfOk result (λ fronts. M.tells → AreFronts area.segment (content (M.disk media.old).reads area.medium) area.slots fronts) }
    ensures damaged { (k offset : ℕ) → result ≡ Err (Damaged k offset) → ⊥ }
    ensures unchanged { Unchanged (M.disk media.old) (M.disk media.new) }
    ensures counts { ReadsAtMost area.medium (64 * area.slots) (M.bytes_read media.old) (M.bytes_read media.new) }
    ensures cause { HasFaultCause area.medium (M.faults media.old) (M.faults media.new) result }
{
    let Ok(mut fronts) = Fronts::new(alloc, area.slots) else {
        return Err(PartRefused::NoMemory);
    };
    for slot in 0..area.slots {
        let front = read_one(media, area, slot)?;
        let Ok(()) = fronts.add(slot, front) else {
            return Err(PartRefused::NoMemory);
        };
    }
    Ok(fronts)
}
