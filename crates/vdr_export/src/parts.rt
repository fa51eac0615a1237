// The parts of an image.
ghost use Rattle.std.specs.Prelude.{◌≡◌, ◌≢◌, ◌⊎◌, ◌≤◌, ◌∷◌, ◌++◌, List, [], length, replicate, IfErr, IfOk, None, OnOk};
ghost use Rattle.std.specs.List.{flat_map};
ghost use Rattle.std.specs.Io.KnownBytes.{Appends};
ghost use Rattle.vdr_outside.specs.Causes.{HasCause};
ghost use Rattle.vdr_outside.specs.Writes.{AppendsFront};
ghost use Rattle.vdr_export.specs.Answers.{data_of, first_missing, unless_missing};
ghost use Rattle.vdr_export.specs.Collected.{IsCollected, StopsAt, room_for, with_part};
ghost use Rattle.vdr_export.specs.Kept.{kept, shown_as};
ghost use Rattle.vdr_export.specs.Pictures.{Shown};
ghost use Rattle.vdr_export.specs.declared.refused.ExportRefused.TheVariants.{Mixed, NoMemory};

use crate::refused::ExportRefused;
use std::alloc::Global;
use std::marker::Model;
use vdr_image::ImageHeader;
use vdr_outside::{Failed, Sink, write_all};

/// The data of the parts of an image that were met so far, each at its sequence number less one.
#[derive(Drop)]
pub(crate) struct Parts {
    alloc: Global,
    bodies: Vec<Option<Vec<u8>>>,
}

impl Model for Parts {
    ghost use Rattle.std.specs.Prelude.{◌≤◌, ℕ, List, Option, length, map};
    ghost use Rattle.vdr_export.specs.Kept.{kept};

    ghost Value = { List (Option (List ℕ)) };

    ghost view = { λ p. map kept p.bodies.items };

    ghost invariant = { λ p. length p.bodies.items ≤ 65_535 };
}

// Room for so many parts.
fn no_parts(alloc: Global, count: u32) -> Result<Vec<Option<Vec<u8>>>, ExportRefused>
    ensures parts { IfOk result (λ parts. parts.items ≡ replicate count None) }
    ensures memory { IfErr result (λ refused. refused ≡ NoMemory) }
{
    let mut parts = Vec::new(alloc);
    for _ in 0..count {
        if parts.push(None).is_err() {
            return Err(ExportRefused::NoMemory);
        }
    }
    Ok(parts)
}

fn copied(alloc: Global, body: &[u8]) -> Result<Vec<u8>, ExportRefused>
    ensures copy { IfOk result (λ copy. copy.items ≡ body.now) }
    ensures memory { IfErr result (λ refused. refused ≡ NoMemory) }
{
    let mut copy = Vec::new(alloc);
    if copy.extend_from_slice(body).is_err() {
        return Err(ExportRefused::NoMemory);
    }
    Ok(copy)
}

fn write_part<O: Sink>(part: &Option<Vec<u8>>, out: &mut O) -> Result<(), Failed>
    ensures all { OnOk result (Appends (O.taken out.old) (O.taken out.new) (data_of (kept part.now))) }
    ensures front { AppendsFront (O.taken out.old) (O.taken out.new) (data_of (kept part.now)) }
    ensures cause { HasCause (O.faults out.old) (O.faults out.new) result }
{
    match part {
        Some(body) => write_all(out, body.as_slice()),
        None => Ok(()),
    }
}

impl Parts {
    /// No part was met.
    pub(crate) fn new(alloc: Global) -> Parts
        ensures { IsCollected [] result }
    {
        Parts {
            alloc,
            bodies: Vec::new(alloc),
        }
    }

    // Makes room for so many parts where there is none, and tells a part of the record at this place that says another number of them.
    fn make_room(&mut self, place: u64, greatest: u32) -> Result<(), ExportRefused>
        requires few { greatest ≤ 65_535 }
        ensures room { OnOk result ((self.new ≡ room_for greatest self.old) × (length self.new ≡ greatest)) }
        ensures refused { IfErr result (λ refused. (refused ≡ NoMemory) ⊎ ((refused ≡ Mixed place) × (self.old ≢ []) × (length self.old ≢ greatest))) }
    {
        if self.bodies.is_empty() {
            self.bodies = no_parts(self.alloc, greatest)?;
            return Ok(());
        }
        if self.bodies.len() != greatest as usize {
            return Err(ExportRefused::Mixed { place });
        }
        Ok(())
    }

    // Keeps the data of a part, where none of its sequence number is kept.
    fn put(&mut self, header: &ImageHeader<'_>) -> Result<(), ExportRefused>
        requires room { header.now.sequence ≤ length self.old }
        ensures put { OnOk result (self.new ≡ with_part header.now.sequence header.now.body.now self.old) }
        ensures memory { IfErr result (λ refused. refused ≡ NoMemory) }
    {
        let slot = header.sequence as usize - 1;
        if self.bodies[slot].is_none() {
            self.bodies[slot] = Some(copied(self.alloc, header.body)?);
        }
        Ok(())
    }

    /// Meets one more part, of the record at this place.
    pub(crate) fn meet(&mut self, place: u64, header: &ImageHeader<'_>) -> Result<(), ExportRefused>
        ensures collected { (ps : List Shown) → IsCollected ps self.old → OnOk result (IsCollected (ps ++ shown_as place header.now ∷ []) self.new) }
        ensures stops { (ps : List Shown) → IsCollected ps self.old → IfErr result (StopsAt (ps ++ shown_as place header.now ∷ [])) }
    {
        self.make_room(place, header.greatest)?;
        self.put(header)
    }

    // The number of the first part that is missing.
    fn missing(&self) -> Option<u32>
        ensures { result ≡ first_missing 1 self.now }
    {
        let mut number = 1;
        for part in &self.bodies {
            if part.is_none() {
                return Some(number);
            }
            number += 1;
        }
        None
    }

    /// Whether all parts were met, of which there is at least one.
    pub(crate) fn complete(&self) -> Result<(), ExportRefused>
        ensures { result ≡ unless_missing self.now }
    {
        if self.bodies.is_empty() {
            return Err(ExportRefused::Nothing);
        }
        match self.missing() {
            Some(number) => Err(ExportRefused::Part { number }),
            None => Ok(()),
        }
    }

    /// Writes the data of the parts, in the order of their numbers.
    pub(crate) fn write<O: Sink>(&self, out: &mut O) -> Result<(), Failed>
        ensures all { OnOk result (Appends (O.taken out.old) (O.taken out.new) (flat_map data_of self.now)) }
        ensures front { AppendsFront (O.taken out.old) (O.taken out.new) (flat_map data_of self.now) }
        ensures cause { HasCause (O.faults out.old) (O.faults out.new) result }
    {
        for part in &self.bodies {
            write_part(part, out)?;
        }
        Ok(())
    }
}
