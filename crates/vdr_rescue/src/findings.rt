// The lines behind the records that one medium gives.
ghost use Rattle.std.specs.Prelude.{◌≡◌, ◌≤◌, ◌++◌, ◌∷◌, [], length, map, if◌then◌else◌, IfOk, OnOk};
ghost use Rattle.std.specs.List.Sorted.{IsNonDecreasing, IsPermutation};
ghost use Rattle.vdr_rescue.specs.Findings.{AreFindings, as_closed, as_damaged, as_missing, closes_when, damages_when, faults, fault_of, is_full, lacks, one_closed, places_of};
ghost use Rattle.vdr_rescue.specs.Alones.{account_of};

use crate::lacking::{Owed, last_second_of, missing_of};
use crate::{Alone, Head, Places, Told};
use std::alloc::{AllocError, Global};
use vdr_segment::Area;

/// What is told behind the records that one medium gives.
#[derive(Clone, Copy, Drop)]
pub enum Finding {
    /// The medium owes the places from `a` to `b`, both included, and lacks them.
    Missing { a: u64, b: u64 },
    /// It is damaged at this offset, in bytes.
    Damaged { offset: u64 },
    /// The gate of the slot at this offset is closed or torn, as a stop may leave it, and a change of the gate too.
    Closed { offset: u64 },
}

// Adds these offsets.
fn add_all(offsets: &mut Vec<u64>, more: &[u64]) -> Result<(), AllocError>
    ensures { OnOk result (offsets.new.items ≡ offsets.old.items ++ more.now) }
{
    for offset in more {
        offsets.push(*offset)?;
    }
    Ok(())
}

// Adds where these slots begin.
fn add_slots(offsets: &mut Vec<u64>, area: Area, slots: &[u32]) -> Result<(), AllocError>
    ensures { OnOk result (offsets.new.items ≡ offsets.old.items ++ places_of area.segment slots.now) }
{
    for slot in slots {
        offsets.push(area.place_of(*slot))?;
    }
    Ok(())
}

// The same where this holds.
fn add_slots_if(
    offsets: &mut Vec<u64>,
    area: Area,
    slots: &[u32],
    holds: bool,
) -> Result<(), AllocError>
    ensures { OnOk result (offsets.new.items ≡ offsets.old.items ++ (if holds then places_of area.segment slots.now else [])) }
{
    if !holds {
        return Ok(());
    }
    add_slots(offsets, area, slots)
}

// Adds where a segment is damaged, if it is.
fn add_fault(
    offsets: &mut Vec<u64>,
    area: Area,
    head: Head,
    fault: Option<u32>,
) -> Result<(), AllocError>
    ensures { OnOk result (offsets.new.items ≡ offsets.old.items ++ fault_of area.segment head fault) }
{
    if let Some(at) = fault {
        offsets.push(area.place_of(head.slot) + at as u64)?;
    }
    Ok(())
}

// Adds where segments are damaged.
fn add_faults(
    offsets: &mut Vec<u64>,
    area: Area,
    heads: &[Head],
    told: &[Told],
) -> Result<(), AllocError>
    requires { length told.now ≤ length heads.now }
    ensures { OnOk result (offsets.new.items ≡ offsets.old.items ++ faults area.segment heads.now told.now) }
{
    for i in 0..told.len() {
        let head = heads[i];
        let tale = told[i];
        add_fault(offsets, area, head, tale.fault)?;
    }
    Ok(())
}

// Adds the lines of these.
fn add_missing(findings: &mut Vec<Finding>, gaps: &[Places]) -> Result<(), AllocError>
    ensures { OnOk result (findings.new.items ≡ findings.old.items ++ map as_missing gaps.now) }
{
    for gap in gaps {
        findings.push(Finding::Missing { a: gap.a, b: gap.b })?;
    }
    Ok(())
}

fn add_damaged(findings: &mut Vec<Finding>, offsets: &[u64]) -> Result<(), AllocError>
    ensures { OnOk result (findings.new.items ≡ findings.old.items ++ map as_damaged offsets.now) }
{
    for offset in offsets {
        findings.push(Finding::Damaged { offset: *offset })?;
    }
    Ok(())
}

fn add_closed(findings: &mut Vec<Finding>, offsets: &[u64]) -> Result<(), AllocError>
    ensures { OnOk result (findings.new.items ≡ findings.old.items ++ map as_closed offsets.now) }
{
    for offset in offsets {
        findings.push(Finding::Closed { offset: *offset })?;
    }
    Ok(())
}

// Whether one of these sequence numbers shows that each of so many slots had a segment.
fn was_full(heads: &[Head], slots: u32) -> bool
    ensures { result ≡ is_full slots heads.now }
{
    let last = slots.saturating_sub(1) as u64;
    heads.iter().any(|head| last <= head.seq)
}

// Adds where the superblock is damaged, if it is.
fn add_superblock(offsets: &mut Vec<u64>, legal: bool) -> Result<(), AllocError>
    ensures { OnOk result (offsets.new.items ≡ offsets.old.items ++ (if legal then [] else 0 ∷ [])) }
{
    if !legal {
        offsets.push(0)?;
    }
    Ok(())
}

// Adds where a slot begins, if there is one and this holds.
fn add_slot_if(
    offsets: &mut Vec<u64>,
    area: Area,
    slot: Option<u32>,
    holds: bool,
) -> Result<(), AllocError>
    ensures { OnOk result (offsets.new.items ≡ offsets.old.items ++ (if holds then one_closed area.segment slot else [])) }
{
    if !holds {
        return Ok(());
    }
    if let Some(slot) = slot {
        offsets.push(area.place_of(slot))?;
    }
    Ok(())
}

// Puts offsets in order.
fn sort(offsets: &mut Vec<u64>)
    ensures moved { IsPermutation offsets.old.items offsets.new.items }
    ensures rising { IsNonDecreasing offsets.new.items }
{
    offsets.sort_unstable();
}

impl Alone {
    // The places that it lacks.
    fn gaps(&self, alloc: Global) -> Result<Vec<Places>, AllocError>
        ensures { IfOk result (λ gaps. gaps.items ≡ lacks (account_of self.now)) }
    {
        let told = self.cursor.told();
        let owed = Owed {
            seconds: self.config.window(self.cursor.area().medium),
            last_second: last_second_of(told),
            closed: self.closed,
        };
        missing_of(alloc, owed, self.saves.pins(), self.cursor.heads(), told)
    }

    // Where it is damaged, in no order. `whole`: it lacks no place.
    fn damages(&self, alloc: Global, whole: bool) -> Result<Vec<u64>, AllocError>
        ensures { IfOk result (λ offsets. offsets.items ≡ damages_when whole (account_of self.now)) }
    {
        let area = self.cursor.area();
        let mut offsets = Vec::new(alloc);
        add_superblock(&mut offsets, self.legal)?;
        add_all(&mut offsets, self.saves.bad())?;
        add_slots(&mut offsets, area, &self.headless)?;
        add_faults(&mut offsets, area, self.cursor.heads(), self.cursor.told())?;
        add_slots_if(&mut offsets, area, &self.torn, !whole)?;
        Ok(offsets)
    }

    // Which gates may hide a segment of which nothing lacks.
    fn closes(&self, alloc: Global, whole: bool) -> Result<Vec<u64>, AllocError>
        ensures { IfOk result (λ offsets. offsets.items ≡ closes_when whole (account_of self.now)) }
    {
        let area = self.cursor.area();
        let hides = self.torn.is_empty()
            && self.closed == 1
            && was_full(self.cursor.heads(), area.slots);
        let mut offsets = Vec::new(alloc);
        add_slots_if(&mut offsets, area, &self.torn, whole)?;
        add_slot_if(&mut offsets, area, self.last_closed, hides)?;
        Ok(offsets)
    }

    /// What is told behind the records, once a visit has ended with all read: the places that lack, by rising place; the damage, by
    /// rising offset; and the gates that may hide a segment. Takes memory for them.
    pub fn findings(&self, alloc: Global) -> Result<Vec<Finding>, AllocError>
        ensures { IfOk result (λ findings. AreFindings (account_of self.now) findings.items) }
    {
        let gaps = self.gaps(alloc)?;
        let whole = gaps.is_empty();
        let mut damaged = self.damages(alloc, whole)?;
        sort(&mut damaged);
        let closed = self.closes(alloc, whole)?;
        let mut findings = Vec::new(alloc);
        add_missing(&mut findings, &gaps)?;
        add_damaged(&mut findings, &damaged)?;
        add_closed(&mut findings, &closed)?;
        Ok(findings)
    }
}
