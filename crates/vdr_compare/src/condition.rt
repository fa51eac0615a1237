// What is told of two media before their places: whether their texts are the same, and where each one is damaged.
ghost use Rattle.std.specs.Prelude.{◌≡◌, ◌≤◌, OnOk};
ghost use Rattle.std.specs.Io.KnownBytes.{Appends};
ghost use Rattle.vdr_outside.specs.Causes.{HasCause};
ghost use Rattle.vdr_outside.specs.Writes.{AppendsFront};
ghost use Rattle.vdr_rescue.specs.declared.findings.Finding.TheVariants.{Damaged as ADamaged};
ghost use Rattle.vdr_compare.specs.Conditions.{condition_text, configuration_line, damage_line, damage_lines, damaged_else, first_verdict, verdict_of_condition};

use crate::Verdict;
use crate::difference::{Line, name_of, push};
use arrayvec::ArrayVec;
use itoa::Buffer;
use std::marker::Model;
use vdr_outside::{Failed, Sink, write_all};
use vdr_rescue::{Finding, Found, found_of};

/// Whether the configurations of both media have the same text, and what is found of each one that is read alone.
#[derive(Drop)]
pub(crate) struct Condition {
    pub(crate) alike: bool,
    pub(crate) capsule: Vec<Finding>,
    pub(crate) longterm: Vec<Finding>,
}

impl Model for Condition {
    ghost use Rattle.vdr_compare.specs.Conditions.{Condition as TheCondition};

    ghost Value = { TheCondition };

    ghost view = { λ c. record { alike = c.alike; capsule = c.capsule.items; longterm = c.longterm.items } };
}

// The first damage of this medium, and this where it has none.
fn damaged_else(medium: u8, found: Found, other: Verdict) -> Verdict
    ensures { result ≡ damaged_else medium found other }
{
    match found {
        Found::Damaged { offset } => Verdict::Damaged { medium, offset },
        Found::Whole | Found::Missing { .. } => other,
    }
}

fn verdict_of(alike: bool, capsule: Found, longterm: Found) -> Verdict
    ensures { result ≡ verdict_of_condition alike capsule longterm }
{
    if alike {
        damaged_else(0, capsule, damaged_else(1, longterm, Verdict::Same))
    } else {
        Verdict::Configuration
    }
}

// The line of damage at this offset.
fn line_of(medium: u8, offset: u64) -> Line
    ensures { result.items ≡ damage_line medium (ADamaged offset) }
{
    let mut line = ArrayVec::new();
    push(&mut line, b"damaged ");
    push(&mut line, name_of(medium));
    push(&mut line, b" ");
    push(&mut line, Buffer::new().format(offset).as_bytes());
    push(&mut line, b"\n");
    line
}

// Prints the line of a finding, where it is damage.
fn print_damage<O: Sink>(medium: u8, finding: Finding, out: &mut O) -> Result<(), Failed>
    ensures all { OnOk result (Appends (O.taken out.old) (O.taken out.new) (damage_line medium finding)) }
    ensures front { AppendsFront (O.taken out.old) (O.taken out.new) (damage_line medium finding) }
    ensures cause { HasCause (O.faults out.old) (O.faults out.new) result }
{
    match finding {
        Finding::Damaged { offset } => write_all(out, line_of(medium, offset).as_slice()),
        Finding::Missing { .. } | Finding::Closed { .. } => Ok(()),
    }
}

// Prints the damage of one medium.
fn print_damages<O: Sink>(medium: u8, findings: &[Finding], out: &mut O) -> Result<(), Failed>
    ensures all { OnOk result (Appends (O.taken out.old) (O.taken out.new) (damage_lines medium findings.now)) }
    ensures front { AppendsFront (O.taken out.old) (O.taken out.new) (damage_lines medium findings.now) }
    ensures cause { HasCause (O.faults out.old) (O.faults out.new) result }
{
    for finding in findings {
        print_damage(medium, *finding, out)?;
    }
    Ok(())
}

// Prints the line of configurations that differ, where they do.
fn print_configuration<O: Sink>(alike: bool, out: &mut O) -> Result<(), Failed>
    ensures all { OnOk result (Appends (O.taken out.old) (O.taken out.new) (configuration_line alike)) }
    ensures front { AppendsFront (O.taken out.old) (O.taken out.new) (configuration_line alike) }
    ensures cause { HasCause (O.faults out.old) (O.faults out.new) result }
{
    if alike {
        return Ok(());
    }
    write_all(out, b"differs configuration\n")
}

impl Condition {
    /// What the first of its lines comes to.
    pub(crate) fn verdict(&self) -> Verdict
        ensures { result ≡ first_verdict self.now }
    {
        verdict_of(
            self.alike,
            found_of(self.capsule.as_slice()),
            found_of(self.longterm.as_slice()),
        )
    }

    /// Prints its lines: that of configurations that differ, and the damage of the capsule and then of the long-term medium, each by
    /// rising offset. Where a write fails a front of them is written.
    pub(crate) fn print<O: Sink>(&self, out: &mut O) -> Result<(), Failed>
        ensures all { OnOk result (Appends (O.taken out.old) (O.taken out.new) (condition_text self.now)) }
        ensures front { AppendsFront (O.taken out.old) (O.taken out.new) (condition_text self.now) }
        ensures cause { HasCause (O.faults out.old) (O.faults out.new) result }
    {
        print_configuration(self.alike, out)?;
        print_damages(0, self.capsule.as_slice(), out)?;
        print_damages(1, self.longterm.as_slice(), out)
    }
}
