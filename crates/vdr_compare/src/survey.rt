// The first reading of one medium alone, to its end: the second of its last record, and what is found of it.
ghost use Rattle.std.specs.Prelude.{◌≡◌, ◌<◌, ◌≤◌, ℕ, List, Err, IfOk};
ghost use Rattle.vdr_terms.specs.Records.{Record as Entry};
ghost use Rattle.vdr_outside.specs.Causes.{HasCauseOn};
ghost use Rattle.vdr_outside.specs.Disk.{Unchanged, content};
ghost use Rattle.vdr_outside.specs.declared.fault.PartRefused.TheVariants.{Damaged};
ghost use Rattle.vdr_directory.specs.Opening.{HasFaultCause};
ghost use Rattle.vdr_segment.specs.Areas.{HasRoom};
ghost use Rattle.vdr_rescue.specs.Alones.{IsAloneOn, IsReadThrough, IsSameMedium, Rescue, Rescued};
ghost use Rattle.vdr_compare.specs.Seconds.{last_second};
ghost use Rattle.vdr_compare.specs.Surveys.{IsSurveyOf};

use std::alloc::Global;
use std::convert::Infallible;
use std::marker::Model;
use vdr_entry::{Medium, Query, Record};
use vdr_outside::{Failed, Fault, Media, PartRefused, Sink};
use vdr_rescue::{Alone, Cursor, Finding, law_of_alone};
use vdr_terms::LAST_STAMP;
use vdr_visit::{Reader, Visitor, VisitorRefused};

// Keeps the second of the last record that it is handed, and prints nothing.
#[derive(Drop)]
struct LastSecond {
    second: u64,
}

impl Visitor for LastSecond {
    ghost use Rattle.std.specs.Prelude.{◌≡◌, []};
    ghost use Rattle.vdr_compare.specs.Seconds.{last_from};

    /// It never stops by itself.
    type Reason = Infallible;

    ghost has = { λ first seen now. now.second ≡ last_from first.second seen };

    ghost line = { λ _ _ _. [] };

    ghost last = { λ _ _. [] };

    ghost stops = { λ _ _ _. ⊥ };

    fn visit<O: Sink>(
        &mut self,
        item: &Record,
        _out: &mut O,
    ) -> Result<(), VisitorRefused<Infallible>> {
        self.second = item.tick / 1000;
        Ok(())
    }

    fn finish<O: Sink>(&mut self, _out: &mut O) -> Result<(), VisitorRefused<Infallible>> {
        Ok(())
    }
}

// Takes all bytes and keeps none. It never fails.
#[derive(Drop)]
struct Nowhere {}

impl Sink for Nowhere {
    ghost use Rattle.std.specs.Prelude.{None};

    ghost taken = { λ _. None };

    ghost faults = { λ _. 0 };

    fn write(&mut self, bytes: &[u8]) -> Result<usize, Failed> {
        Ok(bytes.len())
    }
}

/// What one medium alone gives at a first reading.
#[derive(Drop)]
pub(crate) struct Survey {
    /// The reader of its records, for a further reading.
    pub(crate) cursor: Cursor,
    /// Its window, in seconds.
    pub(crate) seconds: u64,
    /// The second of the last record that it gives, 0 where there is none.
    pub(crate) last_second: u64,
    pub(crate) findings: Vec<Finding>,
}

impl Model for Survey {
    ghost use Rattle.vdr_compare.specs.Surveys.{SurveyState};

    ghost Value = { SurveyState };

    ghost view = { λ s. record { cursor = s.cursor; seconds = s.seconds; last_second = s.last_second; findings = s.findings.items } };
}

// Reads all its records, and answers the second of the last one.
fn read_through<M: Media>(alone: &mut Alone, media: &mut M) -> Result<u64, Fault>
    requires room { HasRoom alone.old.cursor.area (M.disk media.old).sizes }
    ensures same { IsSameMedium alone.old alone.new }
    ensures second { IfOk result (λ n. M.tells → (m : ℕ) (x : Rescue) → IsAloneOn m (content (M.disk media.old).reads m) alone.old
        → Rescued m (content (M.disk media.old).reads m) x → n ≡ last_second x.given) }
    ensures read { IfOk result (λ n. M.tells → (given : List Entry) × IsReadThrough (content (M.disk media.old).reads alone.old.cursor.area.medium) alone.old.cursor alone.new.cursor.told given) }
    ensures unchanged { Unchanged (M.disk media.old) (M.disk media.new) }
    ensures cause { HasCauseOn alone.old.cursor.area.medium (M.faults media.old) (M.faults media.new) result }
{
    law_of_alone();
    let query = Query {
        medium: Medium::Capsule,
        channel: None,
        from: 0,
        to: LAST_STAMP,
    };
    let mut last = LastSecond { second: 0 };
    match alone.visit(media, &query, &mut last, &mut Nowhere {}) {
        Ok(()) => Ok(last.second),
        Err(_) => Err(Fault),
    }
}

/// Reads a medium that was opened alone to its end. Takes memory for what is found of it; where there is none, `NoMemory`. `Fault`: a
/// read failed, and the count of faults of this medium rose. It is never `Damaged`.
pub(crate) fn survey_alone<M: Media>(
    alloc: Global,
    alone: Alone,
    media: &mut M,
) -> Result<Survey, PartRefused>
    requires room { HasRoom alone.cursor.area (M.disk media.old).sizes }
    ensures area { IfOk result (λ s. s.cursor.area ≡ alone.cursor.area) }
    ensures surveyed { IfOk result (λ s. M.tells → (m : ℕ) (x : Rescue) → IsAloneOn m (content (M.disk media.old).reads m) alone
        → Rescued m (content (M.disk media.old).reads m) x → IsSurveyOf m (content (M.disk media.old).reads m) x s) }
    ensures damaged { (k offset : ℕ) → result ≡ Err (Damaged k offset) → ⊥ }
    ensures unchanged { Unchanged (M.disk media.old) (M.disk media.new) }
    ensures cause { HasFaultCause alone.cursor.area.medium (M.faults media.old) (M.faults media.new) result }
{
    law_of_alone();
    let mut alone = alone;
    let Ok(last_second) = read_through(&mut alone, media) else {
        return Err(PartRefused::Fault);
    };
    let Ok(findings) = alone.findings(alloc) else {
        return Err(PartRefused::NoMemory);
    };
    let seconds = alone.config().window(alone.medium());
    Ok(Survey {
        cursor: alone.into_cursor(),
        seconds,
        last_second,
        findings,
    })
}
