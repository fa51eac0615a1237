// One of the sentences that an alert, or a list of alerts, comes in.
ghost use Rattle.std.specs.Prelude.{◌≡◌, if◌then◌else◌, option_copied};
ghost use Rattle.vdr_alerts.specs.Alerts.{alert_in, alert_told, as_kept, first_of, follows, is_led, is_next, is_whole, part_cmp, rest_told, text_in, title_told};

use crate::alert::Alert;
use arrayvec::ArrayVec;
use std::cmp::Ordering;
use std::marker::Model;

/// One of so many sentences.
#[derive(Drop)]
pub struct Part {
    pub(crate) group: u8,
    pub(crate) name: ArrayVec<u8, 15>,
    /// The sequential identifier.
    pub(crate) sequence: Option<u32>,
    /// The code of the TAG group.
    pub(crate) code: Option<u32>,
    pub(crate) total: u32,
    /// From 1 to `total`. 0 where one before it is not there.
    pub(crate) number: u32,
    pub(crate) alert: Option<Alert>,
    pub(crate) text: ArrayVec<u8, 76>,
}

impl Model for Part {
    ghost use Rattle.std.specs.Prelude.{◌≤◌};
    ghost use Rattle.vdr_alerts.specs.Alerts.{Part as APart};

    ghost Value = { APart };

    ghost view = { λ p. record {
      source = record { group = p.group; name = p.name.items };
      sequence = p.sequence;
      code = p.code;
      total = p.total;
      number = p.number;
      alert = p.alert;
      text = p.text.items;
    } };

    ghost invariant = { λ p. p.group ≤ 15 };
}

fn own_alert(alert: &Option<Alert>) -> Option<Alert>
    ensures { result ≡ alert.now }
{
    match alert {
        Some(alert) => Some(alert.copied()),
        None => None,
    }
}

fn alert_in(part: Option<&Part>) -> Option<Alert>
    ensures { result ≡ alert_in (option_copied part.entry) }
{
    match part {
        Some(part) => own_alert(&part.alert),
        None => None,
    }
}

fn text_in(part: Option<&Part>) -> &[u8]
    ensures { result.now ≡ text_in (option_copied part.entry) }
{
    match part {
        Some(part) => part.text.as_slice(),
        None => b"",
    }
}

impl Part {
    /// How it stands to another one, by group, source and sequential identifier.
    pub(crate) fn order(&self, other: &Part) -> Ordering
        ensures { result ≡ part_cmp self.now other.now }
    {
        self.group
            .cmp(&other.group)
            .then(self.name.as_slice().cmp(&other.name.as_slice()))
            .then(self.sequence.cmp(&other.sequence))
    }

    // Whether the other one comes next.
    fn is_next(&self, next: &Part) -> bool
        ensures { result ≡ is_next self.now next.now }
    {
        self.code == next.code
            && self.total == next.total
            && self.number > 0
            && u64::from(next.number) == u64::from(self.number) + 1
    }

    // Whether it comes next behind this one.
    fn follows(&self, before: Option<&Part>) -> bool
        ensures { result ≡ follows (option_copied before.entry) self.now }
    {
        match before {
            Some(before) => before.is_next(self),
            None => false,
        }
    }

    // Whether all sentences before it are there.
    fn is_led(&self, before: Option<&Part>) -> bool
        ensures { result ≡ is_led (option_copied before.entry) self.now }
    {
        self.number == 1 || self.follows(before)
    }

    /// Whether it is the last one, and all are there.
    pub(crate) fn is_whole(&self, before: Option<&Part>) -> bool
        ensures { result ≡ is_whole (option_copied before.entry) self.now }
    {
        self.is_led(before) && self.number == self.total
    }

    // The first sentence, where this is the last one of two.
    fn first<'p>(&'p self, before: Option<&'p Part>) -> Option<&'p Part>
        ensures { option_copied result ≡ first_of (option_copied before.entry) self.now }
    {
        if self.number == 1 { Some(self) } else { before }
    }

    /// The alert that is told once this sentence is there.
    pub(crate) fn alert_told(&self, before: Option<&Part>) -> Option<Alert>
        ensures { result ≡ alert_told (option_copied before.entry) self.now }
    {
        if self.is_whole(before) {
            alert_in(self.first(before))
        } else {
            None
        }
    }

    /// The text of the first sentence.
    pub(crate) fn title<'p>(&'p self, before: Option<&'p Part>) -> &'p [u8]
        ensures { result.now ≡ title_told (option_copied before.entry) self.now }
    {
        text_in(self.first(before))
    }

    /// The text of the second sentence.
    pub(crate) fn rest(&self) -> &[u8]
        ensures { result.now ≡ rest_told self.now }
    {
        if self.number == 1 {
            b""
        } else {
            self.text.as_slice()
        }
    }

    /// What is kept of it.
    pub(crate) fn kept(self, led: bool) -> Part
        ensures { result ≡ record self { number = if led then self.number else 0 } }
    {
        Part {
            group: self.group,
            name: self.name,
            sequence: self.sequence,
            code: self.code,
            total: self.total,
            number: if led { self.number } else { 0 },
            alert: self.alert,
            text: self.text,
        }
    }
}

/// What is kept of a sentence behind the one before it.
pub(crate) fn as_kept(before: Option<&Part>, part: Part) -> Part
    ensures { result ≡ as_kept (option_copied before.entry) part }
{
    let led = part.is_led(before);
    part.kept(led)
}
