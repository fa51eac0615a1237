// A bridge alert.
ghost use Rattle.std.specs.Prelude.{◌≡◌, ◌≤◌, length};
ghost use Rattle.vdr_durability.specs.Sources.{is_same};
ghost use Rattle.vdr_alerts.specs.Alerts.{alert_cmp, behind_list, is_known, leaves, stands, stays};

use crate::part::Part;
use crate::saying::names;
use arrayvec::ArrayVec;
use std::cmp::Ordering;
use std::marker::Model;
use vdr_values::Reading;

/// The state normal.
const NORMAL: u8 = b'N';

/// What is kept of an alert.
#[derive(Drop)]
pub struct Alert {
    pub(crate) group: u8,
    pub(crate) name: ArrayVec<u8, 15>,
    /// The manufacturer's mnemonic code, empty for a standardized alert.
    pub(crate) maker: ArrayVec<u8, 76>,
    pub(crate) number: u64,
    pub(crate) instance: Option<u64>,
    /// `E` emergency alarm, `A` alarm, `W` warning, `C` caution.
    pub(crate) priority: Option<u8>,
    /// `V`, `S`, `A`, `O`, `U` or `N`.
    pub(crate) state: Option<u8>,
    /// It was told, or listed, since its source's last list began.
    pub(crate) listed: bool,
    /// It stood, and its source's list did not have it.
    pub(crate) gone: bool,
}

impl Model for Alert {
    ghost use Rattle.std.specs.Prelude.{◌≤◌};
    ghost use Rattle.vdr_alerts.specs.Alerts.{Alert as Known};

    ghost Value = { Known };

    ghost view = { λ a. record {
      source = record { group = a.group; name = a.name.items };
      maker = a.maker.items;
      number = a.number;
      instance = a.instance;
      priority = a.priority;
      state = a.state;
      listed = a.listed;
      gone = a.gone;
    } };

    ghost invariant = { λ a. a.group ≤ 15 };
}

/// A text of its own.
pub(crate) fn text_of(bytes: &[u8]) -> ArrayVec<u8, 76>
    requires { length bytes.now ≤ 76 }
    ensures { result.items ≡ bytes.now }
{
    let mut text = ArrayVec::new();
    let _ = text.try_extend_from_slice(bytes);
    text
}

/// A name of its own.
pub(crate) fn name_of(bytes: &[u8]) -> ArrayVec<u8, 15>
    requires { length bytes.now ≤ 15 }
    ensures { result.items ≡ bytes.now }
{
    let mut name = ArrayVec::new();
    let _ = name.try_extend_from_slice(bytes);
    name
}

impl Alert {
    /// How it stands to another alert, by group, source, identifier and instance.
    pub(crate) fn order(&self, other: &Alert) -> Ordering
        ensures { result ≡ alert_cmp self.now other.now }
    {
        self.group
            .cmp(&other.group)
            .then(self.name.as_slice().cmp(&other.name.as_slice()))
            .then(
                self.maker.as_slice().cmp(&other.maker.as_slice()).then(
                    self.number
                        .cmp(&other.number)
                        .then(self.instance.cmp(&other.instance)),
                ),
            )
    }

    /// Whether it tells nothing new: it is not gone, and has this priority and state.
    pub(crate) fn is_known(&self, next: &Alert) -> bool
        ensures { result ≡ is_known self.now next.now }
    {
        !self.gone && self.priority == next.priority && self.state == next.state
    }

    /// Whether it stands: it is not gone, and its state is not normal.
    pub(crate) fn stands(&self) -> bool
        ensures { result ≡ stands self.now }
    {
        !self.gone && self.state != Some(NORMAL)
    }

    // Whether it is of the source of this sentence.
    fn is_of(&self, part: &Part) -> bool
        ensures { result ≡ is_same self.now.source part.now.source }
    {
        self.group == part.group && self.name.as_slice() == part.name.as_slice()
    }

    // Whether it was told since the list of this sentence began, or is listed there.
    fn stays(&self, part: &Part, reading: &Reading<'_>) -> bool
        ensures { result ≡ stays part.now reading.now.values self.now }
    {
        names(reading, self) || (self.listed && part.number != 1)
    }

    /// Whether it stood, and the list that ends with this sentence does not have it.
    pub(crate) fn leaves(&self, is_ended: bool, part: &Part, reading: &Reading<'_>) -> bool
        ensures { result ≡ leaves is_ended part.now reading.now.values self.now }
    {
        is_ended && self.is_of(part) && self.stands() && !self.stays(part, reading)
    }

    /// Takes a sentence of a list.
    pub(crate) fn list(&mut self, is_ended: bool, part: &Part, reading: &Reading<'_>)
        ensures { self.new ≡ behind_list is_ended part.now reading.now.values self.old }
    {
        if !self.is_of(part) {
            return;
        }
        let leaves = self.leaves(is_ended, part, reading);
        self.listed = self.stays(part, reading);
        self.gone = self.gone || leaves;
    }

    /// One like it.
    pub(crate) fn copied(&self) -> Alert
        ensures { result ≡ self.now }
    {
        Alert {
            group: self.group,
            name: name_of(self.name.as_slice()),
            maker: text_of(self.maker.as_slice()),
            number: self.number,
            instance: self.instance,
            priority: self.priority,
            state: self.state,
            listed: self.listed,
            gone: self.gone,
        }
    }
}
