// The numbers that a sentence says, and where it says that its source is.
ghost use Rattle.std.specs.Prelude.{◌≡◌, ◌≤◌, [], ℕ, None, false, length, option_map};
ghost use Rattle.vdr_ais.specs.Lines.{line_in, lines_in};
ghost use Rattle.vdr_datagram.specs.Views.{verdict_of};
ghost use Rattle.vdr_rows.specs.Numbers.{hundred_millionths_of, is_position, number_by, position_of, position_with};
ghost use Rattle.vdr_rows.specs.NumberViews.{number_seen, position_seen};
ghost use Rattle.vdr_rows.specs.Values.{item_text};

use crate::decimal::Decimal;
use crate::fix::{latitude_of, longitude_of};
use crate::item::{item_or, told_by};
use crate::measure::{unit_of, valid_by};
use crate::names::quantity_text;
use crate::number::number_in;
use crate::seeking::{Sought, is_carrier, mentions};
use crate::sentence::is_clock;
use arrayvec::ArrayVec;
use vdr_datagram::LineVerdict;
use vdr_values::{Column, Item, Quantity, Reading};

/// A number that a sentence says.
#[derive(Drop)]
pub struct NumberSaid {
    /// Which of several it is.
    pub item: ArrayVec<u8, 65>,
    /// What it is.
    pub name: &'static [u8],
    pub number: Decimal,
    /// Its unit.
    pub measure: &'static [u8],
    /// Whether the sentence says that it is valid.
    pub valid: Option<bool>,
}

/// Where a sentence says that its source is, in degrees, north and east above zero.
#[derive(Clone, Copy, Drop)]
pub struct PositionSaid {
    pub latitude: Decimal,
    pub longitude: Decimal,
    /// Whether the sentence says that it is valid.
    pub valid: Option<bool>,
}

impl Decimal {
    /// It in hundred-millionths, by which numbers compare.
    pub fn hundred_millionths(self) -> i128
        ensures { result ≡ hundred_millionths_of self }
    {
        let size = 100_000_000 * i128::from(self.whole) + i128::from(self.fraction);
        if self.negative { -size } else { size }
    }
}

fn is_position(quantity: Quantity) -> bool
    ensures { result ≡ is_position quantity }
{
    matches!(quantity, Quantity::Latitude | Quantity::Longitude)
}

fn item_of(reading: &Reading<'_>, item: Item) -> ArrayVec<u8, 65>
    ensures { result.items ≡ item_text reading.now.values item }
{
    let told = told_by(reading, item);
    let mut text = ArrayVec::new();
    let _ = text.try_extend_from_slice(item_or(item, told.as_slice()));
    text
}

/// The number that a column of a sentence's formatter has, where it has one that is no latitude or longitude.
pub fn number_of_column(reading: &Reading<'_>, column: &Column) -> Option<NumberSaid>
    ensures { option_map number_seen result ≡ number_by reading.now.values column.now }
{
    if is_position(column.quantity) || is_clock(column.words) {
        return None;
    }
    let number = number_in(reading, column)?;
    Some(NumberSaid {
        item: item_of(reading, column.item),
        name: quantity_text(column.quantity),
        number,
        measure: unit_of(reading, column.measure),
        valid: valid_by(reading, column.valid),
    })
}

fn position_with(
    valid: Option<bool>,
    latitude: Option<Decimal>,
    longitude: Option<Decimal>,
) -> Option<PositionSaid>
    ensures { option_map position_seen result ≡ position_with valid latitude longitude }
{
    Some(PositionSaid {
        latitude: latitude?,
        longitude: longitude?,
        valid,
    })
}

/// Where a sentence says that its source is (IEC 61162-1), where it says both numbers of it, valid or not.
pub fn position_said(reading: &Reading<'_>) -> Option<PositionSaid>
    ensures { option_map position_seen result ≡ position_of reading.now }
{
    let columns = reading.columns();
    let latitude = latitude_of(columns)?;
    let longitude = longitude_of(columns)?;
    position_with(
        valid_by(reading, latitude.valid),
        number_in(reading, &latitude),
        number_in(reading, &longitude),
    )
}

/// Whether a line of a datagram may carry a part of an AIS message: where it is false none does.
pub fn may_carry_parts(payload: &[u8]) -> bool
    ensures { (group : ℕ) → result ≡ false → lines_in group payload.now ≡ [] }
{
    mentions(Sought::Parts, payload)
}

/// Whether a line may carry a part of an AIS message: where it is false it does not.
pub fn may_carry_part(verdict: &LineVerdict<'_>) -> bool
    ensures { (group : ℕ) → result ≡ false → line_in group (verdict_of verdict.now) ≡ None }
{
    is_carrier(verdict)
}
