// Where a line says that its source is.
ghost use Rattle.std.specs.Prelude.{◌≡◌, IsFalse};
ghost use Rattle.vdr_datagram.specs.Verdicts.{line_spans};
ghost use Rattle.vdr_datagram.specs.Views.{verdict_of};
ghost use Rattle.vdr_values.specs.Readings.{reading};
ghost use Rattle.vdr_rows.specs.Fixes.{AreUnsaid, fix_in, fix_said, fix_with, is_latitude, is_longitude, latitude_of, longitude_of};

use crate::decimal::Decimal;
use crate::measure::valid_by;
use crate::number::number_in;
use crate::seeking::{Sought, mentions};
use vdr_datagram::LineVerdict;
use vdr_values::{Column, Quantity, Reading, read_value};

/// What a line says of where its source is.
#[derive(Clone, Copy, Drop)]
pub enum Fix {
    /// Nothing: it is refused, a field of it is, or its formatter has no position.
    Unsaid,
    /// That it has no valid position: a field of it is empty, or the line does not say that it is valid.
    Lost,
    /// Its position in degrees, north and east above zero.
    At {
        latitude: Decimal,
        longitude: Decimal,
    },
}

fn is_latitude(quantity: Quantity) -> bool
    ensures { result ≡ is_latitude quantity }
{
    matches!(quantity, Quantity::Latitude)
}

fn is_longitude(quantity: Quantity) -> bool
    ensures { result ≡ is_longitude quantity }
{
    matches!(quantity, Quantity::Longitude)
}

pub(crate) fn latitude_of(columns: &[Column]) -> Option<Column>
    ensures { result ≡ latitude_of columns.now }
{
    columns
        .iter()
        .copied()
        .find(|column| is_latitude(column.quantity))
}

pub(crate) fn longitude_of(columns: &[Column]) -> Option<Column>
    ensures { result ≡ longitude_of columns.now }
{
    columns
        .iter()
        .copied()
        .find(|column| is_longitude(column.quantity))
}

// A position that is valid, with both of its numbers.
fn fix_with(valid: Option<bool>, latitude: Option<Decimal>, longitude: Option<Decimal>) -> Fix
    ensures { result ≡ fix_with valid latitude longitude }
{
    match (valid, latitude, longitude) {
        (Some(true), Some(latitude), Some(longitude)) => Fix::At {
            latitude,
            longitude,
        },
        _ => Fix::Lost,
    }
}

// By the columns of its formatter.
fn fix_said(reading: &Reading<'_>) -> Fix
    ensures { result ≡ fix_said reading.now }
{
    let columns = reading.columns();
    let (Some(latitude), Some(longitude)) = (latitude_of(columns), longitude_of(columns)) else {
        return Fix::Unsaid;
    };
    fix_with(
        valid_by(reading, latitude.valid),
        number_in(reading, &latitude),
        number_in(reading, &longitude),
    )
}

/// What a line says of where its source is (IEC 61162-1): a sentence whose formatter has a latitude and a longitude, by its status, its mode or its
/// quality.
pub fn fix_of(verdict: &LineVerdict<'_>) -> Fix
    ensures { result ≡ fix_in (verdict_of verdict.now) }
{
    let LineVerdict::Good { sentence, .. } = verdict else {
        return Fix::Unsaid;
    };
    match &read_value(sentence) {
        Ok(Some(reading)) => fix_said(reading),
        Ok(None) | Err(_) => Fix::Unsaid,
    }
}

/// Whether a line of a datagram may say something of a position, by the bytes of the datagram alone. So one that names no formatter with a position can be
/// passed over before it is cut into its lines.
pub fn may_fix(payload: &[u8]) -> bool
    ensures { IsFalse result → AreUnsaid (line_spans payload.now) }
{
    mentions(Sought::Position, payload)
}
