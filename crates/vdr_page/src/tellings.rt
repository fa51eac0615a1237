// What the lines of a record tell: readings of series, and names of ships.
ghost use Rattle.std.specs.Prelude.{◌≡◌, ◌≤◌, ◌+◌, ◌++◌, ◌∷◌, IfOk, codes, length, map};
ghost use Rattle.std.specs.Fmt.{signed_decimal};
ghost use Rattle.arrayvec.specs.ArrayVec.{array_vec_len};
ghost use Rattle.vdr_ais.specs.Views.{position_said};
ghost use Rattle.vdr_rows.specs.Decimals.{decimal_text};
ghost use Rattle.vdr_rows.specs.NumberViews.{number_seen, position_seen};
ghost use Rattle.vdr_page.specs.FieldViews.{field_of};
ghost use Rattle.vdr_page.specs.Fields.{fields_text};
ghost use Rattle.vdr_page.specs.Tellings.{number_or_none, number_told, position_told, ship_text, ship_told};
ghost use Rattle.vdr_page.specs.TellingViews.{speaker_of, telling_of};

use crate::field::{Field, push_fields};
use arrayvec::ArrayVec;
use itoa::Buffer;
use std::alloc::{AllocError, Global};
use vdr_ais::Position;
use vdr_rows::{NumberSaid, PositionSaid, decimal_text};
use vdr_thin::Kind;

/// What is shown of a reading.
pub(crate) type Shown = ArrayVec<u8, 72>;

/// A reading of a series.
#[derive(Drop)]
pub(crate) struct Said {
    pub(crate) kind: Kind,
    /// The fields by which the series' rows begin.
    pub(crate) key: Vec<u8>,
    /// Whether its sentence says that it is valid.
    pub(crate) valid: Option<bool>,
    /// What extremes are judged by, in hundred-millionths: a number and the same again, a latitude and a longitude, or nothing.
    pub(crate) measure: i128,
    pub(crate) second: i128,
    pub(crate) text: Shown,
}

/// A ship's name.
#[derive(Drop)]
pub(crate) struct Name {
    /// VDM of another ship, VDO of the own ship.
    pub(crate) formatter: &'static [u8],
    pub(crate) mmsi: u32,
    pub(crate) name: ArrayVec<u8, 20>,
}

/// What a line tells.
#[derive(Drop)]
pub(crate) enum Telling {
    Says(Said),
    Names(Name),
}

/// Who speaks in a line.
#[derive(Clone, Copy, Drop)]
pub(crate) struct Speaker<'a> {
    /// The name of its record's transmission group.
    pub(crate) group: &'static [u8],
    /// The source that its TAG blocks name.
    pub(crate) source: &'a [u8],
    /// The address of its sentence.
    pub(crate) sentence: &'a [u8],
}

fn key_of(alloc: Global, fields: &[Field<'_>]) -> Result<Vec<u8>, AllocError>
    ensures { IfOk result (λ key. key.items ≡ fields_text (map field_of fields.now)) }
{
    let mut key = Vec::new(alloc);
    push_fields(&mut key, fields)?;
    Ok(key)
}

fn push(text: &mut Shown, piece: &[u8])
    requires { array_vec_len text.old + length piece.now ≤ 72 }
    ensures { text.new.items ≡ text.old.items ++ piece.now }
{
    let _ = text.try_extend_from_slice(piece);
}

fn number_text(number: &NumberSaid) -> Shown
    ensures { result.items ≡ decimal_text number.now.number }
{
    let mut text = ArrayVec::new();
    push(&mut text, decimal_text(number.number).as_slice());
    text
}

/// A number that a sentence says.
pub(crate) fn number_told(
    alloc: Global,
    who: &Speaker<'_>,
    number: &NumberSaid,
) -> Result<Telling, AllocError>
    ensures { IfOk result (λ told. telling_of told ≡ number_told (speaker_of who.now) (number_seen number.now)) }
{
    let fields = [
        Field::Text(who.group),
        Field::Text(who.source),
        Field::Text(who.sentence),
        Field::Text(number.item.as_slice()),
        Field::Text(number.name),
        Field::Text(number.measure),
    ];
    let key = key_of(alloc, &fields)?;
    let measure = number.number.hundred_millionths();
    Ok(Telling::Says(Said {
        kind: Kind::Value,
        key,
        valid: number.valid,
        measure,
        second: measure,
        text: number_text(number),
    }))
}

fn position_text(position: &PositionSaid) -> Shown
    ensures { result.items ≡ decimal_text position.now.latitude ++ 44 ∷ decimal_text position.now.longitude }
{
    let mut text = ArrayVec::new();
    push(&mut text, decimal_text(position.latitude).as_slice());
    text.push(b',');
    push(&mut text, decimal_text(position.longitude).as_slice());
    text
}

/// Where a sentence says that its source is.
pub(crate) fn position_told(
    alloc: Global,
    who: &Speaker<'_>,
    position: &PositionSaid,
) -> Result<Telling, AllocError>
    ensures { IfOk result (λ told. telling_of told ≡ position_told (speaker_of who.now) (position_seen position.now)) }
{
    let fields = [
        Field::Text(who.group),
        Field::Text(who.source),
        Field::Text(who.sentence),
    ];
    let key = key_of(alloc, &fields)?;
    Ok(Telling::Says(Said {
        kind: Kind::Position,
        key,
        valid: position.valid,
        measure: position.latitude.hundred_millionths(),
        second: position.longitude.hundred_millionths(),
        text: position_text(position),
    }))
}

// A signed number and the comma behind it.
fn push_signed(text: &mut Shown, number: i32)
    requires room { array_vec_len text.old + 12 ≤ 72 }
    ensures text { text.new.items ≡ text.old.items ++ signed_decimal number ++ codes "," }
    ensures short { array_vec_len text.new ≤ array_vec_len text.old + 12 }
{
    push(text, Buffer::new().format(number).as_bytes());
    text.push(b',');
}

// A number of 16 bits, or `null`.
fn push_small(text: &mut Shown, number: Option<u16>)
    requires room { array_vec_len text.old + 5 ≤ 72 }
    ensures text { text.new.items ≡ text.old.items ++ number_or_none number }
    ensures short { array_vec_len text.new ≤ array_vec_len text.old + 5 }
{
    match number {
        Some(number) => push(text, Buffer::new().format(number).as_bytes()),
        None => push(text, b"null"),
    }
}

fn ship_text(position: &Position) -> Shown
    ensures { result.items ≡ ship_text (position_said position.now) }
{
    let mut text = ArrayVec::new();
    push_signed(&mut text, position.latitude);
    push_signed(&mut text, position.longitude);
    push_small(&mut text, position.speed);
    text.push(b',');
    push_small(&mut text, position.course);
    text.push(b',');
    push_small(&mut text, position.heading);
    text
}

/// Where a message of a ship says that it is.
pub(crate) fn ship_told<'a>(
    alloc: Global,
    who: &Speaker<'a>,
    formatter: &'a [u8],
    mmsi: u32,
    position: &Position,
) -> Result<Telling, AllocError>
    ensures { IfOk result (λ told. telling_of told ≡ ship_told (speaker_of who.now) formatter.now mmsi (position_said position.now)) }
{
    let fields = [
        Field::Text(who.group),
        Field::Text(who.source),
        Field::Text(formatter),
        Field::Number(u64::from(mmsi)),
    ];
    let key = key_of(alloc, &fields)?;
    Ok(Telling::Says(Said {
        kind: Kind::Ship,
        key,
        valid: None,
        measure: 0,
        second: 0,
        text: ship_text(position),
    }))
}
