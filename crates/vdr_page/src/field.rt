// The fields of a row, and the row of them.
ghost use Rattle.std.specs.Prelude.{◌≡◌, ◌≤◌, ◌<◌, ◌++◌, All, IfOk, OnOk, length, map, take, true};
ghost use Rattle.std.specs.List.{flat_map};
ghost use Rattle.vdr_page.specs.FieldViews.{field_of};
ghost use Rattle.vdr_page.specs.Fields.{field_text, fields_text, flag, keyed_row, number_or_null, row};
ghost use Rattle.vdr_page.specs.Strings.{escaped, hex_digit, inlined, is_plain, quoted};

use arrayvec::ArrayVec;
use itoa::Buffer;
use std::alloc::AllocError;

/// A field of a row.
#[derive(Clone, Copy, Drop)]
pub(crate) enum Field<'a> {
    Number(u64),
    /// The string of these bytes.
    Text(&'a [u8]),
    /// A list, as it stands in a row.
    Made(&'a [u8]),
    Missing,
}

fn is_plain(byte: u8) -> bool
    ensures { result ≡ is_plain byte }
{
    (b' '..=b'~').contains(&byte) && !matches!(byte, b'"' | b'&' | b'<' | b'>' | b'\\')
}

fn hex_digit(n: u8) -> u8
    requires { n < 16 }
    ensures { result ≡ hex_digit n }
{
    if n < 10 { b'0' + n } else { b'a' - 10 + n }
}

// A byte of a string.
#[tactic(auto, unfolding(crate::specs::Strings::escaped))]
pub(crate) fn escaped(byte: u8) -> ArrayVec<u8, 6>
    ensures { result.items ≡ escaped byte }
{
    let mut text = ArrayVec::new();
    if is_plain(byte) {
        text.push(byte);
        return text;
    }
    let _ = text.try_extend_from_slice(&[
        b'\\',
        b'u',
        b'0',
        b'0',
        hex_digit(byte / 16),
        hex_digit(byte % 16),
    ]);
    text
}

// How many bytes stand for themselves before the first one that does not.
fn plain_length(bytes: &[u8]) -> usize
    ensures within { result ≤ length bytes.now }
    ensures plain { All (λ byte. is_plain byte ≡ true) (take result bytes.now) }
{
    let mut count = 0;
    while count < bytes.len() && is_plain(bytes[count]) {
        count += 1;
    }
    count
}

// Appends the first bytes as they stand in a string, and says how many: as many as stand for themselves, or one that does not.
fn push_first_escaped(text: &mut Vec<u8>, bytes: &[u8]) -> Result<usize, AllocError>
    requires { 0 < length bytes.now }
    ensures few { IfOk result (λ count. count ≤ length bytes.now) }
    ensures some { IfOk result (λ count. 0 < count) }
    ensures text { IfOk result (λ count. text.new.items ≡ text.old.items ++ flat_map escaped (take count bytes.now)) }
{
    let plain = plain_length(bytes);
    if plain > 0 {
        text.extend_from_slice(&bytes[..plain])?;
        return Ok(plain);
    }
    text.extend_from_slice(escaped(bytes[0]).as_slice())?;
    Ok(1)
}

/// Appends the bytes as they stand in a string.
pub(crate) fn push_escaped(text: &mut Vec<u8>, bytes: &[u8]) -> Result<(), AllocError>
    ensures { OnOk result (text.new.items ≡ text.old.items ++ flat_map escaped bytes.now) }
{
    let mut done = 0;
    while done < bytes.len() {
        done += push_first_escaped(text, &bytes[done..])?;
    }
    Ok(())
}

fn push_quoted(text: &mut Vec<u8>, bytes: &[u8]) -> Result<(), AllocError>
    ensures { OnOk result (text.new.items ≡ text.old.items ++ quoted bytes.now) }
{
    text.extend_from_slice(b"\"")?;
    push_escaped(text, bytes)?;
    text.extend_from_slice(b"\"")
}

// A byte of fields that are made, as they stand in a row.
#[tactic(auto, unfolding(crate::specs::Strings::inlined))]
fn inlined(byte: u8) -> ArrayVec<u8, 6>
    ensures { result.items ≡ inlined byte }
{
    if is_plain(byte) || byte == b'"' || byte == b'\\' {
        let mut text = ArrayVec::new();
        text.push(byte);
        return text;
    }
    escaped(byte)
}

// Appends the first bytes as they stand in a row, and says how many.
fn push_first_inlined(text: &mut Vec<u8>, fields: &[u8]) -> Result<usize, AllocError>
    requires { 0 < length fields.now }
    ensures few { IfOk result (λ count. count ≤ length fields.now) }
    ensures some { IfOk result (λ count. 0 < count) }
    ensures text { IfOk result (λ count. text.new.items ≡ text.old.items ++ flat_map inlined (take count fields.now)) }
{
    let plain = plain_length(fields);
    if plain > 0 {
        text.extend_from_slice(&fields[..plain])?;
        return Ok(plain);
    }
    text.extend_from_slice(inlined(fields[0]).as_slice())?;
    Ok(1)
}

fn push_inlined(text: &mut Vec<u8>, fields: &[u8]) -> Result<(), AllocError>
    ensures { OnOk result (text.new.items ≡ text.old.items ++ flat_map inlined fields.now) }
{
    let mut done = 0;
    while done < fields.len() {
        done += push_first_inlined(text, &fields[done..])?;
    }
    Ok(())
}

fn push_field(text: &mut Vec<u8>, field: &Field<'_>) -> Result<(), AllocError>
    ensures { OnOk result (text.new.items ≡ text.old.items ++ field_text (field_of field.now)) }
{
    match field {
        Field::Number(n) => text.extend_from_slice(Buffer::new().format(*n).as_bytes()),
        Field::Text(bytes) => push_quoted(text, bytes),
        Field::Made(list) => push_inlined(text, list),
        Field::Missing => text.extend_from_slice(b"null"),
    }
}

/// Appends fields, each behind a comma.
pub(crate) fn push_fields(text: &mut Vec<u8>, fields: &[Field<'_>]) -> Result<(), AllocError>
    ensures { OnOk result (text.new.items ≡ text.old.items ++ fields_text (map field_of fields.now)) }
{
    for field in fields {
        text.extend_from_slice(b",")?;
        push_field(text, field)?;
    }
    Ok(())
}

/// Appends a row.
#[tactic(auto, unfolding(crate::specs::Fields::row))]
pub(crate) fn push_row(
    text: &mut Vec<u8>,
    name: &[u8],
    fields: &[Field<'_>],
) -> Result<(), AllocError>
    ensures { OnOk result (text.new.items ≡ text.old.items ++ row name.now (map field_of fields.now)) }
{
    text.extend_from_slice(b"[\"")?;
    text.extend_from_slice(name)?;
    text.extend_from_slice(b"\"")?;
    push_fields(text, fields)?;
    text.extend_from_slice(b"],\n")
}

/// Appends a row, of which the first fields are made already, with their commas.
#[tactic(auto, unfolding(crate::specs::Fields::keyed_row))]
pub(crate) fn push_keyed_row(
    text: &mut Vec<u8>,
    name: &[u8],
    key: &[u8],
    fields: &[Field<'_>],
) -> Result<(), AllocError>
    ensures { OnOk result (text.new.items ≡ text.old.items ++ keyed_row name.now key.now (map field_of fields.now)) }
{
    text.extend_from_slice(b"[\"")?;
    text.extend_from_slice(name)?;
    text.extend_from_slice(b"\"")?;
    push_inlined(text, key)?;
    push_fields(text, fields)?;
    text.extend_from_slice(b"],\n")
}

/// The field of a number that may be missing.
pub(crate) fn number_or_null(number: Option<u64>) -> Field<'static>
    ensures { field_of result ≡ number_or_null number }
{
    match number {
        Some(n) => Field::Number(n),
        None => Field::Missing,
    }
}

/// The field of a flag.
pub(crate) fn flag(set: bool) -> Field<'static>
    ensures { field_of result ≡ flag set }
{
    Field::Number(u64::from(set))
}
