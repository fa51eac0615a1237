// The values of items, each by its code.
ghost use Rattle.std.specs.Prelude.{◌≡◌, ◌≤◌, ◌&&◌, [], ◌∷◌, Some, None, IfSome, IfNone, true, false, is_some, nat_le};
ghost use Rattle.vdr_tag.specs.Parts.{parts};
ghost use Rattle.vdr_tag.specs.Values.{code_named, grouping, is_identifier, said_by};
ghost use Rattle.vdr_tag.specs.Items.{over_item};
ghost use Rattle.vdr_tag.specs.Views.{values_of};

use crate::code::Code;
use crate::grouping::Grouping;
use crate::split::split_once;
use crate::tags::Tags;
use vdr_bytes::number;
use vdr_terms::are_graphic;

// The value where it is an identifier.
fn identifier(value: &[u8]) -> Option<&[u8]>
    ensures found { IfSome result (λ x. (is_identifier value.now ≡ true) × (x.now ≡ value.now)) }
    ensures none { IfNone result (is_identifier value.now ≡ false) }
{
    if 1 <= value.len() && value.len() <= 15 && are_graphic(value) {
        Some(value)
    } else {
        None
    }
}

// The three parts of a value that has two `-`.
fn three_parts(value: &[u8]) -> Option<(&[u8], &[u8], &[u8])>
    ensures found { IfSome result (λ x. parts 45 value.now ≡ x.0.now ∷ x.1.now ∷ x.2.now ∷ []) }
    ensures none { IfNone result (grouping value.now ≡ None) }
{
    let (first, rest) = split_once(value, b'-')?;
    let (second, third) = split_once(rest, b'-')?;
    match split_once(third, b'-') {
        None => Some((first, second, third)),
        Some(_) => None,
    }
}

fn grouping_of(value: &[u8]) -> Option<Grouping>
    ensures { result ≡ grouping value.now }
{
    let (first, second, third) = three_parts(value)?;
    let place = number(first, 6)?;
    let total = number(second, 6)?;
    let code = number(third, 6)?;
    if 1 <= place && place <= total {
        Some(Grouping {
            number: place as u32,
            total: total as u32,
            code: code as u32,
        })
    } else {
        None
    }
}

/// The code that stands before the colon of an item.
pub(crate) fn code_named(code: &[u8]) -> Code
    ensures { result ≡ code_named code.now }
{
    match code {
        [b's'] => Code::Source,
        [b'd'] => Code::Destination,
        [b'n'] => Code::Line,
        [b'g'] => Code::Group,
        [b'c'] => Code::Time,
        [b'r'] => Code::Relative,
        [b't'] => Code::Text,
        _ => Code::Other,
    }
}

/// Adds what an item says under its code, where nothing was said before it. None where the value is not accepted.
pub(crate) fn add<'a>(tags: &mut Tags<'a>, code: Code, value: &'a [u8]) -> Option<()>
    ensures accepted { is_some result ≡ is_some (said_by code value.now) }
    ensures said { values_of tags.new ≡ over_item (values_of tags.old) (said_by code value.now) }
    ensures counted { tags.new.others ≤ 65535 }
{
    // Once read, a number behind a reference is known to fit its type.
    let _others = tags.others;
    match code {
        Code::Source => tags.source = tags.source.or(Some(identifier(value)?)),
        Code::Destination => tags.destination = tags.destination.or(Some(identifier(value)?)),
        Code::Line => tags.line = tags.line.or(Some(number(value, 3)? as u16)),
        Code::Group => tags.group = tags.group.or(Some(grouping_of(value)?)),
        Code::Time => tags.time = tags.time.or(Some(number(value, 18)?)),
        Code::Relative => tags.relative = tags.relative.or(Some(number(value, 18)?)),
        Code::Text => tags.text = tags.text.or(Some(value)),
        Code::Other => tags.others = tags.others.saturating_add(1),
    }
    Some(())
}
