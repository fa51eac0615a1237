// A row of the table of sentences, and which fields of a sentence are read by it.
ghost use Rattle.std.specs.Prelude.{◌≡◌, ◌≤◌, ◌%◌, ◌==◌, true, IfSome, bytes_eq, drop, find, length, map, option_copied, option_map, slice_index, slice_index_or};
ghost use Rattle.std.specs.Option.{option_or};
ghost use Rattle.vdr_values.specs.Forms as form;
ghost use Rattle.vdr_values.specs.Rows.{form_at, is_fit, wanted, whole_groups};
ghost use Rattle.vdr_values.specs.Table.{row_for, row_named};
ghost use Rattle.vdr_values.specs.Views.{form_of, row_of};

use crate::column::Column;
use crate::form::Form;
use crate::table::{alerts, machinery, navigation, traffic};

/// What the sentences of a formatter say.
#[derive(Clone, Copy, Drop)]
pub(crate) struct Row {
    /// The three characters that stand behind the talker in an address.
    pub(crate) formatter: &'static [u8],
    /// The forms of the fields, in their order.
    pub(crate) fields: &'static [Form],
    /// Shorter counts of fields that are legal too, those of older editions.
    pub(crate) shorter: &'static [usize],
    /// In which a digit, or a capital letter from the tenth field on, stands for what this field says.
    pub(crate) text: &'static [u8],
    /// The forms of fields that follow, again and again.
    pub(crate) group: &'static [Form],
    /// The values that a table has of it.
    pub(crate) columns: &'static [Column],
}

/// What rows have that say no other.
pub(crate) const PLAIN: Row = Row {
    formatter: b"",
    fields: &[],
    shorter: &[],
    text: b"",
    group: &[],
    columns: &[],
};

/// How often a group stands at most.
const MOST_GROUPS: usize = 30;

// The form of a field behind the first ones.
fn form_in(group: &[Form], behind: usize) -> Form
    ensures { form_of result ≡ slice_index_or (map form_of group.now) (behind % length group.now) form.Raw }
{
    if group.is_empty() {
        return Form::Raw;
    }
    group[behind % group.len()]
}

// So many fields, or the next number of them that makes the groups behind the first ones whole.
fn whole_groups(first: usize, group: usize, count: usize) -> usize
    requires first { first ≤ 20 }
    requires group { 1 ≤ group }
    requires few { group ≤ 9 }
    requires count { count ≤ 76 }
    ensures value { result ≡ whole_groups first group count }
    ensures below { result ≤ 100 }
{
    if count <= first {
        return first + group;
    }
    count + (group - 1 - (count - first - 1) % group)
}

impl Row {
    /// How many fields are read of a sentence that has so many.
    pub(crate) fn wanted(&self, count: usize) -> usize
        requires fit { is_fit (row_of self.now) ≡ true }
        requires count { count ≤ 76 }
        ensures { result ≡ wanted (row_of self.now) count }
    {
        if self.shorter.contains(&count) {
            return count;
        }
        let (first, group) = (self.fields.len(), self.group.len());
        if group == 0 {
            return first;
        }
        whole_groups(first, group, count).min(first + MOST_GROUPS * group)
    }

    /// The form of the field at this index, counted from 0.
    pub(crate) fn form_at(&self, index: usize) -> Form
        ensures { form_of result ≡ form_at (row_of self.now) index }
    {
        if index < self.fields.len() {
            return self.fields[index];
        }
        form_in(self.group, index - self.fields.len())
    }
}

fn found_in(rows: &[Row], formatter: &[u8]) -> Option<Row>
    ensures { result ≡ find (λ r. bytes_eq r.formatter.now formatter.now) rows.now }
{
    rows.iter().copied().find(|row| row.formatter == formatter)
}

fn named_in(rows: &[Row], formatter: &[u8]) -> Option<Row>
    ensures { option_map row_of result ≡ find (λ r. bytes_eq r.formatter formatter.now) (map row_of rows.now) }
{
    found_in(rows, formatter)
}

// What was found, else the row of the formatter in these.
fn or_named(found: Option<Row>, rows: &[Row], formatter: &[u8]) -> Option<Row>
    ensures { option_map row_of result ≡ option_or (option_map row_of found) (find (λ r. bytes_eq r.formatter formatter.now) (map row_of rows.now)) }
{
    match found {
        Some(row) => Some(row),
        None => named_in(rows, formatter),
    }
}

/// The row of a formatter. None where the table has none.
pub(crate) fn row_named(formatter: &[u8]) -> Option<Row>
    ensures row { option_map row_of result ≡ row_named formatter.now }
    ensures fit { IfSome result (λ row. is_fit (row_of row) ≡ true) }
{
    let first = named_in(navigation(), formatter);
    let second = or_named(first, machinery(), formatter);
    let third = or_named(second, alerts(), formatter);
    or_named(third, traffic(), formatter)
}

fn is_proprietary(address: &[u8]) -> bool
    ensures { result ≡ (slice_index address.now 0 == 80) }
{
    match address {
        [b'P', ..] => true,
        _ => false,
    }
}

// What stands behind the talker.
fn behind_talker(address: &[u8]) -> &[u8]
    ensures { result.now ≡ drop 2 address.now }
{
    &address[address.len().min(2)..]
}

/// The row of an address. None where its formatter is not in the table, and for a proprietary address.
pub(crate) fn row_for(address: &[u8]) -> Option<Row>
    ensures row { option_map row_of result ≡ row_for address.now }
    ensures fit { IfSome result (λ row. is_fit (row_of row) ≡ true) }
{
    if is_proprietary(address) {
        return None;
    }
    row_named(behind_talker(address))
}

/// The formatter of an address whose fields are read, its last three characters (IEC 61162-1). None where its fields are not known, as of each
/// proprietary address, which begins with `P`.
pub fn formatter_of(address: &[u8]) -> Option<&'static [u8]>
    ensures { option_copied result ≡ option_map (λ r. r.formatter) (row_for address.now) }
{
    let row = row_for(address)?;
    Some(row.formatter)
}
