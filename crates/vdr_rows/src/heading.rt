// What the rows of a line have in common.
ghost use Rattle.std.specs.Prelude.{◌≡◌, ◌≤◌, ◌+◌, ◌++◌, [], decimal, length};
ghost use Rattle.arrayvec.specs.ArrayVec.{array_vec_len};
ghost use Rattle.vdr_terms.specs.Groups.{group_name};
ghost use Rattle.vdr_terms.specs.Stamps.{IsStamp};
ghost use Rattle.vdr_entry.specs.Utc.{utc_text};
ghost use Rattle.vdr_rows.specs.Parts.{front_text};
ghost use Rattle.vdr_rows.specs.Texts.{heading_of};

use arrayvec::ArrayVec;
use itoa::Buffer;
use vdr_entry::{Record, write_utc};
use vdr_terms::group_name;

/// What the rows of a line have in common.
#[derive(Drop)]
pub(crate) struct Heading<'a> {
    /// The record's stamp, its place, and the name of its transmission group, each with a comma behind it.
    pub(crate) front: ArrayVec<u8, 64>,
    /// The record of the line.
    pub(crate) item: &'a Record,
    /// The source that the TAG blocks name.
    pub(crate) source: &'a [u8],
    /// The address of the sentence.
    pub(crate) sentence: &'a [u8],
    ghost fronted: { front.items ≡ front_text (heading_of item.now source.now sentence.now) },
}

fn utc_of(stamp: i64) -> ArrayVec<u8, 24>
    requires { IsStamp stamp }
    ensures { result.items ≡ utc_text stamp }
{
    let mut text = ArrayVec::new();
    write_utc(stamp, &mut text);
    text
}

fn place_of(place: u64) -> ArrayVec<u8, 20>
    ensures { result.items ≡ decimal place }
{
    let mut text = ArrayVec::new();
    let _ = text.try_extend_from_slice(Buffer::new().format(place).as_bytes());
    text
}

// The name of a group, none of the number of those that belong to no group.
fn group_of(group: u8) -> &'static [u8]
    ensures name { result.now ≡ group_name group }
    ensures short { length result.now ≤ 4 }
{
    if group > 15 {
        return b"";
    }
    group_name(group).as_bytes()
}

fn push(front: &mut ArrayVec<u8, 64>, piece: &[u8])
    requires { array_vec_len front.old + length piece.now ≤ 64 }
    ensures { front.new.items ≡ front.old.items ++ piece.now }
{
    let _ = front.try_extend_from_slice(piece);
}

// What stands before the source in each row of a record: 51 bytes at most.
fn front_of(item: &Record) -> ArrayVec<u8, 64>
    ensures { result.items ≡ front_text (heading_of item.now [] []) }
{
    let _ = item.content();
    let mut front = ArrayVec::new();
    push(&mut front, utc_of(item.utc).as_slice());
    front.push(b',');
    push(&mut front, place_of(item.place).as_slice());
    front.push(b',');
    push(&mut front, group_of(item.group));
    front.push(b',');
    front
}

impl<'a> Heading<'a> {
    ghost use Rattle.vdr_rows.specs.Texts.{heading_of};
    ghost use Rattle.vdr_rows.specs.Views.{heading_said};

    /// That of a record's line, a sentence of this source and with this address.
    pub(crate) fn new(item: &'a Record, source: &'a [u8], sentence: &'a [u8]) -> Heading<'a>
        ensures { heading_said result ≡ heading_of item.now source.now sentence.now }
    {
        Heading {
            front: front_of(item),
            item,
            source,
            sentence,
        }
    }
}
