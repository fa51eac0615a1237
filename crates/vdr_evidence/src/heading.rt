// What stands in an evidence file before its records.
ghost use Rattle.std.specs.Prelude.{◌≡◌, ◌++◌, IfOk, OnOk};
ghost use Rattle.vdr_evidence.specs.Files.{bound_text, heading_bytes, heading_of, incident_in, number_in, part, query_text};

use crate::piece::u32_bytes;
use arrayvec::ArrayVec;
use std::alloc::{AllocError, Global};
use vdr_entry::{Medium, write_utc};
use vdr_terms::LAST_STAMP;

// The number of the medium on which the records stand.
fn number_in(medium: Medium) -> u8
    ensures { result ≡ number_in medium }
{
    match medium {
        Medium::Capsule => 0,
        Medium::LongTerm | Medium::Incident(_) => 1,
    }
}

// The id of the incident, 0 for none.
fn incident_in(medium: Medium) -> u32
    ensures { result ≡ incident_in medium }
{
    match medium {
        Medium::Capsule | Medium::LongTerm => 0,
        Medium::Incident(id) => id,
    }
}

// Appends a part. No memory holds one whose length has more than 32 bits.
#[tactic(auto, unfolding(crate::specs::Files::part))]
fn push_part(into: &mut Vec<u8>, bytes: &[u8]) -> Result<(), AllocError>
    ensures { OnOk result (into.new.items ≡ into.old.items ++ part bytes.now) }
{
    if bytes.len() > u32::MAX as usize {
        return Err(AllocError);
    }
    into.extend_from_slice(&u32_bytes(bytes.len() as u32))?;
    into.extend_from_slice(bytes)?;
    Ok(())
}

// Appends the text of a stamp; `-` for a number that is none.
fn push_bound(into: &mut Vec<u8>, utc: i64) -> Result<(), AllocError>
    ensures { OnOk result (into.new.items ≡ into.old.items ++ bound_text utc) }
{
    if 0 <= utc && utc <= LAST_STAMP {
        let mut text = ArrayVec::new();
        write_utc(utc, &mut text);
        into.extend_from_slice(text.as_slice())?;
    } else {
        into.extend_from_slice(b"-")?;
    }
    Ok(())
}

// The query as text.
fn query_text(alloc: Global, channel: &[u8], from: i64, to: i64) -> Result<Vec<u8>, AllocError>
    ensures { IfOk result (λ text. text.items ≡ query_text channel.now from to) }
{
    let mut text = Vec::new(alloc);
    text.extend_from_slice(channel)?;
    text.extend_from_slice(b" ")?;
    push_bound(&mut text, from)?;
    text.extend_from_slice(b" ")?;
    push_bound(&mut text, to)?;
    Ok(text)
}

// The same, with the query's text.
#[tactic(auto, unfolding(crate::specs::Files::heading_bytes))]
fn heading_with(
    alloc: Global,
    text: &[u8],
    medium: Medium,
    label: &[u8],
    query: &[u8],
) -> Result<Vec<u8>, AllocError>
    ensures { IfOk result (λ bytes. bytes.items ≡ heading_bytes (record { text = text.now; medium = number_in medium; incident = incident_in medium; label = label.now; query = query.now })) }
{
    let mut bytes = Vec::new(alloc);
    bytes.extend_from_slice(b"VDREVID1")?;
    push_part(&mut bytes, text)?;
    push_part(&mut bytes, &[number_in(medium)])?;
    push_part(&mut bytes, &u32_bytes(incident_in(medium)))?;
    push_part(&mut bytes, label)?;
    push_part(&mut bytes, query)?;
    Ok(bytes)
}

/// What stands before the records of a channel that a medium or an incident has between two UTC stamps, both included, in milliseconds
/// since 1970: the configuration's text, the medium's number, the incident's id and its label, 0 and nothing for a medium, and the query as
/// `CHANNEL FROM TO`.
pub fn heading_of(
    alloc: Global,
    text: &[u8],
    medium: Medium,
    label: &[u8],
    channel: &[u8],
    from: i64,
    to: i64,
) -> Result<Vec<u8>, AllocError>
    ensures { IfOk result (λ bytes. bytes.items ≡ heading_bytes (heading_of text.now medium label.now channel.now from to)) }
{
    let query = query_text(alloc, channel, from, to)?;
    heading_with(alloc, text, medium, label, &query)
}
