// The heading of an evidence file, part by part.
ghost use Rattle.std.specs.Prelude.{◌≡◌, ◌≤◌, ◌<◌, ◌^◌, ◌∷◌, [], ℕ, List, Option, Result, IfOk, IfSome, IfNone, Some, Ok, Err, true, length};
ghost use Rattle.vdr_bytes.specs.Numbers.{le_u32};
ghost use Rattle.vdr_config.specs.Grammar.{Refuses as ConfigRefuses, configuration};
ghost use Rattle.vdr_verify.specs.Heads.{IsTextOf, ReadsHeading};
ghost use Rattle.vdr_verify.specs.Legal.{Asks, IsText, MayFollow};
ghost use Rattle.vdr_verify.specs.Standing.{Goes, HasInputCause, IsBehind, Reads, Stands, StandsFirst};
ghost use Rattle.vdr_verify.specs.Stops.{part_behind};

use crate::part::Part;
use crate::parts::{incident_in, is_label_of, medium_in};
use crate::query::{Asked, asked_in};
use crate::reader::Reader;
use crate::refused::VerifyRefused;
use arrayvec::ArrayVec;
use sha2::{Digest, Sha256};
use std::alloc::{AllocError, Global};
use vdr_config::{Config, ConfigBad, LONGEST_TEXT, read_config};
use vdr_outside::Source;

/// Room for a label.
pub(crate) const LABEL: usize = 64;

/// Room for a query: the name of a channel, 1 to 32 bytes, and two stamps, each behind a space.
pub(crate) const QUERY: usize = 82;

/// The text of the configuration, what it says, and its SHA-256.
#[derive(Drop)]
pub(crate) struct Text {
    pub(crate) text: Vec<u8>,
    pub(crate) config: Config,
    pub(crate) digest: [u8; 32],
}

/// What is kept of a heading: its text, what that says, its SHA-256, and the other parts.
#[derive(Drop)]
pub(crate) struct Head {
    pub(crate) text: Vec<u8>,
    pub(crate) config: Config,
    pub(crate) digest: [u8; 32],
    pub(crate) medium: u8,
    pub(crate) incident: u32,
    pub(crate) label: ArrayVec<u8, LABEL>,
    pub(crate) query: ArrayVec<u8, QUERY>,
    pub(crate) asked: Asked,
}

// Reads the token.
fn read_token<I: Source>(reader: &mut Reader, input: &mut I) -> Result<(), VerifyRefused>
    ensures stage { (first : Option (List ℕ)) → IsBehind first (I.left input.old) reader.old [] → StandsFirst first (I.left input.new) reader.new result }
    ensures cause { HasInputCause (I.faults input.old) (I.faults input.new) result }
{
    let offset = reader.offset;
    let mut token = [0; 8];
    let Ok(same) = reader.expect(input, b"VDREVID1".as_slice(), &mut token) else {
        return Err(VerifyRefused::Input);
    };
    if same {
        return Ok(());
    }
    let part = Part::Token;
    Err(VerifyRefused::Illegal { part, offset })
}

// Reads the next part of a heading, of this name, and says how many bytes it has.
fn read_part<I: Source>(
    reader: &mut Reader,
    input: &mut I,
    part: Part,
    into: &mut [u8],
) -> Result<usize, VerifyRefused>
    requires { length into.old < 2 ^ 32 }
    ensures within { IfOk result (λ size. size ≤ length into.new) }
    ensures reads { (first : Option (List ℕ)) (before : List (List ℕ)) → Stands first (I.left input.old) reader.old before → Some part ≡ part_behind before
        → ((x : List ℕ) → MayFollow before x → length x ≤ length into.old) → Reads first (I.left input.old) (I.left input.new) reader.old reader.new into.new result }
    ensures cause { HasInputCause (I.faults input.old) (I.faults input.new) result }
{
    let offset = reader.offset;
    match reader.part(input, into) {
        Ok(Some(size)) => Ok(size),
        Ok(None) => Err(VerifyRefused::Illegal { part, offset }),
        Err(_) => Err(VerifyRefused::Input),
    }
}

// Whether a text is no configuration, and not for want of memory.
fn is_refused(bad: ConfigBad) -> bool
    ensures { result ≡ true → (text : List ℕ) → ConfigRefuses bad (configuration text) → configuration text ≡ Err bad }
{
    match bad {
        ConfigBad::NoMemory => false,
        _ => true,
    }
}

// The configuration of a text, where it is one.
fn config_in(alloc: Global, text: &[u8]) -> Result<Option<Config>, AllocError>
    ensures found { IfOk result (λ found. IfSome found (λ config. configuration text.now ≡ Ok config)) }
    ensures none { IfOk result (λ found. IfNone found (IsText text.now → ⊥)) }
{
    match read_config(alloc, text) {
        Ok(config) => Ok(Some(config)),
        Err(bad) => if is_refused(bad) {
            Ok(None)
        } else {
            Err(AllocError)
        },
    }
}

// The same bytes in a place of their own.
fn copied(alloc: Global, bytes: &[u8]) -> Result<Vec<u8>, AllocError>
    ensures { IfOk result (λ copy. copy.items ≡ bytes.now) }
{
    let mut copy = Vec::new(alloc);
    copy.extend_from_slice(bytes)?;
    Ok(copy)
}

// Reads the text of the configuration.
fn read_text<I: Source>(
    alloc: Global,
    reader: &mut Reader,
    input: &mut I,
) -> Result<Text, VerifyRefused>
    ensures stage { (first : Option (List ℕ)) → Stands first (I.left input.old) reader.old [] → Goes first (I.left input.new) reader.new [] IsTextOf result }
    ensures cause { HasInputCause (I.faults input.old) (I.faults input.new) result }
{
    let offset = reader.offset;
    let mut bytes = [0; LONGEST_TEXT];
    let part = Part::Configuration;
    let size = read_part(reader, input, part, &mut bytes)?;
    let text = &bytes[..size];
    let Ok(found) = config_in(alloc, text) else {
        return Err(VerifyRefused::NoMemory);
    };
    let Some(config) = found else {
        return Err(VerifyRefused::Illegal { part, offset });
    };
    let Ok(kept) = copied(alloc, text) else {
        return Err(VerifyRefused::NoMemory);
    };
    let digest = Sha256::digest(text);
    Ok(Text {
        text: kept,
        config,
        digest,
    })
}

// Reads the number of the medium.
fn read_medium<I: Source>(reader: &mut Reader, input: &mut I) -> Result<u8, VerifyRefused>
    ensures stage { (first : Option (List ℕ)) (text : List ℕ) → Stands first (I.left input.old) reader.old (text ∷ [])
        → Goes first (I.left input.new) reader.new (text ∷ []) (λ medium bytes. bytes ≡ medium ∷ []) result }
    ensures cause { HasInputCause (I.faults input.old) (I.faults input.new) result }
{
    let offset = reader.offset;
    let mut bytes = [0; 1];
    let part = Part::Medium;
    let size = read_part(reader, input, part, &mut bytes)?;
    let Some(medium) = medium_in(&bytes[..size]) else {
        return Err(VerifyRefused::Illegal { part, offset });
    };
    Ok(medium)
}

// Reads the id of the incident.
fn read_incident<I: Source>(
    reader: &mut Reader,
    input: &mut I,
    config: &Config,
    medium: u8,
) -> Result<u32, VerifyRefused>
    ensures stage { (first : Option (List ℕ)) (text : List ℕ) → configuration text ≡ Ok config.now → Stands first (I.left input.old) reader.old (text ∷ (medium ∷ []) ∷ [])
        → Goes first (I.left input.new) reader.new (text ∷ (medium ∷ []) ∷ []) (λ incident bytes. bytes ≡ le_u32 incident) result }
    ensures cause { HasInputCause (I.faults input.old) (I.faults input.new) result }
{
    let offset = reader.offset;
    let mut bytes = [0; 4];
    let part = Part::Incident;
    let size = read_part(reader, input, part, &mut bytes)?;
    let Some(incident) = incident_in(&bytes[..size], medium, config.incident_slots) else {
        return Err(VerifyRefused::Illegal { part, offset });
    };
    Ok(incident)
}

// Reads the label of the incident.
fn read_label<I: Source>(
    reader: &mut Reader,
    input: &mut I,
    incident: u32,
) -> Result<ArrayVec<u8, LABEL>, VerifyRefused>
    ensures stage { (first : Option (List ℕ)) (text medium : List ℕ) → Stands first (I.left input.old) reader.old (text ∷ medium ∷ le_u32 incident ∷ [])
        → Goes first (I.left input.new) reader.new (text ∷ medium ∷ le_u32 incident ∷ []) (λ label bytes. label.items ≡ bytes) result }
    ensures cause { HasInputCause (I.faults input.old) (I.faults input.new) result }
{
    let offset = reader.offset;
    let mut bytes = [0; LABEL];
    let part = Part::Label;
    let size = read_part(reader, input, part, &mut bytes)?;
    let text = &bytes[..size];
    if !is_label_of(incident, text) {
        return Err(VerifyRefused::Illegal { part, offset });
    }
    let mut label = ArrayVec::new();
    let _ = label.try_extend_from_slice(text);
    Ok(label)
}

/// The text of a query, and what it asks for.
#[derive(Drop)]
pub(crate) struct Query {
    pub(crate) text: ArrayVec<u8, QUERY>,
    pub(crate) asked: Asked,
}

// Reads the query.
fn read_query<I: Source>(
    reader: &mut Reader,
    input: &mut I,
    config: &Config,
) -> Result<Query, VerifyRefused>
    ensures stage { (first : Option (List ℕ)) (text medium incident label : List ℕ) → configuration text ≡ Ok config.now → Stands first (I.left input.old) reader.old (text ∷ medium ∷ incident ∷ label ∷ [])
        → Goes first (I.left input.new) reader.new (text ∷ medium ∷ incident ∷ label ∷ []) (λ query bytes. (query.text.items ≡ bytes) × Asks config.now bytes query.asked) result }
    ensures cause { HasInputCause (I.faults input.old) (I.faults input.new) result }
{
    let offset = reader.offset;
    let mut bytes = [0; QUERY];
    let part = Part::Query;
    let size = read_part(reader, input, part, &mut bytes)?;
    let Some(asked) = asked_in(config, &bytes[..size]) else {
        return Err(VerifyRefused::Illegal { part, offset });
    };
    let mut text = ArrayVec::new();
    let _ = text.try_extend_from_slice(&bytes[..size]);
    Ok(Query { text, asked })
}

/// Reads the heading of a file.
pub(crate) fn read_heading<I: Source>(
    alloc: Global,
    reader: &mut Reader,
    input: &mut I,
) -> Result<Head, VerifyRefused>
    ensures reads { (first : Option (List ℕ)) → IsBehind first (I.left input.old) reader.old [] → ReadsHeading first (I.left input.new) reader.new result }
    ensures cause { HasInputCause (I.faults input.old) (I.faults input.new) result }
{
    read_token(reader, input)?;
    let Text {
        text,
        config,
        digest,
    } = read_text(alloc, reader, input)?;
    let medium = read_medium(reader, input)?;
    let incident = read_incident(reader, input, &config, medium)?;
    let label = read_label(reader, input, incident)?;
    let Query { text: query, asked } = read_query(reader, input, &config)?;
    Ok(Head {
        text,
        config,
        digest,
        medium,
        incident,
        label,
        query,
        asked,
    })
}
