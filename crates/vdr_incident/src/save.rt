// An incident save, and the bytes of its slot.
ghost use Rattle.std.specs.Prelude.{◌≡◌, ◌≤◌, ◌↔◌, ◌&&◌, nat_le, Option, length, drop, IsTrue, IfSome, IfNone};
ghost use Rattle.vdr_core.specs.Histories.{Incident};
ghost use Rattle.vdr_terms.specs.Texts.{is_label};
ghost use Rattle.vdr_incident.specs.Saves.{IsIncidentSlot, IsSave, SpellsSave};
ghost use Rattle.vdr_incident.specs.Fields.{AreInRange, HasLabel, label_in};

use arrayvec::ArrayVec;
use std::marker::Model;
use vdr_bytes::{put, put_u64s, u64_at};
use vdr_segment::OPEN_GATE;
use vdr_terms::{LAST_STAMP, are_printable};

/// How many bytes an incident slot takes.
pub(crate) const SLOT_SIZE: usize = 256;

/// How many bytes are written behind the gate of a slot: those of a save with the longest label.
pub(crate) const BODY_SIZE: usize = 97;

// The longest label.
const LABEL_MAX: usize = 64;

/// An incident save (this project's profile). Its type keeps that the label is legal, that `a` is at most `b`, and that tick
/// and utc are a stamp of a record.
#[derive(Drop)]
pub struct Save {
    /// 1 to 64 bytes of 0x20 to 0x7E.
    pub label: ArrayVec<u8, 64>,
    /// The place of the first record that is kept.
    pub a: u64,
    /// The place of the last record that is kept.
    pub b: u64,
    /// When it was saved: the tick in milliseconds of recording time, below 2^63.
    pub tick: u64,
    /// When it was saved: UTC in milliseconds since 1970, 0 to 253,402,300,799,999.
    pub utc: i64,
}

impl Model for Save {
    ghost use Rattle.vdr_core.specs.Histories.{Incident};
    ghost use Rattle.vdr_incident.specs.Saves.{IsSave};

    ghost Value = { Incident };

    ghost view = { λ s. record { label = s.label.items; a = s.a; b = s.b; stamp = record { tick = s.tick; utc = s.utc } } };

    ghost invariant = { λ s. IsSave (record { label = s.label.items; a = s.a; b = s.b; stamp = record { tick = s.tick; utc = s.utc } }) };
}

fn kept(label: &[u8]) -> ArrayVec<u8, 64>
    requires { length label.now ≤ 64 }
    ensures { result.items ≡ label.now }
{
    let mut kept = ArrayVec::new();
    for byte in label {
        kept.push(*byte);
    }
    kept
}

impl Save {
    /// A save of the records from `a` to `b`, under a stamp. None exactly where the label, the order of the places or the stamp is
    /// not legal.
    pub fn new(label: &[u8], a: u64, b: u64, tick: u64, utc: i64) -> Option<Save>
        ensures made { IfSome result (λ save. save ≡ record { label = label.now; a = a; b = b; stamp = record { tick = tick; utc = utc } }) }
        ensures none { IfNone result (IsSave (record { label = label.now; a = a; b = b; stamp = record { tick = tick; utc = utc } }) → ⊥) }
    {
        if !is_label(label) || utc < 0 || !are_in_range(a, b, tick, utc.unsigned_abs()) {
            return None;
        }
        Some(Save {
            label: kept(label),
            a,
            b,
            tick,
            utc,
        })
    }

    /// The same save once more. Takes no memory.
    pub(crate) fn copy(&self) -> Save
        ensures { result ≡ self.now }
    {
        Save {
            label: kept(self.label.as_slice()),
            a: self.a,
            b: self.b,
            tick: self.tick,
            utc: self.utc,
        }
    }

    /// The bytes behind the gate of its slot, with zeros behind a label that is shorter than the longest.
    pub(crate) fn body(&self) -> [u8; BODY_SIZE]
        ensures spells { SpellsSave result self.now }
        ensures size { length result ≡ 97 }
    {
        let label = self.label.as_slice();
        let mut bytes = [0; BODY_SIZE];
        put_u64s(
            &mut bytes,
            0,
            &[self.a, self.b, self.tick, self.utc.unsigned_abs()],
        );
        put(&mut bytes, 32, &[label.len() as u8]);
        put(&mut bytes, 33, label);
        bytes
    }
}

/// Whether a label is legal: 1 to 64 bytes of 0x20 to 0x7E.
pub fn is_label(label: &[u8]) -> bool
    ensures { result ≡ is_label label.now }
{
    label.len() >= 1 && label.len() <= LABEL_MAX && are_printable(label)
}

fn are_in_range(a: u64, b: u64, tick: u64, utc: u64) -> bool
    ensures { IsTrue result ↔ AreInRange a b tick utc }
{
    a <= b && tick < 1 << 63 && utc <= LAST_STAMP as u64
}

// The label in a slot's bytes, where it is legal.
fn label_in(bytes: &[u8; SLOT_SIZE]) -> Option<&[u8]>
    ensures found { IfSome result (λ label. (label.now ≡ label_in bytes.now) × HasLabel bytes.now) }
    ensures none { IfNone result (HasLabel bytes.now → ⊥) }
{
    let size = bytes[33] as usize;
    if size > LABEL_MAX {
        return None;
    }
    let label = &bytes[34..34 + size];
    if !is_label(label) {
        return None;
    }
    Some(label)
}

// The save in a slot's bytes, whatever its gate. None exactly where it is not legal.
fn read_save(bytes: &[u8; SLOT_SIZE]) -> Option<Save>
    ensures found { IfSome result (SpellsSave (drop 1 bytes.now)) }
    ensures none { IfNone result ((x : Incident) → SpellsSave (drop 1 bytes.now) x → ⊥) }
{
    let Some(label) = label_in(bytes) else {
        return None;
    };
    let (a, b) = (u64_at(bytes, 1), u64_at(bytes, 9));
    let (tick, utc) = (u64_at(bytes, 17), u64_at(bytes, 25));
    if !are_in_range(a, b, tick, utc) {
        return None;
    }
    Some(Save {
        label: kept(label),
        a,
        b,
        tick,
        utc: utc as i64,
    })
}

/// What a slot's bytes hold. None exactly where they are not legal.
pub(crate) fn saved_in(bytes: &[u8; SLOT_SIZE]) -> Option<Option<Save>>
    ensures found { IfSome result (IsIncidentSlot bytes.now) }
    ensures none { IfNone result ((saved : Option Incident) → IsIncidentSlot bytes.now saved → ⊥) }
{
    if bytes[0] != OPEN_GATE {
        return Some(None);
    }
    match read_save(bytes) {
        Some(save) => Some(Some(save)),
        None => None,
    }
}
