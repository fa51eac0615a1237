// What is printed of an evidence file.
ghost use Rattle.std.specs.Prelude.{◌≡◌, ◌≤◌, ◌+◌, ◌++◌, codes, decimal, length, IfSome};
ghost use Rattle.arrayvec.specs.ArrayVec.{array_vec_len};
ghost use Rattle.vdr_terms.specs.Stamps.{IsStamp};
ghost use Rattle.vdr_verify.specs.Accounts.{HasStamps};
ghost use Rattle.vdr_verify.specs.Texts.{digest_line, heading_lines, incident_line, kinds_line, medium_line, missed_line, query_line, record_lines, spot_line};

use crate::account::{Account, Spot};
use crate::heading::{Head, LABEL, QUERY};
use arrayvec::ArrayVec;
use itoa::Buffer;
use vdr_entry::write_utc;
use vdr_terms::Counts;

/// Room for the longest account: 9 lines of at most 160 bytes.
pub(crate) const ROOM: usize = 1_024;

/// The text of an account.
pub(crate) type Lines = ArrayVec<u8, ROOM>;

fn push(text: &mut Lines, piece: &[u8])
    requires { array_vec_len text.old + length piece.now ≤ 1_024 }
    ensures { text.new.items ≡ text.old.items ++ piece.now }
{
    let _ = text.try_extend_from_slice(piece);
}

// A word and a number.
fn push_number(text: &mut Lines, word: &[u8], n: u64)
    requires { array_vec_len text.old + length word.now + 20 ≤ 1_024 }
    ensures grown { text.new.items ≡ text.old.items ++ word.now ++ decimal n }
    ensures short { array_vec_len text.new ≤ array_vec_len text.old + length word.now + 20 }
{
    push(text, word);
    push(text, Buffer::new().format(n).as_bytes());
}

// A word and a SHA-256.
fn push_digest(text: &mut Lines, word: &[u8], digest: &[u8; 32])
    requires { array_vec_len text.old + length word.now + 65 ≤ 1_024 }
    ensures grown { text.new.items ≡ text.old.items ++ digest_line word.now digest.now }
    ensures short { array_vec_len text.new ≤ array_vec_len text.old + length word.now + 65 }
{
    let mut digits = [0; 64];
    let _ = hex::encode_to_slice(digest.as_slice(), &mut digits);
    push(text, word);
    push(text, &digits);
    push(text, b"\n");
}

fn push_medium(text: &mut Lines, medium: u8)
    requires { array_vec_len text.old + 16 ≤ 1_024 }
    ensures grown { text.new.items ≡ text.old.items ++ medium_line medium }
    ensures short { array_vec_len text.new ≤ array_vec_len text.old + 16 }
{
    if medium == 0 {
        push(text, b"medium capsule\n");
    } else {
        push(text, b"medium longterm\n");
    }
}

fn push_incident(text: &mut Lines, incident: u32, label: &ArrayVec<u8, LABEL>)
    requires { array_vec_len text.old + 95 ≤ 1_024 }
    ensures grown { text.new.items ≡ text.old.items ++ incident_line incident label.now.items }
    ensures short { array_vec_len text.new ≤ array_vec_len text.old + 95 }
{
    if incident == 0 {
        return;
    }
    push_number(text, b"incident ", incident as u64);
    push(text, b" ");
    push(text, label.as_slice());
    push(text, b"\n");
}

fn push_query(text: &mut Lines, query: &ArrayVec<u8, QUERY>)
    requires { array_vec_len text.old + 89 ≤ 1_024 }
    ensures grown { text.new.items ≡ text.old.items ++ query_line query.now.items }
    ensures short { array_vec_len text.new ≤ array_vec_len text.old + 89 }
{
    push(text, b"query ");
    push(text, query.as_slice());
    push(text, b"\n");
}

#[tactic(auto, unfolding(crate::specs::Texts::heading_lines))]
fn push_heading(text: &mut Lines, head: &Head)
    requires { array_vec_len text.old ≤ 0 }
    ensures grown { text.new.items ≡ text.old.items ++ heading_lines head.now.digest head.now.medium head.now.incident head.now.label.items head.now.query.items }
    ensures short { array_vec_len text.new ≤ 279 }
{
    push_digest(text, b"configuration ", &head.digest);
    push_medium(text, head.medium);
    push_incident(text, head.incident, &head.label);
    push_query(text, &head.query);
}

fn push_kinds(text: &mut Lines, account: &Account)
    requires { array_vec_len text.old ≤ 279 }
    ensures grown { text.new.items ≡ text.old.items ++ kinds_line account.now }
    ensures short { array_vec_len text.new ≤ 420 }
{
    push_number(text, b"records ", account.records);
    push_number(text, b" start ", account.starts);
    push_number(text, b" data ", account.datagrams);
    push_number(text, b" gap ", account.gaps);
    push_number(text, b" stop ", account.stops);
    push(text, b"\n");
}

fn push_missed(text: &mut Lines, missed: &Counts)
    requires { array_vec_len text.old ≤ 420 }
    ensures grown { text.new.items ≡ text.old.items ++ missed_line missed.now }
    ensures short { array_vec_len text.new ≤ 540 }
{
    push_number(text, b"missed full ", missed.full);
    push_number(text, b" rate ", missed.rate);
    push_number(text, b" bad ", missed.bad);
    push_number(text, b" large ", missed.large);
    push(text, b"\n");
}

// A stamp that is none has no text.
fn push_spot(text: &mut Lines, word: &[u8], spot: Option<Spot>)
    requires legal { IfSome spot (λ s. IsStamp s.utc) }
    requires room { array_vec_len text.old + length word.now + 46 ≤ 1_024 }
    ensures grown { text.new.items ≡ text.old.items ++ spot_line word.now spot }
    ensures short { array_vec_len text.new ≤ array_vec_len text.old + length word.now + 46 }
{
    let Some(spot) = spot else {
        return;
    };
    push_number(text, word, spot.place);
    push(text, b" ");
    let mut stamp = ArrayVec::new();
    write_utc(spot.utc, &mut stamp);
    push(text, stamp.as_slice());
    push(text, b"\n");
}

#[tactic(auto, unfolding(crate::specs::Texts::record_lines))]
fn push_records(text: &mut Lines, account: &Account)
    requires stamps { HasStamps account.now }
    requires room { array_vec_len text.old ≤ 279 }
    ensures grown { text.new.items ≡ text.old.items ++ record_lines account.now }
    ensures short { array_vec_len text.new ≤ 643 }
{
    push_kinds(text, account);
    push_missed(text, &account.missed);
    push_spot(text, b"first ", account.first);
    push_spot(text, b"last ", account.last);
}

/// What is printed of a file of this heading and of these records, with the SHA-256 of all of it.
pub(crate) fn text_of(head: &Head, account: &Account, digest: &[u8; 32]) -> Lines
    requires stamps { HasStamps account.now }
    ensures { result.items ≡ heading_lines head.now.digest head.now.medium head.now.incident head.now.label.items head.now.query.items ++ record_lines account.now ++ digest_line (codes "sha256 ") digest.now }
{
    let mut text = ArrayVec::new();
    push_heading(&mut text, head);
    push_records(&mut text, account);
    push_digest(&mut text, b"sha256 ", digest);
    text
}
