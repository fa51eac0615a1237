// The messages that have begun, one of each key.
ghost use Rattle.std.specs.Prelude.{◌≡◌, ◌∷◌, ◌++◌, [], All, IfErr, IfOk, List, OnErr, OnOk, Some, option_and_then, option_map, option_to_list, if◌then◌else◌};
ghost use Rattle.vdr_datagram.specs.Views.{verdict_of};
ghost use Rattle.vdr_ais.specs.Lines.{Key as AKey, Line as ALine, is_same, line_in, lines_in};
ghost use Rattle.vdr_ais.specs.Messages.{message_behind};
ghost use Rattle.vdr_ais.specs.Pending.{AreEntries, HasNoFewer, HasPlace, HasRead, begun, ended_by, key_cmp, next_pending, pending_in};
ghost use Rattle.vdr_ais.specs.Places.{IsAt, IsGap};
ghost use Rattle.vdr_ais.specs.Views.{key_of, line_said, message_of, part_of};

use crate::carried::line_in;
use crate::entry::Entry;
use crate::line::{Key, Line};
use crate::message::Message;
use crate::table::make_room;
use std::alloc::{AllocError, Global};
use std::cmp::Ordering;
use std::marker::Model;
use vdr_datagram::LineVerdict;

/// The messages that have begun in the lines of sentence datagrams, by their keys in order. It takes memory for what the parts of messages
/// have in common, and none for their lines.
#[derive(Drop)]
pub struct Unfinished {
    alloc: Global,
    entries: Vec<Entry>,
}

impl Model for Unfinished {
    ghost use Rattle.vdr_ais.specs.Pending.{AreEntries, Entries};

    ghost Value = { Entries };

    ghost view = { λ u. u.entries.items };

    ghost invariant = { λ u. AreEntries u.entries.items };
}

// Where the entry of the key stands, or where it is to be put.
fn place_of(entries: &[Entry], key: &Key<'_>) -> Result<usize, usize>
    requires { AreEntries entries.now }
    ensures found { IfOk result (IsAt (key_cmp (key_of key.now)) entries.now) }
    ensures absent { IfErr result (IsGap (key_cmp (key_of key.now)) entries.now) }
{
    let mut from = 0;
    let mut to = entries.len();
    while from < to {
        let middle = from + (to - from) / 2;
        match entries[middle].order(key) {
            Ordering::Less => to = middle,
            Ordering::Equal => return Ok(middle),
            Ordering::Greater => from = middle + 1,
        }
    }
    Err(from)
}

impl Unfinished {
    /// No line was read.
    pub fn new(alloc: Global) -> Unfinished
        ensures none { result ≡ [] }
        ensures read { HasRead [] result }
    {
        Unfinished {
            alloc,
            entries: Vec::new(alloc),
        }
    }

    /// Makes room for a message of this key. What has begun stays.
    pub(crate) fn make_room(&mut self, key: &Key<'_>) -> Result<(), AllocError>
        ensures room { OnOk result (HasPlace self.new (key_of key.now)) }
        ensures same { HasNoFewer self.old self.new }
        ensures entries { AreEntries self.new }
    {
        let Err(at) = place_of(self.entries.as_slice(), key) else {
            return Ok(());
        };
        let entry = Entry::of_key(self.alloc, key)?;
        self.entries.insert(at, entry)?;
        Ok(())
    }

    /// Takes a line, for whose key there is room, and gives the message that ends at it.
    pub(crate) fn join(&mut self, line: &Line<'_>) -> Option<Message>
        requires { HasPlace self.old (key_of line.now.key) }
        ensures before { AreEntries self.old }
        ensures entries { AreEntries self.new }
        ensures places { (key : AKey) → HasPlace self.old key → HasPlace self.new key }
        ensures next { (key : AKey) → pending_in self.new key
            ≡ (if is_same key (key_of line.now.key) then next_pending (pending_in self.old (key_of line.now.key)) (part_of line.now.part) else pending_in self.old key) }
        ensures ended { option_map message_of result ≡ ended_by (pending_in self.old (key_of line.now.key)) (part_of line.now.part) }
    {
        match place_of(self.entries.as_slice(), &line.key) {
            Ok(at) => self.entries[at].join(&line.part),
            Err(_) => unreachable!(),
        }
    }

    /// Takes the next line, and gives the message that ends at it.
    pub(crate) fn take(&mut self, line: &Line<'_>) -> Result<Option<Message>, AllocError>
        ensures entries { AreEntries self.new }
        ensures read { (back : List ALine) → HasRead back (begun self.old) → OnOk result (HasRead (line_said line.now ∷ back) (begun self.new)) }
        ensures joined { (back : List ALine) → HasRead back (begun self.old) → IfOk result (λ message. option_map message_of message ≡ message_behind back (line_said line.now)) }
        ensures kept { OnErr result (begun self.new ≡ begun self.old) }
    {
        self.make_room(&line.key)?;
        Ok(self.join(line))
    }

    /// Makes room for the messages of the lines of a datagram, so that each of them can be taken. What has begun stays.
    ///
    /// `AllocError`: there was no memory.
    pub fn make_rooms(&mut self, group: u8, payload: &[u8]) -> Result<(), AllocError>
        ensures read { (back : List ALine) → HasRead back self.old → HasRead back self.new }
        ensures rooms { OnOk result (All (λ line. HasPlace self.new line.key) (lines_in group payload.now)) }
    {
        let _ = &self.entries;
        let made = make_room(self, group, payload);
        let _ = &self.entries;
        match made {
            Ok(_) => Ok(()),
            Err(none) => Err(none),
        }
    }

    /// Takes the next line of a datagram, for whose message there is room, and gives the message that ends at it (IEC 61162-1, VDM and VDO).
    /// Another line ends none.
    pub fn take_line(&mut self, group: u8, verdict: &LineVerdict<'_>) -> Option<Message>
        requires { (line : ALine) → line_in group (verdict_of verdict.now) ≡ Some line → HasPlace self.old line.key }
        ensures read { (back : List ALine) → HasRead back self.old → HasRead (option_to_list (line_in group (verdict_of verdict.now)) ++ back) self.new }
        ensures ended { (back : List ALine) → HasRead back self.old → option_map message_of result ≡ option_and_then (message_behind back) (line_in group (verdict_of verdict.now)) }
        ensures places { (key : AKey) → HasPlace self.old key → HasPlace self.new key }
    {
        match line_in(group, verdict) {
            Some(line) => self.join(&line),
            None => None,
        }
    }

    /// Makes room for the message of the next line of a datagram, takes the line, and gives the message that ends at it (IEC 61162-1, VDM and
    /// VDO). Another line ends none.
    ///
    /// `AllocError`: there was no memory. The line isn't taken, and what has begun stays.
    pub fn try_take_line(
        &mut self,
        group: u8,
        verdict: &LineVerdict<'_>,
    ) -> Result<Option<Message>, AllocError>
        ensures read { (back : List ALine) → HasRead back self.old → OnOk result (HasRead (option_to_list (line_in group (verdict_of verdict.now)) ++ back) self.new) }
        ensures ended { (back : List ALine) → HasRead back self.old
            → IfOk result (λ message. option_map message_of message ≡ option_and_then (message_behind back) (line_in group (verdict_of verdict.now))) }
        ensures kept { OnErr result (begun self.new ≡ begun self.old) }
    {
        let _ = &self.entries;
        match line_in(group, verdict) {
            Some(line) => self.take(&line),
            None => Ok(None),
        }
    }
}
