// What has begun of a key.
ghost use Rattle.std.specs.Prelude.{◌≡◌, ◌≤◌, IfOk, length, option_map};
ghost use Rattle.vdr_ais.specs.Pending.{ended_by, idle, key_cmp, next_pending};
ghost use Rattle.vdr_ais.specs.Views.{key_of, message_of, part_of};

use crate::line::{Key, Part};
use crate::message::Message;
use crate::pending::Pending;
use arrayvec::ArrayVec;
use std::alloc::{AllocError, Global};
use std::cmp::Ordering;
use std::marker::Model;

/// A key of its own, and the message of it that has begun.
#[derive(Drop)]
pub(crate) struct Entry {
    group: u8,
    source: Vec<u8>,
    formatter: &'static [u8],
    sequence: Option<u32>,
    channel: ArrayVec<u8, 76>,
    pending: Box<Pending>,
}

impl Model for Entry {
    ghost use Rattle.std.specs.Prelude.{ℕ, List};
    ghost use Rattle.vdr_ais.specs.Lines.{Key as AKey};
    ghost use Rattle.vdr_ais.specs.Pending.{Pending as APending};

    ghost Value = { AKey × APending };

    ghost view = { λ e. (record { group = e.group; source = e.source.items; formatter = e.formatter.now; sequence = e.sequence; channel = e.channel.items }, e.pending.value) };
}

fn channel_of(text: &[u8]) -> ArrayVec<u8, 76>
    requires { length text.now ≤ 76 }
    ensures { result.items ≡ text.now }
{
    let mut channel = ArrayVec::new();
    let _ = channel.try_extend_from_slice(text);
    channel
}

impl Entry {
    /// The entry of a key of which nothing has begun.
    pub(crate) fn of_key(alloc: Global, key: &Key<'_>) -> Result<Entry, AllocError>
        ensures { IfOk result (λ e. e ≡ (key_of key.now, idle)) }
    {
        Ok(Entry {
            group: key.group,
            source: Vec::from_slice(alloc, key.source)?,
            formatter: key.formatter,
            sequence: key.sequence,
            channel: channel_of(key.channel),
            pending: Box::new(alloc, Pending::idle())?,
        })
    }

    /// How a key stands to its own.
    pub(crate) fn order(&self, key: &Key<'_>) -> Ordering
        ensures { result ≡ key_cmp (key_of key.now) self.now.0 }
    {
        key.group
            .cmp(&self.group)
            .then(key.source.cmp(&self.source.as_slice()))
            .then(key.formatter.cmp(&self.formatter))
            .then(key.sequence.cmp(&self.sequence))
            .then(key.channel.cmp(&self.channel.as_slice()))
    }

    /// Takes the next part of its key, and gives the message that ends with it.
    pub(crate) fn join(&mut self, part: &Part<'_>) -> Option<Message>
        ensures next { self.new ≡ (self.old.0, next_pending self.old.1 (part_of part.now)) }
        ensures ended { option_map message_of result ≡ ended_by self.old.1 (part_of part.now) }
    {
        self.pending.join(part)
    }
}
