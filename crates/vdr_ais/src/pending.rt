// A message that has begun.
ghost use Rattle.std.specs.Prelude.{◌≡◌, ◌≤◌, ◌<◌, ◌+◌, ◌++◌, true, All, MatchBool, None, Some, length, map, option_map, ⊤};
ghost use Rattle.std.specs.List.{list_all};
ghost use Rattle.vdr_ais.specs.Bits.{is_legal, six};
ghost use Rattle.vdr_ais.specs.Pending.{ended_by, front_of, idle, next_pending, whole_of};
ghost use Rattle.vdr_ais.specs.Views.{message_of, part_of};

use crate::line::Part;
use crate::message::Message;
use crate::sixes::six;
use arrayvec::ArrayVec;
use std::marker::Model;

/// The parts of a message that have come, from the first on. Nothing has begun where there is none.
#[derive(Drop)]
pub(crate) struct Pending {
    // How many parts the message has.
    total: u32,
    // How many have come.
    parts: u32,
    // The numbers of six bits that they carry.
    sixes: ArrayVec<u8, 738>,
}

impl Model for Pending {
    ghost use Rattle.vdr_ais.specs.Pending.{IsKept, Pending as APending};

    ghost Value = { APending };

    ghost view = { λ p. record { total = p.total; parts = p.parts; sixes = p.sixes.items } };

    ghost invariant = { λ p. IsKept (record { total = p.total; parts = p.parts; sixes = p.sixes.items }) };
}

// Appends the numbers that the characters of a payload stand for.
fn push_sixes(sixes: &mut ArrayVec<u8, 738>, payload: &[u8])
    requires legal { list_all is_legal payload.now ≡ true }
    requires room { length sixes.old.items + length payload.now ≤ 738 }
    requires below { All (λ n. n < 64) sixes.old.items }
    ensures items { sixes.new.items ≡ sixes.old.items ++ map six payload.now }
    ensures below { All (λ n. n < 64) sixes.new.items }
{
    for character in payload {
        sixes.push(six(*character));
    }
}

// A copy.
fn copied(sixes: &ArrayVec<u8, 738>) -> ArrayVec<u8, 738>
    ensures { result.items ≡ sixes.now.items }
{
    let mut copy = ArrayVec::new();
    let _ = copy.try_extend_from_slice(sixes.as_slice());
    copy
}

impl Pending {
    /// Nothing has begun.
    pub(crate) fn idle() -> Pending
        ensures { result ≡ idle }
    {
        Pending {
            total: 0,
            parts: 0,
            sixes: ArrayVec::new(),
        }
    }

    fn clear(&mut self)
        ensures { self.new ≡ idle }
    {
        self.total = 0;
        self.parts = 0;
        self.sixes.clear();
    }

    // Makes it the parts before this one. False where those have not come.
    fn lead(&mut self, part: &Part<'_>) -> bool
        ensures front { MatchBool result (front_of self.old (part_of part.now) ≡ Some self.new.sixes) (front_of self.old (part_of part.now) ≡ None) }
        ensures next { MatchBool result (self.new.parts + 1 ≡ part.now.number) ⊤ }
    {
        if part.number == 1 {
            self.clear();
            return true;
        }
        self.parts > 0 && part.number == self.parts + 1 && part.total == self.total
    }

    // The part behind those that have come.
    fn push(&mut self, part: &Part<'_>)
        requires { self.old.parts + 1 ≤ 9 }
        ensures { self.new ≡ record { total = part.now.total; parts = self.old.parts + 1; sixes = self.old.sixes ++ map six part.now.payload.now } }
    {
        self.total = part.total;
        self.parts += 1;
        push_sixes(&mut self.sixes, part.payload);
    }

    // The message, where this part, which came last, is its last.
    fn whole(&self, part: &Part<'_>) -> Option<Message>
        ensures { option_map message_of result ≡ whole_of self.now.sixes (part_of part.now) }
    {
        if part.number != part.total {
            return None;
        }
        Some(Message {
            sixes: copied(&self.sixes),
            fill: part.fill,
        })
    }

    /// Takes the next part of its key, and gives the message that ends with it.
    pub(crate) fn join(&mut self, part: &Part<'_>) -> Option<Message>
        ensures next { self.new ≡ next_pending self.old (part_of part.now) }
        ensures ended { option_map message_of result ≡ ended_by self.old (part_of part.now) }
    {
        if !self.lead(part) {
            self.clear();
            return None;
        }
        self.push(part);
        let message = self.whole(part);
        if part.fill != 0 {
            self.clear();
        }
        message
    }
}
