// What was read ahead of a capture's source, and what is gathered for its sink.
ghost use Rattle.std.specs.Prelude.{◌≡◌, ◌≤◌, ◌<◌, ◌+◌, ◌++◌, true, false, [], length, drop, take, OnOk, OnErr};
ghost use Rattle.std.specs.Io.KnownBytes.{IsAtEnd, Keeps, prepend_known};
ghost use Rattle.vdr_outside.specs.Causes.{HasCause};

use crate::spelling::head_of;
use vdr_feed::LONGEST_ITEM;
use vdr_outside::{Failed, Sink, Source};
use vdr_pcap::LentItem;

/// How many bytes are read ahead, and gathered, at most.
pub(crate) const CAPACITY: usize = 65_536;

/// Bytes on their way.
#[derive(Drop)]
pub(crate) struct Buffer {
    bytes: [u8; CAPACITY],
    // Of these the bytes from here to there are held.
    from: usize,
    to: usize,
    ghost order: { from ≤ to },
    ghost within: { to ≤ length bytes },
}

impl Buffer {
    ghost use Rattle.vdr_feed.specs.Feed.{spelling};
    ghost use Rattle.vdr_pcap.specs.Taken.{item_lent};
    ghost use Rattle.vdr_import.specs.Relayed.{Gathers, held_in};

    /// One that holds nothing.
    fn new() -> Buffer
        ensures { held_in result ≡ [] }
    {
        Buffer {
            bytes: [0; CAPACITY],
            from: 0,
            to: 0,
        }
    }

    /// Whether nothing is held.
    pub(crate) fn is_empty(&self) -> bool
        ensures none { result ≡ true → held_in self.now ≡ [] }
        ensures some { result ≡ false → 0 < length (held_in self.now) }
    {
        self.from == self.to
    }

    /// What is held.
    pub(crate) fn held(&self) -> &[u8]
        ensures { result.now ≡ held_in self.now }
    {
        &self.bytes[self.from..self.to]
    }

    /// Passes over so many bytes of what is held.
    pub(crate) fn pass(&mut self, size: usize)
        requires { size ≤ length (held_in self.old) }
        ensures { held_in self.new ≡ drop size (held_in self.old) }
    {
        self.from += size;
    }

    /// Puts the next bytes into a front of a slice, and says how many.
    pub(crate) fn take(&mut self, into: &mut [u8]) -> usize
        ensures bound { result ≤ length into.new }
        ensures took { held_in self.old ≡ take result into.new ++ held_in self.new }
        ensures none { result ≡ 0 → 0 < length into.new → held_in self.old ≡ [] }
    {
        let count = into.len().min(self.to - self.from);
        into[..count].copy_from_slice(&self.bytes[self.from..self.from + count]);
        self.from += count;
        count
    }

    // Reads on, where nothing is held.
    fn fill<I: Source>(&mut self, input: &mut I) -> Result<(), Failed>
        requires { held_in self.old ≡ [] }
        ensures left { Keeps (I.left input.old) (prepend_known (held_in self.new) (I.left input.new)) }
        ensures end { OnOk result (held_in self.new ≡ [] → IsAtEnd (I.left input.new)) }
        ensures cause { HasCause (I.faults input.old) (I.faults input.new) result }
    {
        self.from = 0;
        self.to = 0;
        self.to = input.read(&mut self.bytes)?;
        Ok(())
    }

    /// Writes all that is held. After a failed write the rest is held.
    pub(crate) fn hand_on<O: Sink>(&mut self, output: &mut O) -> Result<(), Failed>
        ensures handed { Gathers (O.taken output.old) (O.taken output.new) (held_in self.old) (held_in self.new) }
        ensures empty { OnOk result (self.new.to ≡ 0) }
        ensures none { OnOk result (held_in self.new ≡ []) }
        ensures cause { HasCause (O.faults output.old) (O.faults output.new) result }
    {
        while self.from < self.to {
            self.from += output.write(&self.bytes[self.from..self.to])?;
        }
        self.from = 0;
        self.to = 0;
        Ok(())
    }

    // Gathers bytes for which there is room.
    #[inline]
    fn gather(&mut self, bytes: &[u8])
        requires { self.old.to + length bytes.now ≤ 65_536 }
        ensures held { held_in self.new ≡ held_in self.old ++ bytes.now }
        ensures grown { self.new.to ≡ self.old.to + length bytes.now }
    {
        let end = self.to + bytes.len();
        self.bytes[self.to..end].copy_from_slice(bytes);
        self.to = end;
    }

    // Makes room for an item, by writing what is held where there is too little.
    fn make_room<O: Sink>(&mut self, output: &mut O) -> Result<(), Failed>
        ensures handed { Gathers (O.taken output.old) (O.taken output.new) (held_in self.old) (held_in self.new) }
        ensures room { OnOk result (self.new.to + 1_492 ≤ 65_536) }
        ensures cause { HasCause (O.faults output.old) (O.faults output.new) result }
    {
        if self.to + LONGEST_ITEM <= CAPACITY {
            return Ok(());
        }
        self.hand_on(output)
    }

    /// Gathers some bytes. Where there is too little room, what is held is written first.
    pub(crate) fn push<O: Sink>(&mut self, output: &mut O, bytes: &[u8]) -> Result<(), Failed>
        requires { length bytes.now ≤ 1_492 }
        ensures all { OnOk result (Gathers (O.taken output.old) (O.taken output.new) (held_in self.old ++ bytes.now) (held_in self.new)) }
        ensures front { OnErr result (Gathers (O.taken output.old) (O.taken output.new) (held_in self.old) (held_in self.new)) }
        ensures cause { HasCause (O.faults output.old) (O.faults output.new) result }
    {
        self.make_room(output)?;
        self.gather(bytes);
        Ok(())
    }

    /// Gathers an item as it is spelled. Where there is too little room, what is held is written first.
    pub(crate) fn push_item<O: Sink>(
        &mut self,
        output: &mut O,
        item: &LentItem<'_>,
    ) -> Result<(), Failed>
        requires { length item.now.body.now ≤ 1_473 }
        ensures all { OnOk result (Gathers (O.taken output.old) (O.taken output.new)
            (held_in self.old ++ spelling (item_lent item.now)) (held_in self.new)) }
        ensures front { OnErr result (Gathers (O.taken output.old) (O.taken output.new) (held_in self.old) (held_in self.new)) }
        ensures cause { HasCause (O.faults output.old) (O.faults output.new) result }
    {
        self.make_room(output)?;
        self.gather(&head_of(item));
        self.gather(item.body);
        Ok(())
    }
}

/// What was read ahead, and what is gathered.
#[derive(Drop)]
pub(crate) struct Buffers {
    pub(crate) ahead: Buffer,
    pub(crate) gathered: Buffer,
}

impl Buffers {
    ghost use Rattle.vdr_import.specs.Relayed.{held_in};

    /// Nothing was read, and nothing is gathered.
    pub(crate) fn new() -> Buffers
        ensures ahead { held_in result.ahead ≡ [] }
        ensures waiting { held_in result.gathered ≡ [] }
    {
        Buffers {
            ahead: Buffer::new(),
            gathered: Buffer::new(),
        }
    }

    /// Reads on where no byte is left that was read ahead. That may wait, so nothing is gathered then.
    pub(crate) fn read_on<I: Source>(&mut self, input: &mut I) -> Result<(), Failed>
        requires nothing_ahead { held_in self.old.ahead ≡ [] }
        requires nothing_waits { held_in self.old.gathered ≡ [] }
        ensures left { Keeps (I.left input.old) (prepend_known (held_in self.new.ahead) (I.left input.new)) }
        ensures end { OnOk result (held_in self.new.ahead ≡ [] → IsAtEnd (I.left input.new)) }
        ensures waiting { held_in self.new.gathered ≡ held_in self.old.gathered }
        ensures cause { HasCause (I.faults input.old) (I.faults input.new) result }
    {
        self.ahead.fill(input)
    }
}
