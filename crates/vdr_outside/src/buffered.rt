// A sink that gathers small pieces and hands them on in few writes.
//
// What it has taken is what the sink took and what is gathered, and a failed write leaves the sink a front of the
// text. So printers write many small pieces and the program makes few writes.
ghost use Rattle.std.specs.Prelude.{◌≡◌, ◌≤◌, ◌<◌, ◌+◌, length, drop, IfOk, OnOk};
ghost use Rattle.std.specs.Io.{WritesAtMost};
ghost use Rattle.std.specs.Io.KnownBytes.{append_known, Appends, Keeps, WriteAppends};
ghost use Rattle.vdr_outside.specs.Causes.{HasCause};
ghost use Rattle.vdr_outside.specs.Writes.{BeginsWith, IsFrontOf};

use crate::sink::write_front;
use crate::{Failed, Sink};
use arrayvec::ArrayVec;
use std::marker::{Brand, PhantomData};

/// How many bytes a buffered sink holds at most.
const CAPACITY: usize = 8192;

/// Which reference a buffered sink holds, and what the sink behind it had taken when it was lent. Both are picked by the
/// call that lends it, as in `print_buffered`: so whatever a function generic in its sink does to a buffered one, its
/// caller still knows which sink was written to, and that it only grew.
pub trait Opening {
    ghost use Rattle.std.specs.Prelude.{ℕ, List, Option};

    /// The reference.
    ghost name: { ℕ };

    /// The bytes taken when it was lent, where the sink tells them.
    ghost start: { Option (List ℕ) };
}

impl Opening for Brand {
    ghost use Rattle.std.specs.Prelude.{None};

    ghost name = { 0 };

    ghost start = { None };
}

/// A sink that is lent to a buffered one.
#[derive(Drop)]
pub struct Lent<'a, O: Sink> {
    pub sink: &'a mut O,
}

impl<'a, O: Sink> Lent<'a, O> {
    /// Lends the sink.
    pub fn new(sink: &'a mut O) -> Lent<'a, O>
        ensures same { result.sink.ghost_name ≡ sink.entry.ghost_name }
        ensures value { result.sink.now ≡ sink.old }
    {
        Lent { sink }
    }
}

/// A sink that gathers up to 8,192 bytes before it hands them on, so that many small pieces make few writes.
/// What it has taken is what the sink behind it took, and then what is gathered.
#[derive(Drop)]
pub struct BufferedSink<'a, O: Sink, B: Opening> {
    sink: &'a mut O,
    buffer: ArrayVec<u8, CAPACITY>,
    // How many bytes of the buffer were handed on. That is all or none, except after a failed write.
    handed: usize,
    of: PhantomData<B>,
    ghost same: { sink.ghost_name ≡ B.name },
    ghost grown: { BeginsWith B.start (O.taken sink.now) },
    ghost within: { handed ≤ length buffer.items },
}

impl<'a, O: Sink, B: Opening> BufferedSink<'a, O, B> {
    /// An empty buffer before the sink.
    pub fn new(lent: Lent<'a, O>) -> BufferedSink<'a, O, B>
        requires name { lent.sink.ghost_name ≡ B.name }
        requires start { O.taken lent.sink.now ≡ B.start }
        ensures taken { Keeps B.start (⟦<Self as Sink>⟧.taken result) }
        ensures faults { ⟦<Self as Sink>⟧.faults result ≡ O.faults lent.entry.sink.now }
    {
        let Lent { sink } = lent;
        BufferedSink {
            sink,
            buffer: ArrayVec::new(),
            handed: 0,
            of: PhantomData,
        }
    }

    /// Hands on what is gathered and gives the sink back. Where a write fails, it has taken a front of all.
    pub fn close(mut self) -> (Lent<'a, O>, Result<(), Failed>)
        ensures same { result.0.sink.ghost_name ≡ B.name }
        ensures all { OnOk result.1
            (Keeps (⟦<Self as Sink>⟧.taken self.entry) (O.taken result.0.sink.now)) }
        ensures grown { BeginsWith B.start (O.taken result.0.sink.now) }
        ensures front { IsFrontOf (O.taken result.0.sink.now)
            (⟦<Self as Sink>⟧.taken self.entry) }
        ensures cause { HasCause (⟦<Self as Sink>⟧.faults self.entry)
            (O.faults result.0.sink.now) result.1 }
    {
        let result = self.hand_on();
        (self.into_lent(), result)
    }

    /// Gives the sink back without what is still gathered, so that it has taken a front of all.
    pub fn abandon(self) -> Lent<'a, O>
        ensures same { result.sink.ghost_name ≡ B.name }
        ensures grown { BeginsWith B.start (O.taken result.sink.now) }
        ensures front { IsFrontOf (O.taken result.sink.now) (⟦<Self as Sink>⟧.taken self.entry) }
        ensures faults { O.faults result.sink.now ≡ ⟦<Self as Sink>⟧.faults self.entry }
    {
        self.into_lent()
    }

    fn into_lent(self) -> Lent<'a, O>
        ensures same { result.sink.ghost_name ≡ self.entry.sink.ghost_name }
        ensures value { result.sink.now ≡ self.entry.sink.now }
    {
        let BufferedSink {
            sink,
            buffer: _,
            handed: _,
            of: _,
        } = self;
        Lent { sink }
    }

    // Hands on what is gathered. After a failed write the rest stays gathered.
    fn hand_on(&mut self) -> Result<(), Failed>
        ensures kept { Keeps (⟦<Self as Sink>⟧.taken self.old)
            (⟦<Self as Sink>⟧.taken self.new) }
        ensures empty { OnOk result (length self.new.buffer.items ≡ 0) }
        ensures cause { HasCause (O.faults self.old.sink.now) (O.faults self.new.sink.now) result }
    {
        let (count, result) = write_front(self.sink, &self.buffer.as_slice()[self.handed..]);
        self.handed += count;
        result?;
        self.buffer.clear();
        self.handed = 0;
        Ok(())
    }

    // Gathers bytes for which there is room.
    #[inline]
    fn gather(&mut self, bytes: &[u8])
        requires { length self.old.buffer.items + length bytes.now ≤ CAPACITY }
        ensures taken { Appends (⟦<Self as Sink>⟧.taken self.old)
            (⟦<Self as Sink>⟧.taken self.new) bytes.now }
        ensures faults { O.faults self.new.sink.now ≡ O.faults self.old.sink.now }
    {
        let _ = self.buffer.try_extend_from_slice(bytes);
    }

    // Takes bytes for which there is no room beside those that are gathered.
    #[cold]
    #[inline(never)]
    fn write_past(&mut self, bytes: &[u8]) -> Result<usize, Failed>
        ensures bound { WritesAtMost result bytes.now }
        ensures some { IfOk result (λ n. 0 < length bytes.now → 0 < n) }
        ensures bytes { WriteAppends (⟦<Self as Sink>⟧.taken self.old)
            (⟦<Self as Sink>⟧.taken self.new) result bytes.now }
        ensures cause { HasCause (O.faults self.old.sink.now) (O.faults self.new.sink.now) result }
    {
        self.hand_on()?;
        if bytes.len() > CAPACITY {
            return self.sink.write(bytes);
        }
        self.gather(bytes);
        Ok(bytes.len())
    }
}

impl<'a, O: Sink, B: Opening> Sink for BufferedSink<'a, O, B> {
    ghost taken = { λ s. append_known (O.taken s.sink.now) (drop s.handed s.buffer.items) };

    ghost faults = { λ s. O.faults s.sink.now };

    #[inline]
    fn write(&mut self, bytes: &[u8]) -> Result<usize, Failed> {
        if bytes.len() > self.buffer.remaining_capacity() {
            return self.write_past(bytes);
        }
        self.gather(bytes);
        Ok(bytes.len())
    }
}
