// A source that hands on what is gathered before it reads its input.
//
// A read of the input may wait, as on a live capture, and what was gathered then would wait with it. So the reader of captures reads
// through a relay: where nothing is left of what was read ahead, all that is gathered is written first.
ghost use Rattle.std.specs.Prelude.{◌≡◌, [], Some, OnErr, OnOk};
ghost use Rattle.std.specs.Io.KnownBytes.{IsAtEnd, Keeps, prepend_known};
ghost use Rattle.vdr_outside.specs.Causes.{HasCause};
ghost use Rattle.vdr_import.specs.Relayed.{Blames, Gathers, faults_of, held_in};

use crate::buffers::Buffers;
use crate::side::Side;
use std::marker::{Brand, PhantomData};
use vdr_outside::{Failed, Sink, Source};

/// Which references a relay holds, and how what is behind them stood when they were lent. The call that lends them picks it: so
/// whatever a function generic in its source does to a relay, its caller still knows what was written, and which side failed.
pub(crate) trait Lending {
    ghost use Rattle.std.specs.Prelude.{ℕ, List, Option};

    /// The references.
    ghost input: { ℕ };

    ghost output: { ℕ };

    ghost buffers: { ℕ };

    /// The bytes that the sink had taken, where it tells them, and those that were gathered.
    ghost taken: { Option (List ℕ) };

    ghost waiting: { List ℕ };

    /// The counts of faults.
    ghost input_faults: { ℕ };

    ghost output_faults: { ℕ };
}

impl Lending for Brand {
    ghost use Rattle.std.specs.Prelude.{None, []};

    ghost input = { 0 };

    ghost output = { 0 };

    ghost buffers = { 0 };

    ghost taken = { None };

    ghost waiting = { [] };

    ghost input_faults = { 0 };

    ghost output_faults = { 0 };
}

/// What is lent to a relay.
#[derive(Drop)]
pub(crate) struct Ends<'i, 'o, 'b, I: Source, O: Sink> {
    pub(crate) input: &'i mut I,
    pub(crate) output: &'o mut O,
    pub(crate) buffers: &'b mut Buffers,
}

impl<'i, 'o, 'b, I: Source, O: Sink> Ends<'i, 'o, 'b, I, O> {
    /// Lends these.
    pub(crate) fn new(
        input: &'i mut I,
        output: &'o mut O,
        buffers: &'b mut Buffers,
    ) -> Ends<'i, 'o, 'b, I, O>
        ensures input { result.input.ghost_name ≡ input.entry.ghost_name }
        ensures output { result.output.ghost_name ≡ output.entry.ghost_name }
        ensures buffers { result.buffers.ghost_name ≡ buffers.entry.ghost_name }
        ensures input_value { result.input.now ≡ input.old }
        ensures output_value { result.output.now ≡ output.old }
        ensures buffers_value { result.buffers.now ≡ buffers.old }
    {
        Ends {
            input,
            output,
            buffers,
        }
    }
}

/// A source that hands on what is gathered before it reads its input. What is left of it is what was read ahead, and what is left of
/// the input.
#[derive(Drop)]
pub(crate) struct Relay<'i, 'o, 'b, I: Source, O: Sink, L: Lending> {
    input: &'i mut I,
    output: &'o mut O,
    buffers: &'b mut Buffers,
    failed: Option<Side>,
    of: PhantomData<L>,
    ghost same_input: { input.ghost_name ≡ L.input },
    ghost same_output: { output.ghost_name ≡ L.output },
    ghost same_buffers: { buffers.ghost_name ≡ L.buffers },
    ghost gathers: { Gathers L.taken (O.taken output.now) L.waiting (held_in buffers.now.gathered) },
    ghost blames: { Blames failed L.input_faults (I.faults input.now) L.output_faults (O.faults output.now) },
}

impl<'i, 'o, 'b, I: Source, O: Sink, L: Lending> Relay<'i, 'o, 'b, I, O, L> {
    /// A relay of which nothing has failed.
    pub(crate) fn new(ends: Ends<'i, 'o, 'b, I, O>) -> Relay<'i, 'o, 'b, I, O, L>
        requires input { ends.input.ghost_name ≡ L.input }
        requires output { ends.output.ghost_name ≡ L.output }
        requires buffers { ends.buffers.ghost_name ≡ L.buffers }
        requires taken { O.taken ends.output.now ≡ L.taken }
        requires waiting { held_in ends.buffers.now.gathered ≡ L.waiting }
        requires input_faults { I.faults ends.input.now ≡ L.input_faults }
        requires output_faults { O.faults ends.output.now ≡ L.output_faults }
        ensures left { ⟦<Self as Source>⟧.left result ≡ prepend_known (held_in ends.entry.buffers.now.ahead) (I.left ends.entry.input.now) }
        ensures faults { ⟦<Self as Source>⟧.faults result ≡ 0 }
    {
        let Ends {
            input,
            output,
            buffers,
        } = ends;
        Relay {
            input,
            output,
            buffers,
            failed: None,
            of: PhantomData,
        }
    }

    /// Gives back what was lent, and says which side failed.
    pub(crate) fn close(self) -> (Ends<'i, 'o, 'b, I, O>, Option<Side>)
        ensures input { result.0.input.ghost_name ≡ L.input }
        ensures output { result.0.output.ghost_name ≡ L.output }
        ensures buffers { result.0.buffers.ghost_name ≡ L.buffers }
        ensures left { prepend_known (held_in result.0.buffers.now.ahead) (I.left result.0.input.now) ≡ ⟦<Self as Source>⟧.left self.entry }
        ensures gathers { Gathers L.taken (O.taken result.0.output.now) L.waiting (held_in result.0.buffers.now.gathered) }
        ensures blames { Blames result.1 L.input_faults (I.faults result.0.input.now) L.output_faults (O.faults result.0.output.now) }
        ensures faults { faults_of result.1 ≡ ⟦<Self as Source>⟧.faults self.entry }
    {
        let Relay {
            input,
            output,
            buffers,
            failed,
            of: _,
        } = self;
        (
            Ends {
                input,
                output,
                buffers,
            },
            failed,
        )
    }

    // Reads on, behind all that was gathered.
    fn read_on(&mut self) -> Result<(), Failed>
        requires { held_in self.old.buffers.now.ahead ≡ [] }
        ensures left { Keeps (⟦<Self as Source>⟧.left self.old) (⟦<Self as Source>⟧.left self.new) }
        ensures end { OnOk result (held_in self.new.buffers.now.ahead ≡ [] → IsAtEnd (I.left self.new.input.now)) }
        ensures cause { HasCause (⟦<Self as Source>⟧.faults self.old) (⟦<Self as Source>⟧.faults self.new) result }
    {
        if let Err(failed) = self.buffers.gathered.hand_on(self.output) {
            self.failed = Some(Side::Output);
            return Err(failed);
        }
        if let Err(failed) = self.buffers.read_on(self.input) {
            self.failed = Some(Side::Input);
            return Err(failed);
        }
        Ok(())
    }
}

impl<'i, 'o, 'b, I: Source, O: Sink, L: Lending> Source for Relay<'i, 'o, 'b, I, O, L> {
    ghost left = { λ r. prepend_known (held_in r.buffers.now.ahead) (I.left r.input.now) };

    ghost faults = { λ r. faults_of r.failed };

    fn read(&mut self, into: &mut [u8]) -> Result<usize, Failed> {
        if self.buffers.ahead.is_empty() {
            self.read_on()?;
        }
        Ok(self.buffers.ahead.take(into))
    }
}
