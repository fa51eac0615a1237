// The messages that the lines of sentence datagrams carry.
//
// A message is defined by a look back over all lines of its key; the code keeps one message of each key that has
// begun. A line that carries no part ends nothing, since nothing in it says whose it is. A part 0, and one behind
// the last, are parts of their key and end what has begun.
ghost use Rattle.std.specs.Prelude.{◌≡◌, ◌++◌, [], IfOk, List, OnErr, OnOk, option_and_then, option_map, option_to_list};
ghost use Rattle.vdr_ais.specs.Lines.{Line as ALine, line_as};
ghost use Rattle.vdr_ais.specs.Messages.{message_behind};
ghost use Rattle.vdr_ais.specs.Pending.{HasRead};
ghost use Rattle.vdr_ais.specs.Views.{message_of};

use crate::carried::line_of;
use crate::message::Message;
use crate::unfinished::Unfinished;
use std::alloc::{AllocError, Global};
use std::marker::Model;
use vdr_values::Reading;

/// Joins the parts of AIS messages (IEC 61162-1, VDM and VDO). The parts of one message come one behind the other among the lines with the
/// same transmission group, source, formatter, sequential identifier and radio channel. It takes memory for those, and none for their lines.
#[derive(Drop)]
pub struct Joiner {
    unfinished: Unfinished,
}

impl Model for Joiner {
    ghost use Rattle.vdr_ais.specs.Pending.{Entries, begun};

    ghost Value = { Entries };

    ghost view = { λ j. begun j.unfinished };
}

impl Joiner {
    /// No line was read.
    pub fn new(alloc: Global) -> Joiner
        ensures { HasRead [] result }
    {
        Joiner {
            unfinished: Unfinished::new(alloc),
        }
    }

    /// Reads the next line, a sentence with this formatter, and gives the message that ends at it. A line that carries no part, or one
    /// whose payload is not legal, is passed over.
    ///
    /// `AllocError`: there was no memory. The joiner stays as it was.
    pub fn line(
        &mut self,
        group: u8,
        source: &[u8],
        formatter: &[u8; 3],
        reading: &Reading<'_>,
    ) -> Result<Option<Message>, AllocError>
        ensures read { (back : List ALine) → HasRead back self.old → OnOk result (HasRead (option_to_list (line_as group source.now formatter.now reading.now) ++ back) self.new) }
        ensures joined { (back : List ALine) → HasRead back self.old
            → IfOk result (λ message. option_map message_of message ≡ option_and_then (message_behind back) (line_as group source.now formatter.now reading.now)) }
        ensures kept { OnErr result (self.new ≡ self.old) }
    {
        if reading.formatter() != formatter.as_slice() {
            return Ok(None);
        }
        let Some(line) = line_of(group, source, reading) else {
            return Ok(None);
        };
        self.unfinished.take(&line)
    }
}
