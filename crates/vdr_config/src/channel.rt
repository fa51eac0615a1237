// A channel of the configuration: a selection of the datagrams of one group, under a name.
use arrayvec::ArrayVec;
use std::marker::Model;

/// Which datagrams of its group a channel selects.
#[derive(Drop)]
pub enum ChannelKind {
    /// Sentence datagrams that have a good line of this formatter and of this source, each where it is given.
    Sentence {
        /// Three capital letters or digits (IEC 61162-1).
        formatter: Option<[u8; 3]>,
        /// 1 to 15 bytes of 0x21 to 0x7E.
        source: Option<ArrayVec<u8, 15>>,
    },
    /// Image datagrams, of this source where it is given.
    Image {
        /// 1 to 15 bytes of 0x21 to 0x7E.
        source: Option<ArrayVec<u8, 15>>,
    },
    /// Frames of this microphone's audio.
    Pcm {
        /// The number of the microphone.
        microphone: u8,
    },
    /// Datagrams of none of these.
    Opaque,
}

/// A channel: a selection of the datagrams of one group, under a name.
#[derive(Drop)]
pub struct Channel {
    /// 1 to 32 lower-case letters, digits and `_`, not `all`.
    pub name: ArrayVec<u8, 32>,
    /// The number of a configured group.
    pub group: u8,
    /// What it selects.
    pub kind: ChannelKind,
}

impl Model for Channel {
    ghost use Rattle.vdr_config.specs.Configuration.{Selector};

    ghost Value = { Selector };

    ghost use Rattle.vdr_config.specs.Kinds.{selection_of};

    ghost view = { λ c. record { name = c.name.items; group = c.group; kind = selection_of c.kind } };
}
