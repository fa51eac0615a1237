// What has been said in a capture before a packet or block.

use arrayvec::ArrayVec;

/// How many interfaces a section has at most.
pub(crate) const INTERFACES: usize = 256;

/// The form of a capture, with the order of its numbers, the most significant byte first or last.
#[derive(Clone, Copy, Drop)]
pub(crate) enum Form {
    /// Nothing was read.
    Unbegun,
    /// A pcap file, whose fractions are nanoseconds or microseconds, and the type of its link.
    Packets { big: bool, nano: bool, link: u16 },
    /// A section of pcapng.
    Blocks { big: bool },
}

/// An interface of a section: the type of its link, the resolution of its stamps, the seconds to be added to them, in two's
/// complement, and the packets that it lost.
#[derive(Clone, Copy, Default, Drop)]
pub(crate) struct Interface {
    pub(crate) link: u16,
    pub(crate) resolution: u8,
    pub(crate) added: u64,
    pub(crate) lost: u64,
}

/// What has been said before a packet or block.
#[derive(Drop)]
pub(crate) struct Said {
    pub(crate) form: Form,
    pub(crate) interfaces: ArrayVec<Interface, INTERFACES>,
    /// The packets that captures lost in the sections before.
    pub(crate) lost: u64,
}

impl Said {
    ghost use Rattle.std.specs.Prelude.{◌≡◌};
    ghost use Rattle.vdr_pcap.specs.Seen.{standing_of};
    ghost use Rattle.vdr_pcap.specs.Packets.{no_standing};

    /// Before anything was read.
    pub(crate) fn nothing() -> Said
        ensures { standing_of result ≡ no_standing }
    {
        Said {
            form: Form::Unbegun,
            interfaces: ArrayVec::new(),
            lost: 0,
        }
    }
}
