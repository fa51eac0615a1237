// What holds of the definitions.
ghost use Rattle.vdr_frame.specs.Laws.{FoundAreItems, FrontDecides};
ghost use Rattle.vdr_frame.specs.Spelled.{FindsDatagrams};

/// What a packet is, its first 1,569 bytes tell.
pub fn law_of_fronts()
    ensures { FrontDecides }
{}

/// A datagram to a group's port, spelled as the standards say, is found whole, in part or not at all, by how many bytes of its
/// frame were captured, behind the header of each link, whatever options it has and whatever pads its frame.
pub fn law_of_datagrams()
    ensures { FindsDatagrams }
{}

/// A datagram that is found, whole or in part, is to one of the sixteen groups, and has at most 1,473 bytes of payload.
pub fn law_of_items()
    ensures { FoundAreItems }
{}
