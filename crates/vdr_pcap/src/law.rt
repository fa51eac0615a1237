ghost use Rattle.vdr_pcap.specs.Law.{ItemsAreDatagrams, ItemsAreLegal, NoCaptureIsRefused, OneCapture, OneRefusal};

/// Two readings of one input agree: the packets and blocks of a capture are unique, a capture is not refused, and what is refused is
/// refused by one number at one offset. So a caller that answers one of these answers no other.
pub fn law_of_captures()
    ensures capture { OneCapture }
    ensures whole { NoCaptureIsRefused }
    ensures refusal { OneRefusal }
{}

/// The items of each group are the whole and cut datagrams to its port, one to one and in the capture's order, and the items of a
/// capture may stand in a feed: their groups, stamps and lengths are legal, and none is received before the one before it.
pub fn law_of_captured_items()
    ensures datagrams { ItemsAreDatagrams }
    ensures legal { ItemsAreLegal }
{}
