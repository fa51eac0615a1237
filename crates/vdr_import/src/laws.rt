// What holds of every capture.
ghost use Rattle.vdr_import.specs.Laws.{CountsAddUp, FeedsAreFeeds};
ghost use Rattle.vdr_import.specs.SpelledBlocks.{BlocksReadBack};
ghost use Rattle.vdr_import.specs.SpelledFiles.{FilesReadBack};

/// What is written of a capture, or of what stands before its refusal, is a feed of its items.
pub fn law_of_imports()
    ensures { FeedsAreFeeds }
{}

/// The counts of an account add up: each packet is counted once.
pub fn law_of_accounts()
    ensures { CountsAddUp }
{}

/// A file of pcap that was written of packets is a capture of these, in either order of bytes and in either unit.
pub fn law_of_files()
    ensures { FilesReadBack }
{}

/// A file of pcapng that was written of sections, interfaces, packets and other blocks is a capture of what these tell, in each
/// section's order of bytes.
pub fn law_of_blocks()
    ensures { BlocksReadBack }
{}
