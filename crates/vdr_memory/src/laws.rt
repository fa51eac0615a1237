// The law of images: what a stop may leave of media in memory is what the disk model says, no more and no less.
ghost use Rattle.vdr_memory.specs.Law.{FailedSyncsDoNothing, LostCallsDoNothing, SyncsMakeLast, WritesTear};

/// What a stop may leave of media in memory after a write or a sync, exactly: all that a disk may leave by the disk model,
/// and nothing else.
pub fn law_of_images()
    ensures writes { WritesTear }
    ensures syncs { SyncsMakeLast }
    ensures failed_syncs { FailedSyncsDoNothing }
    ensures lost { LostCallsDoNothing }
{}
