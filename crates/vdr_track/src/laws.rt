// What holds of tracks.
ghost use Rattle.vdr_track.specs.Laws.{EachPointIsDrawn, NoSegmentGoesOverAHole, TrackIsPrinted};

/// What is printed of records, one after another and behind the last, is the track of the source, a function of them alone.
pub fn law_of_tracks()
    ensures { TrackIsPrinted }
{}

/// Between two points of a segment, one after the other, there is no begin of a run, no Gap of their group, no line of the source without a valid
/// position, and at most ten seconds. Each position that the source says is a point of one segment, in order.
pub fn law_of_segments()
    ensures whole { NoSegmentGoesOverAHole }
    ensures each { EachPointIsDrawn }
{}
