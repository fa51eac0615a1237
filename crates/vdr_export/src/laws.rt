// The law of lists: each image is listed as its picture is. The law of time lines: each frame stands where its stamp says.
ghost use Rattle.vdr_export.specs.Laws.{AreInTime, GoesOn, ListsPictures};

/// An image is listed exactly where a record has a part of it. Its line tells how many of its parts there are and how
/// many it has, and its word is `complete` exactly where `write_picture` has a picture of the same records, `mixed` and
/// `part` where it refuses it as `Mixed` and `Part`.
pub fn law_of_listings()
    ensures { ListsPictures }
{}

/// In a sound by stamps each frame has all its samples, behind those of the frames before it: from the sample on at which
/// its stamp lies where the sound has not come there, and else, or where that is at most 10 ms later, right behind the
/// frame before it. Behind the last frame nothing stands.
pub fn law_of_time_lines()
    ensures in_time { AreInTime }
    ensures goes_on { GoesOn }
{}
