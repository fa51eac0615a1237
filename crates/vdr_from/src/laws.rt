// What `from` prints is what the command prints of the media.
ghost use Rattle.vdr_from.specs.Laws.{SelectsAsMedia};

/// Of a file that holds what some words select of media, `from` selects for other words that select no more what the command selects of
/// the media.
pub fn law_of_held()
    ensures same { SelectsAsMedia }
{}
