// The track of a stream of images: how each header follows the one before.
//
// A track keeps no reference: source, block, sequence number and greatest tell all of the step. Within a block a
// step looks at the sequence number alone.
ghost use Rattle.std.specs.Prelude.{◌≡◌, Some, None};
ghost use Rattle.vdr_image.specs.Tracks.{follows, part_of};
ghost use Rattle.vdr_image.specs.Views.{header_of};

use crate::header::ImageHeader;
use crate::part::Part;
use crate::step::ImageStep;
use std::marker::Model;

/// Follows the image headers of a stream: it keeps what it needs of the header last seen.
#[derive(Drop)]
pub struct ImageTrack {
    last: Option<Part>,
}

impl Model for ImageTrack {
    ghost use Rattle.std.specs.Prelude.{Option};
    ghost use Rattle.vdr_image.specs.declared.part.Part.{Part};

    ghost Value = { Option Part };

    ghost view = { λ track. track.last };
}

fn part_of(header: &ImageHeader<'_>) -> Part
    ensures { result ≡ part_of (header_of header.now) }
{
    let mut source = [0; 6];
    source.copy_from_slice(header.source);
    Part {
        source,
        block: header.block,
        sequence: header.sequence,
        greatest: header.greatest,
    }
}

fn follows(last: &Part, now: &Part) -> bool
    ensures { result ≡ follows last.now now.now }
{
    if last.source != now.source {
        return false;
    }
    if last.block == now.block {
        u64::from(now.sequence) == u64::from(last.sequence) + 1
    } else {
        last.sequence == last.greatest && now.sequence == 1
    }
}

impl ImageTrack {
    ghost use Rattle.vdr_image.specs.Tracks.{image_step, part_of};
    ghost use Rattle.vdr_image.specs.Views.{header_of};

    /// No header was seen yet.
    pub fn new() -> ImageTrack
        ensures { result ≡ None }
    {
        ImageTrack { last: None }
    }

    /// How this header follows the one last seen (this project's profile). From then on this one is the one last seen.
    pub fn step(&mut self, header: &ImageHeader<'_>) -> ImageStep
        ensures step { result ≡ image_step self.old (part_of (header_of header.now)) }
        ensures seen { self.new ≡ Some (part_of (header_of header.now)) }
    {
        let now = part_of(header);
        let step = match &self.last {
            None => ImageStep::First,
            Some(last) if follows(last, &now) => ImageStep::Next,
            Some(_) => ImageStep::Break,
        };
        self.last = Some(now);
        step
    }
}
