// What a command reaches outside, and what contracts see of it.
ghost use Rattle.vdr_command.specs.Outside.{Outside};

use vdr_outside::{Media, Sink, Source};

/// What the program reaches outside.
#[derive(Drop)]
pub struct World<I: Drop, O: Drop, M: Drop> {
    /// The standard input.
    pub input: I,
    /// The standard output.
    pub output: O,
    /// The capsule and the long-term medium, in this order.
    pub media: M,
}

/// What stands outside of the program, told as one value.
pub trait Outer {
    /// A fact where the media tell what they read as.
    ghost tells: { Type 0 };

    /// A fact where the media tell what a stop may leave.
    ghost tells_images: { Type 0 };

    /// What each object tells, and how often it failed.
    ghost outside: { Self → Outside tells tells_images };
}

impl<I: Source + Drop, O: Sink + Drop, M: Media + Drop> Outer for World<I, O, M> {
    ghost tells = { M.tells };

    ghost tells_images = { M.tells_images };

    ghost outside = { λ w. record {
      input = record { left = I.left w.input; faults = I.faults w.input };
      output = record { taken = O.taken w.output; faults = O.faults w.output };
      media = record { disk = M.disk w.media; faults = M.faults w.media; bytes_read = M.bytes_read w.media };
    } };
}
