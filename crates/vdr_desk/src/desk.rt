// The desk of an operator: a link with its worker's pass at the latch, and how the worker ended.
ghost use Rattle.std.specs.Prelude.{◌≡◌, None};

use vdr_capture::Cause;
use vdr_latch::LatchPass;
use vdr_piece::Piece;

/// A link over which an operator's orders come, and its worker. `E` is an event at the latch.
#[derive(Drop)]
pub struct Desk<L, E> {
    pub link: L,
    /// Where a piece of an answer that goes on in several turns is put before it is sent.
    pub piece: Box<Piece>,
    /// The right to take turns at the latch, while a worker may.
    pub pass: Option<LatchPass<E>>,
    /// How the worker ended: the link answered that no line is left, a call of it failed, or as many calls for a line were made as
    /// are allowed.
    pub cause: Option<Cause>,
}

impl<L, E> Desk<L, E> {
    /// A desk at which nothing was asked.
    pub fn new(link: L, piece: Box<Piece>) -> Desk<L, E>
        ensures link { result.link ≡ link }
        ensures piece { result.piece ≡ piece }
        ensures idle { (result.pass ≡ None) × (result.cause ≡ None) }
    {
        Desk {
            link,
            piece,
            pass: None,
            cause: None,
        }
    }
}
