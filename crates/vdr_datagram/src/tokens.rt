// What a datagram holds by its token: sentences, an image or a file, sound, something else, or nothing of use.
ghost use Rattle.std.specs.Prelude.{◌≡◌};

/// What a datagram holds, by the token that it begins with.
#[derive(Clone, Copy, Drop)]
pub enum Token {
    /// `UdPbC` and NUL: lines of TAG blocks and sentences (IEC 61162-450).
    Sentences,
    /// `RaUdP` or `RrUdP` and NUL: a part of an image or a file (IEC 61162-450).
    Image,
    /// `PcmFr` and NUL: a frame of sound (this project's profile).
    Pcm,
    /// Five other ASCII letters and NUL.
    Other,
    /// Anything else. Such a datagram is not recorded.
    NoToken,
}
