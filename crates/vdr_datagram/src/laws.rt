// The laws of datagrams: they are cut into lines in one way, and each is of one kind.
ghost use Rattle.std.specs.Prelude.{◌≡◌, ◌↔◌, ℕ, List, Some};
ghost use Rattle.vdr_image.specs.Headers.{Header};
ghost use Rattle.vdr_image.specs.Images.{image_in};
ghost use Rattle.vdr_pcm.specs.Datagrams.{pcm_in};
ghost use Rattle.vdr_pcm.specs.Frames.{Frame};
ghost use Rattle.vdr_datagram.specs.declared.tokens.Token.TheVariants.{Image, Pcm};
ghost use Rattle.vdr_datagram.specs.Tokens.{token};
ghost use Rattle.vdr_datagram.specs.Lines.{IsCutting, cut};

/// Bytes are cut into lines in one way.
pub fn law_of_cutting()
    ensures { (bytes : List ℕ) (lines : List (List ℕ)) → (cut bytes ≡ lines) ↔ IsCutting bytes lines }
{}

/// A datagram is of one kind: an image datagram and a PCM frame begin with the token of their kind, so they are neither the other
/// nor a sentence datagram.
pub fn law_of_kinds()
    ensures image { (bytes : List ℕ) (header : Header) → image_in bytes ≡ Some header → token bytes ≡ Image }
    ensures pcm { (bytes : List ℕ) (frame : Frame) → pcm_in bytes ≡ Some frame → token bytes ≡ Pcm }
{}
