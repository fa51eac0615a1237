// The law of sound: bytes read as a frame exactly where they are a datagram with it.
ghost use Rattle.std.specs.Prelude.{◌≡◌, ◌↔◌, ℕ, List, Some};
ghost use Rattle.vdr_terms.specs.Legality.{IsBytes};
ghost use Rattle.vdr_pcm.specs.Frames.{Frame};
ghost use Rattle.vdr_pcm.specs.Datagrams.{IsPcm, pcm_in};

/// Bytes read as a frame exactly where they are a datagram with this frame.
pub fn law_of_pcm()
    ensures { (bytes : List ℕ) (frame : Frame) → IsBytes bytes → (pcm_in bytes ≡ Some frame) ↔ IsPcm bytes frame }
{}
