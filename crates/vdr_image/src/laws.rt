// The law of images: bytes read as a header exactly where they are an image datagram with it.
ghost use Rattle.std.specs.Prelude.{◌≡◌, ◌↔◌, ℕ, List, Some};
ghost use Rattle.vdr_terms.specs.Legality.{IsBytes};
ghost use Rattle.vdr_image.specs.Headers.{Header};
ghost use Rattle.vdr_image.specs.Images.{IsImage, image_in};

/// Bytes read as a header exactly where they are an image datagram with this header.
pub fn law_of_images()
    ensures { (bytes : List ℕ) (header : Header) → IsBytes bytes → (image_in bytes ≡ Some header) ↔ IsImage bytes header }
{}
