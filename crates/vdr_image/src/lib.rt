//! Datagrams of image transfer: the header of a part of an image, and how one part follows another.
//!
//! The layout of the header is this project's profile. It is not the binary header of IEC 61162-450, of which only the tokens are used.
//!
//! The format, with an example: docs/formats/image.md.
#![tactic(auto)]

mod header;
mod laws;
mod part;
mod read;
mod step;
mod track;

pub use header::ImageHeader;
pub use laws::law_of_images;
pub use read::read_image;
pub use step::ImageStep;
pub use track::ImageTrack;
