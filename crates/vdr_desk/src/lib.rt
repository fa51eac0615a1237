//! The desks of a recorder in use: links over which an operator's orders come, each with a worker that has them answered in turns at a latch.
//!
//! A desk knows neither the recorder nor its media: it is generic over the value under the latch, which answers orders ([`Answers`]).
#![tactic(auto)]

mod answers;
mod asking;
mod desk;
mod passing;
mod reply;
mod serving;
mod telling;

pub use answers::Answers;
pub use desk::Desk;
pub use passing::{failed_link, join_desks, split_desks};
pub use reply::Reply;
pub use serving::serve_all;
pub use vdr_piece::Piece;
