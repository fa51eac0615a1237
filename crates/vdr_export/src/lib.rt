//! What was recorded as files that other tools open: sound as a WAVE file (RIFF, linear PCM), and the image of a block as its bytes.
#![tactic(auto)]

mod block;
mod collecting;
mod file;
mod frames;
mod images;
mod laws;
mod listed;
mod listing;
mod nowhere;
mod pages;
mod parts;
mod picture;
mod rate;
mod refused;
mod silence;
mod sizing;
mod timing;
mod track;
mod wave;
mod waves;
mod wish;
mod writing;

pub use block::Block;
pub use file::{File, export_file};
pub use images::write_listing;
pub use laws::{law_of_listings, law_of_time_lines};
pub use pages::write_page;
pub use picture::write_picture;
pub use refused::ExportRefused;
pub use timing::Timing;
pub use wave::WaveSize;
pub use waves::{wave_size, write_wave};
pub use wish::{Wish, file_of, timed_from};
