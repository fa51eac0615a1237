//! The commands of the voyage data recorder that read recorded media and print what they hold.
#![tactic(auto)]

mod answering;
mod comparing;
mod evidencing;
mod exporting;
mod informing;
mod informing_alone;
mod listing;
mod paging;
mod playing;
mod reading;
mod rescuing;
mod rescuing_files;
mod saved;
mod selecting;
mod sourcing;
mod targeting;
mod telling;
mod watching;

pub use answering::{Reading, answer_reading, answer_rescue, up_to};
pub use comparing::answer_compare;
pub use evidencing::answer_evidence;
pub use informing::answer_info;
pub use informing_alone::answer_rescue_info;
pub use listing::answer_incidents;
pub use paging::answer_page;
pub use playing::Printer;
pub use reading::{EndsCommand, Wanted, query_in, read_out};
pub use rescuing::number_of;
