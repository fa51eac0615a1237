//! Live recording, and the program behind its words.
//!
//! - `record TURNS`: what the ports of the ship's network give is recorded on the media, while operators' orders are
//!   answered. What such a recording leaves, and what it replies, stands in `specs/Headline`.
//! - The program: its help, its version, its media, and every command.
//!
//! Tests: vdr_script_tests, scripts record and link; vdr_program_tests runs the program on files.
#![tactic(auto)]

mod asking;
mod command;
mod desks;
mod explaining;
mod form;
mod gauging;
mod help;
mod helping;
mod hints;
mod lanes;
mod line;
mod making;
mod making_files;
mod ports;
mod program;
mod reading_files;
mod recording;
mod session;
mod sizes;
mod turns;
mod using;
mod wording;

pub use command::{run, run_watched};
pub use desks::tcp_desk;
pub use lanes::are_lanes;
pub use line::{Line, line_of};
pub use making::{MakeEnd, MakeOuter, is_make, make};
pub use ports::{last_heard, udp_lanes};
pub use program::{Streams, command_line, no_memory};
pub use sizes::least_sizes;
pub use using::medium_use;
pub use vdr_sockets::{Alarm, LastHeard};
