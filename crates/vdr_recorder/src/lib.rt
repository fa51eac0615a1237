//! A recorder over its media: it makes records of the items that it takes, commits them, and plays what was recorded.
//!
//! - A [`Recorder`] is opened, starts a run, takes batches of items, and stops; it saves and releases incidents.
//! - What was recorded is handed to a visitor, played as text, or told by its sources.
//! - What a recording leaves at each moment and in the end stands in `specs/Headline`.
//!
//! Tests: vdr_recorder_tests, module recordings.
#![tactic(auto)]

mod commit;
mod law;
mod making;
mod play;
mod reading;
mod recorder;
mod resume;
mod resume_watched;
mod run;
mod saving;
mod sources;
mod start;
mod turn;
mod visiting;
mod watch;
mod watched;

pub use law::{Accounting, law_of_chains, law_of_goes_on, law_of_playing};
pub use making::{LEAST_DATAGRAM, head_of};
pub use play::Player;
pub use recorder::{Recorder, State};
pub use resume::{Going, OpenPlay};
pub use run::StartRefused;
pub use sources::SourceCounter;
pub use turn::Turn;
pub use vdr_entry::{Medium, Query};
pub use vdr_incident::ReleaseRefused;
pub use vdr_vault::SaveRefused;
pub use watch::{Nobody, Watch};
