//! What the recorder reaches outside, as traits with a written meaning: where bytes come from and where they go, the media,
//! where datagrams come from, and the links by which an operator asks. An object tells what it can of its bytes, and counts its faults in any case.
#![tactic(auto)]

mod buffered;
mod fault;
mod filling;
mod link;
mod media;
mod port;
mod printing;
mod sink;
mod source;
mod through;

pub use buffered::{BufferedSink, Lent, Opening};
pub use fault::{Failed, Fault, PartRefused};
pub use filling::fill;
pub use link::{Heard, LONGEST_LINE, Link};
pub use media::Media;
pub use port::{LONGEST_TAKEN, Port, Taken};
pub use printing::{Printable, print_buffered};
pub use sink::{Sink, write_all};
pub use source::Source;
pub use through::write_through;
