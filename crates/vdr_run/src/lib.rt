//! The records of a run, as they are made of its items: what its ports gave, the accounts of the groups, the maker, and how
//! many bytes the next item's records take.
#![tactic(auto)]

mod account;
mod bits;
mod charges;
mod maker;
mod metering;
mod ports;
mod start;

pub use charges::{Charges, law_of_charges};
pub use maker::{ItemHead, Maker};
pub use ports::Ports;
