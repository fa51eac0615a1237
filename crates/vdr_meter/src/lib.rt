//! The meter: which items of a group its rate admits in a second of recording time.
#![tactic(auto)]

mod meter;

pub use meter::Meter;
