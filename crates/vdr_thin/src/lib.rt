//! Readings of series, thinned to runs: of each the first and the last reading, the least and the greatest, and how many there were.
#![tactic(auto)]

mod kind;
mod laws;
mod points;
mod reading;
mod row;
mod run;
mod series;

pub use kind::Kind;
pub use laws::{law_of_bounds, law_of_counts, law_of_extremes, law_of_silences, law_of_tables};
pub use reading::Reading;
pub use row::Row;
pub use run::{Point, Run};
pub use series::Series;
