// A value of the table.
use crate::decimal::Decimal;

/// A value of the table. What says nothing is empty.
#[derive(Clone, Copy, Drop)]
pub(crate) struct Said<'a> {
    /// Which of several it is.
    pub(crate) item: &'a [u8],
    /// What it is.
    pub(crate) name: &'a [u8],
    pub(crate) number: Option<Decimal>,
    /// The unit of the number.
    pub(crate) measure: &'static [u8],
    /// Whether the sentence says that it is valid.
    pub(crate) valid: Option<bool>,
    /// A text beside it, as it is printed between quotes.
    pub(crate) words: &'a [u8],
}
