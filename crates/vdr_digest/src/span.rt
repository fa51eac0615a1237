// Where records stand, and how many they are.

use vdr_entry::Record;

/// The place of the first and of the last of some records, and how many they are. The count stands still at the greatest u64.
#[derive(Clone, Copy, Drop)]
pub(crate) struct Span {
    pub(crate) first: u64,
    pub(crate) last: u64,
    pub(crate) count: u64,
}

impl Span {
    ghost use Rattle.std.specs.Prelude.{◌≡◌, Some};
    ghost use Rattle.vdr_digest.specs.Spans.{span_with};

    /// With one record more.
    pub(crate) fn with(span: Option<Span>, item: &Record) -> Span
        ensures { Some result ≡ span_with span item.now }
    {
        let place = item.place;
        match span {
            None => Span {
                first: place,
                last: place,
                count: 1,
            },
            Some(before) => Span {
                first: before.first,
                last: place,
                count: before.count.saturating_add(1),
            },
        }
    }
}
