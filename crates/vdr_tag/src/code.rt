// The codes of items in a TAG block.
ghost use Rattle.std.specs.Prelude.{◌≡◌};

/// The code of an item.
#[derive(Clone, Copy, Drop)]
pub(crate) enum Code {
    Source,
    Destination,
    Line,
    Group,
    Time,
    Relative,
    Text,
    Other,
}
