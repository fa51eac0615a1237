/// The media of a recording have the numbers below this one.
pub const MEMBERS: u8 = 2;

/// Where the length of the configuration's text stands, in bytes, with the text behind it (this project's profile).
pub const TEXT_FROM: u64 = 12_288;
