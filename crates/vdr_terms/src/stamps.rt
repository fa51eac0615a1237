/// The greatest stamp, in milliseconds since 1970: the last one of the year 9999 (this project's profile).
pub const LAST_STAMP: i64 = 253_402_300_799_999;
