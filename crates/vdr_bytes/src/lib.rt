//! Numbers, digits and checksums, as the formats of the recorder write them.
//!
//! Numbers are little-endian in every format of the recorder. Digits are decimal, or hexadecimal in either case. The
//! checksum is the one of IEC 61162-1. What is written reads back.
//!
//! Tests: vdr_formats_tests, rows of sentences and records.
#![tactic(auto)]

mod checksums;
mod decimal;
mod hexadecimal;
mod numbers;

pub use checksums::{checksum, split_checksum};
pub use decimal::number;
pub use hexadecimal::{hex_byte, is_hex_digit, upper_digits};
pub use numbers::{put, put_u16, put_u32, put_u64, put_u64s, u16_at, u32_at, u64_at};
