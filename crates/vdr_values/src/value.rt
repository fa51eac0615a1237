// The values of fields: numbers, times, dates, angles, digits, letters and bytes.
ghost use Rattle.std.specs.Prelude.{◌≤◌, ◌<◌, ◌^◌};

/// A decimal number of up to nine digits before the point and six behind it.
#[derive(Clone, Copy, Drop)]
pub struct Num {
    /// Whether a minus sign stands before it, also before zero.
    pub negative: bool,
    /// The number without its sign, in millionths: below 10^15.
    pub millionths: u64,
    pub ghost in_range: { millionths < 10 ^ 15 },
}

/// A time of day, UTC where the sentence says no other.
#[derive(Clone, Copy, Drop)]
pub struct Time {
    /// 0 to 23.
    pub hour: u8,
    /// 0 to 59.
    pub minute: u8,
    /// 0 to 60, as a leap second has it.
    pub second: u8,
    /// The millionths of the second: below 1,000,000.
    pub millionths: u32,
    pub ghost hours: { hour ≤ 23 },
    pub ghost minutes: { minute ≤ 59 },
    pub ghost seconds: { second ≤ 60 },
    pub ghost below_second: { millionths < 1_000_000 },
}

/// A day in the calendar.
#[derive(Clone, Copy, Drop)]
pub struct Date {
    /// 1980 to 2079.
    pub year: u16,
    /// 1 to 12.
    pub month: u8,
    /// 1 to 31.
    pub day: u8,
}

/// A latitude or a longitude without its hemisphere.
#[derive(Clone, Copy, Drop)]
pub struct Angle {
    /// 0 to 90 of a latitude, 0 to 180 of a longitude.
    pub degrees: u8,
    /// The billionths of minutes: below 60,000,000,000.
    pub billionths: u64,
    pub ghost half_circle: { degrees ≤ 180 },
    pub ghost below_degree: { billionths < 60_000_000_000 },
}

/// What a field says (IEC 61162-1).
#[derive(Clone, Copy, Drop)]
pub enum Value<'a> {
    /// A decimal number.
    Number(Num),
    /// A time of day.
    Time(Time),
    /// A day.
    Date(Date),
    /// A latitude or a longitude.
    Angle(Angle),
    /// The number that digits write.
    Digits(u32),
    /// A letter.
    Letter(u8),
    /// Any bytes.
    Raw(&'a [u8]),
}
