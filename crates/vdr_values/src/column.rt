// Which values the sentences of a formatter give a table of values.

/// What a value is.
#[derive(Clone, Copy, Drop)]
pub enum Quantity {
    Heading,
    RateOfTurn,
    Latitude,
    Longitude,
    Course,
    Speed,
    MagneticVariation,
    Satellites,
    Hdop,
    Altitude,
    GeoidSeparation,
    CorrectionAge,
    Clock,
    SpeedWater,
    SpeedGround,
    DistanceWater,
    DistanceGround,
    MagneticDeviation,
    DatumOffset,
    Set,
    Drift,
    CrossTrackError,
    BearingFromOrigin,
    BearingToDestination,
    HeadingToSteer,
    WaypointLatitude,
    WaypointLongitude,
    Rudder,
    RudderOrder,
    Revolutions,
    Pitch,
    EngineOrder,
    EngineSpeedOrder,
    PitchOrder,
    EngineSubOrder,
    ThrusterSpeedOrder,
    ThrusterPitchOrder,
    ThrusterAzimuthOrder,
    ThrusterSpeed,
    ThrusterPitch,
    ThrusterAzimuth,
    Depth,
    DepthOffset,
    DepthRange,
    WindAngle,
    WindSpeed,
    WindDirection,
    WaterTemperature,
    CurrentDepth,
    RudderLimit,
    HeadingLimit,
    TurnRadius,
    TurnRate,
    TrackLimit,
    TrackOrder,
    Transducer,
    HullStress,
    Heartbeat,
    Alarm,
    AlarmAcknowledged,
    Alert,
    Fire,
    FireAcknowledged,
    WaterLevelAlarm,
    DoorOpen,
    TargetRange,
    TargetBearing,
    TargetSpeed,
    TargetCourse,
    Cpa,
    Tcpa,
    RadarRange,
    RadarBearing,
}

/// Which of several things of one kind a value is of.
#[derive(Clone, Copy, Drop)]
pub enum Which {
    True,
    Magnetic,
    Ahead,
    Across,
    Stern,
    Total,
    Reset,
    Latitude,
    Longitude,
    Altitude,
    Starboard,
    Port,
    Origin1,
    Vrm1,
    Ebl1,
    Origin2,
    Vrm2,
    Ebl2,
    Cursor,
    Scale,
}

/// How a sentence says which of several things a value is of. Fields are counted from 1.
#[derive(Clone, Copy, Drop)]
pub enum Item {
    /// There is one.
    Single,
    /// This one.
    Named(Which),
    /// What a field says.
    Told(u8),
    /// What two fields say, one behind the other.
    Beside(u8, u8),
    /// What two fields say, with a point between.
    Dotted(u8, u8),
}

/// The unit of a value: none, this one, or that of the letter of a field.
#[derive(Clone, Copy, Drop)]
pub enum Measure {
    /// None.
    Plain,
    Degrees,
    DegreesAMinute,
    ArcMinutes,
    Metres,
    Feet,
    Fathoms,
    NauticalMiles,
    Knots,
    KilometresAnHour,
    MetresASecond,
    Revolutions,
    Percent,
    Seconds,
    Minutes,
    Celsius,
    /// Of a speed: K, M, N or S.
    SpeedBy(u8),
    /// Of a distance: K, N or S.
    DistanceBy(u8),
    /// Of what is demanded of an engine or a propeller: P, R or D.
    DemandBy(u8),
}

/// The letters for which a field of a letter says 1, else 0.
#[derive(Clone, Copy, Drop)]
pub enum Asserts {
    /// A: it is so.
    Yes,
    /// V, S, A and O: an alert that is active.
    Active,
    /// H, J, L, K and X: not N for normal.
    Abnormal,
    /// O: open.
    Open,
}

/// How a sentence says whether a value is valid.
#[derive(Clone, Copy, Drop)]
pub enum Validity {
    /// It does not.
    Untold,
    /// By a status, which is A where it is valid.
    Status(u8),
    /// It is, unless a field says this letter or digit alone, bytes again and again.
    Unless(u8, u8),
}

/// The text beside a value.
#[derive(Clone, Copy, Drop)]
pub enum Words {
    /// None.
    Silent,
    /// What a field says.
    Of(u8),
    /// The date and the time of a clock, of which these fields say the day, the month and the year.
    Clock(u8, u8, u8),
}

/// A value that the sentences of a formatter give: what it is, which of several it is of, its unit, and the field that says it. Fields are counted
/// from 1, those of groups behind the others.
#[derive(Clone, Copy, Drop)]
pub struct Column {
    pub quantity: Quantity,
    pub item: Item,
    pub measure: Measure,
    /// The field that says the value.
    pub field: u8,
    /// The field whose letter S, W or L turns its sign.
    pub toward: Option<u8>,
    /// Of a field of a letter.
    pub asserts: Asserts,
    pub valid: Validity,
    pub words: Words,
}

/// What columns have that say no other.
pub(crate) const BARE: Column = Column {
    quantity: Quantity::Heading,
    item: Item::Single,
    measure: Measure::Plain,
    field: 1,
    toward: None,
    asserts: Asserts::Yes,
    valid: Validity::Untold,
    words: Words::Silent,
};
