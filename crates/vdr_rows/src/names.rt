// The texts of what columns name.
ghost use Rattle.std.specs.Prelude.{◌≡◌};
ghost use Rattle.vdr_rows.specs.Names.{asserted_by, quantity_text, which_text};

use vdr_values::{Asserts, Quantity, Which};

/// The name of a value.
pub(crate) fn quantity_text(quantity: Quantity) -> &'static [u8]
    ensures { result.now ≡ quantity_text quantity }
{
    match quantity {
        Quantity::Heading => b"heading",
        Quantity::RateOfTurn => b"rate_of_turn",
        Quantity::Latitude => b"latitude",
        Quantity::Longitude => b"longitude",
        Quantity::Course => b"course",
        Quantity::Speed => b"speed",
        Quantity::MagneticVariation => b"magnetic_variation",
        Quantity::Satellites => b"satellites",
        Quantity::Hdop => b"hdop",
        Quantity::Altitude => b"altitude",
        Quantity::GeoidSeparation => b"geoid_separation",
        Quantity::CorrectionAge => b"correction_age",
        Quantity::Clock => b"clock",
        Quantity::SpeedWater => b"speed_water",
        Quantity::SpeedGround => b"speed_ground",
        Quantity::DistanceWater => b"distance_water",
        Quantity::DistanceGround => b"distance_ground",
        Quantity::MagneticDeviation => b"magnetic_deviation",
        Quantity::DatumOffset => b"datum_offset",
        Quantity::Set => b"set",
        Quantity::Drift => b"drift",
        Quantity::CrossTrackError => b"cross_track_error",
        Quantity::BearingFromOrigin => b"bearing_from_origin",
        Quantity::BearingToDestination => b"bearing_to_destination",
        Quantity::HeadingToSteer => b"heading_to_steer",
        Quantity::WaypointLatitude => b"waypoint_latitude",
        Quantity::WaypointLongitude => b"waypoint_longitude",
        Quantity::Rudder => b"rudder",
        Quantity::RudderOrder => b"rudder_order",
        Quantity::Revolutions => b"revolutions",
        Quantity::Pitch => b"pitch",
        Quantity::EngineOrder => b"engine_order",
        Quantity::EngineSpeedOrder => b"engine_speed_order",
        Quantity::PitchOrder => b"pitch_order",
        Quantity::EngineSubOrder => b"engine_sub_order",
        Quantity::ThrusterSpeedOrder => b"thruster_speed_order",
        Quantity::ThrusterPitchOrder => b"thruster_pitch_order",
        Quantity::ThrusterAzimuthOrder => b"thruster_azimuth_order",
        Quantity::ThrusterSpeed => b"thruster_speed",
        Quantity::ThrusterPitch => b"thruster_pitch",
        Quantity::ThrusterAzimuth => b"thruster_azimuth",
        Quantity::Depth => b"depth",
        Quantity::DepthOffset => b"depth_offset",
        Quantity::DepthRange => b"depth_range",
        Quantity::WindAngle => b"wind_angle",
        Quantity::WindSpeed => b"wind_speed",
        Quantity::WindDirection => b"wind_direction",
        Quantity::WaterTemperature => b"water_temperature",
        Quantity::CurrentDepth => b"current_depth",
        Quantity::RudderLimit => b"rudder_limit",
        Quantity::HeadingLimit => b"heading_limit",
        Quantity::TurnRadius => b"turn_radius",
        Quantity::TurnRate => b"turn_rate",
        Quantity::TrackLimit => b"track_limit",
        Quantity::TrackOrder => b"track_order",
        Quantity::Transducer => b"transducer",
        Quantity::HullStress => b"hull_stress",
        Quantity::Heartbeat => b"heartbeat",
        Quantity::Alarm => b"alarm",
        Quantity::AlarmAcknowledged => b"alarm_acknowledged",
        Quantity::Alert => b"alert",
        Quantity::Fire => b"fire",
        Quantity::FireAcknowledged => b"fire_acknowledged",
        Quantity::WaterLevelAlarm => b"water_level_alarm",
        Quantity::DoorOpen => b"door_open",
        Quantity::TargetRange => b"target_range",
        Quantity::TargetBearing => b"target_bearing",
        Quantity::TargetSpeed => b"target_speed",
        Quantity::TargetCourse => b"target_course",
        Quantity::Cpa => b"cpa",
        Quantity::Tcpa => b"tcpa",
        Quantity::RadarRange => b"radar_range",
        Quantity::RadarBearing => b"radar_bearing",
    }
}

/// The word for which of several things a value is of.
pub(crate) fn which_text(which: Which) -> &'static [u8]
    ensures { result.now ≡ which_text which }
{
    match which {
        Which::True => b"T",
        Which::Magnetic => b"M",
        Which::Ahead => b"ahead",
        Which::Across => b"across",
        Which::Stern => b"stern",
        Which::Total => b"total",
        Which::Reset => b"reset",
        Which::Latitude => b"latitude",
        Which::Longitude => b"longitude",
        Which::Altitude => b"altitude",
        Which::Starboard => b"starboard",
        Which::Port => b"port",
        Which::Origin1 => b"origin1",
        Which::Vrm1 => b"vrm1",
        Which::Ebl1 => b"ebl1",
        Which::Origin2 => b"origin2",
        Which::Vrm2 => b"vrm2",
        Which::Ebl2 => b"ebl2",
        Which::Cursor => b"cursor",
        Which::Scale => b"scale",
    }
}

/// The letters for which a field says 1.
pub(crate) fn asserted_by(asserts: Asserts) -> &'static [u8]
    ensures { result.now ≡ asserted_by asserts }
{
    match asserts {
        Asserts::Yes => b"A",
        Asserts::Active => b"VSAO",
        Asserts::Abnormal => b"HJLKX",
        Asserts::Open => b"O",
    }
}
