// The rows of specs/Navigation, as bench/table writes them.

use crate::column::{BARE, Column, Item, Measure, Quantity, Validity, Which, Words};
use crate::row::{PLAIN, Row};
use crate::table::forms::{
    CAPITAL, DATE, DIGIT, DIGITS_2, DIGITS_4, FINE_LAT, FINE_LON, FROM_0_59, FROM_1_12, FROM_1_31,
    LATITUDE, LONGITUDE, NUMBER, OF_EW, OF_K, OF_LOW_CW, OF_LR, OF_M, OF_MT, OF_N, OF_NS, OF_SCUV,
    OF_T, RAW, STATUS, TIME, WHOLE_14,
};

/// Its rows.
pub(crate) const NAVIGATION: &[Row] = &[
    Row {
        formatter: b"HDT",
        fields: &[NUMBER, OF_T],
        text: b"heading 1",
        columns: &[Column {
            quantity: Quantity::Heading,
            measure: Measure::Degrees,
            ..BARE
        }],
        ..PLAIN
    },
    Row {
        formatter: b"THS",
        fields: &[NUMBER, CAPITAL],
        text: b"heading 1 mode 2",
        columns: &[Column {
            quantity: Quantity::Heading,
            measure: Measure::Degrees,
            valid: Validity::Unless(2, b'V'),
            ..BARE
        }],
        ..PLAIN
    },
    Row {
        formatter: b"ROT",
        fields: &[NUMBER, STATUS],
        text: b"rate 1 status 2",
        columns: &[Column {
            quantity: Quantity::RateOfTurn,
            measure: Measure::DegreesAMinute,
            valid: Validity::Status(2),
            ..BARE
        }],
        ..PLAIN
    },
    Row {
        formatter: b"RMC",
        fields: &[
            TIME, STATUS, FINE_LAT, OF_NS, FINE_LON, OF_EW, NUMBER, NUMBER, DATE, NUMBER, OF_EW,
            CAPITAL, OF_SCUV,
        ],
        shorter: &[11, 12],
        text: b"time 1 status 2 lat 3 4 lon 5 6 knots 7 course 8 date 9 variation A B mode C nav D",
        columns: &[
            Column {
                quantity: Quantity::Latitude,
                measure: Measure::Degrees,
                field: 3,
                toward: Some(4),
                valid: Validity::Status(2),
                ..BARE
            },
            Column {
                quantity: Quantity::Longitude,
                measure: Measure::Degrees,
                field: 5,
                toward: Some(6),
                valid: Validity::Status(2),
                ..BARE
            },
            Column {
                quantity: Quantity::Course,
                item: Item::Named(Which::True),
                measure: Measure::Degrees,
                field: 8,
                valid: Validity::Status(2),
                ..BARE
            },
            Column {
                quantity: Quantity::Speed,
                measure: Measure::Knots,
                field: 7,
                valid: Validity::Status(2),
                ..BARE
            },
            Column {
                quantity: Quantity::MagneticVariation,
                measure: Measure::Degrees,
                field: 10,
                toward: Some(11),
                valid: Validity::Status(2),
                ..BARE
            },
        ],
        ..PLAIN
    },
    Row {
        formatter: b"GNS",
        fields: &[
            TIME, FINE_LAT, OF_NS, FINE_LON, OF_EW, RAW, DIGITS_2, NUMBER, NUMBER, NUMBER, NUMBER,
            NUMBER, OF_SCUV,
        ],
        shorter: &[12],
        text: b"time 1 lat 2 3 lon 4 5 mode 6 satellites 7 hdop 8 altitude 9 separation A age B station C nav D",
        columns: &[
            Column {
                quantity: Quantity::Latitude,
                measure: Measure::Degrees,
                field: 2,
                toward: Some(3),
                valid: Validity::Unless(6, b'N'),
                ..BARE
            },
            Column {
                quantity: Quantity::Longitude,
                measure: Measure::Degrees,
                field: 4,
                toward: Some(5),
                valid: Validity::Unless(6, b'N'),
                ..BARE
            },
            Column {
                quantity: Quantity::Satellites,
                field: 7,
                valid: Validity::Unless(6, b'N'),
                ..BARE
            },
            Column {
                quantity: Quantity::Hdop,
                field: 8,
                valid: Validity::Unless(6, b'N'),
                ..BARE
            },
            Column {
                quantity: Quantity::Altitude,
                measure: Measure::Metres,
                field: 9,
                valid: Validity::Unless(6, b'N'),
                ..BARE
            },
            Column {
                quantity: Quantity::GeoidSeparation,
                measure: Measure::Metres,
                field: 10,
                valid: Validity::Unless(6, b'N'),
                ..BARE
            },
            Column {
                quantity: Quantity::CorrectionAge,
                measure: Measure::Seconds,
                field: 11,
                valid: Validity::Unless(6, b'N'),
                ..BARE
            },
        ],
        ..PLAIN
    },
    Row {
        formatter: b"GGA",
        fields: &[
            TIME, FINE_LAT, OF_NS, FINE_LON, OF_EW, DIGIT, DIGITS_2, NUMBER, NUMBER, OF_M, NUMBER,
            OF_M, NUMBER, DIGITS_4,
        ],
        text: b"time 1 lat 2 3 lon 4 5 quality 6 satellites 7 hdop 8 altitude 9 separation B age D station E",
        columns: &[
            Column {
                quantity: Quantity::Latitude,
                measure: Measure::Degrees,
                field: 2,
                toward: Some(3),
                valid: Validity::Unless(6, b'0'),
                ..BARE
            },
            Column {
                quantity: Quantity::Longitude,
                measure: Measure::Degrees,
                field: 4,
                toward: Some(5),
                valid: Validity::Unless(6, b'0'),
                ..BARE
            },
            Column {
                quantity: Quantity::Satellites,
                field: 7,
                valid: Validity::Unless(6, b'0'),
                ..BARE
            },
            Column {
                quantity: Quantity::Hdop,
                field: 8,
                valid: Validity::Unless(6, b'0'),
                ..BARE
            },
            Column {
                quantity: Quantity::Altitude,
                measure: Measure::Metres,
                field: 9,
                valid: Validity::Unless(6, b'0'),
                ..BARE
            },
            Column {
                quantity: Quantity::GeoidSeparation,
                measure: Measure::Metres,
                field: 11,
                valid: Validity::Unless(6, b'0'),
                ..BARE
            },
            Column {
                quantity: Quantity::CorrectionAge,
                measure: Measure::Seconds,
                field: 13,
                valid: Validity::Unless(6, b'0'),
                ..BARE
            },
        ],
        ..PLAIN
    },
    Row {
        formatter: b"GLL",
        fields: &[LATITUDE, OF_NS, LONGITUDE, OF_EW, TIME, STATUS, CAPITAL],
        shorter: &[6],
        text: b"lat 1 2 lon 3 4 time 5 status 6 mode 7",
        columns: &[
            Column {
                quantity: Quantity::Latitude,
                measure: Measure::Degrees,
                toward: Some(2),
                valid: Validity::Status(6),
                ..BARE
            },
            Column {
                quantity: Quantity::Longitude,
                measure: Measure::Degrees,
                field: 3,
                toward: Some(4),
                valid: Validity::Status(6),
                ..BARE
            },
        ],
        ..PLAIN
    },
    Row {
        formatter: b"VTG",
        fields: &[
            NUMBER, OF_T, NUMBER, OF_M, NUMBER, OF_N, NUMBER, OF_K, CAPITAL,
        ],
        shorter: &[8],
        text: b"true 1 magnetic 3 knots 5 kmh 7 mode 9",
        columns: &[
            Column {
                quantity: Quantity::Course,
                item: Item::Named(Which::True),
                measure: Measure::Degrees,
                valid: Validity::Unless(9, b'N'),
                ..BARE
            },
            Column {
                quantity: Quantity::Course,
                item: Item::Named(Which::Magnetic),
                measure: Measure::Degrees,
                field: 3,
                valid: Validity::Unless(9, b'N'),
                ..BARE
            },
            Column {
                quantity: Quantity::Speed,
                measure: Measure::Knots,
                field: 5,
                valid: Validity::Unless(9, b'N'),
                ..BARE
            },
            Column {
                quantity: Quantity::Speed,
                measure: Measure::KilometresAnHour,
                field: 7,
                valid: Validity::Unless(9, b'N'),
                ..BARE
            },
        ],
        ..PLAIN
    },
    Row {
        formatter: b"ZDA",
        fields: &[TIME, FROM_1_31, FROM_1_12, DIGITS_4, WHOLE_14, FROM_0_59],
        text: b"time 1 day 2 month 3 year 4 zone 5 6",
        columns: &[Column {
            quantity: Quantity::Clock,
            words: Words::Clock(2, 3, 4),
            ..BARE
        }],
        ..PLAIN
    },
    Row {
        formatter: b"VBW",
        fields: &[
            NUMBER, NUMBER, STATUS, NUMBER, NUMBER, STATUS, NUMBER, STATUS, NUMBER, STATUS,
        ],
        shorter: &[6],
        text: b"water 1 2 status 3 ground 4 5 status 6 stern water 7 status 8 ground 9 status A",
        columns: &[
            Column {
                quantity: Quantity::SpeedWater,
                item: Item::Named(Which::Ahead),
                measure: Measure::Knots,
                valid: Validity::Status(3),
                ..BARE
            },
            Column {
                quantity: Quantity::SpeedWater,
                item: Item::Named(Which::Across),
                measure: Measure::Knots,
                field: 2,
                valid: Validity::Status(3),
                ..BARE
            },
            Column {
                quantity: Quantity::SpeedGround,
                item: Item::Named(Which::Ahead),
                measure: Measure::Knots,
                field: 4,
                valid: Validity::Status(6),
                ..BARE
            },
            Column {
                quantity: Quantity::SpeedGround,
                item: Item::Named(Which::Across),
                measure: Measure::Knots,
                field: 5,
                valid: Validity::Status(6),
                ..BARE
            },
            Column {
                quantity: Quantity::SpeedWater,
                item: Item::Named(Which::Stern),
                measure: Measure::Knots,
                field: 7,
                valid: Validity::Status(8),
                ..BARE
            },
            Column {
                quantity: Quantity::SpeedGround,
                item: Item::Named(Which::Stern),
                measure: Measure::Knots,
                field: 9,
                valid: Validity::Status(10),
                ..BARE
            },
        ],
        ..PLAIN
    },
    Row {
        formatter: b"VHW",
        fields: &[NUMBER, OF_T, NUMBER, OF_M, NUMBER, OF_N, NUMBER, OF_K],
        text: b"true 1 magnetic 3 knots 5 kmh 7",
        columns: &[
            Column {
                quantity: Quantity::Heading,
                item: Item::Named(Which::True),
                measure: Measure::Degrees,
                ..BARE
            },
            Column {
                quantity: Quantity::Heading,
                item: Item::Named(Which::Magnetic),
                measure: Measure::Degrees,
                field: 3,
                ..BARE
            },
            Column {
                quantity: Quantity::SpeedWater,
                item: Item::Named(Which::Ahead),
                measure: Measure::Knots,
                field: 5,
                ..BARE
            },
            Column {
                quantity: Quantity::SpeedWater,
                item: Item::Named(Which::Ahead),
                measure: Measure::KilometresAnHour,
                field: 7,
                ..BARE
            },
        ],
        ..PLAIN
    },
    Row {
        formatter: b"VLW",
        fields: &[NUMBER, OF_N, NUMBER, OF_N, NUMBER, OF_N, NUMBER, OF_N],
        shorter: &[4],
        text: b"water 1 reset 3 ground 5 reset 7",
        columns: &[
            Column {
                quantity: Quantity::DistanceWater,
                item: Item::Named(Which::Total),
                measure: Measure::NauticalMiles,
                ..BARE
            },
            Column {
                quantity: Quantity::DistanceWater,
                item: Item::Named(Which::Reset),
                measure: Measure::NauticalMiles,
                field: 3,
                ..BARE
            },
            Column {
                quantity: Quantity::DistanceGround,
                item: Item::Named(Which::Total),
                measure: Measure::NauticalMiles,
                field: 5,
                ..BARE
            },
            Column {
                quantity: Quantity::DistanceGround,
                item: Item::Named(Which::Reset),
                measure: Measure::NauticalMiles,
                field: 7,
                ..BARE
            },
        ],
        ..PLAIN
    },
    Row {
        formatter: b"HDG",
        fields: &[NUMBER, NUMBER, OF_EW, NUMBER, OF_EW],
        text: b"heading 1 deviation 2 3 variation 4 5",
        columns: &[
            Column {
                quantity: Quantity::Heading,
                item: Item::Named(Which::Magnetic),
                measure: Measure::Degrees,
                ..BARE
            },
            Column {
                quantity: Quantity::MagneticDeviation,
                measure: Measure::Degrees,
                field: 2,
                toward: Some(3),
                ..BARE
            },
            Column {
                quantity: Quantity::MagneticVariation,
                measure: Measure::Degrees,
                field: 4,
                toward: Some(5),
                ..BARE
            },
        ],
        ..PLAIN
    },
    Row {
        formatter: b"HDM",
        fields: &[NUMBER, OF_M],
        text: b"magnetic 1",
        columns: &[Column {
            quantity: Quantity::Heading,
            item: Item::Named(Which::Magnetic),
            measure: Measure::Degrees,
            ..BARE
        }],
        ..PLAIN
    },
    Row {
        formatter: b"DTM",
        fields: &[RAW, RAW, NUMBER, OF_NS, NUMBER, OF_EW, NUMBER, RAW],
        text: b"datum 1 subdivision 2 lat 3 4 lon 5 6 altitude 7 reference 8",
        columns: &[
            Column {
                quantity: Quantity::DatumOffset,
                item: Item::Named(Which::Latitude),
                measure: Measure::ArcMinutes,
                field: 3,
                toward: Some(4),
                ..BARE
            },
            Column {
                quantity: Quantity::DatumOffset,
                item: Item::Named(Which::Longitude),
                measure: Measure::ArcMinutes,
                field: 5,
                toward: Some(6),
                ..BARE
            },
            Column {
                quantity: Quantity::DatumOffset,
                item: Item::Named(Which::Altitude),
                measure: Measure::Metres,
                field: 7,
                ..BARE
            },
        ],
        ..PLAIN
    },
    Row {
        formatter: b"VDR",
        fields: &[NUMBER, OF_T, NUMBER, OF_M, NUMBER, OF_N],
        text: b"true 1 magnetic 3 knots 5",
        columns: &[
            Column {
                quantity: Quantity::Set,
                item: Item::Named(Which::True),
                measure: Measure::Degrees,
                ..BARE
            },
            Column {
                quantity: Quantity::Set,
                item: Item::Named(Which::Magnetic),
                measure: Measure::Degrees,
                field: 3,
                ..BARE
            },
            Column {
                quantity: Quantity::Drift,
                measure: Measure::Knots,
                field: 5,
                ..BARE
            },
        ],
        ..PLAIN
    },
    Row {
        formatter: b"XTE",
        fields: &[STATUS, STATUS, NUMBER, OF_LR, OF_N, CAPITAL],
        shorter: &[5],
        text: b"status 1 2 error 3 steer 4 mode 6",
        columns: &[Column {
            quantity: Quantity::CrossTrackError,
            item: Item::Told(4),
            measure: Measure::NauticalMiles,
            field: 3,
            valid: Validity::Status(1),
            ..BARE
        }],
        ..PLAIN
    },
    Row {
        formatter: b"APB",
        fields: &[
            STATUS, STATUS, NUMBER, OF_LR, OF_N, STATUS, STATUS, NUMBER, OF_MT, RAW, NUMBER, OF_MT,
            NUMBER, OF_MT, CAPITAL,
        ],
        shorter: &[14],
        text: b"status 1 2 error 3 steer 4 arrived 6 passed 7 origin 8 9 to A bearing B C heading D E mode F",
        columns: &[
            Column {
                quantity: Quantity::CrossTrackError,
                item: Item::Told(4),
                measure: Measure::NauticalMiles,
                field: 3,
                valid: Validity::Status(1),
                ..BARE
            },
            Column {
                quantity: Quantity::BearingFromOrigin,
                item: Item::Told(9),
                measure: Measure::Degrees,
                field: 8,
                valid: Validity::Status(1),
                ..BARE
            },
            Column {
                quantity: Quantity::BearingToDestination,
                item: Item::Told(12),
                measure: Measure::Degrees,
                field: 11,
                valid: Validity::Status(1),
                ..BARE
            },
            Column {
                quantity: Quantity::HeadingToSteer,
                item: Item::Told(14),
                measure: Measure::Degrees,
                field: 13,
                valid: Validity::Status(1),
                ..BARE
            },
        ],
        ..PLAIN
    },
    Row {
        formatter: b"RTE",
        fields: &[NUMBER, NUMBER, OF_LOW_CW, RAW],
        group: &[RAW],
        text: b"part 2 of 1 mode 3 route 4 waypoints",
        ..PLAIN
    },
    Row {
        formatter: b"WPL",
        fields: &[FINE_LAT, OF_NS, FINE_LON, OF_EW, RAW],
        text: b"lat 1 2 lon 3 4 waypoint 5",
        columns: &[
            Column {
                quantity: Quantity::WaypointLatitude,
                measure: Measure::Degrees,
                toward: Some(2),
                words: Words::Of(5),
                ..BARE
            },
            Column {
                quantity: Quantity::WaypointLongitude,
                measure: Measure::Degrees,
                field: 3,
                toward: Some(4),
                words: Words::Of(5),
                ..BARE
            },
        ],
        ..PLAIN
    },
];
