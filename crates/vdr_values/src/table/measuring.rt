// The rows of specs/Machinery, as bench/table writes them.

use crate::column::{BARE, Column, Item, Measure, Quantity, Validity, Which, Words};
use crate::row::{PLAIN, Row};
use crate::table::forms::{
    CAPITAL, DIGIT, DIGITS_2, NUMBER, OF_BPSCEW, OF_BWP, OF_C, OF_F, OF_KMNS, OF_LOW_F, OF_LR,
    OF_M, OF_MSHTR, OF_N, OF_OA, OF_PDV, OF_PRV, OF_RC, OF_RT, OF_RTN, OF_SE, OF_T, OF_TM, OF_TR,
    RAW, STATUS, TIME,
};

/// Its rows.
pub(crate) const MACHINERY: &[Row] = &[
    Row {
        formatter: b"RSA",
        fields: &[NUMBER, STATUS, NUMBER, STATUS],
        text: b"starboard 1 status 2 port 3 status 4",
        columns: &[
            Column {
                quantity: Quantity::Rudder,
                item: Item::Named(Which::Starboard),
                measure: Measure::Degrees,
                valid: Validity::Status(2),
                ..BARE
            },
            Column {
                quantity: Quantity::Rudder,
                item: Item::Named(Which::Port),
                measure: Measure::Degrees,
                field: 3,
                valid: Validity::Status(4),
                ..BARE
            },
        ],
        ..PLAIN
    },
    Row {
        formatter: b"ROR",
        fields: &[NUMBER, STATUS, NUMBER, STATUS, OF_BPSCEW],
        text: b"starboard 1 status 2 port 3 status 4 from 5",
        columns: &[
            Column {
                quantity: Quantity::RudderOrder,
                item: Item::Named(Which::Starboard),
                measure: Measure::Degrees,
                valid: Validity::Status(2),
                ..BARE
            },
            Column {
                quantity: Quantity::RudderOrder,
                item: Item::Named(Which::Port),
                measure: Measure::Degrees,
                field: 3,
                valid: Validity::Status(4),
                ..BARE
            },
        ],
        ..PLAIN
    },
    Row {
        formatter: b"RPM",
        fields: &[OF_SE, DIGITS_2, NUMBER, NUMBER, STATUS],
        text: b"of 1 number 2 speed 3 pitch 4 status 5",
        columns: &[
            Column {
                quantity: Quantity::Revolutions,
                item: Item::Beside(1, 2),
                measure: Measure::Revolutions,
                field: 3,
                valid: Validity::Status(5),
                ..BARE
            },
            Column {
                quantity: Quantity::Pitch,
                item: Item::Beside(1, 2),
                measure: Measure::Percent,
                field: 4,
                valid: Validity::Status(5),
                ..BARE
            },
        ],
        ..PLAIN
    },
    Row {
        formatter: b"PRC",
        fields: &[
            NUMBER, STATUS, NUMBER, OF_PRV, NUMBER, OF_PDV, OF_BPSCEW, DIGIT,
        ],
        text: b"lever 1 status 2 speed 3 mode 4 pitch 5 mode 6 from 7 number 8",
        columns: &[
            Column {
                quantity: Quantity::EngineOrder,
                item: Item::Told(8),
                measure: Measure::Percent,
                valid: Validity::Status(2),
                ..BARE
            },
            Column {
                quantity: Quantity::EngineSpeedOrder,
                item: Item::Told(8),
                measure: Measure::DemandBy(4),
                field: 3,
                valid: Validity::Unless(4, b'V'),
                ..BARE
            },
            Column {
                quantity: Quantity::PitchOrder,
                item: Item::Told(8),
                measure: Measure::DemandBy(6),
                field: 5,
                valid: Validity::Unless(6, b'V'),
                ..BARE
            },
        ],
        ..PLAIN
    },
    Row {
        formatter: b"ETL",
        fields: &[TIME, OF_OA, DIGITS_2, DIGITS_2, OF_BPSCEW, DIGIT],
        text: b"time 1 type 2 telegraph 3 sub 4 from 5 number 6",
        columns: &[
            Column {
                quantity: Quantity::EngineOrder,
                item: Item::Beside(2, 6),
                field: 3,
                ..BARE
            },
            Column {
                quantity: Quantity::EngineSubOrder,
                item: Item::Beside(2, 6),
                field: 4,
                ..BARE
            },
        ],
        ..PLAIN
    },
    Row {
        formatter: b"TRC",
        fields: &[
            DIGIT, NUMBER, OF_PRV, NUMBER, OF_PDV, NUMBER, OF_BPSCEW, OF_RC,
        ],
        text: b"number 1 speed 2 mode 3 pitch 4 mode 5 azimuth 6 from 7 flag 8",
        columns: &[
            Column {
                quantity: Quantity::ThrusterSpeedOrder,
                item: Item::Told(1),
                measure: Measure::DemandBy(3),
                field: 2,
                valid: Validity::Unless(3, b'V'),
                ..BARE
            },
            Column {
                quantity: Quantity::ThrusterPitchOrder,
                item: Item::Told(1),
                measure: Measure::DemandBy(5),
                field: 4,
                valid: Validity::Unless(5, b'V'),
                ..BARE
            },
            Column {
                quantity: Quantity::ThrusterAzimuthOrder,
                item: Item::Told(1),
                measure: Measure::Degrees,
                field: 6,
                ..BARE
            },
        ],
        ..PLAIN
    },
    Row {
        formatter: b"TRD",
        fields: &[DIGIT, NUMBER, OF_PRV, NUMBER, OF_PDV, NUMBER],
        text: b"number 1 speed 2 mode 3 pitch 4 mode 5 azimuth 6",
        columns: &[
            Column {
                quantity: Quantity::ThrusterSpeed,
                item: Item::Told(1),
                measure: Measure::DemandBy(3),
                field: 2,
                valid: Validity::Unless(3, b'V'),
                ..BARE
            },
            Column {
                quantity: Quantity::ThrusterPitch,
                item: Item::Told(1),
                measure: Measure::DemandBy(5),
                field: 4,
                valid: Validity::Unless(5, b'V'),
                ..BARE
            },
            Column {
                quantity: Quantity::ThrusterAzimuth,
                item: Item::Told(1),
                measure: Measure::Degrees,
                field: 6,
                ..BARE
            },
        ],
        ..PLAIN
    },
    Row {
        formatter: b"DPT",
        fields: &[NUMBER, NUMBER, NUMBER],
        shorter: &[2],
        text: b"depth 1 offset 2 range 3",
        columns: &[
            Column {
                quantity: Quantity::Depth,
                measure: Measure::Metres,
                ..BARE
            },
            Column {
                quantity: Quantity::DepthOffset,
                measure: Measure::Metres,
                field: 2,
                ..BARE
            },
            Column {
                quantity: Quantity::DepthRange,
                measure: Measure::Metres,
                field: 3,
                ..BARE
            },
        ],
        ..PLAIN
    },
    Row {
        formatter: b"DBT",
        fields: &[NUMBER, OF_LOW_F, NUMBER, OF_M, NUMBER, OF_F],
        text: b"feet 1 metres 3 fathoms 5",
        columns: &[
            Column {
                quantity: Quantity::Depth,
                measure: Measure::Feet,
                ..BARE
            },
            Column {
                quantity: Quantity::Depth,
                measure: Measure::Metres,
                field: 3,
                ..BARE
            },
            Column {
                quantity: Quantity::Depth,
                measure: Measure::Fathoms,
                field: 5,
                ..BARE
            },
        ],
        ..PLAIN
    },
    Row {
        formatter: b"MWV",
        fields: &[NUMBER, OF_RT, NUMBER, OF_KMNS, STATUS],
        text: b"angle 1 ref 2 speed 3 unit 4 status 5",
        columns: &[
            Column {
                quantity: Quantity::WindAngle,
                item: Item::Told(2),
                measure: Measure::Degrees,
                valid: Validity::Status(5),
                ..BARE
            },
            Column {
                quantity: Quantity::WindSpeed,
                item: Item::Told(2),
                measure: Measure::SpeedBy(4),
                field: 3,
                valid: Validity::Status(5),
                ..BARE
            },
        ],
        ..PLAIN
    },
    Row {
        formatter: b"MWD",
        fields: &[NUMBER, OF_T, NUMBER, OF_M, NUMBER, OF_N, NUMBER, OF_M],
        text: b"true 1 magnetic 3 knots 5 ms 7",
        columns: &[
            Column {
                quantity: Quantity::WindDirection,
                item: Item::Named(Which::True),
                measure: Measure::Degrees,
                ..BARE
            },
            Column {
                quantity: Quantity::WindDirection,
                item: Item::Named(Which::Magnetic),
                measure: Measure::Degrees,
                field: 3,
                ..BARE
            },
            Column {
                quantity: Quantity::WindSpeed,
                item: Item::Named(Which::True),
                measure: Measure::Knots,
                field: 5,
                ..BARE
            },
            Column {
                quantity: Quantity::WindSpeed,
                item: Item::Named(Which::True),
                measure: Measure::MetresASecond,
                field: 7,
                ..BARE
            },
        ],
        ..PLAIN
    },
    Row {
        formatter: b"MTW",
        fields: &[NUMBER, OF_C],
        text: b"temperature 1",
        columns: &[Column {
            quantity: Quantity::WaterTemperature,
            measure: Measure::Celsius,
            ..BARE
        }],
        ..PLAIN
    },
    Row {
        formatter: b"CUR",
        fields: &[
            STATUS, DIGIT, NUMBER, NUMBER, NUMBER, OF_TR, NUMBER, NUMBER, NUMBER, OF_TM, OF_BWP,
        ],
        text: b"status 1 set 2 layer 3 depth 4 direction 5 6 knots 7 reference 8 heading 9 A by B",
        columns: &[
            Column {
                quantity: Quantity::CurrentDepth,
                item: Item::Dotted(2, 3),
                measure: Measure::Metres,
                field: 4,
                valid: Validity::Status(1),
                ..BARE
            },
            Column {
                quantity: Quantity::Set,
                item: Item::Dotted(2, 3),
                measure: Measure::Degrees,
                field: 5,
                valid: Validity::Status(1),
                words: Words::Of(6),
                ..BARE
            },
            Column {
                quantity: Quantity::Drift,
                item: Item::Dotted(2, 3),
                measure: Measure::Knots,
                field: 7,
                valid: Validity::Status(1),
                ..BARE
            },
        ],
        ..PLAIN
    },
    Row {
        formatter: b"HTC",
        fields: &[
            STATUS, NUMBER, OF_LR, OF_MSHTR, OF_RTN, NUMBER, NUMBER, NUMBER, NUMBER, NUMBER,
            NUMBER, NUMBER, OF_TM,
        ],
        text: b"override 1 rudder 2 3 mode 4 turn 5 limits 6 7 radius 8 rate 9 steer A offtrack B track C ref D",
        columns: &[
            Column {
                quantity: Quantity::RudderOrder,
                measure: Measure::Degrees,
                field: 2,
                toward: Some(3),
                ..BARE
            },
            Column {
                quantity: Quantity::RudderLimit,
                measure: Measure::Degrees,
                field: 6,
                ..BARE
            },
            Column {
                quantity: Quantity::HeadingLimit,
                measure: Measure::Degrees,
                field: 7,
                ..BARE
            },
            Column {
                quantity: Quantity::TurnRadius,
                measure: Measure::NauticalMiles,
                field: 8,
                ..BARE
            },
            Column {
                quantity: Quantity::TurnRate,
                measure: Measure::DegreesAMinute,
                field: 9,
                ..BARE
            },
            Column {
                quantity: Quantity::HeadingToSteer,
                item: Item::Told(13),
                measure: Measure::Degrees,
                field: 10,
                ..BARE
            },
            Column {
                quantity: Quantity::TrackLimit,
                measure: Measure::NauticalMiles,
                field: 11,
                ..BARE
            },
            Column {
                quantity: Quantity::TrackOrder,
                item: Item::Told(13),
                measure: Measure::Degrees,
                field: 12,
                ..BARE
            },
        ],
        ..PLAIN
    },
    Row {
        formatter: b"HTD",
        fields: &[
            STATUS, NUMBER, OF_LR, OF_MSHTR, OF_RTN, NUMBER, NUMBER, NUMBER, NUMBER, NUMBER,
            NUMBER, NUMBER, OF_TM, STATUS, STATUS, STATUS, NUMBER,
        ],
        text: b"override 1 rudder 2 3 mode 4 turn 5 limits 6 7 radius 8 rate 9 steer A offtrack B track C ref D status E F G heading H",
        columns: &[
            Column {
                quantity: Quantity::RudderOrder,
                measure: Measure::Degrees,
                field: 2,
                toward: Some(3),
                ..BARE
            },
            Column {
                quantity: Quantity::RudderLimit,
                measure: Measure::Degrees,
                field: 6,
                ..BARE
            },
            Column {
                quantity: Quantity::HeadingLimit,
                measure: Measure::Degrees,
                field: 7,
                ..BARE
            },
            Column {
                quantity: Quantity::TurnRadius,
                measure: Measure::NauticalMiles,
                field: 8,
                ..BARE
            },
            Column {
                quantity: Quantity::TurnRate,
                measure: Measure::DegreesAMinute,
                field: 9,
                ..BARE
            },
            Column {
                quantity: Quantity::HeadingToSteer,
                item: Item::Told(13),
                measure: Measure::Degrees,
                field: 10,
                ..BARE
            },
            Column {
                quantity: Quantity::TrackLimit,
                measure: Measure::NauticalMiles,
                field: 11,
                ..BARE
            },
            Column {
                quantity: Quantity::TrackOrder,
                item: Item::Told(13),
                measure: Measure::Degrees,
                field: 12,
                ..BARE
            },
            Column {
                quantity: Quantity::Heading,
                item: Item::Told(13),
                measure: Measure::Degrees,
                field: 17,
                ..BARE
            },
        ],
        ..PLAIN
    },
    Row {
        formatter: b"XDR",
        group: &[CAPITAL, NUMBER, CAPITAL, RAW],
        text: b"transducers",
        columns: &[
            Column {
                quantity: Quantity::Transducer,
                item: Item::Beside(1, 3),
                field: 2,
                words: Words::Of(4),
                ..BARE
            },
            Column {
                quantity: Quantity::Transducer,
                item: Item::Beside(5, 7),
                field: 6,
                words: Words::Of(8),
                ..BARE
            },
            Column {
                quantity: Quantity::Transducer,
                item: Item::Beside(9, 11),
                field: 10,
                words: Words::Of(12),
                ..BARE
            },
            Column {
                quantity: Quantity::Transducer,
                item: Item::Beside(13, 15),
                field: 14,
                words: Words::Of(16),
                ..BARE
            },
            Column {
                quantity: Quantity::Transducer,
                item: Item::Beside(17, 19),
                field: 18,
                words: Words::Of(20),
                ..BARE
            },
            Column {
                quantity: Quantity::Transducer,
                item: Item::Beside(21, 23),
                field: 22,
                words: Words::Of(24),
                ..BARE
            },
            Column {
                quantity: Quantity::Transducer,
                item: Item::Beside(25, 27),
                field: 26,
                words: Words::Of(28),
                ..BARE
            },
            Column {
                quantity: Quantity::Transducer,
                item: Item::Beside(29, 31),
                field: 30,
                words: Words::Of(32),
                ..BARE
            },
            Column {
                quantity: Quantity::Transducer,
                item: Item::Beside(33, 35),
                field: 34,
                words: Words::Of(36),
                ..BARE
            },
            Column {
                quantity: Quantity::Transducer,
                item: Item::Beside(37, 39),
                field: 38,
                words: Words::Of(40),
                ..BARE
            },
            Column {
                quantity: Quantity::Transducer,
                item: Item::Beside(41, 43),
                field: 42,
                words: Words::Of(44),
                ..BARE
            },
            Column {
                quantity: Quantity::Transducer,
                item: Item::Beside(45, 47),
                field: 46,
                words: Words::Of(48),
                ..BARE
            },
            Column {
                quantity: Quantity::Transducer,
                item: Item::Beside(49, 51),
                field: 50,
                words: Words::Of(52),
                ..BARE
            },
            Column {
                quantity: Quantity::Transducer,
                item: Item::Beside(53, 55),
                field: 54,
                words: Words::Of(56),
                ..BARE
            },
        ],
        ..PLAIN
    },
    Row {
        formatter: b"HSS",
        fields: &[RAW, NUMBER, STATUS],
        text: b"point 1 value 2 status 3",
        columns: &[Column {
            quantity: Quantity::HullStress,
            field: 2,
            valid: Validity::Status(3),
            words: Words::Of(1),
            ..BARE
        }],
        ..PLAIN
    },
];
