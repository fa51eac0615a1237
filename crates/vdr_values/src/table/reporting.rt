// The rows of specs/Traffic, as bench/table writes them.

use crate::column::{BARE, Column, Item, Measure, Quantity, Validity, Which, Words};
use crate::row::{PLAIN, Row};
use crate::table::forms::{
    DIGIT, DIGITS_4, FROM_0_5, NUMBER, OF_AMR, OF_BMWRP, OF_CHN, OF_KNS, OF_LQT, OF_R, OF_TR, RAW,
    STATUS, TIME,
};

/// Its rows.
pub(crate) const TRAFFIC: &[Row] = &[
    Row {
        formatter: b"VDM",
        fields: &[DIGIT, DIGIT, DIGIT, RAW, RAW, FROM_0_5],
        text: b"part 2 of 1 sequence 3 channel 4 fill 6 payload 5",
        ..PLAIN
    },
    Row {
        formatter: b"VDO",
        fields: &[DIGIT, DIGIT, DIGIT, RAW, RAW, FROM_0_5],
        text: b"part 2 of 1 sequence 3 channel 4 fill 6 payload 5",
        ..PLAIN
    },
    Row {
        formatter: b"TTM",
        fields: &[
            DIGITS_4, NUMBER, NUMBER, OF_TR, NUMBER, NUMBER, OF_TR, NUMBER, NUMBER, OF_KNS, RAW,
            OF_LQT, OF_R, TIME, OF_AMR,
        ],
        shorter: &[13],
        text: b"target 1 distance 2 bearing 3 4 speed 5 course 6 7 cpa 8 tcpa 9 units A name B status C reference D time E acquired F",
        columns: &[
            Column {
                quantity: Quantity::TargetRange,
                item: Item::Told(1),
                measure: Measure::DistanceBy(10),
                field: 2,
                valid: Validity::Unless(12, b'L'),
                ..BARE
            },
            Column {
                quantity: Quantity::TargetBearing,
                item: Item::Told(1),
                measure: Measure::Degrees,
                field: 3,
                valid: Validity::Unless(12, b'L'),
                words: Words::Of(4),
                ..BARE
            },
            Column {
                quantity: Quantity::TargetSpeed,
                item: Item::Told(1),
                measure: Measure::SpeedBy(10),
                field: 5,
                valid: Validity::Unless(12, b'L'),
                ..BARE
            },
            Column {
                quantity: Quantity::TargetCourse,
                item: Item::Told(1),
                measure: Measure::Degrees,
                field: 6,
                valid: Validity::Unless(12, b'L'),
                words: Words::Of(7),
                ..BARE
            },
            Column {
                quantity: Quantity::Cpa,
                item: Item::Told(1),
                measure: Measure::DistanceBy(10),
                field: 8,
                valid: Validity::Unless(12, b'L'),
                ..BARE
            },
            Column {
                quantity: Quantity::Tcpa,
                item: Item::Told(1),
                measure: Measure::Minutes,
                field: 9,
                valid: Validity::Unless(12, b'L'),
                ..BARE
            },
        ],
        ..PLAIN
    },
    Row {
        formatter: b"TLB",
        group: &[NUMBER, RAW],
        text: b"labels",
        ..PLAIN
    },
    Row {
        formatter: b"OSD",
        fields: &[
            NUMBER, STATUS, NUMBER, OF_BMWRP, NUMBER, OF_BMWRP, NUMBER, NUMBER, OF_KNS,
        ],
        text: b"heading 1 status 2 course 3 ref 4 speed 5 ref 6 set 7 drift 8 units 9",
        columns: &[
            Column {
                quantity: Quantity::Heading,
                measure: Measure::Degrees,
                valid: Validity::Status(2),
                ..BARE
            },
            Column {
                quantity: Quantity::Course,
                item: Item::Named(Which::True),
                measure: Measure::Degrees,
                field: 3,
                words: Words::Of(4),
                ..BARE
            },
            Column {
                quantity: Quantity::Speed,
                measure: Measure::SpeedBy(9),
                field: 5,
                words: Words::Of(6),
                ..BARE
            },
            Column {
                quantity: Quantity::Set,
                item: Item::Named(Which::True),
                measure: Measure::Degrees,
                field: 7,
                ..BARE
            },
            Column {
                quantity: Quantity::Drift,
                measure: Measure::SpeedBy(9),
                field: 8,
                ..BARE
            },
        ],
        ..PLAIN
    },
    Row {
        formatter: b"RSD",
        fields: &[
            NUMBER, NUMBER, NUMBER, NUMBER, NUMBER, NUMBER, NUMBER, NUMBER, NUMBER, NUMBER, NUMBER,
            OF_KNS, OF_CHN,
        ],
        text: b"origin 1 2 vrm 3 ebl 4 origin 5 6 vrm 7 ebl 8 cursor 9 A scale B units C rotation D",
        columns: &[
            Column {
                quantity: Quantity::RadarRange,
                item: Item::Named(Which::Origin1),
                measure: Measure::DistanceBy(12),
                ..BARE
            },
            Column {
                quantity: Quantity::RadarBearing,
                item: Item::Named(Which::Origin1),
                measure: Measure::Degrees,
                field: 2,
                ..BARE
            },
            Column {
                quantity: Quantity::RadarRange,
                item: Item::Named(Which::Vrm1),
                measure: Measure::DistanceBy(12),
                field: 3,
                ..BARE
            },
            Column {
                quantity: Quantity::RadarBearing,
                item: Item::Named(Which::Ebl1),
                measure: Measure::Degrees,
                field: 4,
                ..BARE
            },
            Column {
                quantity: Quantity::RadarRange,
                item: Item::Named(Which::Origin2),
                measure: Measure::DistanceBy(12),
                field: 5,
                ..BARE
            },
            Column {
                quantity: Quantity::RadarBearing,
                item: Item::Named(Which::Origin2),
                measure: Measure::Degrees,
                field: 6,
                ..BARE
            },
            Column {
                quantity: Quantity::RadarRange,
                item: Item::Named(Which::Vrm2),
                measure: Measure::DistanceBy(12),
                field: 7,
                ..BARE
            },
            Column {
                quantity: Quantity::RadarBearing,
                item: Item::Named(Which::Ebl2),
                measure: Measure::Degrees,
                field: 8,
                ..BARE
            },
            Column {
                quantity: Quantity::RadarRange,
                item: Item::Named(Which::Cursor),
                measure: Measure::DistanceBy(12),
                field: 9,
                ..BARE
            },
            Column {
                quantity: Quantity::RadarBearing,
                item: Item::Named(Which::Cursor),
                measure: Measure::Degrees,
                field: 10,
                ..BARE
            },
            Column {
                quantity: Quantity::RadarRange,
                item: Item::Named(Which::Scale),
                measure: Measure::DistanceBy(12),
                field: 11,
                ..BARE
            },
        ],
        ..PLAIN
    },
];
