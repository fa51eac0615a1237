// The rows of specs/Alerts, as bench/table writes them.

use crate::column::{Asserts, BARE, Column, Item, Measure, Quantity, Validity, Words};
use crate::row::{PLAIN, Row};
use crate::table::forms::{
    CAPITAL, DIGIT, DIGITS_2, DIGITS_3, DIGITS_5, NUMBER, OF_ABC, OF_AQOS, OF_AVBHO, OF_AVX,
    OF_EAWC, OF_NHJLKX, OF_OC, OF_OCSFX, OF_ONV, OF_SEF, OF_SEFD, OF_VSAOUN, RAW, STATUS, TIME,
};

/// Its rows.
pub(crate) const ALERTS: &[Row] = &[
    Row {
        formatter: b"HBT",
        fields: &[NUMBER, STATUS, DIGIT],
        text: b"interval 1 status 2 sequence 3",
        columns: &[Column {
            quantity: Quantity::Heartbeat,
            item: Item::Told(3),
            measure: Measure::Seconds,
            valid: Validity::Status(2),
            ..BARE
        }],
        ..PLAIN
    },
    Row {
        formatter: b"ALR",
        fields: &[TIME, DIGITS_5, STATUS, STATUS, RAW],
        text: b"time 1 alarm 2 condition 3 acknowledged 4 text 5",
        columns: &[
            Column {
                quantity: Quantity::Alarm,
                item: Item::Told(2),
                field: 3,
                words: Words::Of(5),
                ..BARE
            },
            Column {
                quantity: Quantity::AlarmAcknowledged,
                item: Item::Told(2),
                field: 4,
                ..BARE
            },
        ],
        ..PLAIN
    },
    Row {
        formatter: b"ALF",
        fields: &[
            DIGIT, DIGIT, DIGIT, TIME, OF_ABC, OF_EAWC, OF_VSAOUN, RAW, NUMBER, NUMBER, NUMBER,
            DIGIT, RAW,
        ],
        text: b"part 2 of 1 sequence 3 time 4 category 5 priority 6 state 7 maker 8 alert 9 instance A revision B escalation C text D",
        columns: &[Column {
            quantity: Quantity::Alert,
            item: Item::Dotted(9, 10),
            field: 7,
            asserts: Asserts::Active,
            words: Words::Of(13),
            ..BARE
        }],
        ..PLAIN
    },
    Row {
        formatter: b"ALC",
        fields: &[DIGITS_2, DIGITS_2, DIGITS_2, NUMBER],
        group: &[RAW, NUMBER, NUMBER, NUMBER],
        shorter: &[4],
        text: b"part 2 of 1 sequence 3 count 4 alerts",
        ..PLAIN
    },
    Row {
        formatter: b"ARC",
        fields: &[TIME, RAW, NUMBER, NUMBER, OF_AQOS],
        text: b"time 1 maker 2 alert 3 instance 4 refused 5",
        ..PLAIN
    },
    Row {
        formatter: b"ACN",
        fields: &[TIME, RAW, NUMBER, NUMBER, OF_AQOS, CAPITAL],
        text: b"time 1 maker 2 alert 3 instance 4 command 5 flag 6",
        ..PLAIN
    },
    Row {
        formatter: b"ACK",
        fields: &[DIGITS_5],
        text: b"alarm 1",
        ..PLAIN
    },
    Row {
        formatter: b"ALA",
        fields: &[TIME, RAW, RAW, DIGITS_2, DIGITS_3, OF_NHJLKX, OF_AVBHO, RAW],
        text: b"time 1 system 2 equipment 3 instance 4 type 5 condition 6 acknowledged 7 text 8",
        columns: &[
            Column {
                quantity: Quantity::Alarm,
                item: Item::Dotted(4, 5),
                field: 6,
                asserts: Asserts::Abnormal,
                words: Words::Of(8),
                ..BARE
            },
            Column {
                quantity: Quantity::AlarmAcknowledged,
                item: Item::Dotted(4, 5),
                field: 7,
                ..BARE
            },
        ],
        ..PLAIN
    },
    Row {
        formatter: b"FIR",
        fields: &[
            OF_SEFD, TIME, RAW, RAW, DIGITS_3, DIGITS_3, OF_AVX, STATUS, RAW,
        ],
        text: b"type 1 time 2 system 3 division 4 5 detector 6 condition 7 acknowledged 8 text 9",
        columns: &[
            Column {
                quantity: Quantity::Fire,
                item: Item::Dotted(5, 6),
                field: 7,
                words: Words::Of(9),
                ..BARE
            },
            Column {
                quantity: Quantity::FireAcknowledged,
                item: Item::Dotted(5, 6),
                field: 8,
                ..BARE
            },
        ],
        ..PLAIN
    },
    Row {
        formatter: b"WAT",
        fields: &[
            OF_SEF, TIME, RAW, RAW, DIGITS_3, DIGITS_3, OF_NHJLKX, OF_ONV, RAW,
        ],
        text: b"type 1 time 2 system 3 location 4 5 point 6 condition 7 override 8 text 9",
        columns: &[Column {
            quantity: Quantity::WaterLevelAlarm,
            item: Item::Dotted(5, 6),
            field: 7,
            asserts: Asserts::Abnormal,
            words: Words::Of(9),
            ..BARE
        }],
        ..PLAIN
    },
    Row {
        formatter: b"DOR",
        fields: &[
            OF_SEF, TIME, RAW, RAW, DIGITS_3, DIGITS_3, OF_OCSFX, OF_OC, RAW,
        ],
        text: b"type 1 time 2 system 3 division 4 5 door 6 status 7 switch 8 text 9",
        columns: &[Column {
            quantity: Quantity::DoorOpen,
            item: Item::Dotted(5, 6),
            field: 7,
            asserts: Asserts::Open,
            words: Words::Of(9),
            ..BARE
        }],
        ..PLAIN
    },
    Row {
        formatter: b"EVE",
        fields: &[TIME, RAW, RAW],
        text: b"time 1 source 2 text 3",
        ..PLAIN
    },
];
