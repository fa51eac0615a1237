// The row that a record has of its own.
ghost use Rattle.std.specs.Prelude.{◌≡◌, ◌≤◌, ◌++◌, IfOk, OnOk, string_bytes};
ghost use Rattle.base64.specs.Engines.{standard};
ghost use Rattle.base64.specs.GeneralPurpose.{encode_of};
ghost use Rattle.vdr_image.specs.Views.{header_of};
ghost use Rattle.vdr_pcm.specs.Views.{frame_of};
ghost use Rattle.vdr_page.specs.LoadViews.{load_seen};
ghost use Rattle.vdr_page.specs.Rows.{load_of, load_row, mark_row, part_row, raw_row, sound_row};

use crate::field::{Field, push_row};
use crate::load::{Load, load_of};
use crate::marks::stamp_of;
use crate::survey::Survey;
use base64::engine::general_purpose::STANDARD;
use std::alloc::{AllocError, Global};
use vdr_entry::Record;
use vdr_image::ImageHeader;
use vdr_pcm::PcmFrame;
use vdr_terms::group_name;

/// Appends the row of a Start or a Stop.
pub(crate) fn push_mark(text: &mut Vec<u8>, name: &[u8], item: &Record) -> Result<(), AllocError>
    ensures { OnOk result (text.new.items ≡ text.old.items ++ mark_row name.now item.now) }
{
    push_row(
        text,
        name,
        &[Field::Number(item.place), Field::Number(stamp_of(item))],
    )
}

fn push_part(
    alloc: Global,
    text: &mut Vec<u8>,
    item: &Record,
    header: &ImageHeader<'_>,
) -> Result<(), AllocError>
    requires { item.now.group ≤ 15 }
    ensures { OnOk result (text.new.items ≡ text.old.items ++ part_row item.now (header_of header.now)) }
{
    let body = STANDARD.encode(alloc, header.body)?;
    push_row(
        text,
        b"part",
        &[
            Field::Number(item.place),
            Field::Number(stamp_of(item)),
            Field::Text(group_name(item.group).as_bytes()),
            Field::Text(header.source),
            Field::Number(u64::from(header.block)),
            Field::Number(u64::from(header.sequence)),
            Field::Number(u64::from(header.greatest)),
            Field::Text(body.as_bytes()),
        ],
    )
}

fn push_sound(
    alloc: Global,
    text: &mut Vec<u8>,
    item: &Record,
    frame: &PcmFrame<'_>,
) -> Result<(), AllocError>
    ensures { OnOk result (text.new.items ≡ text.old.items ++ sound_row item.now (frame_of frame.now)) }
{
    let samples = STANDARD.encode(alloc, frame.samples)?;
    push_row(
        text,
        b"pcm",
        &[
            Field::Number(item.place),
            Field::Number(stamp_of(item)),
            Field::Number(u64::from(frame.microphone)),
            Field::Number(u64::from(frame.frame)),
            Field::Number(u64::from(frame.rate)),
            Field::Text(samples.as_bytes()),
        ],
    )
}

fn push_raw(text: &mut Vec<u8>, item: &Record, payload: &[u8]) -> Result<(), AllocError>
    requires { item.now.group ≤ 15 }
    ensures { OnOk result (text.new.items ≡ text.old.items ++ raw_row item.now payload.now) }
{
    push_row(
        text,
        b"raw",
        &[
            Field::Number(item.place),
            Field::Number(stamp_of(item)),
            Field::Text(group_name(item.group).as_bytes()),
            Field::Text(payload),
        ],
    )
}

fn push_load(
    alloc: Global,
    text: &mut Vec<u8>,
    survey: &Survey,
    item: &Record,
    load: &Load<'_>,
) -> Result<(), AllocError>
    requires { item.now.group ≤ 15 }
    ensures { OnOk result (text.new.items ≡ text.old.items ++ load_row survey.now item.now (load_seen load.now)) }
{
    match load {
        Load::Part(header) if survey.pictures => push_part(alloc, text, item, header),
        Load::Sound(frame) if survey.sound => push_sound(alloc, text, item, frame),
        Load::Raw(payload) if survey.raw => push_raw(text, item, payload),
        _ => Ok(()),
    }
}

/// Appends the row of a datagram, where the page has those of its kind.
pub(crate) fn push_payload(
    alloc: Global,
    text: &mut Vec<u8>,
    survey: &Survey,
    item: &Record,
    payload: &[u8],
) -> Result<(), AllocError>
    requires { item.now.group ≤ 15 }
    ensures { OnOk result (text.new.items ≡ text.old.items ++ load_row survey.now item.now (load_of payload.now)) }
{
    push_load(alloc, text, survey, item, &load_of(payload))
}
