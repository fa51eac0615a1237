// The parts of a block, out of records.
ghost use Rattle.std.specs.Prelude.{◌≡◌, [], option_map};
ghost use Rattle.vdr_image.specs.Views.{header_of};
ghost use Rattle.vdr_export.specs.Collected.{IsCollected};
ghost use Rattle.vdr_export.specs.Kept.{shown_as};
ghost use Rattle.vdr_export.specs.Pictures.{header_in, shown_in};

use crate::block::Block;
use crate::parts::Parts;
use crate::refused::ExportRefused;
use std::alloc::Global;
use vdr_entry::{Content, Record};
use vdr_image::{ImageHeader, read_image};
use vdr_outside::Sink;
use vdr_visit::{Visitor, VisitorRefused};

/// The image header of a record, if it has one.
pub(crate) fn header_in(item: &Record) -> Option<ImageHeader<'_>>
    ensures { option_map header_of result ≡ header_in item.now.content }
{
    match item.content() {
        Content::Datagram(payload) => read_image(payload),
        Content::Start | Content::Gap(_) | Content::Stop => None,
    }
}

// The part of a record, if it has one of the block.
fn shown_in<'a>(item: &'a Record, block: &Block) -> Option<ImageHeader<'a>>
    ensures { option_map (shown_as item.now.place) result ≡ shown_in block.now item.now }
{
    match header_in(item) {
        Some(header) if header.source == block.source.as_slice() && header.block == block.number =>
            { Some(header) }
        _ => None,
    }
}

/// Collects the parts of a block. It prints nothing.
#[derive(Drop)]
pub(crate) struct Collecting {
    block: Block,
    /// The parts that were met so far.
    pub(crate) parts: Parts,
}

impl Collecting {
    /// No part was met.
    pub(crate) fn new(alloc: Global, block: Block) -> Collecting
        ensures block { result.block ≡ block }
        ensures nothing { IsCollected [] result.parts }
    {
        Collecting {
            block,
            parts: Parts::new(alloc),
        }
    }
}

impl Visitor for Collecting {
    ghost use Rattle.std.specs.Prelude.{◌≡◌, []};
    ghost use Rattle.vdr_export.specs.Collected.{IsCollected, StopsAt};
    ghost use Rattle.vdr_export.specs.Pictures.{shown};

    type Reason = ExportRefused;

    ghost has = { λ first seen now. (now.block ≡ first.block) × IsCollected (shown first.block seen) now.parts };

    ghost line = { λ _ _ _. [] };

    ghost last = { λ _ _. [] };

    ghost stops = { λ first seen reason. StopsAt (shown first.block seen) reason };

    fn visit<O: Sink>(
        &mut self,
        item: &Record,
        _out: &mut O,
    ) -> Result<(), VisitorRefused<ExportRefused>> {
        let Some(header) = shown_in(item, &self.block) else {
            return Ok(());
        };
        match self.parts.meet(item.place, &header) {
            Ok(()) => Ok(()),
            Err(refused) => Err(VisitorRefused::Own(refused)),
        }
    }

    fn finish<O: Sink>(&mut self, _out: &mut O) -> Result<(), VisitorRefused<ExportRefused>> {
        Ok(())
    }
}
