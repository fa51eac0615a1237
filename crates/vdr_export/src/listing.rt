// The list of the images of which records have a part.
ghost use Rattle.std.specs.Prelude.{◌≡◌, [], OnOk, Some};
ghost use Rattle.std.specs.Io.KnownBytes.{Appends};
ghost use Rattle.vdr_terms.specs.Stamps.{IsStamp};
ghost use Rattle.vdr_outside.specs.Causes.{HasCause};
ghost use Rattle.vdr_outside.specs.Writes.{AppendsFront};
ghost use Rattle.vdr_image.specs.Views.{header_of};
ghost use Rattle.vdr_export.specs.Listings.{block_of, listing_text, with_header, with_record};

use crate::block::Block;
use crate::collecting::header_in;
use crate::listed::Listed;
use crate::refused::ExportRefused;
use indexmap::IndexMap;
use std::alloc::{AllocError, Global};
use std::marker::Model;
use vdr_entry::Record;
use vdr_image::ImageHeader;
use vdr_outside::{Failed, Sink, write_all};
use vdr_visit::{Visitor, VisitorRefused};

fn block_of(header: &ImageHeader<'_>) -> Block
    ensures { result ≡ block_of (header_of header.now) }
{
    let source = header.source;
    Block {
        source: [
            source[0], source[1], source[2], source[3], source[4], source[5],
        ],
        number: header.block,
    }
}

/// The images of which the records so far have a part, in the order of their first parts. It prints nothing as it
/// visits.
#[derive(Drop)]
pub(crate) struct Listing {
    alloc: Global,
    images: IndexMap<Block, Listed>,
}

impl Model for Listing {
    ghost use Rattle.vdr_export.specs.Listings.{Listing as AListing};

    ghost Value = { AListing };

    ghost view = { λ l. l.images.entries };
}

impl Listing {
    /// No part was met.
    pub(crate) fn new(alloc: Global) -> Listing
        ensures { result ≡ [] }
    {
        Listing {
            alloc,
            images: IndexMap::new(alloc),
        }
    }

    // One more part, of a record with this stamp.
    fn meet(&mut self, utc: i64, header: &ImageHeader<'_>) -> Result<(), AllocError>
        requires { IsStamp utc }
        ensures { OnOk result (self.new ≡ with_header utc self.old (Some (header_of header.now))) }
    {
        let block = block_of(header);
        if let Some(at) = self.images.get_index_of(&block) {
            self.images[at].add(header);
            return Ok(());
        }
        let mut image = Listed::unseen(self.alloc, utc, header)?;
        image.add(header);
        match self.images.insert(block, image) {
            Ok(_) => Ok(()),
            Err(_) => Err(AllocError),
        }
    }

    /// One more record.
    pub(crate) fn add(&mut self, item: &Record) -> Result<(), AllocError>
        ensures { OnOk result (self.new ≡ with_record self.old item.now) }
    {
        match header_in(item) {
            Some(header) => self.meet(item.utc, &header),
            None => Ok(()),
        }
    }

    /// Writes the lines, each by one write. It takes no memory.
    pub(crate) fn write<O: Sink>(&self, out: &mut O) -> Result<(), Failed>
        ensures all { OnOk result (Appends (O.taken out.old) (O.taken out.new) (listing_text self.now)) }
        ensures front { AppendsFront (O.taken out.old) (O.taken out.new) (listing_text self.now) }
        ensures cause { HasCause (O.faults out.old) (O.faults out.new) result }
    {
        for (block, image) in self.images.iter() {
            write_all(out, image.text(block).as_slice())?;
        }
        Ok(())
    }
}

impl Visitor for Listing {
    ghost use Rattle.std.specs.Prelude.{◌≡◌, []};
    ghost use Rattle.vdr_export.specs.Listings.{listing_of};
    ghost use Rattle.vdr_export.specs.declared.refused.ExportRefused.TheVariants.{NoMemory};

    type Reason = ExportRefused;

    ghost has = { λ first seen now. (first ≡ []) × (now ≡ listing_of seen) };

    ghost line = { λ _ _ _. [] };

    ghost last = { λ _ _. [] };

    ghost stops = { λ _ _ reason. reason ≡ NoMemory };

    fn visit<O: Sink>(
        &mut self,
        item: &Record,
        _out: &mut O,
    ) -> Result<(), VisitorRefused<ExportRefused>> {
        match self.add(item) {
            Ok(()) => Ok(()),
            Err(_) => Err(VisitorRefused::Own(ExportRefused::NoMemory)),
        }
    }

    fn finish<O: Sink>(&mut self, _out: &mut O) -> Result<(), VisitorRefused<ExportRefused>> {
        Ok(())
    }
}
