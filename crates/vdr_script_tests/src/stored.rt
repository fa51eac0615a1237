// A stored file in memory, which may be another one when it is read again.
ghost use Rattle.std.specs.Prelude.{◌≡◌, IfOk};

use crate::ran::{Output, Ran};
use crate::setting::Setting;
use anyhow::Result as AnyResult;
use std::alloc::Global;
use vdr_from::{StoredFile, read_from};
use vdr_memory::{MemoryMedia, MemorySink, MemorySource};
use vdr_outside::Failed;

/// The longest piece that one read gives.
const PIECE: usize = 4096;

/// A stored file in memory. It tells nothing of its bytes, since it may be another one by and by.
#[derive(Drop)]
pub(crate) struct MemoryFile {
    alloc: Global,
    bytes: Vec<u8>,
    // What it is once it was read, where that is another one.
    later: Option<Vec<u8>>,
    // Which reads fail, by their numbers from 0 on, over all readings.
    failing: Vec<u64>,
    reads: u64,
    faults: u64,
}

impl MemoryFile {
    // The numbers of the reads that fail in the next reading, from 0 on.
    fn failing_next(&self) -> AnyResult<Vec<u64>> {
        let mut next = Vec::new(self.alloc);
        for number in self.failing.iter() {
            if let Some(from_here) = number.checked_sub(self.reads) {
                next.push(from_here)?;
            }
        }
        Ok(next)
    }

    // What reads it once.
    fn reading(&self) -> AnyResult<MemorySource>
        ensures { IfOk result (λ reading. reading.faults ≡ 0) }
    {
        let bytes = self.bytes.as_slice().to_vec(self.alloc)?;
        Ok(MemorySource::new(bytes, PIECE, self.failing_next()?))
    }
}

impl StoredFile for MemoryFile {
    ghost use Rattle.std.specs.Prelude.{None};

    type Reading = MemorySource;

    ghost whole = { λ _. None };

    ghost faults = { λ f. f.faults };

    fn open(&mut self) -> Result<MemorySource, Failed> {
        match self.reading() {
            Ok(reading) => Ok(reading),
            Err(_) => {
                self.faults = self.faults.saturating_add(1);
                Err(Failed)
            }
        }
    }

    fn close(&mut self, reading: MemorySource) {
        self.reads = self.reads.saturating_add(reading.calls());
        if reading.faults() > 0 {
            self.faults = self.faults.saturating_add(1);
        }
        if let Some(later) = self.later.take() {
            self.bytes = later;
        }
    }
}

/// Runs the command of these words over a stored file of these bytes, whose reads fail as the setting says, and which is the other one once
/// it was read.
pub(crate) fn ran_from(
    alloc: Global,
    words: &[String],
    bytes: &[u8],
    later: Option<&[u8]>,
    setting: &Setting,
) -> AnyResult<Ran> {
    let later = match later {
        Some(later) => Some(later.to_vec(alloc)?),
        None => None,
    };
    let mut file = MemoryFile {
        alloc,
        bytes: bytes.to_vec(alloc)?,
        later,
        failing: setting.failing_reads.as_slice().to_vec(alloc)?,
        reads: 0,
        faults: 0,
    };
    let mut media = MemoryMedia::new(alloc, Vec::new(alloc), Vec::new(alloc), None)?;
    let writes = setting.failing_writes.as_slice().to_vec(alloc)?;
    let mut output = MemorySink::new(alloc, writes);
    let status = read_from(alloc, words, &mut file, &mut media, &mut output);
    let mut ran = Ran::none(alloc);
    ran.code = status.code();
    ran.printed = Output::new(output.taken().to_vec(alloc)?);
    ran.writes = output.calls();
    ran.expect_printed();
    Ok(ran)
}
