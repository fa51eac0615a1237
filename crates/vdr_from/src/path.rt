// A stored file over the file system. It tells nothing of its bytes.
//
// What is neither a file nor a block device is refused before it is opened: to open a pipe waits for its other end, and a pipe is
// read once.
use std::fs::{File, FileType, Files};
use std::io::{BufReader, ErrorKind, Read};
use std::os::unix::fs::FileTypeExt;
use std::{fs, io};
use vdr_adapters::Trouble;
use vdr_outside::{Failed, Source};
use vdr_verify::StoredFile;

/// How many bytes a file is read ahead.
const READ_AHEAD: usize = 65_536;

/// The file at a path. A call that fails is counted.
#[derive(Drop)]
pub struct PathFile<'a, R: AllocGlobal + Files<File = File> + Copy> {
    rt: R,
    path: &'a str,
    faults: u64,
    trouble: Option<Trouble>,
}

/// What reads such a file once, from its first byte on.
#[derive(Drop)]
pub struct PathReading {
    reader: BufReader<File>,
    faults: u64,
    trouble: Option<Trouble>,
}

// Whether what has this type is read as a stored file.
fn may_be_stored(kind: FileType) -> bool {
    kind.is_file() || kind.is_block_device()
}

impl<'a, R: AllocGlobal + Files<File = File> + Copy> PathFile<'a, R> {
    /// The file at this path, of which no call has failed. It need not be there.
    pub fn new(rt: R, path: &'a str) -> PathFile<'a, R> {
        PathFile {
            rt,
            path,
            faults: 0,
            trouble: None,
        }
    }

    /// What stood in the way of the last call that failed.
    pub fn trouble(&self) -> Option<&Trouble> {
        self.trouble.as_ref()
    }

    // Opens the file.
    fn opened(&self) -> Result<BufReader<File>, Trouble> {
        match fs::metadata(&self.rt, self.path) {
            Ok(metadata) if may_be_stored(metadata.file_type()) => {}
            Ok(_) => return Err(Trouble::NoMedium),
            Err(error) => return Err(Trouble::System(error)),
        }
        let file = match File::open(&self.rt, self.path) {
            Ok(file) => file,
            Err(error) => return Err(Trouble::System(error)),
        };
        match BufReader::with_capacity(self.rt.alloc(), READ_AHEAD, file) {
            Ok(reader) => Ok(reader),
            Err(_) => Err(Trouble::System(io::Error::from(ErrorKind::OutOfMemory))),
        }
    }
}

impl<'a, R: AllocGlobal + Files<File = File> + Copy> StoredFile for PathFile<'a, R> {
    ghost use Rattle.std.specs.Prelude.{None};

    type Reading = PathReading;

    ghost whole = { λ _. None };

    ghost faults = { λ f. f.faults };

    fn open(&mut self) -> Result<PathReading, Failed> {
        match self.opened() {
            Ok(reader) => Ok(PathReading {
                reader,
                faults: 0,
                trouble: None,
            }),
            Err(trouble) => {
                self.faults = self.faults.saturating_add(1);
                self.trouble = Some(trouble);
                Err(Failed)
            }
        }
    }

    fn close(&mut self, reading: PathReading) {
        let PathReading {
            faults,
            trouble,
            ..
        } = reading;
        if faults > 0 {
            self.faults = self.faults.saturating_add(1);
            self.trouble = trouble;
        }
    }
}

impl Source for PathReading {
    ghost use Rattle.std.specs.Prelude.{None};

    ghost left = { λ _. None };

    ghost faults = { λ s. s.faults };

    fn read(&mut self, into: &mut [u8]) -> Result<usize, Failed> {
        match self.reader.read(into) {
            Ok(count) => Ok(count),
            Err(error) => {
                self.faults = self.faults.saturating_add(1);
                self.trouble = Some(Trouble::System(error));
                Err(Failed)
            }
        }
    }
}
