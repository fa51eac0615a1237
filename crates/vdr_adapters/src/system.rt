// The folder of the media and their files over the operating system. It tells nothing of its calls.
//
// What is neither a file nor a block device is refused before it is opened: to open a pipe waits for its other end.
use crate::Trouble;
use crate::folder::{Access, MediaFolder, MediumFile, NewMedia, Unopened};
use crate::syncs::SyncTimes;
use std::fs::{File, FileType, Files, OpenOptions, TryLockError};
use std::io::{ErrorKind, Seek, SeekFrom, Write};
use std::os::unix::fs::{FileExt, FileTypeExt, OpenOptionsExt};
use std::time::{Clock, Duration};
use std::{fs, io};

/// A folder of the file system.
#[derive(Drop)]
pub struct SystemFolder<'a, R: AllocGlobal + Files<File = File> + Clock + Eprint + Copy> {
    rt: R,
    path: &'a str,
}

/// A file of such a folder. The system drops its lock with it.
#[derive(Drop)]
pub struct SystemFile<R: AllocGlobal + Files<File = File> + Clock + Eprint + Copy> {
    rt: R,
    file: File,
    // The paths of its folder and of its mark, made beforehand, so that leaving it needs no memory.
    folder: String,
    mark: String,
    syncs: SyncTimes,
}

impl<'a, R: AllocGlobal + Files<File = File> + Clock + Eprint + Copy> SystemFolder<'a, R> {
    /// The folder at this path.
    pub fn new(rt: R, path: &'a str) -> SystemFolder<'a, R> {
        SystemFolder { rt, path }
    }

    // The path of a file in it.
    fn path_of(&self, name: &str) -> Result<String, Unopened> {
        let folder = self.path;
        match format!(in self.rt.alloc(); "{folder}/{name}") {
            Ok(path) => Ok(path),
            Err(_) => Err(Unopened::NoMemory),
        }
    }

    // The path of the file of this name, if that is a file or a block device.
    fn path_of_medium(&self, name: &str) -> Result<String, Unopened> {
        let path = self.path_of(name)?;
        match fs::metadata(&self.rt, path.as_str()) {
            Ok(metadata) if may_be_medium(metadata.file_type()) => Ok(path),
            Ok(_) => Err(Unopened::Shut(Trouble::NoMedium)),
            Err(error) if error.kind() == ErrorKind::NotFound => {
                Err(Unopened::Missing(Trouble::System(error)))
            }
            Err(error) => Err(Unopened::Shut(Trouble::System(error))),
        }
    }
}

// Whether what has this type is opened as a medium.
fn may_be_medium(kind: FileType) -> bool {
    kind.is_file() || kind.is_block_device()
}

impl<'a, R: AllocGlobal + Files<File = File> + Clock + Eprint + Copy> MediaFolder
    for SystemFolder<'a, R> {
    type File = SystemFile<R>;

    fn trouble(&self) -> Option<Trouble> {
        match fs::metadata(&self.rt, self.path) {
            Ok(_) => None,
            Err(error) => Some(Trouble::System(error)),
        }
    }

    fn protection(&self, name: &str, mark: &str) -> Option<Trouble> {
        let (Ok(path), Ok(mark)) = (self.path_of_medium(name), self.path_of(mark)) else {
            return None;
        };
        if fs::symlink_metadata(&self.rt, mark.as_str()).is_ok() {
            return Some(Trouble::Left);
        }
        let opened = OpenOptions::new().write(true).open(&self.rt, path.as_str());
        match opened {
            Ok(_) => None,
            Err(error) => match error.kind() {
                ErrorKind::PermissionDenied | ErrorKind::ReadOnlyFilesystem => {
                    Some(Trouble::System(error))
                }
                _ => None,
            },
        }
    }

    fn length_of(&self, name: &str) -> u64 {
        let Ok(path) = self.path_of(name) else {
            return 0;
        };
        match fs::metadata(&self.rt, path.as_str()) {
            Ok(metadata) => metadata.len(),
            Err(_) => 0,
        }
    }

    fn open(&self, name: &str, mark: &str, access: Access) -> Result<SystemFile<R>, Unopened> {
        let path = self.path_of_medium(name)?;
        let mark = self.path_of(mark)?;
        let Ok(folder) = self.path.to_string(self.rt.alloc()) else {
            return Err(Unopened::NoMemory);
        };
        let opened = OpenOptions::new()
            .read(true)
            .write(matches!(access, Access::Full))
            .open(&self.rt, path.as_str());
        match opened {
            Ok(file) => Ok(SystemFile::over(self.rt, file, folder, mark)),
            Err(error) if error.kind() == ErrorKind::NotFound => {
                Err(Unopened::Missing(Trouble::System(error)))
            }
            Err(error) => Err(Unopened::Shut(Trouble::System(error))),
        }
    }
}

// The owner alone reads and writes a medium that was made.
const OWNER_ALONE: u32 = 0o600;

impl<'a, R: AllocGlobal + Files<File = File> + Clock + Eprint + Copy> SystemFolder<'a, R> {
    // Makes the file at this path.
    fn create_at(&self, path: &str) -> Result<File, Unopened> {
        let created = OpenOptions::new()
            .read(true)
            .write(true)
            .create_new(true)
            .mode(OWNER_ALONE)
            .open(&self.rt, path);
        match created {
            Ok(file) => Ok(file),
            Err(error) if error.kind() == ErrorKind::AlreadyExists => {
                Err(Unopened::Shut(Trouble::Taken))
            }
            Err(error) => Err(Unopened::Shut(Trouble::System(error))),
        }
    }

    // Syncs the names in the folder at this path.
    fn sync_at(&self, path: &str) -> io::Result<()> {
        File::open(&self.rt, path)?.sync_all()
    }
}

impl<'a, R: AllocGlobal + Files<File = File> + Clock + Eprint + Copy> NewMedia
    for SystemFolder<'a, R> {
    type File = SystemFile<R>;

    ghost stands = { λ s part. ⊥ };

    ghost taken = { λ s name. ⊥ };

    fn make(&mut self) -> io::Result<bool> {
        match fs::create_dir(&self.rt, self.path) {
            Ok(()) => Ok(true),
            Err(error) if error.kind() == ErrorKind::AlreadyExists => Ok(false),
            Err(error) => Err(error),
        }
    }

    fn create(&mut self, name: &str, mark: &str) -> Result<SystemFile<R>, Unopened> {
        let path = self.path_of(name)?;
        let mark = self.path_of(mark)?;
        let Ok(folder) = self.path.to_string(self.rt.alloc()) else {
            return Err(Unopened::NoMemory);
        };
        if fs::symlink_metadata(&self.rt, mark.as_str()).is_ok() {
            return Err(Unopened::Shut(Trouble::Left));
        }
        let file = self.create_at(path.as_str())?;
        Ok(SystemFile::over(self.rt, file, folder, mark))
    }

    fn sync(&self, made: bool) -> io::Result<()> {
        self.sync_at(self.path)?;
        if made {
            let path = self.path;
            let above = format!(in self.rt.alloc(); "{path}/..")?;
            self.sync_at(above.as_str())?;
        }
        Ok(())
    }

    fn remove(&mut self, name: &str) {
        if let Ok(path) = self.path_of(name) {
            let _ = fs::remove_file(&self.rt, path.as_str());
        }
    }

    fn unmake(&mut self) {
        let _ = fs::remove_dir(&self.rt, self.path);
    }
}

impl<R: AllocGlobal + Files<File = File> + Clock + Eprint + Copy> SystemFile<R> {
    /// A file that is open already, with the folder that it stands in, and the path of its mark.
    pub fn over(rt: R, file: File, folder: String, mark: String) -> SystemFile<R> {
        SystemFile {
            rt,
            file,
            folder,
            mark,
            syncs: SyncTimes::new(),
        }
    }

    // The monotonic clock, at its beginning where it can't be read.
    fn now(&self) -> Duration {
        self.rt.monotonic().unwrap_or(Duration::ZERO)
    }

    // Makes the mark, with what it is left for, and syncs both it and the folder.
    fn make_mark(&self, why: &io::Error) -> io::Result<()> {
        let mut mark = File::create(&self.rt, self.mark.as_str())?;
        writeln!(mark, "{why}")?;
        mark.sync_all()?;
        File::open(&self.rt, self.folder.as_str())?.sync_all()
    }
}

impl<R: AllocGlobal + Files<File = File> + Clock + Eprint + Copy> MediumFile for SystemFile<R> {
    ghost use Rattle.std.specs.Prelude.{None};

    ghost seen = { λ _. None };

    // The metadata of a block device have no length, and its end does.
    fn length(&mut self) -> io::Result<u64> {
        self.file.seek(SeekFrom::End(0))
    }

    fn try_lock(&mut self, access: Access) -> Result<(), Trouble> {
        let locked = match access {
            Access::Full => self.file.try_lock(),
            Access::Reading => self.file.try_lock_shared(),
        };
        match locked {
            Ok(()) => Ok(()),
            Err(TryLockError::WouldBlock) => Err(Trouble::InUse),
            Err(TryLockError::Error(error)) => Err(Trouble::System(error)),
        }
    }

    fn read_exact_at(&mut self, into: &mut [u8], at: u64) -> io::Result<()> {
        self.file.read_exact_at(into, at)
    }

    fn write_all_at(&mut self, bytes: &[u8], at: u64) -> io::Result<()> {
        self.file.write_all_at(bytes, at)
    }

    fn sync_data(&mut self) -> io::Result<()> {
        let began = self.now();
        let synced = self.file.sync_data();
        let ended = self.now();
        self.syncs.note(began, ended);
        synced
    }

    fn longest_sync(&self) -> Option<u64> {
        self.syncs.longest(self.now())
    }

    fn leave_mark(&mut self, why: &io::Error) {
        if let Err(error) = self.make_mark(why) {
            let _ = eprintln!(&self.rt; "vdr: {}: {error}", self.mark);
        }
    }
}
