// One medium as a file, of which each call is one call on the file.
//
// The sync of a file that may only be read succeeds where its file system has no syncs, since nothing was written
// that it could lose; of a file that may be written each failed sync is a fault. After a write or a sync that failed the
// system may hold what its disk has not, as data that needs no sync: so a mark is left, which outlives the process.
ghost use Rattle.std.specs.Prelude.{◌≡◌, ◌+◌, ◌-◌, ◌^◌, ℕ, List, [], ◌∷◌, min, length, is_ok, IfOk, OnOk, OnErr};
ghost use Rattle.vdr_outside.specs.Causes.{HasCause};
ghost use Rattle.vdr_adapters.specs.Files.{IsFile, IsPlaced, Makes, MakesAt, open_for, or_left};
ghost use Rattle.vdr_adapters.specs.Files.Call.{Leave, Read, Sync, Write};
ghost use Rattle.vdr_adapters.specs.Making.{IsMade};
ghost use Rattle.vdr_adapters.specs.declared.folder.Access.TheVariants.{Full};
ghost use Rattle.vdr_adapters.specs.Files.Place.{Missing, Shut};
ghost use Rattle.vdr_adapters.specs.Media.{place_in};

use crate::Trouble;
use crate::filling::filled;
use crate::folder::{Access, MediaFolder, MediumFile, Unopened};
use std::alloc::AllocError;
use std::io;
use std::io::ErrorKind;
use vdr_outside::Failed;

// What stands at the name of a medium.
#[derive(Clone, Copy, PartialEq, Drop)]
enum State {
    Missing,
    // There is a file, and it can't be opened or is locked.
    Shut,
    Open,
    ReadOnly,
}

/// A medium over a file or a block device, whose length as it is opened is the medium's size for good.
#[derive(Drop)]
pub(crate) struct FileMedium<F: MediumFile + Drop> {
    state: State,
    // There is one where it is open.
    file: Option<F>,
    // What stood in the way as it was opened, or at the last call that failed.
    trouble: Option<Trouble>,
    pub(crate) size: u64,
    pub(crate) faults: u64,
    pub(crate) bytes_read: u64,
}

// The state of a medium whose file is open for this access.
fn state_of(access: Access) -> State
    ensures { result ≡ open_for access }
{
    match access {
        Access::Full => State::Open,
        Access::Reading => State::ReadOnly,
    }
}

// Whether the system keeps nothing of such a file to be synced, as on a file system that has no writes.
fn has_nothing_to_sync(error: &io::Error) -> bool {
    matches!(
        error.kind(),
        ErrorKind::InvalidInput | ErrorKind::ReadOnlyFilesystem
    )
}

// The outcome of a call on a file that leaves no mark.
fn told(outcome: io::Result<()>) -> Result<(), Option<Trouble>> {
    match outcome {
        Ok(()) => Ok(()),
        Err(error) => Err(Some(Trouble::System(error))),
    }
}

// The outcome of a call on a file, of which the mark is left where it failed.
fn or_mark<F: MediumFile>(file: &mut F, outcome: io::Result<()>) -> Result<(), Option<Trouble>>
    ensures same { is_ok result ≡ is_ok outcome }
    ensures kept { OnOk outcome (file.new ≡ file.old) }
    ensures left { OnErr outcome (Makes (F.seen file.old) (F.seen file.new) (Leave ∷ [])) }
{
    match outcome {
        Ok(()) => Ok(()),
        Err(error) => {
            file.leave_mark(&error);
            Err(Some(Trouble::System(error)))
        }
    }
}

// Writes the bytes from `at` on.
fn write_to<F: MediumFile>(file: &mut F, at: u64, bytes: &[u8]) -> Result<(), Option<Trouble>>
    ensures calls { Makes (F.seen file.old) (F.seen file.new) (or_left (is_ok result) (Write at bytes.now)) }
{
    let outcome = file.write_all_at(bytes, at);
    or_mark(file, outcome)
}

// Syncs the data of a file.
fn sync_of<F: MediumFile>(file: &mut F) -> Result<(), Option<Trouble>>
    ensures calls { Makes (F.seen file.old) (F.seen file.new) (or_left (is_ok result) Sync) }
{
    let outcome = file.sync_data();
    or_mark(file, outcome)
}

// Syncs the data of a file that may only be read.
fn sync_read<F: MediumFile>(file: &mut F) -> Result<(), Option<Trouble>>
    ensures calls { Makes (F.seen file.old) (F.seen file.new) (Sync ∷ []) }
{
    match file.sync_data() {
        Err(error) if has_nothing_to_sync(&error) => Ok(()),
        synced => told(synced),
    }
}

impl<F: MediumFile + Drop> FileMedium<F> {
    /// The medium over a file that was made: it is locked, and zeros fill it up to this length and are synced.
    pub(crate) fn made(file: F, size: u64) -> Result<FileMedium<F>, Trouble>
        ensures made { (name mark : List ℕ) → IsFile (F.seen file) (record { name = name; mark = mark; access = Full; calls = [] })
            → IfOk result (λ medium. IsMade F.seen (place_in medium) name mark size) }
        ensures size { IfOk result (λ medium. medium.size ≡ size) }
        ensures unfailed { IfOk result (λ medium. medium.faults ≡ 0) }
    {
        let file = filled(file, size)?;
        Ok(FileMedium::new(State::Open, Some(file), size, None))
    }

    fn new(state: State, file: Option<F>, size: u64, trouble: Option<Trouble>) -> FileMedium<F>
        ensures state { result.state ≡ state }
        ensures file { result.file ≡ file }
        ensures size { result.size ≡ size }
        ensures unfailed { result.faults ≡ 0 }
    {
        FileMedium {
            state,
            file,
            trouble,
            size,
            faults: 0,
            bytes_read: 0,
        }
    }

    /// A medium that nothing uses.
    pub(crate) fn unused() -> FileMedium<F>
        ensures place { place_in result ≡ Missing }
        ensures size { result.size ≡ 0 }
    {
        FileMedium::new(State::Missing, None, 0, None)
    }

    /// A medium that is not opened: it has this size, and each call fails.
    pub(crate) fn closed(size: u64) -> FileMedium<F>
        ensures { place_in result ≡ Shut }
    {
        FileMedium::new(State::Shut, None, size, None)
    }

    /// The medium over the file of this name. A file that is missing is a medium of size 0. One that can't be opened, or that
    /// is locked, has its size where that can be told, and each call on it fails.
    pub(crate) fn open<D: MediaFolder<File = F>>(
        folder: &D,
        name: &str,
        mark: &str,
        access: Access,
    ) -> Result<FileMedium<F>, AllocError>
        ensures { IfOk result (λ medium. IsPlaced F.seen (place_in medium) name.now mark.now access medium.size) }
    {
        let file = match folder.open(name, mark, access) {
            Ok(file) => file,
            Err(Unopened::Missing(trouble)) => {
                return Ok(FileMedium::new(State::Missing, None, 0, Some(trouble)));
            }
            Err(Unopened::Shut(trouble)) => {
                let size = folder.length_of(name);
                return Ok(FileMedium::new(State::Shut, None, size, Some(trouble)));
            }
            Err(Unopened::NoMemory) => return Err(AllocError),
        };
        Ok(FileMedium::of(file, access))
    }

    // The medium over a file that was opened for this access. Its length is asked for, and then it is locked.
    fn of(mut file: F, access: Access) -> FileMedium<F>
        ensures { (name mark : List ℕ) → IsFile (F.seen file) (record { name = name; mark = mark; access = access; calls = [] })
            → IsPlaced F.seen (place_in result) name mark access result.size }
    {
        let size = match file.length() {
            Ok(size) => size,
            Err(error) => {
                return FileMedium::new(State::Shut, None, 0, Some(Trouble::System(error)));
            }
        };
        if let Err(trouble) = file.try_lock(access) {
            return FileMedium::new(State::Shut, None, size, Some(trouble));
        }
        FileMedium::new(state_of(access), Some(file), size, None)
    }

    /// Closes the file, so that each call fails.
    pub(crate) fn shut(&mut self)
        ensures size { self.new.size ≡ self.old.size }
        ensures place { place_in self.new ≡ Shut }
    {
        self.state = State::Shut;
        self.file = None;
    }

    /// The same medium, with what stands in the way of writing to it.
    pub(crate) fn protected_by(self, protection: Option<Trouble>) -> FileMedium<F>
        ensures place { place_in result ≡ place_in self }
        ensures size { result.size ≡ self.size }
    {
        FileMedium {
            trouble: self.trouble.or(protection),
            ..self
        }
    }

    /// Whether there is no file.
    pub(crate) fn is_missing(&self) -> bool {
        self.state == State::Missing
    }

    /// Whether there is a file, and it can't be opened.
    pub(crate) fn is_shut(&self) -> bool {
        self.state == State::Shut
    }

    /// How long the longest sync of the last minute took, in milliseconds, where that is told.
    pub(crate) fn longest_sync(&self) -> Option<u64> {
        self.file.as_ref()?.longest_sync()
    }

    /// What stood in the way as it was opened, or at the last call that failed.
    pub(crate) fn trouble(&self) -> Option<&Trouble> {
        self.trouble.as_ref()
    }

    // What a call answers. Where it failed, it is counted, and what stood in the way is kept, if it wasn't before.
    fn answer(&mut self, outcome: Result<(), Option<Trouble>>) -> Result<(), Failed>
        ensures same { is_ok result ≡ is_ok outcome }
        ensures place { place_in self.new ≡ place_in self.old }
        ensures cause { HasCause self.old.faults self.new.faults result }
        ensures size { self.new.size ≡ self.old.size }
        ensures bytes_read { self.new.bytes_read ≡ self.old.bytes_read }
    {
        match outcome {
            Ok(()) => return Ok(()),
            Err(Some(trouble)) => self.trouble = Some(trouble),
            Err(None) => {}
        }
        self.faults = self.faults.saturating_add(1);
        Err(Failed)
    }

    /// Reads the bytes from `at` on. All of them count as read.
    pub(crate) fn read(&mut self, at: u64, into: &mut [u8]) -> Result<(), Failed>
        ensures calls { MakesAt F.seen (place_in self.old) (place_in self.new) (Read at (length into.old) ∷ []) (Read at (length into.old) ∷ []) }
        ensures cause { HasCause self.old.faults self.new.faults result }
        ensures size { self.new.size ≡ self.old.size }
        ensures bytes_read { self.new.bytes_read ≡ min (self.old.bytes_read + length into.old) (2 ^ 64 - 1) }
    {
        self.bytes_read = self.bytes_read.saturating_add(into.len() as u64);
        let outcome = match (self.state, &mut self.file) {
            (State::Missing, _) => Ok(()),
            (State::Open | State::ReadOnly, Some(file)) => told(file.read_exact_at(into, at)),
            _ => Err(None),
        };
        self.answer(outcome)
    }

    /// Writes the bytes from `at` on.
    pub(crate) fn write(&mut self, at: u64, bytes: &[u8]) -> Result<(), Failed>
        ensures calls { MakesAt F.seen (place_in self.old) (place_in self.new) (or_left (is_ok result) (Write at bytes.now)) [] }
        ensures cause { HasCause self.old.faults self.new.faults result }
        ensures size { self.new.size ≡ self.old.size }
        ensures bytes_read { self.new.bytes_read ≡ self.old.bytes_read }
    {
        let outcome = match (self.state, &mut self.file) {
            (State::Missing, _) => Ok(()),
            (State::Open, Some(file)) => write_to(file, at, bytes),
            _ => Err(None),
        };
        self.answer(outcome)
    }

    /// Syncs the data of the file, as the operating system does it. Of a file that is missing there is nothing to sync, nor
    /// of one that may only be read where the file system has no syncs.
    pub(crate) fn sync(&mut self) -> Result<(), Failed>
        ensures calls { MakesAt F.seen (place_in self.old) (place_in self.new) (or_left (is_ok result) Sync) (Sync ∷ []) }
        ensures cause { HasCause self.old.faults self.new.faults result }
        ensures size { self.new.size ≡ self.old.size }
        ensures bytes_read { self.new.bytes_read ≡ self.old.bytes_read }
    {
        let outcome = match (self.state, &mut self.file) {
            (State::Missing, _) => Ok(()),
            (State::Open, Some(file)) => sync_of(file),
            (State::ReadOnly, Some(file)) => sync_read(file),
            _ => Err(None),
        };
        self.answer(outcome)
    }
}
