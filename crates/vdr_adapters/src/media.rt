// Both media as the files capsule.vdr and longterm.vdr of a folder, locked while they are open.
//
// The capsule's lock is asked for first, so that of two processes at once one goes on. Where one file may only be
// read both are opened so: else a command that fails half way would leave the capsule ahead.
ghost use Rattle.std.specs.Prelude.{◌≡◌, ◌+◌, [], ◌∷◌, length, slice_range, is_ok, IfOk, OnOk, OnErr};
ghost use Rattle.vdr_outside.specs.Causes.{HasCauseOn, counted};
ghost use Rattle.vdr_outside.specs.Disk.{Durable, Elapses, InRange, Narrows, Overwritten, Rises, Tears, Ticks, Unchanged, content, written};
ghost use Rattle.vdr_adapters.specs.Files.{MakesAt, or_left};
ghost use Rattle.vdr_adapters.specs.Files.Call.{Read, Sync, Write};
ghost use Rattle.vdr_adapters.specs.Media.{OnOwn, disk_of, faults_of, place_in, read_of};
ghost use Rattle.vdr_adapters.specs.Opened.{AreOpened, AreOpenedFor};

use crate::Trouble;
use crate::file::FileMedium;
use crate::folder::{Access, MediaFolder, MediumFile};
use crate::system::{SystemFile, SystemFolder};
use std::alloc::AllocError;
use std::fs::{File, Files};
use std::time::Clock;
use vdr_outside::{Failed, Media};
use vdr_sockets::Alarm;

/// The names of the files in their folder, and of the marks beside them.
pub(crate) const CAPSULE: &str = "capsule.vdr";

pub(crate) const CAPSULE_MARK: &str = "capsule.left";

pub(crate) const LONG_TERM: &str = "longterm.vdr";

pub(crate) const LONG_TERM_MARK: &str = "longterm.left";

/// The two media of a recorder as the files `capsule.vdr` and `longterm.vdr` of a folder. The files are made beforehand:
/// the length of a file or of a block device is the size of its medium, and a file that is missing is a medium of size 0. They
/// tell neither their contents nor what a stop may leave.
///
/// The files are locked as long as they are open, so that nobody else records on them. Where a file is locked already, or can't
/// be opened, neither is used, and each call fails. Where one of them may only be read, both are opened to be read. So they are
/// where a write or a sync of one of them failed before: that leaves a mark beside it, `capsule.left` or `longterm.left`, which
/// a person takes away.
#[derive(Drop)]
pub struct FileMedia<'a, F: MediumFile + Drop> {
    alarm: Option<&'a Alarm>,
    // What stood in the way of the folder.
    folder: Option<Trouble>,
    capsule: FileMedium<F>,
    long_term: FileMedium<F>,
}

impl<'a, R: AllocGlobal + Files<File = File> + Clock + Eprint + Copy> FileMedia<'a, SystemFile<R>> {
    /// The media in this folder. No file is made, and none is changed before the first write.
    pub fn open(rt: R, folder: &str) -> Result<FileMedia<'a, SystemFile<R>>, AllocError> {
        FileMedia::open_in(&SystemFolder::new(rt, folder))
    }

    /// Medium m of this folder alone, to be read.
    pub fn open_alone(
        rt: R,
        folder: &str,
        m: u8,
    ) -> Result<FileMedia<'a, SystemFile<R>>, AllocError> {
        FileMedia::open_alone_in(&SystemFolder::new(rt, folder), m)
    }
}

impl<'a, F: MediumFile + Drop> FileMedia<'a, F> {
    /// Two media of size 0, for a command that uses none. No file is opened.
    pub fn unused() -> FileMedia<'a, F> {
        FileMedia {
            alarm: None,
            folder: None,
            capsule: FileMedium::unused(),
            long_term: FileMedium::unused(),
        }
    }

    /// Two media of size 0 that are not opened, so that each call fails.
    pub fn shut() -> FileMedia<'a, F> {
        FileMedia {
            alarm: None,
            folder: None,
            capsule: FileMedium::closed(0),
            long_term: FileMedium::closed(0),
        }
    }

    /// The media over two files that are open.
    pub(crate) fn over(capsule: FileMedium<F>, long_term: FileMedium<F>) -> FileMedia<'a, F>
        ensures capsule { result.capsule ≡ capsule }
        ensures long_term { result.long_term ≡ long_term }
    {
        FileMedia {
            alarm: None,
            folder: None,
            capsule,
            long_term,
        }
    }

    /// The media in this folder: each its own file, which was locked before any other call, both for the same access.
    pub fn open_in<D: MediaFolder<File = F>>(folder: &D) -> Result<FileMedia<'a, F>, AllocError>
        ensures { IfOk result (λ media. AreOpened F.seen (place_in media.capsule) media.capsule.size (place_in media.long_term) media.long_term.size) }
    {
        let trouble = folder.trouble();
        let (capsule, long_term) = open_both(folder)?;
        Ok(FileMedia {
            alarm: None,
            folder: trouble,
            capsule,
            long_term,
        })
    }

    /// Medium m of this folder alone, to be read: its file is opened for reading, whatever may be done with it, and locked as others that
    /// read lock it. The other medium has size 0, and its file is not opened.
    pub fn open_alone_in<D: MediaFolder<File = F>>(
        folder: &D,
        m: u8,
    ) -> Result<FileMedia<'a, F>, AllocError> {
        let trouble = folder.trouble();
        let (capsule, long_term) = if m == 0 {
            let capsule = FileMedium::open(folder, CAPSULE, CAPSULE_MARK, Access::Reading)?;
            (capsule, FileMedium::unused())
        } else {
            let long_term = FileMedium::open(folder, LONG_TERM, LONG_TERM_MARK, Access::Reading)?;
            (FileMedium::unused(), long_term)
        };
        Ok(FileMedia {
            alarm: None,
            folder: trouble,
            capsule,
            long_term,
        })
    }

    /// From now on the alarm is raised where one of the media can't be written or synced.
    pub fn tell(&mut self, alarm: &'a Alarm) {
        self.alarm = Some(alarm);
    }

    /// How long the longest sync of the last minute took, of the capsule and of the long-term medium, in milliseconds. None where there was
    /// none, or none is told.
    pub fn longest_syncs(&self) -> (Option<u64>, Option<u64>) {
        (self.capsule.longest_sync(), self.long_term.longest_sync())
    }

    // Raises the alarm where a write or a sync failed, and hands on what it answered.
    fn told(&self, outcome: Result<(), Failed>) -> Result<(), Failed>
        ensures { result ≡ outcome }
    {
        if outcome.is_err()
            && let Some(alarm) = self.alarm
        {
            alarm.raise();
        }
        outcome
    }

    /// What stood in the way of the media, by the name of its file: at a call that failed, or as a file that is missing was
    /// to be opened. None where nothing did.
    pub fn trouble(&self) -> Option<(&'static str, &Trouble)> {
        if let Some(trouble) = &self.folder {
            return Some(("folder", trouble));
        }
        let media = [(CAPSULE, &self.capsule), (LONG_TERM, &self.long_term)];
        let failed = media.iter().any(|(_, medium)| medium.faults > 0);
        for (name, medium) in media {
            if medium.faults > 0
                && let Some(trouble) = medium.trouble()
            {
                return Some((name, trouble));
            }
        }
        for (name, medium) in media {
            if (failed || medium.is_missing())
                && let Some(trouble) = medium.trouble()
            {
                return Some((name, trouble));
            }
        }
        None
    }
}

// The media of a folder. Where one of them may only be read, both are opened to be read.
fn open_both<F: MediumFile + Drop, D: MediaFolder<File = F>>(
    folder: &D,
) -> Result<(FileMedium<F>, FileMedium<F>), AllocError>
    ensures { IfOk result (λ media. AreOpened F.seen (place_in media.0) media.0.size (place_in media.1) media.1.size) }
{
    let protections = (
        folder.protection(CAPSULE, CAPSULE_MARK),
        folder.protection(LONG_TERM, LONG_TERM_MARK),
    );
    if protections.0.is_none() && protections.1.is_none() {
        return open_pair(folder, Access::Full);
    }
    let (capsule, long_term) = open_pair(folder, Access::Reading)?;
    Ok((
        capsule.protected_by(protections.0),
        long_term.protected_by(protections.1),
    ))
}

// The media as they are opened with this access. The capsule's lock is taken first, and where it can't be had the long-term
// medium's is not asked for: so of two that open them at one time one has both.
fn open_pair<F: MediumFile + Drop, D: MediaFolder<File = F>>(
    folder: &D,
    access: Access,
) -> Result<(FileMedium<F>, FileMedium<F>), AllocError>
    ensures { IfOk result (λ media. AreOpenedFor F.seen access (place_in media.0) media.0.size (place_in media.1) media.1.size) }
{
    let mut capsule = FileMedium::open(folder, CAPSULE, CAPSULE_MARK, access)?;
    if capsule.is_shut() {
        return Ok((capsule, FileMedium::closed(folder.length_of(LONG_TERM))));
    }
    let long_term = FileMedium::open(folder, LONG_TERM, LONG_TERM_MARK, access)?;
    if long_term.is_shut() {
        capsule.shut();
    }
    Ok((capsule, long_term))
}

impl<'a, F: MediumFile + Drop> Media for FileMedia<'a, F> {
    ghost tells = { ⊥ };

    ghost tells_images = { ⊥ };

    ghost disk = { λ s. disk_of s };

    ghost faults = { λ s. faults_of s };

    ghost bytes_read = { λ s. read_of s };

    fn count(&self) -> u8 {
        2
    }

    fn size(&self, m: u8) -> u64 {
        match m {
            0 => self.capsule.size,
            1 => self.long_term.size,
            _ => 0,
        }
    }

    fn read(&mut self, m: u8, at: u64, into: &mut [u8]) -> Result<(), Failed>
        requires range { InRange (disk_of self.old).sizes m at (length into.old) }
        ensures own { OnOwn m self.old self.new (λ old new. MakesAt F.seen (place_in old) (place_in new) (Read at (length into.old) ∷ []) (Read at (length into.old) ∷ [])) }
        ensures bytes { OnOk result (⊥ → into.new ≡ slice_range (content (disk_of self.old).reads m) at (at + length into.old)) }
        ensures unchanged { Unchanged (disk_of self.old) (disk_of self.new) }
        ensures counts { read_of self.new ≡ counted (read_of self.old) m (length into.old) }
        ensures cause { HasCauseOn m (faults_of self.old) (faults_of self.new) result }
    {
        match m {
            0 => self.capsule.read(at, into),
            _ => self.long_term.read(at, into),
        }
    }

    fn write(&mut self, m: u8, at: u64, bytes: &[u8]) -> Result<(), Failed>
        requires range { InRange (disk_of self.old).sizes m at (length bytes.now) }
        ensures own { OnOwn m self.old self.new (λ old new. MakesAt F.seen (place_in old) (place_in new) (or_left (is_ok result) (Write at bytes.now)) []) }
        ensures reads { OnOk result (⊥ → (disk_of self.new).reads ≡ written (disk_of self.old).reads m at bytes.now) }
        ensures torn { OnErr result (⊥ → Overwritten m at (length bytes.now) (λ image. image ≡ (disk_of self.old).reads) (disk_of self.new).reads) }
        ensures images { Tears m at (length bytes.now) (disk_of self.old) (disk_of self.new) }
        ensures time { Elapses (disk_of self.old) (disk_of self.new) }
        ensures rises { Rises (disk_of self.old) (disk_of self.new) }
        ensures ticks { Ticks (disk_of self.old) (disk_of self.new) result }
        ensures sizes { (disk_of self.new).sizes ≡ (disk_of self.old).sizes }
        ensures counts { read_of self.new ≡ read_of self.old }
        ensures cause { HasCauseOn m (faults_of self.old) (faults_of self.new) result }
    {
        let outcome = match m {
            0 => self.capsule.write(at, bytes),
            _ => self.long_term.write(at, bytes),
        };
        self.told(outcome)
    }

    fn sync(&mut self, m: u8) -> Result<(), Failed>
        requires range { InRange (disk_of self.old).sizes m 0 0 }
        ensures own { OnOwn m self.old self.new (λ old new. MakesAt F.seen (place_in old) (place_in new) (or_left (is_ok result) Sync) (Sync ∷ [])) }
        ensures durable { OnOk result (Durable m (disk_of self.new)) }
        ensures reads { ⊥ → (disk_of self.new).reads ≡ (disk_of self.old).reads }
        ensures images { Narrows (disk_of self.old) (disk_of self.new) }
        ensures time { Elapses (disk_of self.old) (disk_of self.new) }
        ensures rises { Rises (disk_of self.old) (disk_of self.new) }
        ensures ticks { Ticks (disk_of self.old) (disk_of self.new) result }
        ensures sizes { (disk_of self.new).sizes ≡ (disk_of self.old).sizes }
        ensures counts { read_of self.new ≡ read_of self.old }
        ensures cause { HasCauseOn m (faults_of self.old) (faults_of self.new) result }
    {
        let outcome = match m {
            0 => self.capsule.sync(),
            _ => self.long_term.sync(),
        };
        self.told(outcome)
    }
}
