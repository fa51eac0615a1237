// The folder of the media and their files, as traits: what is told of the calls that were made on a file.
ghost use Rattle.std.specs.Prelude.{◌≡◌, [], ◌∷◌, length, IfOk, IsErr, OnErr, OnOk};
ghost use Rattle.vdr_adapters.specs.Files.{IsFile, Makes};
ghost use Rattle.vdr_adapters.specs.Files.Call.{Leave, Length, Lock, Read, Sync, Write};
ghost use Rattle.vdr_adapters.specs.declared.folder.Access.TheVariants.{Full};

use crate::Trouble;
use std::io;

/// What the file of a medium is opened for.
#[derive(Clone, Copy, Drop)]
pub enum Access {
    /// For reading and writing, with an exclusive lock.
    Full,
    /// For reading alone, with a shared lock.
    Reading,
}

/// Why a file was not opened.
#[derive(Drop)]
pub enum Unopened {
    /// There is none.
    Missing(Trouble),
    /// There is one, or that can't be told.
    Shut(Trouble),
    /// There was no memory for its path.
    NoMemory,
}

/// The file of a medium. The length of a file or of a block device is the size of its medium.
pub trait MediumFile {
    ghost use Rattle.std.specs.Prelude.{Option};
    ghost use Rattle.vdr_adapters.specs.Files.{FileSeen};

    /// By which name it was opened, and what calls were made on it, where it tells that.
    ghost seen: { Self → Option FileSeen };

    /// Its length in bytes.
    fn length(&mut self) -> io::Result<u64>
        ensures call { IfOk result (λ n. Makes (seen self.old) (seen self.new) (Length n ∷ [])) };

    /// Locks it for this access, if nobody else has a lock that excludes that.
    fn try_lock(&mut self, access: Access) -> Result<(), Trouble>
        ensures call { OnOk result (Makes (seen self.old) (seen self.new) (Lock access ∷ [])) };

    /// Reads the bytes from `at` on.
    fn read_exact_at(&mut self, into: &mut [u8], at: u64) -> io::Result<()>
        ensures call { Makes (seen self.old) (seen self.new) (Read at (length into.old) ∷ []) };

    /// Writes the bytes from `at` on.
    fn write_all_at(&mut self, bytes: &[u8], at: u64) -> io::Result<()>
        ensures call { Makes (seen self.old) (seen self.new) (Write at bytes.now ∷ []) };

    /// Syncs its data.
    fn sync_data(&mut self) -> io::Result<()>
        ensures call { Makes (seen self.old) (seen self.new) (Sync ∷ []) };

    /// How long its longest sync of the last minute took, in milliseconds. None where there was none, or none is told.
    fn longest_sync(&self) -> Option<u64>;

    /// Leaves its mark beside it, which says that it is not to be trusted, and syncs the folder. Where that fails, it is told
    /// on the standard error.
    fn leave_mark(&mut self, why: &io::Error)
        ensures call { Makes (seen self.old) (seen self.new) (Leave ∷ []) };
}

/// The folder of the media.
pub trait MediaFolder {
    /// Its files.
    type File: MediumFile;

    /// What stands in the way of the folder itself.
    fn trouble(&self) -> Option<Trouble>;

    /// What says that the file of this name may only be read: the system, or the mark of this name beside it. None where it may be
    /// written or is missing.
    fn protection(&self, name: &str, mark: &str) -> Option<Trouble>;

    /// The length of the file of this name, 0 where that can't be told. It is not opened.
    fn length_of(&self, name: &str) -> u64;

    /// Opens the file of this name, which would leave the mark of this name.
    fn open(&self, name: &str, mark: &str, access: Access) -> Result<Self::File, Unopened>
        ensures { IfOk result (λ file. IsFile (Self.File.seen file) (record { name = name.now; mark = mark.now; access = access; calls = [] })) };
}

/// The folder in which media are made. It tells what stands of what was made through it, and which names are taken, as far as it can.
pub trait NewMedia {
    ghost use Rattle.std.specs.Prelude.{ℕ, List};
    ghost use Rattle.vdr_adapters.specs.Makers.{Adds, AddsNone, AreStillTaken, IsFolderMade, Part, Removes};
    ghost use Rattle.vdr_adapters.specs.Makers.Part.{Folder, Named};

    /// Its files.
    type File: MediumFile;

    /// Of each part, a fact where it was made through it and stands.
    ghost stands: { Self → Part → Type 0 };

    /// Of each name, a fact where it is taken.
    ghost taken: { Self → List ℕ → Type 0 };

    /// Makes the folder where there is none, and tells whether it did.
    fn make(&mut self) -> io::Result<bool>
        ensures made { IfOk result (λ made. Adds (IsFolderMade made) (stands self.old) (stands self.new)) }
        ensures failed { OnErr result (AddsNone (stands self.old) (stands self.new)) }
        ensures names { AreStillTaken (taken self.old) (taken self.new) };

    /// Makes the file of this name, which its owner alone may read and write, and which would leave the mark of this name. A name
    /// that is taken is refused, and so is one whose mark stands.
    fn create(&mut self, name: &str, mark: &str) -> Result<Self::File, Unopened>
        ensures file { IfOk result (λ file. IsFile (Self.File.seen file) (record { name = name.now; mark = mark.now; access = Full; calls = [] })) }
        ensures made { Adds (λ part. part ≡ Named name.now) (stands self.old) (stands self.new) }
        ensures failed { OnErr result (AddsNone (stands self.old) (stands self.new)) }
        ensures refused { taken self.old name.now → IsErr result }
        ensures names { AreStillTaken (taken self.old) (taken self.new) };

    /// Syncs the names in the folder, and the folder's own where it was made.
    fn sync(&self, made: bool) -> io::Result<()>;

    /// Removes the file of this name.
    fn remove(&mut self, name: &str)
        ensures { Removes (λ part. part ≡ Named name.now) (stands self.old) (stands self.new) };

    /// Removes the folder.
    fn unmake(&mut self)
        ensures { Removes (λ part. part ≡ Folder) (stands self.old) (stands self.new) };
}
