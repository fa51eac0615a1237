// Both media made as the files capsule.vdr and longterm.vdr of a folder.
//
// A name that is taken is refused, and what stands there stays as it is. Where making fails what it made is removed.
ghost use Rattle.std.specs.Prelude.{◌≡◌, [], codes, true, IfOk, IsErr, OnErr, OnOk};
ghost use Rattle.vdr_adapters.specs.Files.{IsFile};
ghost use Rattle.vdr_adapters.specs.Makers.{Adds, AddsNone, AreStillTaken, IsFolderMade, IsMadePart, IsMediumFile, IsNameTaken, Removes};
ghost use Rattle.vdr_adapters.specs.Making.{AreMade};
ghost use Rattle.vdr_adapters.specs.Media.{place_in};
ghost use Rattle.vdr_adapters.specs.declared.folder.Access.TheVariants.{Full};

use crate::Trouble;
use crate::file::FileMedium;
use crate::folder::{MediumFile, NewMedia, Unopened};
use crate::media::{CAPSULE, CAPSULE_MARK, FileMedia, LONG_TERM, LONG_TERM_MARK};

/// Why media were not made. Nothing is left of them.
#[derive(Drop)]
pub enum Unmade {
    /// There was no memory for a path.
    NoMemory,
    /// This stood in the way of the folder.
    Folder(Trouble),
    /// This stood in the way of the capsule's file.
    Capsule(Trouble),
    /// This stood in the way of the long-term medium's file.
    LongTerm(Trouble),
}

impl Unmade {
    /// What stood in the way, by the name of its file. None where memory did.
    pub fn trouble(&self) -> Option<(&'static str, &Trouble)> {
        match self {
            Unmade::NoMemory => None,
            Unmade::Folder(trouble) => Some(("folder", trouble)),
            Unmade::Capsule(trouble) => Some((CAPSULE, trouble)),
            Unmade::LongTerm(trouble) => Some((LONG_TERM, trouble)),
        }
    }
}

/// Media that were made, and whether their folder was.
#[derive(Drop)]
pub(crate) struct NewlyMade<'a, F: MediumFile + Drop> {
    pub(crate) media: FileMedia<'a, F>,
    pub(crate) folder: bool,
}

// The two files, each under its own name. Where the second can't be made the first is removed.
fn create_both<F: MediumFile + Drop, D: NewMedia<File = F>>(
    folder: &mut D,
) -> Result<(F, F), Unmade>
    ensures capsule { IfOk result (λ files. IsFile (F.seen files.0) (record { name = codes "capsule.vdr"; mark = codes "capsule.left"; access = Full; calls = [] })) }
    ensures long_term { IfOk result (λ files. IsFile (F.seen files.1) (record { name = codes "longterm.vdr"; mark = codes "longterm.left"; access = Full; calls = [] })) }
    ensures made { OnOk result (Adds IsMediumFile (D.stands folder.old) (D.stands folder.new)) }
    ensures failed { OnErr result (AddsNone (D.stands folder.old) (D.stands folder.new)) }
    ensures refused { IsNameTaken (D.taken folder.old) → IsErr result }
{
    let capsule = match folder.create(CAPSULE, CAPSULE_MARK) {
        Ok(file) => file,
        Err(Unopened::Missing(trouble) | Unopened::Shut(trouble)) => {
            return Err(Unmade::Capsule(trouble));
        }
        Err(Unopened::NoMemory) => return Err(Unmade::NoMemory),
    };
    let why = match folder.create(LONG_TERM, LONG_TERM_MARK) {
        Ok(long_term) => return Ok((capsule, long_term)),
        Err(Unopened::Missing(trouble) | Unopened::Shut(trouble)) => Unmade::LongTerm(trouble),
        Err(Unopened::NoMemory) => Unmade::NoMemory,
    };
    folder.remove(CAPSULE);
    Err(why)
}

// The media over two files, which are filled up to these sizes.
fn fill_both<'a, F: MediumFile + Drop>(
    capsule: F,
    long_term: F,
    capsule_size: u64,
    long_size: u64,
) -> Result<FileMedia<'a, F>, Unmade>
    ensures made { IsFile (F.seen capsule) (record { name = codes "capsule.vdr"; mark = codes "capsule.left"; access = Full; calls = [] })
        → IsFile (F.seen long_term) (record { name = codes "longterm.vdr"; mark = codes "longterm.left"; access = Full; calls = [] })
        → IfOk result (λ media. AreMade F.seen (place_in media.capsule) capsule_size (place_in media.long_term) long_size) }
    ensures sizes { IfOk result (λ media. (media.capsule.size ≡ capsule_size) × (media.long_term.size ≡ long_size)) }
    ensures unfailed { IfOk result (λ media. (media.capsule.faults ≡ 0) × (media.long_term.faults ≡ 0)) }
{
    let capsule = match FileMedium::made(capsule, capsule_size) {
        Ok(medium) => medium,
        Err(trouble) => return Err(Unmade::Capsule(trouble)),
    };
    match FileMedium::made(long_term, long_size) {
        Ok(long_term) => Ok(FileMedia::over(capsule, long_term)),
        Err(trouble) => Err(Unmade::LongTerm(trouble)),
    }
}

// The media in a folder that is there.
fn make_files<'a, F: MediumFile + Drop, D: NewMedia<File = F>>(
    folder: &mut D,
    capsule_size: u64,
    long_size: u64,
) -> Result<FileMedia<'a, F>, Unmade>
    ensures made { IfOk result (λ media. AreMade F.seen (place_in media.capsule) capsule_size (place_in media.long_term) long_size) }
    ensures sizes { IfOk result (λ media. (media.capsule.size ≡ capsule_size) × (media.long_term.size ≡ long_size)) }
    ensures unfailed { IfOk result (λ media. (media.capsule.faults ≡ 0) × (media.long_term.faults ≡ 0)) }
    ensures stands { OnOk result (Adds IsMediumFile (D.stands folder.old) (D.stands folder.new)) }
    ensures failed { OnErr result (AddsNone (D.stands folder.old) (D.stands folder.new)) }
    ensures refused { IsNameTaken (D.taken folder.old) → IsErr result }
{
    let (capsule, long_term) = create_both(folder)?;
    match fill_both(capsule, long_term, capsule_size, long_size) {
        Ok(media) => Ok(media),
        Err(why) => {
            remove_both(folder);
            Err(why)
        }
    }
}

// Removes the files of both media.
fn remove_both<D: NewMedia>(folder: &mut D)
    ensures { Removes IsMediumFile (D.stands folder.old) (D.stands folder.new) }
{
    folder.remove(CAPSULE);
    folder.remove(LONG_TERM);
}

// Removes the folder, if it was made.
fn remove_folder<D: NewMedia>(folder: &mut D, made: bool)
    ensures { Removes (IsFolderMade made) (D.stands folder.old) (D.stands folder.new) }
{
    if made {
        folder.unmake();
    }
}

/// Removes media that were made just now, and their folder if it was.
pub(crate) fn unmake_in<D: NewMedia>(folder: &mut D, made: bool)
    ensures { Removes (IsMadePart made) (D.stands folder.old) (D.stands folder.new) }
{
    remove_both(folder);
    remove_folder(folder, made);
}

/// Makes both media in this folder, which is made where there is none: each its own file, made by its own name, locked before any other
/// call, filled with zeros up to this size in bytes, and synced. Then their names are synced. Where a name is taken, or a call fails, what
/// was made is removed.
pub(crate) fn make_in<'a, F: MediumFile + Drop, D: NewMedia<File = F>>(
    folder: &mut D,
    capsule_size: u64,
    long_size: u64,
) -> Result<NewlyMade<'a, F>, Unmade>
    ensures made { IfOk result (λ it. AreMade F.seen (place_in it.media.capsule) capsule_size (place_in it.media.long_term) long_size) }
    ensures sizes { IfOk result (λ it. (it.media.capsule.size ≡ capsule_size) × (it.media.long_term.size ≡ long_size)) }
    ensures unfailed { IfOk result (λ it. (it.media.capsule.faults ≡ 0) × (it.media.long_term.faults ≡ 0)) }
    ensures stands { IfOk result (λ it. Adds (IsMadePart it.folder) (D.stands folder.old) (D.stands folder.new)) }
    ensures failed { OnErr result (AddsNone (D.stands folder.old) (D.stands folder.new)) }
    ensures refused { IsNameTaken (D.taken folder.old) → IsErr result }
{
    let made = match folder.make() {
        Ok(made) => made,
        Err(error) => return Err(Unmade::Folder(Trouble::System(error))),
    };
    let media = match make_files(folder, capsule_size, long_size) {
        Ok(media) => media,
        Err(why) => {
            remove_folder(folder, made);
            return Err(why);
        }
    };
    match folder.sync(made) {
        Ok(()) => Ok(NewlyMade {
            media,
            folder: made,
        }),
        Err(error) => {
            unmake_in(folder, made);
            Err(Unmade::Folder(Trouble::System(error)))
        }
    }
}
