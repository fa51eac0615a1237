// The maker of both media as files of a folder.
ghost use Rattle.std.specs.Prelude.{◌≡◌, Bool, None, Some, true, false, is_some, sum, IfOk, IsErr, OnErr, OnOk};
ghost use Rattle.vdr_adapters.specs.Makers.{Adds, AddsNone, AreNew, IsMadePart, IsMakingCounted, IsNameTaken, IsRefusalCounted, Removes};
ghost use Rattle.vdr_adapters.specs.Making.{AreMade};
ghost use Rattle.vdr_adapters.specs.Media.{disk_of, faults_of, place_in};

use crate::folder::{MediumFile, NewMedia};
use crate::maker::{MediaMaker, NotMade};
use crate::making::{NewlyMade, Unmade, make_in, unmake_in};
use crate::media::FileMedia;

/// Makes the two media of a recorder as the files `capsule.vdr` and `longterm.vdr` of a folder, which is made where there is none.
#[derive(Drop)]
pub struct FileMaker<D: NewMedia + Drop> {
    folder: D,
    // Of media that it made and that stand, whether their folder was made too.
    made: Option<bool>,
    faults: u64,
    // What stood in the way at the last call that failed.
    unmade: Option<Unmade>,
}

impl<D: NewMedia + Drop> FileMaker<D> {
    /// A maker in this folder, which has made nothing.
    pub fn new(folder: D) -> FileMaker<D>
        ensures folder { result.folder ≡ folder }
        ensures made { result.made ≡ None }
        ensures faults { result.faults ≡ 0 }
    {
        FileMaker {
            folder,
            made: None,
            faults: 0,
            unmade: None,
        }
    }

    /// Why media were not made. None where they were, or where there was no memory.
    pub fn unmade(&self) -> Option<&Unmade> {
        self.unmade.as_ref()
    }

    // Counts a refusal, and keeps what stood in the way.
    fn refuse(&mut self, why: Unmade) -> NotMade
        ensures folder { self.new.folder ≡ self.old.folder }
        ensures made { self.new.made ≡ self.old.made }
        ensures counted { IsRefusalCounted self.old.faults self.new.faults result }
    {
        match why {
            Unmade::NoMemory => NotMade::NoMemory,
            why => {
                self.unmade = Some(why);
                self.faults = self.faults.saturating_add(1);
                NotMade::Failed
            }
        }
    }
}

impl<'a, F: MediumFile + Drop, D: NewMedia<File = F> + Drop> MediaMaker<FileMedia<'a, F>>
    for FileMaker<D> {
    ghost stands = { λ s. is_some s.made };

    ghost taken = { λ s. IsNameTaken (D.taken s.folder) };

    ghost faults = { λ s. s.faults };

    fn make(&mut self, capsule: u64, long_term: u64) -> Result<FileMedia<'a, F>, NotMade>
        ensures own { IfOk result (λ media. AreMade F.seen (place_in media.capsule) capsule (place_in media.long_term) long_term) }
        ensures parts { IfOk result (λ media. (folder : Bool) × (self.new.made ≡ Some folder) × Adds (IsMadePart folder) (D.stands self.old.folder) (D.stands self.new.folder)) }
        ensures no_part { OnErr result (AddsNone (D.stands self.old.folder) (D.stands self.new.folder)) }
        ensures zeros { IfOk result (λ media. AreNew capsule long_term (disk_of media)) }
        ensures unfailed { IfOk result (λ media. sum (faults_of media) ≡ 0) }
        ensures made { OnOk result (is_some self.new.made ≡ true) }
        ensures left { OnErr result (is_some self.new.made ≡ is_some self.old.made) }
        ensures names { IsNameTaken (D.taken self.old.folder) → IsErr result }
        ensures counted { IsMakingCounted self.old.faults self.new.faults result }
    {
        match make_in(&mut self.folder, capsule, long_term) {
            Ok(NewlyMade { media, folder }) => {
                self.made = Some(folder);
                Ok(media)
            }
            Err(why) => Err(self.refuse(why)),
        }
    }

    fn unmake(&mut self)
        ensures parts { (folder : Bool) → self.old.made ≡ Some folder → Removes (IsMadePart folder) (D.stands self.old.folder) (D.stands self.new.folder) }
        ensures none { is_some self.new.made ≡ false }
        ensures counted { self.new.faults ≡ self.old.faults }
    {
        if let Some(folder) = self.made {
            unmake_in(&mut self.folder, folder);
        }
        self.made = None;
    }
}
