// How long a peer may keep a reply waiting, counted in looks for room and not in time. A peer that reads gives looks back, since
// the windows of TCP open in steps: who takes a long reply slowly but steadily has it whole.
use crate::tcp::LOOK;

/// How many looks in vain a peer has for the reply to a line: four fifths of a second, so that who asks behind it has an answer
/// within one.
const MOST_LOOKS: u64 = 800 / LOOK;

/// Who takes fewer bytes between two looks is waited for, and not only busy: that is less than 1,638,400 bytes a second.
const FEW: usize = 8192;

/// What is left of a peer's patience for the reply to a line.
#[derive(Drop)]
pub(crate) struct Patience {
    // How many looks were in vain and not given back.
    looks: u64,
    // How many bytes it took since the last look for room.
    taken: usize,
}

impl Patience {
    pub(crate) fn new() -> Patience {
        Patience { looks: 0, taken: 0 }
    }

    /// It took so many bytes.
    pub(crate) fn takes(&mut self, count: usize) {
        self.taken = self.taken.saturating_add(count);
    }

    /// Whether it is looked for room once more. What it took since the last look gives back a look for each 8,192 bytes.
    pub(crate) fn lasts(&mut self) -> bool {
        if self.taken < FEW {
            self.looks = self.looks.saturating_add(1);
        } else {
            self.looks = self.looks.saturating_sub((self.taken / FEW) as u64);
        }
        self.taken = 0;
        self.looks <= MOST_LOOKS
    }
}
