// The counts of what becomes of a capture's packets.
ghost use Rattle.std.specs.Prelude.{◌≡◌, List, ℕ, get_or};
ghost use Rattle.vdr_pcap.specs.Account.{Given, LeftOut, more_at, no_account, received_at, stamped, with_fate};

/// The rows of packets that are left out: the causes, behind `port` the ports 60017 to 60064, a stamp that is none, and a packet of a
/// block that is not read.
pub const ROWS: usize = 57;

/// What became of a capture's packets so far. Each count stands still at the greatest u64.
#[derive(Drop)]
pub struct Account {
    // All packets, and the packet blocks that are not read.
    packets: u64,
    // Of each group, the datagrams that are whole, and those that are cut.
    whole: [u64; 16],
    cut: [u64; 16],
    // The packets left out, by rows.
    left: [u64; ROWS],
    // Items with a stamp below that of one before.
    back: u64,
    // The items, the stamp of the first of them, and the greatest stamp.
    items: u64,
    first: u64,
    greatest: u64,
}

// A count with one more.
fn count_at(counts: &mut [u64], at: usize)
    ensures { counts.new ≡ more_at at counts.old }
{
    if at < counts.len() {
        counts[at] = counts[at].saturating_add(1);
    }
}

impl Account {
    /// Before any packet.
    pub(crate) fn new() -> Account
        ensures { result ≡ no_account }
    {
        Account {
            packets: 0,
            whole: [0; 16],
            cut: [0; 16],
            left: [0; ROWS],
            back: 0,
            items: 0,
            first: 0,
            greatest: 0,
        }
    }

    /// All packets, and the packet blocks that are not read.
    pub fn packets(&self) -> u64
        ensures { result ≡ self.now.packets }
    {
        self.packets
    }

    /// The whole datagrams to a group's port, 0 of a group above 15.
    pub fn whole(&self, group: u8) -> u64
        ensures { result ≡ get_or self.now.whole group 0 }
    {
        if group > 15 {
            0
        } else {
            self.whole[group as usize]
        }
    }

    /// The datagrams to a group's port that were captured in part, 0 of a group above 15.
    pub fn cut(&self, group: u8) -> u64
        ensures { result ≡ get_or self.now.cut group 0 }
    {
        if group > 15 {
            0
        } else {
            self.cut[group as usize]
        }
    }

    /// The packets left out for the cause of a row, 0 of a row above 56.
    pub fn left(&self, row: usize) -> u64
        ensures { result ≡ get_or self.now.left row 0 }
    {
        if row >= ROWS { 0 } else { self.left[row] }
    }

    /// The items with a stamp below that of one before.
    pub fn back(&self) -> u64
        ensures { result ≡ self.now.back }
    {
        self.back
    }

    /// The items.
    pub fn items(&self) -> u64
        ensures { result ≡ self.now.items }
    {
        self.items
    }

    // When an item of this stamp is received: the greatest stamp so far, counted from the first item's.
    pub(crate) fn received(&self, utc: u64) -> u64
        ensures { result ≡ received_at self.now utc }
    {
        if self.items == 0 {
            return self.greatest.max(utc) - utc;
        }
        self.greatest.max(utc).saturating_sub(self.first)
    }

    // One more item of this stamp.
    fn stamp(&mut self, utc: u64)
        ensures { self.new ≡ stamped utc self.old }
    {
        if self.items == 0 {
            self.first = utc;
        }
        self.items = self.items.saturating_add(1);
        if utc < self.greatest {
            self.back = self.back.saturating_add(1);
        }
        self.greatest = self.greatest.max(utc);
    }

    // One more packet, which is left out.
    pub(crate) fn leave(&mut self, row: usize)
        ensures { self.new ≡ with_fate (LeftOut row) self.old }
    {
        self.packets = self.packets.saturating_add(1);
        count_at(&mut self.left, row);
    }

    // One more packet, a datagram with this stamp.
    pub(crate) fn give(&mut self, group: u8, utc: u64, whole: bool)
        ensures { (payload : List ℕ) → self.new ≡ with_fate (Given (record { group = group; utc = utc; payload = payload; is_whole = whole })) self.old }
    {
        self.packets = self.packets.saturating_add(1);
        self.stamp(utc);
        if whole {
            count_at(&mut self.whole, usize::from(group));
        } else {
            count_at(&mut self.cut, usize::from(group));
        }
    }
}
