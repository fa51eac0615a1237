// How a recorder refuses an order, and the status for it.
ghost use Rattle.std.specs.Prelude.{◌≡◌, ◌≢◌, ◌⊎◌, ℕ, List, IfNone, IfSome, IsNone};
ghost use Rattle.vdr_client.specs.Orders.{gone_line, no_file_line, refusal, status_code, status_line};
ghost use Rattle.vdr_client.specs.declared.told.Told.TheVariants.{Words, Damaged, Media, Memory};

/// What a recorder tells of an order that it did not do.
#[derive(Clone, Copy, Drop)]
pub enum Told {
    /// The line asks for no order.
    Words,
    /// A part of its media is not legal.
    Damaged,
    /// Its media failed.
    Media,
    /// It had no memory for the reply.
    Memory,
    /// No such incident is saved, or no such channel is configured.
    NotThere,
    /// The label is not 1 to 64 bytes of 0x20 to 0x7E.
    Label,
    /// Nothing is recorded.
    Nothing,
    /// Each incident that the media have room for is live.
    Full,
}

/// What the first line of a reply, without its LF, tells of an order that was not done. None where it tells something else.
pub fn told_of(line: &[u8]) -> Option<Told>
    ensures told { IfSome result (λ told. line.now ≡ refusal told) }
    ensures none { IsNone result → (told : _) → line.now ≢ refusal told }
{
    if line == b"REFUSED 2".as_slice() {
        return Some(Told::Words);
    }
    if line == b"FAULT 4".as_slice() {
        return Some(Told::Damaged);
    }
    if line == b"FAULT 5".as_slice() {
        return Some(Told::Media);
    }
    if line == b"FAULT 9".as_slice() {
        return Some(Told::Memory);
    }
    refused_of(line)
}

// The same of what the media refuse.
fn refused_of(line: &[u8]) -> Option<Told>
    ensures told { IfSome result (λ told. line.now ≡ refusal told) }
    ensures none { IsNone result → (told : _) → line.now ≡ refusal told → (told ≡ Words) ⊎ (told ≡ Damaged) ⊎ (told ≡ Media) ⊎ (told ≡ Memory) }
{
    if line == b"REFUSED 11".as_slice() {
        return Some(Told::NotThere);
    }
    if line == b"REFUSED 12 label".as_slice() {
        return Some(Told::Label);
    }
    if line == b"REFUSED 12 nothing".as_slice() {
        return Some(Told::Nothing);
    }
    if line == b"REFUSED 12 full".as_slice() {
        return Some(Told::Full);
    }
    None
}

/// Why there is no such file, in the words behind `REFUSED 14 `, which is how a command ends with status 14. None where the first line of a
/// reply, without its LF, begins otherwise.
pub fn no_file(line: &[u8]) -> Option<&[u8]>
    ensures told { IfSome result (λ why. line.now ≡ no_file_line why.now) }
    ensures none { IfNone result ((why : List ℕ) → line.now ≢ no_file_line why) }
{
    line.strip_prefix(b"REFUSED 14 ")
}

/// From which place on records of a play were written over before they were sent, in the digits behind `GONE `. None where a line of a reply,
/// without its LF, begins otherwise.
pub fn gone_from(line: &[u8]) -> Option<&[u8]>
    ensures told { IfSome result (λ place. line.now ≡ gone_line place.now) }
    ensures none { IfNone result ((place : List ℕ) → line.now ≢ gone_line place) }
{
    line.strip_prefix(b"GONE ")
}

impl Told {
    /// The exit status.
    pub fn code(self) -> u8
        ensures { result ≡ status_code self }
    {
        match self {
            Told::Words => 2,
            Told::Damaged => 4,
            Told::Media => 5,
            Told::Memory => 9,
            Told::NotThere => 11,
            Told::Label | Told::Nothing | Told::Full => 12,
        }
    }

    /// The status line.
    pub fn line(self) -> &'static str
        ensures { result.now ≡ status_line self }
    {
        match self {
            Told::Words => "status 2 words\n",
            Told::Damaged => "status 4 damaged\n",
            Told::Media => "status 5 media\n",
            Told::Memory => "status 9 memory\n",
            Told::NotThere => "status 11\n",
            Told::Label => "status 12 label\n",
            Told::Nothing => "status 12 nothing\n",
            Told::Full => "status 12 full\n",
        }
    }
}
