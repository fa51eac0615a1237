// A sentence of IEC 61162-1, and its fields by number.
ghost use Rattle.std.specs.Prelude.{◌≡◌, slice_get, option_copied};
ghost use Rattle.vdr_sentence.specs.Addresses.{address_of};
ghost use Rattle.vdr_sentence.specs.Fields.{fields};
ghost use Rattle.vdr_sentence.specs.Sentences.{IsContent};

/// A sentence of IEC 61162-1 without its checksum.
#[derive(Clone, Copy, Debug, PartialEq, Eq, Drop)]
pub struct Sentence<'a> {
    /// `$` of a parametric sentence, `!` of an encapsulation sentence.
    pub start: u8,
    /// Talker and formatter, or a proprietary address.
    pub address: &'a [u8],
    /// The address and the fields, with the commas between them.
    pub content: &'a [u8],
    pub ghost legal: { IsContent start content.now },
    pub ghost addressed: { address.now ≡ address_of content.now },
}

// The part at n of a text that is cut at its commas.
fn part_at(text: &[u8], n: usize) -> Option<&[u8]>
    ensures { option_copied result ≡ slice_get (fields text.now) n }
{
    text.split(|byte| *byte == b',').nth(n)
}

impl<'a> Sentence<'a> {
    ghost use Rattle.std.specs.Prelude.{◌<◌, ◌⊎◌, ◌↔◌, IsNone};
    ghost use Rattle.vdr_sentence.specs.Fields.{field, field_count};

    /// How many fields stand behind the address.
    pub fn count(&self) -> usize
        ensures { result ≡ field_count self.now.content.now }
    {
        self.content.iter().filter(|byte| **byte == b',').count()
    }

    /// The `n`-th field, counted from 1. None exactly where `n` is 0 or above `count`.
    pub fn field(&self, n: usize) -> Option<&'a [u8]>
        ensures value { option_copied result ≡ field n self.now.content.now }
        ensures none { IsNone result ↔ ((n ≡ 0) ⊎ (field_count self.now.content.now < n)) }
    {
        if n == 0 {
            return None;
        }
        part_at(self.content, n)
    }
}
