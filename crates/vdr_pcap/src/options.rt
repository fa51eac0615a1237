// The options of an interface and of statistics.
ghost use Rattle.std.specs.Prelude.{◌≡◌, ◌<◌, IfOk, None, take};
ghost use Rattle.vdr_outside.specs.Causes.{HasCause};
ghost use Rattle.vdr_pcap.specs.Options.{first_of, is_number, is_resolution, none_noted, noted_number, noted_resolution, noted_with, options_from, padded};
ghost use Rattle.vdr_pcap.specs.Seen.{ReadsOption, Takes};

use crate::filling::{LONGEST_FRONT, pass, read_all};
use crate::numbers::{u16_in, u64_in};
use vdr_outside::{Failed, Source};

/// What is noted of options: a resolution, and a number of 64 bits.
#[derive(Clone, Copy, Drop)]
pub(crate) struct Noted {
    pub(crate) resolution: Option<u8>,
    pub(crate) number: Option<u64>,
}

/// How the reading of options goes on.
#[derive(Clone, Copy, Drop)]
pub(crate) enum NextOption {
    /// The input ended.
    Short,
    /// No further option counts, this is what they say, and so many bytes are left of them.
    Last(Option<Noted>, usize),
    /// This is noted, and so many bytes are left.
    More(Noted, usize),
}

// Whether a block of this type says its resolution by this code.
fn is_resolution(kind: u32, code: u16) -> bool
    ensures { result ≡ is_resolution kind code }
{
    kind == 1 && code == 9
}

// Whether it says a number by this code.
fn is_number(kind: u32, code: u16) -> bool
    ensures { result ≡ is_number kind code }
{
    (kind == 1 && code == 14) || (kind == 5 && code == 5)
}

// A size with its padding to a multiple of four.
fn padded(size: u16) -> usize
    ensures { result ≡ padded size }
{
    4 * ((usize::from(size) + 3) / 4)
}

// The first of two counts.
fn with_resolution(noted: Noted, value: u8) -> Noted
    ensures { result ≡ record { resolution = first_of noted.resolution value; number = noted.number } }
{
    Noted {
        resolution: Some(noted.resolution.unwrap_or(value)),
        number: noted.number,
    }
}

fn with_number(noted: Noted, value: u64) -> Noted
    ensures { result ≡ record { resolution = noted.resolution; number = first_of noted.number value } }
{
    Noted {
        resolution: noted.resolution,
        number: Some(noted.number.unwrap_or(value)),
    }
}

// Passes over a value that has a size that it may not have.
fn pass_bad<I: Source>(
    input: &mut I,
    size: u16,
    scratch: &mut [u8; LONGEST_FRONT],
) -> Result<Option<Option<Noted>>, Failed>
    ensures read { IfOk result (λ said. Takes (I.left input.old) (I.left input.new) (padded size) (λ bytes more. more ≡ None) said) }
    ensures cause { HasCause (I.faults input.old) (I.faults input.new) result }
{
    if !pass(input, padded(size), scratch)? {
        return Ok(None);
    }
    Ok(Some(None))
}

// Reads a resolution and its padding.
fn read_resolution<I: Source>(
    input: &mut I,
    size: u16,
    noted: Noted,
    scratch: &mut [u8; LONGEST_FRONT],
) -> Result<Option<Option<Noted>>, Failed>
    ensures read { IfOk result (λ said. Takes (I.left input.old) (I.left input.new) (padded size)
        (λ bytes more. more ≡ noted_resolution size (take size bytes) noted) said) }
    ensures cause { HasCause (I.faults input.old) (I.faults input.new) result }
{
    if size != 1 {
        return pass_bad(input, size, scratch);
    }
    let mut value = [0; 4];
    if !read_all(input, &mut value)? {
        return Ok(None);
    }
    Ok(Some(Some(with_resolution(noted, value[0]))))
}

// Reads a number and its padding.
fn read_number<I: Source>(
    input: &mut I,
    big: bool,
    size: u16,
    noted: Noted,
    scratch: &mut [u8; LONGEST_FRONT],
) -> Result<Option<Option<Noted>>, Failed>
    ensures read { IfOk result (λ said. Takes (I.left input.old) (I.left input.new) (padded size)
        (λ bytes more. more ≡ noted_number big size (take size bytes) noted) said) }
    ensures cause { HasCause (I.faults input.old) (I.faults input.new) result }
{
    if size != 8 {
        return pass_bad(input, size, scratch);
    }
    let mut value = [0; 8];
    if !read_all(input, &mut value)? {
        return Ok(None);
    }
    Ok(Some(Some(with_number(noted, u64_in(big, 0, &value)))))
}

// Reads the value of an option and its padding, and says what is then noted; Some(None) where it has a size that it may not
// have, and None where the input ends.
fn read_value<I: Source>(
    input: &mut I,
    big: bool,
    kind: u32,
    code: u16,
    size: u16,
    noted: Noted,
    scratch: &mut [u8; LONGEST_FRONT],
) -> Result<Option<Option<Noted>>, Failed>
    ensures read { IfOk result (λ said. Takes (I.left input.old) (I.left input.new) (padded size)
        (λ bytes more. more ≡ noted_with big kind code size (take size bytes) noted) said) }
    ensures cause { HasCause (I.faults input.old) (I.faults input.new) result }
{
    if is_resolution(kind, code) {
        return read_resolution(input, size, noted, scratch);
    }
    if is_number(kind, code) {
        return read_number(input, big, size, noted, scratch);
    }
    if !pass(input, padded(size), scratch)? {
        return Ok(None);
    }
    Ok(Some(Some(noted)))
}

// Reads one option where so many bytes of options are left.
fn read_option<I: Source>(
    input: &mut I,
    big: bool,
    kind: u32,
    noted: Noted,
    left: usize,
    scratch: &mut [u8; LONGEST_FRONT],
) -> Result<NextOption, Failed>
    requires { 0 < left }
    ensures read { IfOk result (λ next. ReadsOption (I.left input.old) (I.left input.new) big kind noted left next) }
    ensures cause { HasCause (I.faults input.old) (I.faults input.new) result }
{
    if left < 4 {
        return Ok(NextOption::Last(None, left));
    }
    let mut head = [0; 4];
    if !read_all(input, &mut head)? {
        return Ok(NextOption::Short);
    }
    let code = u16_in(big, 0, &head);
    let size = u16_in(big, 2, &head);
    if code == 0 {
        return Ok(NextOption::Last(Some(noted), left - 4));
    }
    if padded(size) > left - 4 {
        return Ok(NextOption::Last(None, left - 4));
    }
    match read_value(input, big, kind, code, size, noted, scratch)? {
        None => Ok(NextOption::Short),
        Some(None) => Ok(NextOption::Last(None, left - 4 - padded(size))),
        Some(Some(more)) => Ok(NextOption::More(more, left - 4 - padded(size))),
    }
}

/// Reads so many bytes of options, and says what they note; Some(None) where one has a length that it may not have or passes their
/// end, and None where the input ends before.
pub(crate) fn read_options<I: Source>(
    input: &mut I,
    big: bool,
    kind: u32,
    size: usize,
    scratch: &mut [u8; LONGEST_FRONT],
) -> Result<Option<Option<Noted>>, Failed>
    ensures read { IfOk result (λ said. Takes (I.left input.old) (I.left input.new) size
        (λ bytes noted. noted ≡ options_from big kind none_noted 0 bytes) said) }
    ensures cause { HasCause (I.faults input.old) (I.faults input.new) result }
{
    let mut left = size;
    let mut noted = Noted {
        resolution: None,
        number: None,
    };
    while left > 0 {
        match read_option(input, big, kind, noted, left, scratch)? {
            NextOption::Short => return Ok(None),
            NextOption::Last(said, after) => {
                if !pass(input, after, scratch)? {
                    return Ok(None);
                }
                return Ok(Some(said));
            }
            NextOption::More(next, after) => {
                noted = next;
                left = after;
            }
        }
    }
    Ok(Some(Some(noted)))
}
