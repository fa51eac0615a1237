// What stands behind the header of a link.
ghost use Rattle.std.specs.Prelude.{◌≡◌, ◌≤◌, ◌+◌, length};
ghost use Rattle.vdr_frame.specs.Links.{behind_family, behind_link, behind_tags, behind_type, behind_version, is_loopback, is_raw, is_tag, of_type};
ghost use Rattle.vdr_frame.specs.Outcomes.{bytes_of};

use crate::found::Cause;
use crate::numbers::u16_at;

const IPV4: u16 = 0x0800;

const IPV6: u16 = 0x86DD;

// How many tags may stand in front of a packet.
const MOST_TAGS: u8 = 2;

// A tag of 802.1Q, of a provider's bridge, or of an older one.
fn is_tag(kind: u16) -> bool
    ensures { result ≡ is_tag kind }
{
    kind == 0x8100 || kind == 0x88A8 || kind == 0x9100
}

// What stands behind a header with this type.
fn of_type(kind: u16, rest: &[u8]) -> Result<&[u8], Cause>
    ensures { bytes_of result ≡ of_type kind rest.now }
{
    match kind {
        IPV4 => Ok(rest),
        IPV6 => Err(Cause::Ipv6),
        _ => Err(Cause::Protocol),
    }
}

// The same, behind at most so many tags.
fn behind_tags(tags: u8, kind: u16, rest: &[u8]) -> Result<&[u8], Cause>
    ensures { bytes_of result ≡ behind_tags tags kind rest.now }
{
    if tags == 0 || !is_tag(kind) {
        return of_type(kind, rest);
    }
    if rest.len() < 4 {
        return Err(Cause::Short);
    }
    behind_tags(tags - 1, u16_at(rest, 2), &rest[4..])
}

// Behind a header of `size` bytes with a type at `at`.
fn behind_type(bytes: &[u8], at: usize, size: usize) -> Result<&[u8], Cause>
    requires { at + 2 ≤ size }
    ensures { bytes_of result ≡ behind_type bytes.now at size }
{
    if bytes.len() < size {
        return Err(Cause::Short);
    }
    behind_tags(MOST_TAGS, u16_at(bytes, at), &bytes[size..])
}

// Behind the address family of a loopback, in the order of bytes of either kind of host.
fn behind_family(bytes: &[u8]) -> Result<&[u8], Cause>
    ensures { bytes_of result ≡ behind_family bytes.now }
{
    if bytes.len() < 4 {
        return Err(Cause::Short);
    }
    match [bytes[0], bytes[1], bytes[2], bytes[3]] {
        [2, 0, 0, 0] | [0, 0, 0, 2] => Ok(&bytes[4..]),
        [10 | 24 | 28 | 30, 0, 0, 0] | [0, 0, 0, 10 | 24 | 28 | 30] => Err(Cause::Ipv6),
        _ => Err(Cause::Protocol),
    }
}

// Behind no header: the version of IP tells.
fn behind_version(bytes: &[u8]) -> Result<&[u8], Cause>
    ensures { bytes_of result ≡ behind_version bytes.now }
{
    if bytes.is_empty() {
        return Err(Cause::Short);
    }
    match bytes[0] / 16 {
        4 => Ok(bytes),
        6 => Err(Cause::Ipv6),
        _ => Err(Cause::Protocol),
    }
}

fn is_loopback(link: u16) -> bool
    ensures { result ≡ is_loopback link }
{
    link == 0 || link == 108
}

fn is_raw(link: u16) -> bool
    ensures { result ≡ is_raw link }
{
    link == 12 || link == 14 || link == 101 || link == 228 || link == 229
}

// The IPv4 packet behind the header of a link of this type, or why there is none.
pub(crate) fn behind_link(link: u16, bytes: &[u8]) -> Result<&[u8], Cause>
    ensures { bytes_of result ≡ behind_link link bytes.now }
{
    match link {
        1 => behind_type(bytes, 12, 14),
        113 => behind_type(bytes, 14, 16),
        276 => behind_type(bytes, 0, 20),
        _ if is_loopback(link) => behind_family(bytes),
        _ if is_raw(link) => behind_version(bytes),
        _ => Err(Cause::Link),
    }
}
