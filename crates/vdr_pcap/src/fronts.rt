// A packet of pcap that lies whole at the front of some bytes.
ghost use Rattle.std.specs.Prelude.{◌≡◌, ◌≤◌, None, false, IfSome};
ghost use Rattle.vdr_terms.specs.Stamps.{last_stamp};
ghost use Rattle.vdr_pcap.specs.Packets.{Standing};
ghost use Rattle.vdr_pcap.specs.declared.form.Form.TheVariants.{Packets};
ghost use Rattle.vdr_pcap.specs.Within.{IsFront, is_whole};

use crate::filling::LONGEST_FRONT;
use crate::numbers::u32_in;
use crate::stamps::stamp_of_fraction;

/// A packet: how many bytes it has with its head, the type of its link, its stamp where it has one, and the front of its bytes that is
/// looked at.
#[derive(Clone, Copy, Drop)]
pub(crate) struct Front<'a> {
    pub(crate) size: usize,
    pub(crate) link: u16,
    pub(crate) stamp: Option<u64>,
    pub(crate) bytes: &'a [u8],
}

// Whether a packet lies whole at the front of some bytes.
fn is_whole(big: bool, bytes: &[u8]) -> bool
    ensures { result ≡ is_whole big bytes.now }
{
    if bytes.len() < 16 {
        return false;
    }
    let captured = u32_in(big, 8, bytes) as usize;
    captured <= 262_144 && captured <= bytes.len() - 16
}

/// The packet that lies whole at the front of some bytes.
pub(crate) fn packet_front(big: bool, nano: bool, link: u16, bytes: &[u8]) -> Option<Front<'_>>
    ensures found { IfSome result (λ f. (s : Standing) → s.form ≡ Packets big nano link → IsFront s bytes.now f) }
    ensures none { result ≡ None → is_whole big bytes.now ≡ false }
    ensures stamp { IfSome result (λ f. IfSome f.stamp (λ t. t ≤ last_stamp)) }
{
    if !is_whole(big, bytes) {
        return None;
    }
    let captured = u32_in(big, 8, bytes) as usize;
    let kept = captured.min(LONGEST_FRONT);
    Some(Front {
        size: 16 + captured,
        link,
        stamp: stamp_of_fraction(nano, u32_in(big, 0, bytes), u32_in(big, 4, bytes)),
        bytes: &bytes[16..16 + kept],
    })
}
