// Which channels of a configuration select a datagram, as bits.
//
// A channel's formatter and source are met by one line. A sentence datagram without a good line is selected by no
// channel, and an opaque one selects bytes without a token too: whether it is asked of such is for its callers. A
// source of an image that has not six bytes selects none.
ghost use Rattle.std.specs.Prelude.{◌≡◌, ◌<◌, ◌≤◌, ◌^◌, ◌↔◌, ◌&&◌, ◌==◌, ℕ, true, Some, length, slice_get};
ghost use Rattle.std.specs.Int.{bit_at};
ghost use Rattle.std.specs.List.{list_any};
ghost use Rattle.vdr_config.specs.Configuration.{Selector};
ghost use Rattle.vdr_datagram.specs.Channels.{bits_where, channel_bits, selects};
ghost use Rattle.vdr_datagram.specs.Marks.{shows, takes_line};
ghost use Rattle.vdr_datagram.specs.Verdicts.{line_spans};
ghost use Rattle.vdr_datagram.specs.Views.{verdict_of};

use crate::front::token;
use crate::line::LineVerdict;
use crate::marks::{Mark, formatter_of, mark_of, shows};
use crate::sentences::lines;
use crate::tokens::Token;
use vdr_config::{Channel, Config};

// Bit k for each channel k of the group that the mark shows to select the datagram.
fn bits_of_mark(channels: &[Channel], group: u8, mark: &Mark<'_>) -> u64
    requires { length channels.now ≤ 64 }
    ensures { result ≡ bits_where (λ c. (c.group == group) && shows mark.now c.kind) channels.now }
{
    let mut bits = 0;
    for k in (0..channels.len()).rev() {
        let channel = &channels[k];
        let is_selecting = channel.group == group && shows(mark, &channel.kind);
        bits = 2 * bits + u64::from(is_selecting);
    }
    bits
}

// Bit k for each channel k of the group that selects a datagram with this line.
fn bits_of_line(channels: &[Channel], group: u8, line: &LineVerdict<'_>) -> u64
    requires { length channels.now ≤ 64 }
    ensures { result ≡ bits_where (λ c. (c.group == group) && takes_line (verdict_of line.now) c.kind) channels.now }
{
    match line {
        LineVerdict::Good { tags, sentence } => {
            let mark = Mark::Line {
                formatter: formatter_of(sentence.address),
                source: tags.source,
            };
            bits_of_mark(channels, group, &mark)
        }
        _ => 0,
    }
}

// Whether some channel is of the group.
fn has_channel(channels: &[Channel], group: u8) -> bool
    ensures { result ≡ list_any (λ c. c.group == group) channels.now }
{
    channels.iter().any(|channel| channel.group == group)
}

// Bit k for each channel k of the group that selects the datagram for one of its lines. Where the group has no channel, no line is
// looked for.
fn bits_of_lines(channels: &[Channel], group: u8, bytes: &[u8]) -> u64
    requires { length channels.now ≤ 64 }
    ensures { result ≡ bits_where (λ c. (c.group == group) && list_any (λ line. takes_line line.verdict c.kind) (line_spans bytes.now)) channels.now }
{
    if !has_channel(channels, group) {
        return 0;
    }
    let mut bits = 0;
    for line in lines(bytes) {
        bits |= bits_of_line(channels, group, &line.verdict);
    }
    bits
}

/// Bit k exactly where channel k of the configuration selects this datagram of the group with this number (this project's
/// profile). A channel selects datagrams of its own group alone:
///
/// - a channel of sentences, a sentence datagram that has some good line with the channel's formatter and source, each where it is given;
/// - a channel of images, an image datagram of the profile, of the channel's source where it is given;
/// - a channel of sound, a PCM frame of the channel's microphone;
/// - an opaque channel, a datagram that is none of these three.
///
/// The bytes may be any, and are read once for all channels.
pub fn channel_bits(config: &Config, group: u8, bytes: &[u8]) -> u64
    ensures bits { result ≡ channel_bits config.now.channels group bytes.now }

    // The same of each bit.
    ensures each { (k : ℕ) (c : Selector) → slice_get config.now.channels k ≡ Some c
        → (bit_at result k ≡ 1) ↔ ((c.group ≡ group) × (selects c.kind bytes.now ≡ true)) }
    ensures no_other { result < 2 ^ length config.now.channels }
{
    match token(bytes) {
        Token::Sentences => bits_of_lines(&config.channels, group, bytes),
        _ => bits_of_mark(&config.channels, group, &mark_of(bytes)),
    }
}
