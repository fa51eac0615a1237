// What a configuration needs, read from its text.
//
// 16,381 bytes are read at most: so many tell that a text is longer than the longest configuration.
ghost use Rattle.std.specs.Prelude.{◌≡◌, ◌≤◌, ◌⊎◌, ◌+◌, ◌++◌, Result, Ok, Err, length, IfOk, IsErrOf};
ghost use Rattle.std.specs.Io.KnownBytes.{Appends, IsAtEnd};
ghost use Rattle.arrayvec.specs.ArrayVec.{array_vec_len};
ghost use Rattle.vdr_outside.specs.Causes.{Rose};
ghost use Rattle.vdr_outside.specs.Writes.{AppendsFront};
ghost use Rattle.vdr_feed.specs.Reader.{IfKnown};
ghost use Rattle.vdr_config.specs.declared.bad.ConfigBad.{ConfigBad as Bad};
ghost use Rattle.vdr_config.specs.Configuration.{Configuration};
ghost use Rattle.vdr_config.specs.Grammar.{configuration, Refuses};
ghost use Rattle.vdr_tool.specs.Check.{IfChecked, IfRefused, IfRefusedText, check_text, groups_of, need_line};
ghost use Rattle.vdr_command.specs.Refusals.{number_of, refusal_line};
ghost use Rattle.vdr_tool.specs.Checks.{Checks, IsCheckStatus};
ghost use Rattle.vdr_command.specs.Endings.{IsWorkDone, ending};
ghost use Rattle.vdr_command.specs.StatusLine.{IfConfig, IsConfig, Wrote};
ghost use Rattle.vdr_tool.specs.declared.checking.CheckRefused.TheVariants.{Input};
ghost use Rattle.vdr_command.specs.declared.status.Status.TheVariants.{Done, InputFault, OutputFault, Words};

use arrayvec::ArrayVec;
use itoa::Buffer;
use std::alloc::Global;
use vdr_command::{Outer, ROOM, Status, World, number_of, push_text, report_refusal};
use vdr_config::{Config, ConfigBad, needs, read_config};
use vdr_outside::{Media, Sink, Source, fill, write_all};

/// So many bytes tell that a text is longer than the longest configuration.
pub(crate) const ENOUGH: usize = 16_381;

// Why a text has no needs.
#[derive(Drop)]
enum CheckRefused {
    Input,
    Memory,
    Refused(ConfigBad),
}

// A name and a number.
fn push_line(text: &mut ArrayVec<u8, ROOM>, name: &[u8], number: u64)
    requires { array_vec_len text.old + length name.now + 22 ≤ 200 }
    ensures line { text.new.items ≡ text.old.items ++ need_line name.now number }
    ensures short { array_vec_len text.new ≤ array_vec_len text.old + length name.now + 22 }
{
    push_text(text, name);
    push_text(text, b" ");
    push_text(text, Buffer::new().format(number).as_bytes());
    push_text(text, b"\n");
}

fn groups_of(config: &Config) -> usize
    ensures { result ≡ groups_of config.now }
{
    config.groups.iter().filter(|rate| rate.is_some()).count()
}

fn text_of(config: &Config) -> ArrayVec<u8, ROOM>
    ensures { result.items ≡ check_text config.now }
{
    let needs = needs(config);
    let mut text = ArrayVec::new();
    push_line(&mut text, b"groups", groups_of(config) as u64);
    push_line(&mut text, b"cost", needs.cost);
    push_line(&mut text, b"usable", needs.usable);
    push_line(&mut text, b"capsule", needs.capsule_slots);
    push_line(&mut text, b"longterm", needs.long_slots);
    if config.float_given {
        push_line(&mut text, b"floatfree", needs.float_slots);
    }
    text
}

// What a reading of a configuration ended with.
fn stopped_by(bad: ConfigBad) -> CheckRefused
    ensures refused { (grammar : Result Configuration Bad) → Refuses bad grammar → IfRefused result (λ b. grammar ≡ Err b) }
    ensures read { result ≡ Input → ⊥ }
{
    match bad {
        ConfigBad::NoMemory => CheckRefused::Memory,
        bad => CheckRefused::Refused(bad),
    }
}

// What the configuration that the input is needs. The input is read to its end, unless it is too long.
fn check<I: Source>(alloc: Global, input: &mut I) -> Result<ArrayVec<u8, ROOM>, CheckRefused>
    ensures text { IfOk result (λ text. IsAtEnd (I.left input.new) × IfChecked (I.left input.old) (λ needs. text.items ≡ needs)) }
    ensures refused { IfRefusedText result (λ bad. IfKnown (I.left input.old) (λ bytes. configuration bytes ≡ Err bad)) }
    ensures failed { IsErrOf result Input → Rose (I.faults input.old) (I.faults input.new) }
    ensures later { I.faults input.old ≤ I.faults input.new }
{
    let mut text = [0; ENOUGH];
    let Ok(count) = fill(input, &mut text) else {
        return Err(CheckRefused::Input);
    };
    match read_config(alloc, &text[..count]) {
        Ok(config) => Ok(text_of(&config)),
        Err(bad) => Err(stopped_by(bad)),
    }
}

// Reads a configuration and prints what it needs.
fn print_needs<I: Source, O: Sink>(
    alloc: Global,
    input: &mut I,
    output: &mut O,
) -> Result<(), Status>
    ensures statuses { IsCheckStatus (ending result) }
    ensures done { ending result ≡ Done → IsAtEnd (I.left input.new) × IfChecked (I.left input.old) (λ text. Appends (O.taken output.old) (O.taken output.new) text) }
    ensures config { IfConfig (ending result) (λ number. (bad : Bad) × (number_of bad ≡ number) × IfKnown (I.left input.old) (λ bytes. configuration bytes ≡ Err bad)
        × Wrote (refusal_line bad) (O.taken output.old) (O.taken output.new) (O.faults output.old) (O.faults output.new)) }
    ensures input { ending result ≡ InputFault → Rose (I.faults input.old) (I.faults input.new) }
    ensures output { ending result ≡ OutputFault → Rose (O.faults output.old) (O.faults output.new)
        × IfChecked (I.left input.old) (λ text. AppendsFront (O.taken output.old) (O.taken output.new) text) }
    ensures silent { IsWorkDone (ending result) ⊎ (IsConfig (ending result) ⊎ (output.new ≡ output.old)) }
    ensures later { O.faults output.old ≤ O.faults output.new }
{
    match check(alloc, input) {
        Ok(text) => match write_all(output, text.as_slice()) {
            Ok(()) => Ok(()),
            Err(_) => Err(Status::OutputFault),
        },
        Err(CheckRefused::Refused(bad)) => {
            report_refusal(&bad, output);
            Err(Status::Config {
                number: number_of(&bad),
            })
        }
        Err(CheckRefused::Input) => Err(Status::InputFault),
        Err(CheckRefused::Memory) => Err(Status::NoMemory),
    }
}

/// Prints what the configuration that the input is needs.
pub(crate) fn answer_check<I: Source + Drop, O: Sink + Drop, M: Media + Drop>(
    alloc: Global,
    world: &mut World<I, O, M>,
) -> Result<(), Status>
    ensures owed { let at = ⟦<World<I, O, M> as Outer>⟧.outside in Checks (at world.old) (at world.new) (ending result) }
    ensures known { ending result ≡ Words → ⊥ }
    ensures later { O.faults world.old.output ≤ O.faults world.new.output }
    ensures untouched { world.new.media ≡ world.old.media }
{
    print_needs(alloc, &mut world.input, &mut world.output)
}
