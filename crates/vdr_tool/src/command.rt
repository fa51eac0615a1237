// The commands that wait for nobody, behind their words.
ghost use Rattle.std.specs.Prelude.{◌≡◌, ◌≤◌, ◌⊎◌, length};
ghost use Rattle.vdr_tool.specs.Commands.{plain};
ghost use Rattle.vdr_command.specs.Endings.{ending};
ghost use Rattle.vdr_recorder.specs.Watched.{nothing_told};
ghost use Rattle.vdr_tool.specs.Lives.{KeepsLife};
ghost use Rattle.vdr_tool.specs.Answers.{Answers, Completes};
ghost use Rattle.vdr_tool.specs.Runs.{Asks, Runs, TouchesAsked, page};
ghost use Rattle.vdr_command.specs.declared.status.Status.TheVariants.{Words};

use crate::checking::answer_check;
use crate::counting_packets::answer_packets;
use crate::formatting::answer_format;
use crate::importing::answer_import;
use crate::releasing::answer_release;
use crate::replaying::answer_replay;
use crate::reviewing::answer_review;
use crate::saving::answer_save;
use crate::trying::answer_trial;
use crate::verifying::answer_verify;
use crate::words::{Command, command_of};
use std::alloc::Global;
use vdr_command::{Outer, Status, World, report};
use vdr_outside::{Media, Sink, Source};
use vdr_readout::{
    answer_compare, answer_evidence, answer_incidents, answer_info, answer_page, answer_reading,
    answer_rescue, answer_rescue_info,
};
use vdr_recorder::{Nobody, Watch};

// Does what a command asks for, up to the line of its status.
fn answer<I: Source + Drop, O: Sink + Drop, M: Media + Drop, W: Watch<M>>(
    alloc: Global,
    command: Command<'_>,
    world: &mut World<I, O, M>,
    watch: &mut W,
) -> Result<(), Status>
    requires legal { (page (plain command)).legal }
    requires two { 2 ≤ length (M.disk world.old.media).sizes }
    requires three { length (M.disk world.old.media).sizes ≤ 3 }
    ensures owed { let at = ⟦<World<I, O, M> as Outer>⟧.outside in (page (plain command.entry)).owes (at world.old) (at world.new) W.hears (W.seen watch.new) (ending result) }
    ensures known { ending result ≡ Words → ⊥ }
    ensures later { O.faults world.old.output ≤ O.faults world.new.output }
    ensures sizes { (M.disk world.new.media).sizes ≡ (M.disk world.old.media).sizes }
    ensures unread { (page (plain command.entry)).reads_input ⊎ (world.new.input ≡ world.old.input) }
    ensures untouched { (page (plain command.entry)).uses_media ⊎ (world.new.media ≡ world.old.media) }
{
    match command {
        Command::Review { rate } => answer_review(alloc, rate, world),
        Command::Check => answer_check(alloc, world),
        Command::Format { again } => answer_format(alloc, again, world),
        Command::Replay => answer_replay(alloc, world, watch),
        Command::Read(reading) => answer_reading(alloc, reading, world),
        Command::Evidence(wanted) => answer_evidence(alloc, wanted, world),
        Command::Page(wanted, words) => answer_page(alloc, wanted, &words, world),
        Command::Incidents => answer_incidents(alloc, world),
        Command::Info => answer_info(alloc, world),
        Command::Save { label } => answer_save(alloc, label, world, watch),
        Command::Release { id } => answer_release(alloc, id, world, watch),
        Command::Trial { seed, count } => answer_trial(alloc, seed, count, world),
        Command::Import => answer_import(world),
        Command::Packets => answer_packets(world),
        Command::Verify => answer_verify(alloc, world),
        Command::Rescue(reading) => answer_rescue(alloc, reading, world),
        Command::RescueInfo { medium } => answer_rescue_info(alloc, medium, world),
        Command::Compare => answer_compare(alloc, world),
    }
}

/// Does what the words ask for, of all that waits for nobody, and tells how it ended.
///
/// - `review` reads a feed from the input to its end and prints the Datagram and Gap records of the last 172,800 seconds
///   of its recording, which has no channels.
/// - `review D B` does so with D datagrams (1 to 10,000) and B bytes (6 to 10,000,000) a second for each group.
/// - `check` reads a configuration from the input and prints what it needs: `groups`, `cost`, `usable`, `capsule` and
///   `longterm`, each with its number in a line. Of a text that is too long it reads 16,381 bytes.
/// - `format` reads a configuration so, and formats the capsule and the long-term medium with it, unless they are formatted
///   already. `reformat` formats them in any case. What they held is lost. They print nothing.
/// - `replay` reads a feed from the input and records it on the media as one run, and prints the summary of the run: for each
///   configured group `GROUP taken N recorded N full N rate N bad N large N`, and then `records N`.
/// - `play MEDIUM CHANNEL FROM TO` reads no input. It prints what stands on the media: of `capsule` or `longterm` the records of
///   the window, of `incident-ID` those of the incident that is saved under this id, 1 to 32. Of them it prints those of the
///   channel, or all where CHANNEL is `all`, whose UTC stamps are from FROM to TO; `-` is no bound.
/// - `values MEDIUM CHANNEL FROM TO` reads no input. It prints the table of the values that these records say, as `vdr_rows::Rows` does: a
///   header, and a row for each value, in order of place, of line and of field.
/// - `track MEDIUM SOURCE FROM TO` reads no input. It prints the track of the source, 1 to 15 bytes of 0x21 to 0x7E, or `-` for lines that
///   name none, by all records whose UTC stamps are from FROM to TO, as `vdr_track::Track` does.
/// - `incidents` reads no input. It prints the saved incidents that are live, in the order of their ids, each as a line
///   `ID TICK UTC A B LABEL`: tick and UTC of its last record, its first and its last place, and its label.
/// - `info` reads no input. It prints what both media are: of each a line `MEDIUM slots N segment N used N first PLACE UTC last PLACE UTC
///   seconds N`, then the lines of `incidents`, `configuration BYTES SHA256`, and the configuration's text as it stands.
/// - `save LABEL` reads no input. It saves an incident, as `vdr_recorder::Recorder::save` does, and prints its id and LF. The label
///   is 1 to 64 bytes of 0x20 to 0x7E. Where the output fails the save stays.
/// - `release ID` reads no input and prints nothing. It releases the incident of this id, 1 to 32.
/// - `sources MEDIUM` reads no input. It prints the table of sources of the window of `capsule` or `longterm`, or of the incident
///   `incident-ID`: for each group and source a line `GROUP SOURCE FIRST LAST LINES BAD BREAKS`, by group and then by source in byte
///   order.
/// - `watch MEDIUM` reads no input. It prints what heartbeats and alarms show of the equipment in the window or the incident, as
///   `vdr_watch::Watch` does, in order of place.
/// - `runs MEDIUM` reads no input. It prints when the recorder ran, by the records of the window or the incident, as `vdr_runs::Runs` does:
///   for each run a line `A B FROM TO STATE TICK` and below it what the run missed, by cause.
/// - `digest MEDIUM` reads no input. It prints the digest of the records of the window or the incident, as `vdr_digest::Digester` does: for
///   each hour of recording time a line `HOUR A B RECORDS HEX`, and the same of all lines above.
/// - `evidence MEDIUM CHANNEL FROM TO` reads no input. It writes the records that `play` prints for these words as an evidence file, as
///   `vdr_evidence::EvidenceWriter` does: behind the configuration's text, the medium, the incident and the query, and before the SHA-256
///   of all.
/// - `page MEDIUM FROM TO` reads no input. It writes a page of the records that `play MEDIUM all FROM TO` prints: one HTML file that a browser shows,
///   as `vdr_export::write_page` does.
/// - `trial SEED COUNT` reads no input. It formats the media with the bench configuration, unless they are formatted already, records the
///   first COUNT items of the generated feed from SEED on (`vdr_feed::GeneratedFeed`; SEED is 0 to 2,147,483,647, COUNT 0 to 1,000,000)
///   as `replay` does, opens the media again, and prints `taken N recorded N rate N`, `records N`, `capsule N` and `longterm N`: the sums
///   of the run, its records, and how many of them stand in the windows of both media.
/// - `targets MEDIUM AT` reads no input. It prints the table of the ships that the AIS messages of these records report, up to the UTC
///   stamp AT, or all where AT is `-`: for each a line `MMSI UTC REPORTS LATITUDE LONGITUDE SPEED COURSE HEADING NAME`, by MMSI.
///
/// - `import` reads a capture from the input to its end, a pcap or a pcapng file, and writes the feed of its datagrams to the ports of the
///   transmission groups, each as soon as it was read.
/// - `packets` reads a capture so, and prints what became of its packets: `packets N`, of each group `GROUP whole N cut N`, of each cause
///   `left CAUSE N`, and `lost N` and `back N`.
/// - `verify` reads an evidence file from the input to its end, and prints what it holds, as `vdr_verify::verify` does. A file that is none ends
///   with `NoEvidence` at its first part that is not legal.
/// - `rescue COMMAND WORDS` reads no input. COMMAND is `play`, `values`, `track`, `sources`, `watch`, `runs`, `digest`,
///   `targets`, `wav`, `picture` or `pictures`. It reads the medium that they ask for alone, for `incident-ID` the long-term one, whole,
///   cut short or damaged, writes to none, and prints what they print of each record that legally stands there; then,
///   but for `wav`, `picture` and `pictures`, `missing A B` for places that the medium owes and lacks, by place,
///   `damaged OFFSET` by offset, and `closed OFFSET`. It ends with `Damaged` at the first such offset, or else with
///   `Missing`.
/// - `rescue info MEDIUM` reads `capsule` or `longterm` so, and prints before these lines what `info` prints of it.
/// - `compare` reads no input. It reads both media alone, each as `rescue` does, and prints by rising place `differs PLACE` where both have
///   a record with other bytes, and `lacks MEDIUM A B` for the longest runs of places that the other medium has and this one lacks of its
///   window; then `same A B`, the least and the greatest place of records that are the same. Before these stand `differs configuration`
///   where the texts of the configurations differ, and `damaged MEDIUM OFFSET` by offset, of the capsule and then of the long-term medium.
///   It ends with `Damaged` at the long-term medium's configuration where the texts differ, else at the first damage, or else with
///   `Missing` at the first place.
///
/// Any other words end with `Words`, and nothing is touched. A number is decimal digits without a sign and without a leading zero.
///
/// For each status but `Done` and `OutputFault` the output ends with a status line. It has nothing else, but where a run was closed by
/// `replay` as the feed was refused or could not be read further: then the summary stands before it. So does the feed of `import`.
///
/// The watch is told while media are recorded on, before anybody is answered: by `replay`, `save` and `release`, each as their calls are of
/// the recorder. What it was told is on the media by then.
pub fn run_alone_watched<I: Source + Drop, O: Sink + Drop, M: Media + Drop, W: Watch<M>>(
    alloc: Global,
    words: &[String],
    world: &mut World<I, O, M>,
    watch: &mut W,
) -> Status
    requires two { 2 ≤ length (M.disk world.old.media).sizes }
    requires three { length (M.disk world.old.media).sizes ≤ 3 }

    // Each command does what its page in `specs/` says, and then the line of its status is written.
    ensures runs { let at = ⟦<World<I, O, M> as Outer>⟧.outside in Runs words.now (at world.old) (at world.new) W.hears (W.seen watch.new) result }

    // Only a command that reads it touches the input, and only one that uses them the media.
    ensures touches { TouchesAsked words.now world.old.input world.new.input world.old.media world.new.media result }

    // Media of this product stay so at every moment, and where nothing is formatted their life goes on.
    ensures lives { KeepsLife (Asks words.now) (M.disk world.old.media) (M.disk world.new.media) }

    // Over all commands: each status comes only with its cause, and where nothing stands in the way, all is done.
    ensures answers { let at = ⟦<World<I, O, M> as Outer>⟧.outside in Answers words.now (at world.old) (at world.new) W.hears (W.seen watch.new) result }
    ensures completes { let at = ⟦<World<I, O, M> as Outer>⟧.outside in Completes words.now (at world.old) (at world.new) result }
{
    let Some(command) = command_of(words) else {
        report(Status::Words, &mut world.output);
        return Status::Words;
    };
    let Err(status) = answer(alloc, command, world, watch) else {
        return Status::Done;
    };
    report(status, &mut world.output);
    status
}

/// Does what the words ask for as `run_alone_watched` does, and tells nobody.
pub fn run_alone<I: Source + Drop, O: Sink + Drop, M: Media + Drop>(
    alloc: Global,
    words: &[String],
    world: &mut World<I, O, M>,
) -> Status
    requires two { 2 ≤ length (M.disk world.old.media).sizes }
    requires three { length (M.disk world.old.media).sizes ≤ 3 }
    ensures runs { let at = ⟦<World<I, O, M> as Outer>⟧.outside in Runs words.now (at world.old) (at world.new) ⊥ nothing_told result }
    ensures touches { TouchesAsked words.now world.old.input world.new.input world.old.media world.new.media result }
    ensures lives { KeepsLife (Asks words.now) (M.disk world.old.media) (M.disk world.new.media) }
    ensures answers { let at = ⟦<World<I, O, M> as Outer>⟧.outside in Answers words.now (at world.old) (at world.new) ⊥ nothing_told result }
    ensures completes { let at = ⟦<World<I, O, M> as Outer>⟧.outside in Completes words.now (at world.old) (at world.new) result }
{
    run_alone_watched(alloc, words, world, &mut Nobody {})
}
