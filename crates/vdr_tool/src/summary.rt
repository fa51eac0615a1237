// The summary of a run, as text.
ghost use Rattle.std.specs.Prelude.{◌≡◌, ◌≤◌, ◌+◌, ◌++◌, codes, length, OnOk};
ghost use Rattle.std.specs.Io.KnownBytes.{Appends};
ghost use Rattle.arrayvec.specs.ArrayVec.{array_vec_len};
ghost use Rattle.vdr_outside.specs.Causes.{HasCause};
ghost use Rattle.vdr_outside.specs.Writes.{AppendsFront};
ghost use Rattle.vdr_tool.specs.Summaries.{count_text, group_line, line_if, records_line};

use arrayvec::ArrayVec;
use itoa::Buffer;
use vdr_command::{ROOM, name_of, push_text};
use vdr_outside::{Failed, Printable, Sink, write_all};
use vdr_replay::GroupSums;

/// What is printed of a run that was closed: a line for each configured group in their order, and the records of the run.
#[derive(Clone, Copy, Debug, PartialEq, Eq, Drop)]
pub struct Summary {
    /// The sums of each configured group by its number, None for the others.
    pub groups: [Option<GroupSums>; 16],
    /// The records of the run, with its Start and its Stop.
    pub records: u64,
}

// A word and a number.
fn push_count(line: &mut ArrayVec<u8, ROOM>, word: &[u8], count: u64)
    requires { array_vec_len line.old + length word.now + 20 ≤ 200 }
    ensures line { line.new.items ≡ line.old.items ++ count_text word.now count }
    ensures short { array_vec_len line.new ≤ array_vec_len line.old + length word.now + 20 }
{
    push_text(line, word);
    push_text(line, Buffer::new().format(count).as_bytes());
}

fn line_of_group(group: u8, sums: &GroupSums) -> ArrayVec<u8, ROOM>
    ensures { result.items ≡ group_line group sums.now }
{
    let mut line = ArrayVec::new();
    push_text(&mut line, name_of(group));
    push_count(&mut line, b" taken ", sums.taken);
    push_count(&mut line, b" recorded ", sums.recorded);
    push_count(&mut line, b" full ", sums.counts.full);
    push_count(&mut line, b" rate ", sums.counts.rate);
    push_count(&mut line, b" bad ", sums.counts.bad);
    push_count(&mut line, b" large ", sums.counts.large);
    push_text(&mut line, b"\n");
    line
}

fn line_of_records(records: u64) -> ArrayVec<u8, ROOM>
    ensures { result.items ≡ records_line records }
{
    let mut line = ArrayVec::new();
    push_count(&mut line, b"records ", records);
    push_text(&mut line, b"\n");
    line
}

// The line of a group, if it is configured.
fn print_group<O: Sink>(group: u8, sums: &Option<GroupSums>, out: &mut O) -> Result<(), Failed>
    ensures all { OnOk result (Appends (O.taken out.old) (O.taken out.new) (line_if group sums.now)) }
    ensures front { AppendsFront (O.taken out.old) (O.taken out.new) (line_if group sums.now) }
    ensures cause { HasCause (O.faults out.old) (O.faults out.new) result }
{
    match sums {
        Some(sums) => write_all(out, line_of_group(group, sums).as_slice()),
        None => Ok(()),
    }
}

impl Printable for Summary {
    ghost use Rattle.vdr_tool.specs.Summaries.{text_of};

    ghost text = { text_of };

    fn print<O: Sink>(&self, out: &mut O) -> Result<(), Failed> {
        for group in 0..16 {
            print_group(group, &self.groups[group as usize], out)?;
        }
        write_all(out, line_of_records(self.records).as_slice())
    }
}
