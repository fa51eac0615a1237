// The calls of rows, and what goes on from one row to the next: what was printed, watched and reported, and the
// configuration.

use crate::configurations::{put_fit, put_needs, put_refusal};
use crate::escapes::bytes_of;
use crate::feeds::{feed, generated};
use crate::headers::{image, kind_of, pcm};
use crate::messages::part;
use crate::orders::order;
use crate::printing::{number, word};
use crate::rates::{Metered, one_rate, put_window};
use crate::records::{record, record_of, stamp};
use crate::rows::Row;
use crate::sentences::{digits, field, sentence, spans, tags, value};
use crate::tables::fixes;
use std::alloc::{AllocError, Global};
use vdr_ais::{Joiner, TargetTable};
use vdr_config::{Config, read_config};
use vdr_datagram::channel_bits;
use vdr_memory::MemorySink;
use vdr_outside::Printable;
use vdr_play::{Tracks, print_record};
use vdr_rows::Rows;
use vdr_visit::Visitor;
use vdr_watch::Watch;

/// What goes on from one row to the next.
#[derive(Drop)]
pub(crate) struct Bench {
    alloc: Global,
    out: MemorySink,
    answer: String,
    tracks: Tracks,
    watch: Watch,
    joiner: Joiner,
    ships: TargetTable,
    table: Rows,
    metered: Metered,
    base: String,
    config: Config,
}

impl Bench {
    pub fn new(alloc: Global) -> Bench {
        Bench {
            alloc,
            out: MemorySink::new(alloc, Vec::new(alloc)),
            answer: String::new(alloc),
            tracks: Tracks::new(),
            watch: Watch::new(alloc),
            joiner: Joiner::new(alloc),
            ships: TargetTable::new(alloc),
            table: Rows::new(alloc),
            metered: Metered::new(alloc),
            base: String::new(alloc),
            config: one_rate(alloc),
        }
    }

    /// What the last row was answered.
    pub fn answer(&self) -> &str {
        self.answer.as_str()
    }

    /// Whether a row's call answers what is expected.
    pub fn agrees(&mut self, row: &Row<'_>) -> bool {
        self.out = MemorySink::new(self.alloc, Vec::new(self.alloc));
        self.run(row).is_ok()
            && self.keep_answer().is_ok()
            && self.answer.as_str().trim() == row.expected
    }

    // Keeps what the sink has taken, with `|` for the end of a line.
    fn keep_answer(&mut self) -> Result<(), AllocError> {
        let text = String::from_utf8_lossy(self.alloc, self.out.taken())?;
        self.answer = text.replace(self.alloc, "\n", "|")?;
        Ok(())
    }

    // Runs a row's call.
    fn run(&mut self, row: &Row<'_>) -> Result<(), AllocError> {
        let bytes = bytes_of(self.alloc, row.input)?;
        match row.kind {
            "new" => self.forget(),
            "base" => self.base = row.input.to_string(self.alloc)?,
            "change" => self.change(row.input)?,
            "config" => self.read(&bytes),
            "feed" => feed(self.alloc, row.numbers[0], bytes, &mut self.out),
            _ => self.call(row.kind, row.numbers, &bytes),
        }
        Ok(())
    }

    // Forgets what was printed, watched, reported and told.
    fn forget(&mut self) {
        self.tracks = Tracks::new();
        self.watch = Watch::new(self.alloc);
        self.ships = TargetTable::new(self.alloc);
        self.table = Rows::new(self.alloc);
    }

    // Reads the base with the text behind `->` in place of that before it.
    fn change(&mut self, text: &str) -> Result<(), AllocError> {
        let (from, to) = text.split_once(" ->").unwrap_or((text, ""));
        let changed = self.base.replace(self.alloc, from, to.trim())?;
        self.read(changed.as_bytes());
        Ok(())
    }

    // Reads a configuration, by which the next rows go.
    fn read(&mut self, text: &[u8]) {
        match read_config(self.alloc, text) {
            Ok(config) => {
                put_needs(&config, &mut self.out);
                self.config = config;
            }
            Err(bad) => put_refusal(&bad, &mut self.out),
        }
    }

    fn call(&mut self, kind: &str, numbers: [u64; 3], bytes: &[u8]) {
        let out = &mut self.out;
        match kind {
            "fits" => put_fit(&self.config, numbers[0], numbers[1], out),
            "bits" => put_bits(&self.config, numbers[0], bytes, out),
            "meter" => self.metered.put_item(numbers, out),
            "play" => self.play(numbers, bytes),
            "watch" => self.watch(numbers, bytes),
            "closing" => {
                let _ = self.watch.finish(out);
            }
            "vdm" => part(&mut self.joiner, b"VDM", bytes, out),
            "vdo" => part(&mut self.joiner, b"VDO", bytes, out),
            "ais" => self.report(numbers, bytes),
            "rows" => self.tell(numbers, bytes),
            "ships" => {
                let _ = self.ships.print(out);
            }
            _ => alone(kind, numbers, bytes, out),
        }
    }

    // Prints a record.
    fn play(&mut self, numbers: [u64; 3], bytes: &[u8]) {
        match record_of(numbers, bytes) {
            Some(item) => {
                let _ = print_record(&item, &mut self.tracks, &mut self.out);
            }
            None => word(&mut self.out, b"no record"),
        }
    }

    // Prints what a record shows of the equipment.
    fn watch(&mut self, numbers: [u64; 3], bytes: &[u8]) {
        match record_of(numbers, bytes) {
            Some(item) => {
                let _ = self.watch.add(&item, &mut self.out);
            }
            None => word(&mut self.out, b"no record"),
        }
    }

    // Prints the rows of a record in the table of values.
    fn tell(&mut self, numbers: [u64; 3], bytes: &[u8]) {
        match record_of(numbers, bytes) {
            Some(item) => {
                let _ = self.table.visit(&item, &mut self.out);
            }
            None => word(&mut self.out, b"no record"),
        }
    }

    // Puts the reports of a record into the table of ships.
    fn report(&mut self, numbers: [u64; 3], bytes: &[u8]) {
        match record_of(numbers, bytes) {
            Some(item) => {
                let _ = self.ships.add(&item);
            }
            None => word(&mut self.out, b"no record"),
        }
    }
}

// The bits of the channels that select a datagram of a group.
fn put_bits(config: &Config, group: u64, bytes: &[u8], out: &mut MemorySink) {
    number(out, channel_bits(config, (group % 256) as u8, bytes));
}

// The calls on which no other row's has a bearing.
fn alone(kind: &str, numbers: [u64; 3], bytes: &[u8], out: &mut MemorySink) {
    match kind {
        "sentence" => sentence(bytes, out),
        "field" => field(numbers[0], bytes, out),
        "value" => value(bytes, out),
        "tags" => tags(bytes, out),
        "lines" => spans(bytes, out),
        "fixes" => fixes(bytes, out),
        "kind" => kind_of(bytes, out),
        "image" => image(bytes, out),
        "pcm" => pcm(bytes, out),
        "record" => record(bytes, out),
        "stamp" => stamp(bytes, out),
        "order" => order(bytes, out),
        "digits" => digits(numbers[0], bytes, out),
        "window" => put_window(numbers, out),
        "generated" => generated(numbers[0], numbers[1], out),
        _ => word(out, b"no such kind"),
    }
}
