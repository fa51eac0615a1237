// What the lines of scripts work on.
use crate::gates::{answered_gated, answered_meeting};
use crate::media::Shelf;
use crate::ran::Ran;
use crate::running::{MemoryWorld, answered, contents_of, ran_in, words_of, world_of};
use crate::setting::Setting;
use crate::stored::ran_from;
use crate::texts::Texts;
use anyhow::{Result, bail, ensure};
use std::alloc::Global;
use std::mem;
use std::sync::Wait;
use std::thread::Threads;
use std::time::Clock;
use vdr_from::is_from;
use vdr_memory::MemoryMedia;

#[derive(Drop)]
pub(crate) struct Bench {
    alloc: Global,
    texts: Texts,
    shelf: Shelf,
    // What stands around the next command.
    setting: Setting,
    // The last command.
    ran: Ran,
}

impl Bench {
    pub(crate) fn new(alloc: Global) -> Bench {
        Bench {
            alloc,
            texts: Texts::new(alloc),
            shelf: Shelf::new(alloc),
            setting: Setting::new(alloc),
            ran: Ran::none(alloc),
        }
    }

    /// That all that the last command printed was gone over.
    pub(crate) fn end(&self) -> Result<()> {
        self.ran.end()
    }

    // The text of this name; the empty name has none.
    fn input(&self, name: &str) -> Result<&[u8]> {
        if name.is_empty() {
            return Ok(&[]);
        }
        self.texts.get(name)
    }

    // The words and the world of a line `WORDS`, or `WORDS < TEXT`, whose input is that text.
    fn asked(&mut self, rest: &str, setting: &Setting) -> Result<(Vec<String>, MemoryWorld)> {
        self.ran.end()?;
        let (words, name) = rest.rsplit_once(" < ").unwrap_or((rest, ""));
        let input = self.input(name)?;
        let words = words_of(self.alloc, words)?;
        let contents = self.shelf.contents.as_slice();
        Ok((words, world_of(self.alloc, input, contents, setting)?))
    }

    // Keeps what a command did, and its media where they were to fail.
    fn keep(&mut self, ran: Ran, media: MemoryMedia, fails: bool) -> Result<()> {
        self.ran = ran;
        self.shelf.contents = contents_of(self.alloc, &media)?;
        if fails {
            self.shelf.hold(media);
        }
        Ok(())
    }

    // Runs the command of a line over a stored file, which is the text that stands as its input.
    fn run_from(&mut self, words: &[String], name: &str, setting: &Setting) -> Result<()> {
        let later = match &setting.later {
            Some(name) => Some(self.texts.get(name.as_str())?),
            None => None,
        };
        let ran = ran_from(self.alloc, words, self.input(name)?, later, setting)?;
        self.ran = ran;
        Ok(())
    }

    // Runs the command of a line over the media, or over a stored file where its words ask for one.
    fn run_line<R: Threads + Wait + Sync>(&mut self, rt: &R, rest: &str) -> Result<()> {
        let (words, name) = rest.rsplit_once(" < ").unwrap_or((rest, ""));
        let words = words_of(self.alloc, words)?;
        if !is_from(words.as_slice()) {
            return self.run(rt, rest);
        }
        self.ran.end()?;
        let setting = mem::replace(&mut self.setting, Setting::new(self.alloc));
        self.run_from(words.as_slice(), name, &setting)
    }

    // Runs the command of a line.
    fn run<R: Threads + Wait + Sync>(&mut self, rt: &R, rest: &str) -> Result<()> {
        let alloc = self.alloc;
        let setting = mem::replace(&mut self.setting, Setting::new(alloc));
        let (words, mut world) = self.asked(rest, &setting)?;
        let mut lanes = setting.lanes()?;
        let fails = setting.fails_media();
        let mut desks = setting.into_desks()?;
        let status = answered(
            rt,
            alloc,
            words.as_slice(),
            &mut world,
            lanes.as_mut_slice(),
            desks.as_mut_slice(),
        )?;
        let ran = ran_in(alloc, status, &world, desks.as_slice())?;
        self.keep(ran, world.media, fails)
    }

    // Runs the command of a line over ports that meet.
    fn run_meeting<R: Threads + Wait + Clock + Sync>(&mut self, rt: &R, rest: &str) -> Result<()> {
        let setting = Setting::new(self.alloc);
        let (words, mut world) = self.asked(rest, &setting)?;
        let status = answered_meeting(rt, self.alloc, words.as_slice(), &mut world)?;
        let ran = ran_in(self.alloc, status, &world, &[])?;
        self.keep(ran, world.media, false)
    }

    // Runs the command of a line over a port that waits for a link.
    fn run_gated<R: Threads + Wait + Clock + Sync>(&mut self, rt: &R, rest: &str) -> Result<()> {
        let setting = Setting::new(self.alloc);
        let (words, mut world) = self.asked(rest, &setting)?;
        let status = answered_gated(rt, self.alloc, words.as_slice(), &mut world)?;
        let ran = ran_in(self.alloc, status, &world, &[])?;
        self.keep(ran, world.media, false)
    }

    // That all that was printed is this text.
    fn is(&mut self, name: &str) -> Result<()> {
        self.ran.printed.pass(self.texts.get(name)?)
    }

    // That what is left of the output is the first records of this text.
    fn is_front(&mut self, name: &str) -> Result<()> {
        let text = self.texts.get(name)?;
        let left = self.ran.printed.left();
        ensure!(text.starts_with(left), "it is no front");
        let next = text.get(left.len());
        ensure!(
            next.is_some_and(|byte| byte.is_ascii_digit()),
            "a record is cut off"
        );
        self.ran.printed.pass_all();
        Ok(())
    }

    // Takes what is left of the output as a text of this name.
    fn take(&mut self, name: &str) -> Result<()> {
        let left = self.ran.printed.left().to_vec(self.alloc)?;
        self.texts.begin(name, left)
    }

    // Follows a line that needs no host. None where there is no such line.
    fn follow_alone(&mut self, verb: &str, rest: &str) -> Option<Result<()>> {
        if let Some(done) = self.ran.follow(verb, rest) {
            return Some(done);
        }
        if let Some(done) = self.texts.follow(verb, rest) {
            return Some(done);
        }
        if let Some(done) = self.setting.follow(verb, rest) {
            return Some(done);
        }
        self.shelf.follow(verb, rest)
    }

    // Follows a line that none of the parts follows.
    fn follow_beside<R: Threads + Wait + Clock + Sync>(
        &mut self,
        rt: &R,
        verb: &str,
        rest: &str,
    ) -> Result<()> {
        match verb {
            "$" => self.run_line(rt, rest),
            "is" => self.is(rest),
            "front" => self.is_front(rest),
            "take" => self.take(rest),
            "meet" => self.run_meeting(rt, rest),
            "gate" => self.run_gated(rt, rest),
            _ => bail!("no such line"),
        }
    }

    /// Follows a line of a script.
    pub(crate) fn follow<R: Threads + Wait + Clock + Sync>(
        &mut self,
        rt: &R,
        line: &str,
    ) -> Result<()> {
        let (verb, rest) = line.split_once(' ').unwrap_or((line, ""));
        match self.follow_alone(verb, rest) {
            Some(done) => done,
            None => self.follow_beside(rt, verb, rest),
        }
    }

    /// Tells what the last command printed that no line has gone over.
    pub(crate) fn tell(&self, rt: &impl Print) -> Result<()> {
        let code = self.ran.code;
        match str::from_utf8(self.ran.printed.left()) {
            Ok(text) => println!(rt; "status {code}: {text}")?,
            Err(_) => println!(rt; "status {code}")?,
        }
        Ok(())
    }
}
