//! Files in memory, and what commands over them come to.

use super::page::{PageRow, words_of};
use super::piece::Content;
use super::row::Row;
use anyhow::bail;
use pawn_base::Bytes;
use pawn_cli::{Status, pawn};
use pawn_outside::{Files, MemoryFiles, MemorySink, ReadAnswer};
use std::alloc::Global;
use std::mem;

/// The greatest file that rows hold, in bytes.
const LIMIT: u64 = 1 << 27;

/// The room of the output where no row says another, in bytes.
const ROOM: u32 = 1 << 20;

/// What the rows of a case have made so far.
#[derive(Drop)]
pub struct Stage {
    alloc: Global,
    files: MemoryFiles,
    content: Content,
    room: u32,
    /// What the last command wrote.
    last: Vec<u8>,
}

impl Stage {
    pub fn new(alloc: Global) -> anyhow::Result<Stage> {
        let files = MemoryFiles::new(alloc, &[])?;
        Ok(Stage {
            alloc,
            files,
            content: Content::new(alloc),
            room: ROOM,
            last: Vec::new(alloc),
        })
    }

    /// Does what a line says.
    pub fn take(&mut self, rt: &impl Print, line: &str) -> anyhow::Result<()> {
        match Row::read(line) {
            Row::Nothing => Ok(()),
            Row::Case(name) => self.begin(rt, name),
            Row::Fails(numbers) => self.fail(numbers),
            Row::Room(room) => {
                self.room = room;
                Ok(())
            }
            Row::Hold(name) => self.hold(name),
            Row::Use(name) => self.reuse(name),
            Row::Command(words) => self.command(rt, words),
            Row::Quiet(words) => self.command_quietly(rt, words),
            Row::Fronts(rooms, words) => self.tell_fronts(rt, rooms, words),
            Row::Size(name) => self.tell_size(rt, name),
            Row::Bytes(name) => self.tell_bytes(rt, name),
            Row::Same(names) => self.tell_same(rt, names),
            Row::Calls => self.tell_calls(rt),
            Row::Bad => bail!("no row: {line}"),
            row => self.write(row),
        }
    }

    /// Does what a row says of the content.
    fn write(&mut self, row: Row<'_>) -> anyhow::Result<()> {
        match row {
            Row::Line(text) => {
                self.content.add(text.as_bytes())?;
                self.content.add(b"\n")
            }
            Row::Text(text) => self.content.add(text.as_bytes()),
            Row::Hex(text) => self.content.add_hex(text),
            Row::Wrote => self.content.add(&self.last),
            Row::Word(number) => self.add_word(number),
            Row::Times(count) => self.content.repeat(count),
            Row::End => self.content.end_piece(),
            Row::Set(place, text) => {
                self.content.set(place as usize, text);
                Ok(())
            }
            Row::Cut(length) => {
                self.content.cut(length as usize);
                Ok(())
            }
            _ => Ok(()),
        }
    }

    /// Puts a word of what the last command wrote on the content, by its number from 1.
    fn add_word(&mut self, number: u32) -> anyhow::Result<()> {
        let told = String::from_utf8_lossy(self.alloc, &self.last)?;
        let mut place = 0u32;
        for word in told.split_whitespace() {
            place = place.saturating_add(1);
            if place == number {
                self.content.add(word.as_bytes())?;
            }
        }
        Ok(())
    }

    /// Begins a case: nothing is held.
    fn begin(&mut self, rt: &impl Print, name: &str) -> anyhow::Result<()> {
        self.files = MemoryFiles::new(self.alloc, &[])?;
        self.room = ROOM;
        println!(rt; "== {name}")?;
        Ok(())
    }

    /// Begins with files of which these calls fail.
    fn fail(&mut self, numbers: &str) -> anyhow::Result<()> {
        let mut calls = Vec::new(self.alloc);
        for number in numbers.split_whitespace() {
            calls.push(number.parse::<u32>()?)?;
        }
        self.files = MemoryFiles::new(self.alloc, &calls)?;
        Ok(())
    }

    fn hold(&mut self, name: &str) -> anyhow::Result<()> {
        let bytes = self.content.take()?;
        self.files.hold(name, &bytes)?;
        Ok(())
    }

    fn held(&mut self, name: &str) -> Option<Bytes> {
        match self.files.read(self.alloc, name, LIMIT) {
            ReadAnswer::Got(bytes) => Some(bytes),
            _ => None,
        }
    }

    fn reuse(&mut self, name: &str) -> anyhow::Result<()> {
        match self.held(name) {
            Some(bytes) => self.content.add(bytes.as_slice()),
            None => bail!("not held: {name}"),
        }
    }

    /// Does a command over an output of some room, and keeps what it wrote.
    fn serve(&mut self, line: &str, room: u32) -> anyhow::Result<Status> {
        let mut words = Vec::new(self.alloc);
        for word in line.split(' ') {
            words.push(String::from_str(self.alloc, word)?)?;
        }
        let mut out = MemorySink::new(self.alloc, room, &[])?;
        let status = pawn(self.alloc, &words, &mut self.files, &mut out);
        self.last = Vec::from_slice(self.alloc, out.bytes())?;
        Ok(status)
    }

    fn command(&mut self, rt: &impl Print, line: &str) -> anyhow::Result<()> {
        let status = self.serve(line, self.room)?;
        let text = String::from_utf8_lossy(self.alloc, &self.last)?;
        println!(rt; "> {line}\n{text}= {}", status.number())?;
        Ok(())
    }

    fn command_quietly(&mut self, rt: &impl Print, line: &str) -> anyhow::Result<()> {
        let status = self.serve(line, self.room)?;
        println!(rt; ">> {line}\n= {}", status.number())?;
        Ok(())
    }

    fn tell_fronts(&mut self, rt: &impl Print, rooms: u32, line: &str) -> anyhow::Result<()> {
        let whole = mem::replace(&mut self.last, Vec::new(self.alloc));
        let mut fronts = 0u32;
        for room in 0..rooms {
            let status = self.serve(line, room)?;
            if status == Status::SinkFault && whole.starts_with(&self.last) {
                fronts = fronts.saturating_add(1);
            }
        }
        println!(rt; "fronts {rooms} {line}: {fronts}")?;
        Ok(())
    }

    fn tell_size(&mut self, rt: &impl Print, name: &str) -> anyhow::Result<()> {
        match self.held(name) {
            Some(bytes) => println!(rt; "? {name} {}", bytes.len())?,
            None => println!(rt; "? {name} none")?,
        }
        Ok(())
    }

    fn tell_bytes(&mut self, rt: &impl Print, name: &str) -> anyhow::Result<()> {
        let Some(bytes) = self.held(name) else {
            bail!("not held: {name}");
        };
        let mut text = String::new(self.alloc);
        for byte in bytes.as_slice() {
            text.push_str(format!(in self.alloc; "{byte:02x}")?.as_str())?;
        }
        println!(rt; "! {name} {text}")?;
        Ok(())
    }

    fn tell_same(&mut self, rt: &impl Print, names: &str) -> anyhow::Result<()> {
        let Some((name, other)) = names.split_once(' ') else {
            bail!("no two names: {names}");
        };
        let same = match (self.held(name), self.held(other)) {
            (Some(bytes), Some(others)) => bytes.as_slice() == others.as_slice(),
            _ => false,
        };
        println!(rt; "same {names} {}", if same { "yes" } else { "no" })?;
        Ok(())
    }

    /// Tells how many rows a page of numbers has, each that `explain` doesn't tell so, and how many
    /// lines `explain` has.
    pub fn compare(&mut self, rt: &impl Print, page: &str) -> anyhow::Result<()> {
        let mut words = "";
        let mut rows = 0u32;
        for line in page.lines() {
            if let Some(title) = line.strip_prefix("## ") {
                words = words_of(title);
            }
            if let Some(row) = PageRow::read(line) {
                rows = rows.saturating_add(1);
                self.compare_row(rt, row, words)?;
            }
        }
        self.serve("explain", self.room)?;
        let lines = self.last.iter().filter(|byte| **byte == b'\n').count();
        println!(rt; "== the page of numbers\nrows {rows} explained {lines}")?;
        Ok(())
    }

    fn compare_row(
        &mut self,
        rt: &impl Print,
        row: PageRow<'_>,
        words: &str,
    ) -> anyhow::Result<()> {
        let command = format!(in self.alloc; "explain {}", row.number)?;
        self.serve(command.as_str(), self.room)?;
        let told = String::from_utf8_lossy(self.alloc, &self.last)?;
        let text = row.text(self.alloc, words)?;
        if !told.contains(text.as_str()) {
            println!(rt; "not told: {text}")?;
        }
        Ok(())
    }

    fn tell_calls(&self, rt: &impl Print) -> anyhow::Result<()> {
        println!(rt;
            "calls {} failed {}",
            self.files.calls(),
            self.files.faults()
        )?;
        Ok(())
    }
}
