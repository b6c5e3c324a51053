//! A case file, carried out line by line.

use crate::files::{FileSet, MadeFile};
use crate::row::Row;
use crate::value::{malformed, split_at_space};
use std::fmt::Display;
use std::sync::Wait;
use std::thread::Threads;
use std::{io, mem, str};

/// What the lines that come next belong to: a file that is made, or a row of a line.
#[derive(Drop)]
enum Block {
    Nothing,
    File(MadeFile),
    Row(usize, Row),
}

/// A case file that is carried out: the files that its commands may name, what the next lines belong to, how many rows there were,
/// and what is said of those that are not as they should be.
pub(crate) struct Transcript {
    files: FileSet,
    block: Block,
    pub rows: usize,
    pub said: String,
}

// By hand: a derived drop would be proved again in each function that drops one.
impl Drop for Transcript {
    fn drop(self) {
        let Self {
            files: _,
            block: _,
            rows: _,
            said: _,
        } = self;
    }
}

impl Transcript {
    /// A case file over these files.
    pub(crate) fn new(files: FileSet) -> Transcript {
        Transcript {
            block: Block::Nothing,
            rows: 0,
            said: String::new(files.alloc),
            files,
        }
    }

    /// Carries out the lines. They end at the first malformed one, of which it is said; a file without a row is malformed at its end.
    pub(crate) fn run<R: Threads + Wait + Sync>(&mut self, rt: &R, text: &[u8]) -> io::Result<()> {
        let mut number = 0usize;
        for line in text.split(|byte| *byte == b'\n') {
            number = number.saturating_add(1);
            if let Err(why) = self.take(rt, number, line) {
                return self.say(number, &why);
            }
        }
        match self.close() {
            Ok(()) if self.rows > 0 => Ok(()),
            Ok(()) => self.say(number, &"the file has no command"),
            Err(why) => self.say(number, &why),
        }
    }

    /// Adds what is said of a line.
    fn say<D: Display>(&mut self, line: usize, what: &D) -> io::Result<()> {
        let text = format!(in self.files.alloc; "\n line {line}: {what}")?;
        Ok(self.said.push_str(text.as_str())?)
    }

    /// Carries out a line.
    fn take<R: Threads + Wait + Sync>(
        &mut self,
        rt: &R,
        number: usize,
        line: &[u8],
    ) -> io::Result<()> {
        let line = str::from_utf8(line).map_err(|_| malformed("the line is no UTF-8"))?;
        if line.is_empty() || line.starts_with('#') {
            return Ok(());
        }
        let (head, rest) = split_at_space(line);
        match head {
            "$" => {
                self.close()?;
                self.block = Block::Row(number, Row::new(rt, &mut self.files, rest)?);
            }
            "file" => {
                self.close()?;
                self.block = Block::File(MadeFile::new(&self.files, rest)?);
            }
            _ => match &mut self.block {
                Block::File(file) => file.add(&self.files, head, rest)?,
                Block::Row(_, row) => row.add(&self.files, head, rest)?,
                Block::Nothing => return Err(malformed("no file and no command is above")),
            },
        }
        Ok(())
    }

    /// Puts the file that was made among the others, or says where the command left what it should not.
    fn close(&mut self) -> io::Result<()> {
        match mem::replace(&mut self.block, Block::Nothing) {
            Block::Nothing => Ok(()),
            Block::File(file) => file.put_into(&mut self.files),
            Block::Row(line, row) => {
                self.rows = self.rows.saturating_add(1);
                match row.difference(self.files.alloc)? {
                    Some(text) => self.say(line, &text),
                    None => Ok(()),
                }
            }
        }
    }
}
