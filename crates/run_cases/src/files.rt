//! The files that the commands of a case file may name.

use crate::value::{bytes_of, file_name, malformed, push_line, split_at_space};
use host_io::MemFile;
use std::alloc::Global;
use std::io;

/// The files that the commands of a case file may name: those of its folder, and those that it made.
pub(crate) struct FileSet {
    pub alloc: Global,
    pub files: Vec<MemFile>,
}

// By hand, as that of each struct here: a derived drop would be proved again in each function that drops one.
impl Drop for FileSet {
    fn drop(self) {
        let Self { alloc: _, files: _ } = self;
    }
}

impl FileSet {
    /// The bytes of a file.
    pub(crate) fn bytes_of(&self, name: &str) -> io::Result<&[u8]> {
        let file = self.files.iter().find(|file| file.name.as_str() == name);
        let file = file.ok_or(malformed("there is no such file"))?;
        Ok(file.bytes.as_slice())
    }

    /// Puts a file among the others, in place of one of its name.
    pub(crate) fn put(&mut self, name: String, bytes: Vec<u8>) -> io::Result<()> {
        let named = name.as_str();
        self.files.retain(|file| file.name.as_str() != named);
        Ok(self.files.push(MemFile { name, bytes })?)
    }

    /// Copies of the files that arguments name.
    pub(crate) fn named(&self, arguments: &[String]) -> io::Result<Vec<MemFile>> {
        let mut named = Vec::new(self.alloc);
        for MemFile { name, bytes } in &self.files {
            if arguments.iter().any(|word| word.as_str() == name.as_str()) {
                let (name, bytes) = (name.clone()?, bytes.clone()?);
                named.push(MemFile { name, bytes })?;
            }
        }
        Ok(named)
    }
}

/// A file that is made: its name, its bytes so far, and those behind where more are put.
pub(crate) struct MadeFile {
    name: String,
    bytes: Vec<u8>,
    behind: Vec<u8>,
}

impl Drop for MadeFile {
    fn drop(self) {
        let Self {
            name: _,
            bytes: _,
            behind: _,
        } = self;
    }
}

impl MadeFile {
    /// The file of a name, with a value if one is said.
    pub(crate) fn new(files: &FileSet, text: &str) -> io::Result<MadeFile> {
        let (name, value) = split_at_space(text);
        let value = if value.is_empty() { "\"\"" } else { value };
        Ok(MadeFile {
            name: file_name(files.alloc, name)?,
            bytes: bytes_of(files, value)?,
            behind: Vec::new(files.alloc),
        })
    }

    /// Adds a line or bytes to the file, or takes some out of it.
    pub(crate) fn add(&mut self, files: &FileSet, head: &str, rest: &str) -> io::Result<()> {
        match head {
            "|" => push_line(&mut self.bytes, rest)?,
            "+" => self.bytes.extend_from_slice(&bytes_of(files, rest)?)?,
            "-" => self.cut(files, &bytes_of(files, rest)?)?,
            _ => return Err(malformed("no such line belongs to a file")),
        }
        Ok(())
    }

    /// Takes the first such bytes out; what is added next comes there.
    fn cut(&mut self, files: &FileSet, bytes: &[u8]) -> io::Result<()> {
        let around = around(self.bytes.as_slice(), bytes);
        let (before, after) = around.ok_or(malformed("the file has no such bytes"))?;
        let mut behind = Vec::from_slice(files.alloc, after)?;
        behind.extend_from_slice(self.behind.as_slice())?;
        let length = before.len();
        self.behind = behind;
        self.bytes.truncate(length);
        Ok(())
    }

    /// Puts the file among the others.
    pub(crate) fn put_into(self, files: &mut FileSet) -> io::Result<()> {
        let Self {
            name,
            mut bytes,
            behind,
        } = self;
        bytes.extend_from_slice(behind.as_slice())?;
        files.put(name, bytes)
    }
}

/// What is before and what is behind the first place at which bytes stand in others.
fn around<'a>(bytes: &'a [u8], cut: &[u8]) -> Option<(&'a [u8], &'a [u8])> {
    for at in 0..bytes.len() {
        let (before, rest) = bytes.split_at(at);
        if let Some(after) = rest.strip_prefix(cut) {
            return Some((before, after));
        }
    }
    None
}
