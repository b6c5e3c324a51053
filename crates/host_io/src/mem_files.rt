//! Files that lie in memory.

ghost use Rattle.std.specs.Prelude.{option_map, ◌≡◌, ℕ, ◌≤◌, ◌<◌, ◌+◌, ◌-◌, List, length, take, drop, min, Option, IfOk, IsErr, IsTrue, ◌↔◌, ◌⊎◌, None, All, is_err};
ghost use Rattle.host_io.specs.Exposed.{WhereExposed};
ghost use Rattle.host_io.specs.Counts.{Counts};
ghost use Rattle.host_io.specs.Memory.{MemoryFiles, bytes_named, is_due, names_differ, IsExposed, after_read};

use crate::count::Count;
use crate::errors::Failed;
use crate::files::Files;
use crate::mem_file::MemFile;
use crate::plan::Plan;
use std::marker::Model;

/// Files that lie in memory and expose their bytes. Chosen calls fail, and so does each read of a name that
/// no file has.
#[derive(Drop)]
pub struct MemFiles {
    files: Vec<MemFile>,
    plan: Plan,
    faults: Count,
}

impl Model for MemFiles {
    ghost Value = { MemoryFiles };

    ghost view = { λ m. record { files = m.files.items; fails = m.plan.fails.items; calls = m.plan.calls; faults = m.faults.value } };
}

/// The file of a name, if one has it.
fn find_file<'a>(files: &'a [MemFile], name: &str) -> Option<&'a MemFile>
    ensures { option_map (λ f. f.now.bytes.items) result ≡ bytes_named files.now name.now }
{
    files.iter().find(|file| file.name.as_str() == name)
}

/// Copies bytes from an offset on to the front of a buffer: as many as are there and have room.
/// Answers how many.
fn copy_from(bytes: &[u8], at: u64, buf: &mut [u8]) -> usize
    ensures count { result ≡ min (length buf.new) (length bytes.now - at) }
    ensures copied { take result buf.new ≡ take result (drop at bytes.now) }
{
    if at >= bytes.len() as u64 {
        return 0;
    }
    let rest = &bytes[at as usize..];
    let count = rest.len().min(buf.len());
    buf[..count].copy_from_slice(&rest[..count]);
    count
}

impl MemFiles {
    /// Whether no two files have one name.
    pub fn names_differ(files: &[MemFile]) -> bool
        ensures { result ≡ names_differ files.now }
    {
        let mut rest = files;
        while let Some((file, others)) = rest.split_first() {
            if find_file(others, file.name.as_str()).is_some() {
                return false;
            }
            rest = others;
        }
        true
    }

    /// Files of these names and bytes, of which no two have one name. The calls of `read` whose numbers,
    /// from 1, are listed will fail.
    pub fn new(files: Vec<MemFile>, fails: Vec<u64>) -> MemFiles
        requires { IsTrue (names_differ files.items) }
        ensures state { result
            ≡ record { files = files.items; fails = fails.items; calls = 0; faults = 0 } }
        ensures exposed { All (IsExposed files.items) files.items }
    {
        MemFiles {
            files,
            plan: Plan::new(fails),
            faults: Count::zero(),
        }
    }
}

impl Files for MemFiles {
    ghost content = { λ m name. bytes_named m.files name };

    ghost faults = { λ m _. m.faults };

    fn read(&mut self, name: &str, at: u64, buf: &mut [u8]) -> Result<usize, Failed>
        ensures within { IfOk result (λ n. n ≤ length buf.new) }
        ensures bytes { IfOk result (λ n. WhereExposed (bytes_named self.old.files name.now)
            (λ exposed. take n buf.new ≡ take n (drop at exposed))) }
        ensures some { IfOk result (λ n. WhereExposed (bytes_named self.old.files name.now)
            (λ exposed. at < length exposed → 0 < length buf.new → 0 < n)) }
        ensures counts { Counts result self.old.faults self.new.faults }
        ensures rises { (other : List ℕ) → self.old.faults ≤ self.new.faults }
        ensures content { (other : List ℕ)
            → bytes_named self.new.files other ≡ bytes_named self.old.files other }

        // It fails where it is to fail and where there is no such file, and nowhere else.
        ensures failed { IsErr result
            ↔ (IsTrue (is_due self.old.fails self.old.calls) ⊎ (bytes_named self.old.files name.now ≡ None)) }
        ensures after { self.new ≡ after_read self.old (is_err result) }
    {
        let refused = self.plan.is_refused();
        match find_file(&self.files, name) {
            Some(file) if !refused => Ok(copy_from(file.bytes.as_slice(), at, buf)),
            _ => {
                self.faults.raise();
                Err(Failed)
            }
        }
    }
}
