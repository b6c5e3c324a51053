//! Runs the rows of the case files that lie in the folders of the current directory, and says of each file whether its rows are as
//! they should be. `data/README.md` has the form of a case file.
#![tactic(auto)]

mod files;
mod row;
mod transcript;
mod value;

use files::FileSet;
use host_io::MemFile;
use std::process::ExitCode;
use std::{fs, io};
use transcript::Transcript;

/// Runs the case files, folder by folder; the status is 1 if a row differs, if a file is malformed, or if there is none.
fn main(rt: HostRuntime) -> io::Result<ExitCode> {
    let alloc = rt.alloc();
    let paths = case_files(&rt)?;
    let mut status = if paths.is_empty() { 1 } else { 0 };
    for path in &paths {
        let (folder, _) = path.split_once('/').unwrap_or((".", ""));
        let files = files_in(&rt, folder)?;
        let text = fs::read(&rt, path.as_str())?;
        let mut transcript = Transcript::new(FileSet { alloc, files });
        transcript.run(&rt, text.as_slice())?;
        let Transcript { rows, said, .. } = &transcript;
        let mut end = "as they should be";
        if !said.is_empty() {
            end = "not all as they should be";
            status = 1;
        }
        println!(rt; "{path}: {rows} rows, {end}{said}")?;
    }
    Ok(ExitCode::from(status))
}

/// The paths of the case files in the folders of the current directory, in order.
fn case_files(rt: &HostRuntime) -> io::Result<Vec<String>> {
    let mut paths = Vec::new(rt.alloc());
    for entry in fs::read_dir(rt, ".")? {
        let entry = entry?;
        if entry.file_type()?.is_dir() {
            add_case_files(rt, entry.file_name(), &mut paths)?;
        }
    }
    paths.sort()?;
    Ok(paths)
}

/// Adds the paths of the case files of a folder.
fn add_case_files(rt: &HostRuntime, folder: &str, paths: &mut Vec<String>) -> io::Result<()> {
    for entry in fs::read_dir(rt, folder)? {
        let entry = entry?;
        let name = entry.file_name();
        if name.ends_with(".case") {
            paths.push(format!(in rt.alloc(); "{folder}/{name}")?)?;
        }
    }
    Ok(())
}

/// The files of a folder.
fn files_in(rt: &HostRuntime, folder: &str) -> io::Result<Vec<MemFile>> {
    let mut files = Vec::new(rt.alloc());
    for entry in fs::read_dir(rt, folder)? {
        let entry = entry?;
        let name = String::from_str(rt.alloc(), entry.file_name())?;
        let path = format!(in rt.alloc(); "{folder}/{name}")?;
        let bytes = fs::read(rt, path.as_str())?;
        files.push(MemFile { name, bytes })?;
    }
    Ok(files)
}
