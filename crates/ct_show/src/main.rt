//! Reads tables whose rows have an input and an expected outcome, and prints the rows whose outcome differs
//! and how many rows each subject has. The program's words are the paths of the tables, or `show`, a subject
//! and paths, which prints the outcome of each row.
#![tactic(auto)]

mod front;
mod rest;
mod show;
mod subjects;

use crate::show::{compare, show};
use ct_base::{Mem, OutOfMemory};
use ct_show_rows::Counts;
use std::alloc::Global;
use std::io::{self, ErrorKind};
use std::{env, fs};

/// A step as one of input and output.
fn done(step: Mem<()>) -> io::Result<()> {
    match step {
        Ok(()) => Ok(()),
        Err(OutOfMemory) => Err(io::Error::from(ErrorKind::OutOfMemory)),
    }
}

/// Prints the outcomes of the rows of files.
fn show_files(rt: &HostRuntime, alloc: Global, subject: &str, paths: &[String]) -> io::Result<()> {
    for path in paths {
        let text = fs::read_to_string(rt, path.as_str())?;
        let mut out = String::new(alloc);
        done(show(alloc, subject, text.as_str(), &mut out))?;
        print!(rt; "{out}")?;
    }
    Ok(())
}

/// Prints the rows of files whose outcome differs, and counts.
fn compare_files(rt: &HostRuntime, alloc: Global, paths: &[String]) -> io::Result<()> {
    let mut counts = Counts::new(alloc);
    for path in paths {
        let text = fs::read_to_string(rt, path.as_str())?;
        let mut out = String::new(alloc);
        done(compare(alloc, path.as_str(), text.as_str(), &mut counts, &mut out))?;
        print!(rt; "{out}")?;
    }
    let mut out = String::new(alloc);
    done(counts.push_lines(&mut out))?;
    print!(rt; "{out}")
}

fn main(rt: HostRuntime) -> io::Result<()> {
    let alloc = rt.alloc();
    let mut words = Vec::new(alloc);
    for word in env::args(&rt)?.skip(1) {
        words.push(word)?;
    }
    match words.as_slice() {
        [first, subject, paths @ ..] if first.as_str() == "show" => {
            show_files(&rt, alloc, subject.as_str(), paths)
        }
        paths => compare_files(&rt, alloc, paths),
    }
}
