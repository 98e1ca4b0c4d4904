//! Tests of what no clause says: which answer each turn of the system leads to.

ghost use Rattle.std.specs.Prelude.{◌≡◌, IfOk};

use crate::dir_tree::DirTree;
use crate::standard_output::StandardOutput;
use crate::words;
use ct_outside::{Found, Sink, SinkFailed, Tree, TreeError};
use std::alloc::Allocator;
use std::env::FillError;
use std::fmt::Display;
use std::fs::{Metadata, OpenFile, OpenOptions};
use std::io::{self, ErrorKind, Read, Seek, SeekFrom, Write};
use std::rt::{Env, Files};
use std::test::Fail;

fn unsupported<T>() -> io::Result<T> {
    Err(io::Error::from(ErrorKind::Unsupported))
}

fn unless<T: Drop>(fault: Option<ErrorKind>, answer: T) -> io::Result<T>
    ensures { IfOk result (λ given. given ≡ answer) }
{
    match fault {
        Some(kind) => Err(io::Error::from(kind)),
        None => Ok(answer),
    }
}

/// A file system in which each path is a file and a folder of these bytes. Its calls fail with
/// these kinds: each opening, each read and write at the end of the bytes, and each question for
/// the data of a path.
#[derive(Clone, Copy)]
struct Scripted {
    opening: Option<ErrorKind>,
    bytes: &'static [u8],
    ending: Option<ErrorKind>,
    data: ErrorKind,
}

impl Scripted {
    fn open(&self) -> io::Result<Opened> {
        unless(
            self.opening,
            Opened {
                rest: self.bytes,
                ending: self.ending,
            },
        )
    }
}

#[derive(Drop)]
struct Opened {
    rest: &'static [u8],
    ending: Option<ErrorKind>,
}

impl Read for Opened {
    fn read(&mut self, buf: &mut [u8]) -> io::Result<usize> {
        if self.rest.is_empty() {
            return unless(self.ending, 0);
        }
        self.rest.read(buf)
    }
}

impl Write for Opened {
    fn write(&mut self, buf: &[u8]) -> io::Result<usize> {
        unless(self.ending, buf.len())
    }

    fn flush(&mut self) -> io::Result<()> {
        Ok(())
    }
}

impl Seek for Opened {
    fn seek(&mut self, _to: SeekFrom) -> io::Result<u64> {
        unsupported()
    }
}

impl OpenFile for Opened {
    fn metadata(&self) -> io::Result<Metadata> {
        unsupported()
    }

    fn set_len(&self, _size: u64) -> io::Result<()> {
        unsupported()
    }

    fn sync_all(&self) -> io::Result<()> {
        unsupported()
    }

    fn sync_data(&self) -> io::Result<()> {
        unsupported()
    }
}

impl Files for Scripted {
    type File = Opened;

    type Dir = Opened;

    fn open_file(&self, _how: &OpenOptions, _path: &str) -> io::Result<Opened> {
        self.open()
    }

    fn open_dir(&self, _path: &str) -> io::Result<Opened> {
        self.open()
    }

    fn metadata(&self, _path: &str) -> io::Result<Metadata> {
        Err(io::Error::from(self.data))
    }

    fn symlink_metadata(&self, _path: &str) -> io::Result<Metadata> {
        unsupported()
    }

    fn copy(&self, _from: &str, _to: &str) -> io::Result<u64> {
        unsupported()
    }

    fn rename(&self, _from: &str, _to: &str) -> io::Result<()> {
        unsupported()
    }

    fn remove_file(&self, _path: &str) -> io::Result<()> {
        unsupported()
    }

    fn create_dir(&self, _path: &str) -> io::Result<()> {
        Ok(())
    }

    fn remove_dir(&self, _path: &str) -> io::Result<()> {
        unsupported()
    }

    fn remove_dir_all<B: Allocator>(&self, _alloc: B, _path: &str) -> io::Result<()> {
        unsupported()
    }
}

fn files_that(
    opening: Option<ErrorKind>,
    bytes: &'static [u8],
    ending: Option<ErrorKind>,
) -> Scripted {
    let data = ErrorKind::NotFound;
    Scripted {
        opening,
        bytes,
        ending,
        data,
    }
}

#[test]
fn a_read_answers_by_what_the_system_does(rt: HostRuntime) -> Result<(), Fail> {
    let rows: [(
        Option<ErrorKind>,
        Option<ErrorKind>,
        u64,
        Result<Found, TreeError>,
        &str,
    ); 11] = [
        (None, None, 5, Ok(Found::There), "beforebytes"),
        (None, None, u64::MAX, Ok(Found::There), "beforebytes"),
        (None, None, 4, Ok(Found::TooLarge), "before"),
        (None, None, 0, Ok(Found::TooLarge), "before"),
        (
            Some(ErrorKind::NotFound),
            None,
            9,
            Ok(Found::Absent),
            "before",
        ),
        (
            Some(ErrorKind::NotADirectory),
            None,
            9,
            Ok(Found::Absent),
            "before",
        ),
        (
            None,
            Some(ErrorKind::IsADirectory),
            9,
            Ok(Found::Absent),
            "before",
        ),
        (
            None,
            Some(ErrorKind::TimedOut),
            9,
            Err(TreeError::Failed),
            "before",
        ),
        (
            Some(ErrorKind::PermissionDenied),
            None,
            9,
            Err(TreeError::Failed),
            "before",
        ),
        (
            Some(ErrorKind::FilesystemLoop),
            None,
            9,
            Err(TreeError::Failed),
            "before",
        ),
        (
            None,
            Some(ErrorKind::OutOfMemory),
            9,
            Err(TreeError::OutOfMemory),
            "before",
        ),
    ];
    for (opening, ending, limit, wanted, left) in rows {
        let mut tree = DirTree::new((files_that(opening, b"bytes", ending), rt.alloc()));
        let mut into = Vec::from_slice(rt.alloc(), b"before")?;
        let answer = tree.read(rt.alloc(), "a.c", limit, &mut into);
        assert_eq!(rt; answer, wanted);
        assert_eq!(rt; into.as_slice(), left.as_bytes());
    }
    Ok(())
}

#[test]
fn a_list_answers_by_what_the_system_does(rt: HostRuntime) -> Result<(), Fail> {
    let rows: [(
        Option<ErrorKind>,
        &'static [u8],
        Option<ErrorKind>,
        ErrorKind,
        Result<Found, TreeError>,
        usize,
    ); 8] = [
        (None, b"", None, ErrorKind::NotFound, Ok(Found::There), 0),
        (
            None,
            b".\0..\0a.c\0b.h\0",
            None,
            ErrorKind::NotFound,
            Ok(Found::There),
            2,
        ),
        (
            None,
            b"a.c\0",
            None,
            ErrorKind::PermissionDenied,
            Err(TreeError::Failed),
            0,
        ),
        (
            None,
            b"a.c\0\xff\0",
            None,
            ErrorKind::NotFound,
            Err(TreeError::Failed),
            0,
        ),
        (
            None,
            b"a.c\0",
            Some(ErrorKind::TimedOut),
            ErrorKind::NotFound,
            Err(TreeError::Failed),
            0,
        ),
        (
            Some(ErrorKind::NotFound),
            b"",
            None,
            ErrorKind::NotFound,
            Ok(Found::Absent),
            0,
        ),
        (
            Some(ErrorKind::NotADirectory),
            b"",
            None,
            ErrorKind::NotFound,
            Ok(Found::Absent),
            0,
        ),
        (
            Some(ErrorKind::OutOfMemory),
            b"",
            None,
            ErrorKind::NotFound,
            Err(TreeError::OutOfMemory),
            0,
        ),
    ];
    for (opening, bytes, ending, data, wanted, count) in rows {
        let files = Scripted {
            opening,
            bytes,
            ending,
            data,
        };
        let mut tree = DirTree::new((files, rt.alloc()));
        let mut into = Vec::new(rt.alloc());
        let answer = tree.list(rt.alloc(), "src", &mut into);
        assert_eq!(rt; answer, wanted);
        assert_eq!(rt; into.len(), count);
        for entry in into.as_slice() {
            assert!(rt; !entry.folder);
        }
    }
    Ok(())
}

#[test]
fn a_write_answers_by_what_the_system_does(rt: HostRuntime) -> Result<(), Fail> {
    let rows: [(Option<ErrorKind>, Option<ErrorKind>, Result<(), TreeError>); 5] = [
        (None, None, Ok(())),
        (Some(ErrorKind::NotFound), None, Err(TreeError::Failed)),
        (Some(ErrorKind::IsADirectory), None, Err(TreeError::Failed)),
        (None, Some(ErrorKind::StorageFull), Err(TreeError::Failed)),
        (
            None,
            Some(ErrorKind::OutOfMemory),
            Err(TreeError::OutOfMemory),
        ),
    ];
    for (opening, ending, wanted) in rows {
        let mut tree = DirTree::new((files_that(opening, b"", ending), rt.alloc()));
        let answer = tree.write(rt.alloc(), "build/a.c", b"text");
        assert_eq!(rt; answer, wanted);
    }
    Ok(())
}

/// An output that takes at most so many bytes of a piece, or fails.
#[derive(Clone, Copy)]
enum Output {
    Takes(usize),
    Fails(ErrorKind),
}

impl Print for Output {
    fn print<D: Display + Drop>(&self, _value: D) -> io::Result<()> {
        unsupported()
    }

    fn println<D: Display + Drop>(&self, _value: D) -> io::Result<()> {
        unsupported()
    }

    fn write_all(&self, _bytes: &[u8]) -> io::Result<()> {
        unsupported()
    }

    fn write_some(&self, bytes: &[u8]) -> io::Result<usize> {
        match *self {
            Output::Takes(most) => Ok(most.min(bytes.len())),
            Output::Fails(kind) => Err(io::Error::from(kind)),
        }
    }
}

#[test]
fn the_sink_says_how_much_was_taken(rt: HostRuntime) -> Result<(), Fail> {
    let rows: [(Output, &str, Result<usize, SinkFailed>); 7] = [
        (Output::Takes(0), "", Ok(0)),
        (Output::Fails(ErrorKind::BrokenPipe), "", Ok(0)),
        (Output::Takes(2), "abc", Ok(2)),
        (Output::Takes(9), "abc", Ok(3)),
        (Output::Takes(0), "abc", Err(SinkFailed)),
        (
            Output::Fails(ErrorKind::StorageFull),
            "abc",
            Err(SinkFailed),
        ),
        (
            Output::Fails(ErrorKind::Interrupted),
            "abc",
            Err(SinkFailed),
        ),
    ];
    for (output, piece, wanted) in rows {
        let mut sink = StandardOutput::new(output);
        assert_eq!(rt; sink.write(piece.as_bytes()), wanted);
    }
    Ok(())
}

/// A command line whose words are parted by spaces.
#[derive(Clone, Copy)]
struct CommandLine(&'static [u8]);

impl Env for CommandLine {
    fn arg(&self, i: usize, buf: &mut [u8]) -> Result<usize, FillError> {
        let Some(word) = self.0.split(|byte| *byte == b' ').nth(i) else {
            return Err(FillError::NotPresent);
        };
        if word.len() > buf.len() {
            return Err(FillError::TooLong);
        }
        buf[..word.len()].copy_from_slice(word);
        Ok(word.len())
    }

    fn var(&self, _name: &str, _buf: &mut [u8]) -> Result<usize, FillError> {
        Err(FillError::NotPresent)
    }

    fn var_at(&self, _i: usize, _buf: &mut [u8]) -> Result<usize, FillError> {
        Err(FillError::NotPresent)
    }
}

#[test]
fn the_words_stand_behind_the_name_of_the_program(rt: HostRuntime) -> Result<(), Fail> {
    let rows: [(&'static [u8], &str); 5] = [
        (b"ceedling", ""),
        (b"ceedling test:all", "test:all;"),
        (b"ceedling --budget 12 test:all", "--budget;12;test:all;"),
        (b"ceedling test:all \xff", ""),
        (b"\xff test:all", ""),
    ];
    for (line, wanted) in rows {
        let mut shown = String::new(rt.alloc());
        for word in words(&(CommandLine(line), rt.alloc()))? {
            shown.push_str(word.as_str())?;
            shown.push(';')?;
        }
        assert_eq!(rt; shown.as_str(), wanted);
    }
    Ok(())
}
