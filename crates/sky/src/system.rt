// What the program asks of the system: its words, files by name, and the two streams that it writes to.
use std::env::{Env, FillError};
use std::fs::{File, Files, OpenOptions};
use std::io::{ErrorKind, Stderr};
use std::str::Utf8Error;
use std::{fmt, io};

// The words that the program is started with, files by name, standard output, and standard error, on which bytes need not be text.
pub(crate) trait System: Env + Files + Print {
    fn aside(&self) -> Stderr;
}

impl System for HostRuntime {
    fn aside(&self) -> Stderr {
        self.stderr()
    }
}

// Why the system does not open, make or read a file.
#[derive(Clone, Copy, Debug, PartialEq, Eq)]
pub(crate) enum Trouble {
    Missing,
    NotAllowed,
    Folder,
    LongName,
    DiskFull,
    NoText,
    Unknown,
}

impl From<io::Error> for Trouble {
    fn from(error: io::Error) -> Trouble {
        match error.kind() {
            ErrorKind::NotFound => Trouble::Missing,
            ErrorKind::PermissionDenied => Trouble::NotAllowed,
            ErrorKind::IsADirectory | ErrorKind::NotADirectory => Trouble::Folder,
            ErrorKind::InvalidFilename => Trouble::LongName,
            ErrorKind::StorageFull => Trouble::DiskFull,
            _ => Trouble::Unknown,
        }
    }
}

// Files are named in UTF-8.
impl From<Utf8Error> for Trouble {
    fn from(_error: Utf8Error) -> Trouble {
        Trouble::NoText
    }
}

impl fmt::Display for Trouble {
    fn fmt<W: fmt::Write>(&self, f: &mut fmt::Formatter<W>) -> fmt::Result {
        f.write_str(match self {
            Trouble::Missing => "there is no such file or folder",
            Trouble::NotAllowed => "it is not allowed",
            Trouble::Folder => "it is a folder, or a file where a folder should be",
            Trouble::LongName => "the name is too long",
            Trouble::DiskFull => "the disk is full",
            Trouble::NoText => "the name is not text in UTF-8",
            Trouble::Unknown => "the system does not say why",
        })
    }
}

// How many words the program was started with, its own name among them.
pub(crate) fn arg_count(rt: &impl Env) -> usize {
    for i in 0..usize::MAX {
        if let Err(FillError::NotPresent) = rt.arg(i, &mut [0u8; 1]) {
            return i;
        }
    }
    usize::MAX
}

// Opens a file for reading.
pub(crate) fn open_read<R: Files>(rt: &R, name: &[u8]) -> Result<R::File, Trouble> {
    let path = str::from_utf8(name)?;
    Ok(File::open(rt, path)?)
}

// Makes a file that is not yet there, for writing.
pub(crate) fn create<R: Files>(rt: &R, name: &[u8]) -> Result<R::File, Trouble> {
    let path = str::from_utf8(name)?;
    let file = OpenOptions::new()
        .write(true)
        .create_new(true)
        .open(rt, path)?;
    Ok(file)
}

// Removes a file.
pub(crate) fn remove(rt: &impl Files, name: &[u8]) {
    if let Ok(path) = str::from_utf8(name) {
        let _ = rt.remove_file(path);
    }
}
