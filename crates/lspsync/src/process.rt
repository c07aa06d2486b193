//! The process's own files and terminal.

ghost use Rattle.std.specs.Prelude.{None};

use crate::files::Folder;
use std::fs::{self, File};
use std::io::{self, Read, Write};

/// The files of the system, by their paths.
#[derive(Drop)]
pub struct Disk<'a>(pub &'a HostRuntime);

impl Folder for Disk<'_> {
    ghost bytes = { λ _ _. None };

    type File = File;

    fn open(&self, name: &str) -> io::Result<File> {
        File::open(self.0, name)
    }

    fn is_lasting(&self, name: &str) -> bool {
        match fs::metadata(self.0, name) {
            Ok(metadata) => metadata.is_file(),
            // what keeps it from being opened again is found then
            Err(_) => true,
        }
    }
}

/// A reader that says once on standard error that it reads, for somebody who sits at a terminal.
#[derive(Drop)]
pub struct Announced<R, E> {
    pub input: R,
    pub errors: E,
    /// Whether that is still to be said.
    pub is_due: bool,
}

impl<R: Read, E: Write> Read for Announced<R, E> {
    ghost remaining = { λ it. R.remaining it.input };

    fn read(&mut self, buf: &mut [u8]) -> io::Result<usize> {
        if self.is_due {
            self.is_due = false;
            let _ = writeln!(self.errors, "lspsync: reading standard input");
        }
        self.input.read(buf)
    }
}
