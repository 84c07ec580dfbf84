// A file as a source.
ghost use Rattle.std.specs.Prelude.{◌≡◌, ◌≤◌, IfOk, None, length};

use lwp_types::{Failed, Source};
use std::fs::File;
use std::io;
use std::rt::Files;
use streams::ReaderSource;

/// A source that opens the file of this name when it is first read. It tells nothing of its bytes, and counts the reads that failed.
#[derive(Drop)]
pub struct FileSource<'f, R: Files> {
    files: &'f R,
    name: &'f str,
    opened: Option<ReaderSource<R::File>>,
    refused: Option<io::Error>,
    faults: u64,
}

impl<'f, R: Files> FileSource<'f, R> {
    /// Nothing is opened or read yet.
    pub fn new(files: &'f R, name: &'f str) -> FileSource<'f, R>
        ensures { result.faults ≡ 0 }
    {
        FileSource {
            files,
            name,
            opened: None,
            refused: None,
            faults: 0,
        }
    }

    /// Why the file couldn't be opened, if a read came to that.
    pub fn refused(&self) -> Option<&io::Error> {
        self.refused.as_ref()
    }
}

impl<'f, R: Files> Source for FileSource<'f, R> {
    ghost use Rattle.lwp_types.specs.Streams.{HasCause};

    ghost left = { λ s. None };

    ghost faults = { λ s. s.faults };

    fn read(&mut self, buf: &mut [u8]) -> Result<usize, Failed> {
        if self.opened.is_none() {
            match File::open(self.files, self.name) {
                Ok(file) => self.opened = Some(ReaderSource::new(file)),
                Err(why) => self.refused = Some(why),
            }
        }
        let answer = match &mut self.opened {
            Some(source) => source.read(buf),
            None => Err(Failed),
        };
        if answer.is_err() {
            self.faults = self.faults.saturating_add(1);
        }
        answer
    }
}
