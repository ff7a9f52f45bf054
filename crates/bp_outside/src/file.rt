ghost use Rattle.std.specs.Prelude.{◌≡◌};

use crate::{Input, Output};
use std::fs;
use std::io::{self, Read, Write};
use std::rt::Files;

/// A file that is opened at its first read. Where it can't be opened, that read is an error, and the next one tries again.
#[derive(Drop)]
pub struct FileReader<'a, R: Files> {
    files: &'a R,
    path: String,
    file: Option<R::File>,
}

impl<'a, R: Files> Read for FileReader<'a, R> {
    fn read(&mut self, buf: &mut [u8]) -> io::Result<usize> {
        let mut file = match self.file.take() {
            Some(file) => file,
            None => fs::open(self.files, self.path.as_str())?,
        };
        let result = file.read(buf);
        self.file = Some(file);
        result
    }
}

/// A file that is created, or emptied, at its first write. Where it can't be opened, that write is an error, and the next one tries again.
#[derive(Drop)]
pub struct FileWriter<'a, R: Files> {
    files: &'a R,
    path: String,
    file: Option<R::File>,
}

impl<'a, R: Files> Write for FileWriter<'a, R> {
    fn write(&mut self, buf: &[u8]) -> io::Result<usize> {
        let mut file = match self.file.take() {
            Some(file) => file,
            None => fs::create(self.files, self.path.as_str())?,
        };
        let result = file.write(buf);
        self.file = Some(file);
        result
    }

    fn flush(&mut self) -> io::Result<()> {
        match &mut self.file {
            Some(file) => file.flush(),
            None => Ok(()),
        }
    }
}

/// A file that is read. It tells no content.
pub type FileSource<'a, R> = Input<FileReader<'a, R>>;

/// A file that is written. It tells no content.
pub type FileSink<'a, R> = Output<FileWriter<'a, R>>;

impl<'a, R: Files> FileSource<'a, R> {
    /// The file at the path, which isn't opened yet.
    pub fn at(files: &'a R, path: String) -> Self
        ensures { result.faults ≡ 0 }
    {
        Input::new(FileReader {
            files,
            path,
            file: None,
        })
    }
}

impl<'a, R: Files> FileSink<'a, R> {
    /// The file at the path, which isn't opened yet.
    pub fn at(files: &'a R, path: String) -> Self
        ensures { result.faults ≡ 0 }
    {
        Output::new(FileWriter {
            files,
            path,
            file: None,
        })
    }
}
