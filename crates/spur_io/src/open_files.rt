// The files of the system that stay open from one call to the next.
ghost use Rattle.std.specs.Prelude.{◌≡◌, ◌≤◌, length, IfOk};

use crate::FileFault;
use std::alloc::Global;
use std::fs;
use std::fs::OpenOptions;
use std::io::{Read, Seek, SeekFrom, Write};
use std::rt::Files as SystemFiles;

// A file that is open for reading, and the place of its next byte where that is known.
#[derive(Drop)]
struct Reader<F> {
    name: String,
    file: F,
    position: Option<u64>,
}

impl<F: Read + Seek> Reader<F> {
    fn read_at(&mut self, at: u64, into: &mut [u8]) -> Result<usize, FileFault>
        ensures { IfOk result (λ n. n ≤ length into.new) }
    {
        if self.position != Some(at) {
            self.file.seek(SeekFrom::Start(at))?;
        }
        let count = self.file.read(into)?;
        self.position = at.checked_add(count as u64);
        Ok(count)
    }
}

// A file that is open for adding bytes at its end.
#[derive(Drop)]
struct Appender<F> {
    name: String,
    file: F,
}

#[derive(Drop)]
pub struct OpenFiles<R: SystemFiles + Drop> {
    alloc: Global,
    system: R,
    reader: Option<Reader<R::File>>,
    appender: Option<Appender<R::File>>,
}

impl<R: SystemFiles + Drop> OpenFiles<R> {
    pub fn new(alloc: Global, system: R) -> Self {
        OpenFiles {
            alloc,
            system,
            reader: None,
            appender: None,
        }
    }

    // After a refusal the file is closed, so that the next read opens it anew.
    pub fn read_at(&mut self, name: &str, at: u64, into: &mut [u8]) -> Result<usize, FileFault>
        ensures { IfOk result (λ n. n ≤ length into.new) }
    {
        let mut reader = match self.reader.take() {
            Some(reader) if reader.name.as_str() == name => reader,
            _ => self.open_reader(name)?,
        };
        let count = reader.read_at(at, into)?;
        self.reader = Some(reader);
        Ok(count)
    }

    pub fn begin(&mut self, name: &str) -> Result<(), FileFault> {
        self.close(name);
        fs::create(&self.system, name)?;
        Ok(())
    }

    // What is read of the file from here on is read from the file opened anew.
    pub fn append(&mut self, name: &str, bytes: &[u8]) -> Result<(), FileFault> {
        self.close_reader(name);
        let mut appender = match self.appender.take() {
            Some(appender) if appender.name.as_str() == name => appender,
            _ => self.open_appender(name)?,
        };
        appender.file.write_all(bytes)?;
        self.appender = Some(appender);
        Ok(())
    }

    fn open_reader(&self, name: &str) -> Result<Reader<R::File>, FileFault> {
        Ok(Reader {
            name: String::from_str(self.alloc, name)?,
            file: fs::open(&self.system, name)?,
            position: Some(0),
        })
    }

    fn open_appender(&self, name: &str) -> Result<Appender<R::File>, FileFault> {
        let mut options = OpenOptions::new();
        options.append(true).create(true);
        Ok(Appender {
            name: String::from_str(self.alloc, name)?,
            file: options.open(&self.system, name)?,
        })
    }

    fn close(&mut self, name: &str) {
        self.close_reader(name);
        if let Some(appender) = &self.appender {
            if appender.name.as_str() == name {
                self.appender = None;
            }
        }
    }

    fn close_reader(&mut self, name: &str) {
        if let Some(reader) = &self.reader {
            if reader.name.as_str() == name {
                self.reader = None;
            }
        }
    }
}
