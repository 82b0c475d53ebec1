//! Where objects go: standard output, or a file that is renamed when it is full.

use std::alloc::Global;
use std::fs::{self, OpenFile, OpenOptions};
use std::io::{self, ErrorKind, Write};
use std::rt::Files;
use syslog_lines::Mark;

/// How many bytes are written at a time.
const BLOCK_BYTES: usize = 65_536;

/// A file that lines are appended to.
#[derive(Drop)]
pub struct LogFile<F: Drop> {
    path: String,
    file: F,
    size: u64,
    most: Option<u64>,
    renamed: u64,
}

impl<F: Write + OpenFile + Drop> LogFile<F> {
    /// Opens a file, and begins it where there is none. It doesn't grow beyond `most` bytes, unless by one object.
    pub fn open<P: Files<File = F>>(
        host: &P,
        path: String,
        most: Option<u64>,
    ) -> io::Result<LogFile<F>> {
        let file = append(host, path.as_str())?;
        let size = file.metadata()?.len();
        Ok(LogFile {
            path,
            file,
            size,
            most,
            renamed: 0,
        })
    }

    // Whether so many bytes more are too many. An empty file takes any object.
    fn is_full(&self, waiting: usize, more: usize) -> bool {
        let held = self.size.saturating_add(waiting as u64);
        match self.most {
            Some(most) => held > 0 && held.saturating_add(more as u64) > most,
            None => false,
        }
    }

    // Renames the file to the first name with a number that is free, and begins it anew.
    fn rotate<P: Files<File = F>>(&mut self, host: &P, alloc: Global) -> io::Result<()> {
        for number in self.renamed..u64::MAX {
            let number = number.saturating_add(1);
            let path = self.path.as_str();
            let free = format!(in alloc; "{path}.{number}")?;
            if fs::exists(host, free.as_str())? {
                continue;
            }
            fs::rename(host, path, free.as_str())?;
            self.renamed = number;
            break;
        }
        self.file = append(host, self.path.as_str())?;
        self.size = 0;
        Ok(())
    }
}

fn append<P: Files>(host: &P, path: &str) -> io::Result<P::File> {
    let mut options = OpenOptions::new();
    options.append(true).create(true);
    options.open(host, path)
}

/// Objects on their way out.
#[derive(Drop)]
pub struct Output<P: Files + Drop> {
    host: P,
    alloc: Global,
    file: Option<LogFile<P::File>>,
    text: Vec<u8>,
    ends: Vec<(usize, Mark)>,
    written: Option<Mark>,
}

impl<P: Files + Print + Drop> Output<P> {
    pub fn new(host: P, alloc: Global, file: Option<LogFile<P::File>>) -> Output<P> {
        Output {
            host,
            alloc,
            file,
            text: Vec::new(alloc),
            ends: Vec::new(alloc),
            written: None,
        }
    }

    /// The piece whose object was the last one written as a whole.
    pub fn written(&self) -> Option<Mark> {
        self.written
    }

    /// Adds the object of a piece. It is written once there is enough, or by [`Output::flush`].
    pub fn add(&mut self, mark: Mark, object: &[u8]) -> io::Result<()> {
        if self.text.len().saturating_add(object.len()) > BLOCK_BYTES {
            self.flush()?;
        }
        if let Some(file) = &self.file
            && file.is_full(self.text.len(), object.len())
        {
            self.begin_file()?;
        }
        self.text.extend_from_slice(object)?;
        self.ends.push((self.text.len(), mark))?;
        Ok(())
    }

    fn begin_file(&mut self) -> io::Result<()> {
        self.flush()?;
        match &mut self.file {
            Some(file) => file.rotate(&self.host, self.alloc),
            None => Ok(()),
        }
    }

    /// Writes all that was added. After an error nothing more is to be written.
    pub fn flush(&mut self) -> io::Result<()> {
        let mut done = 0;
        let result = self.write_from(&mut done);
        for (end, mark) in &self.ends {
            if *end <= done {
                self.written = Some(*mark);
            }
        }
        self.ends.clear();
        self.text.clear();
        result
    }

    // Writes the text, and counts how many bytes went out.
    fn write_from(&mut self, done: &mut usize) -> io::Result<()> {
        for _ in 0..u64::MAX {
            let Some(rest) = self.text.get(*done..) else {
                break;
            };
            if rest.is_empty() {
                break;
            }
            let wrote = match &mut self.file {
                Some(file) => file.file.write(rest),
                None => self.host.write_some(rest),
            };
            match wrote {
                Ok(0) => return Err(io::Error::from(ErrorKind::WriteZero)),
                Ok(count) => {
                    *done = done.saturating_add(count);
                    if let Some(file) = &mut self.file {
                        file.size = file.size.saturating_add(count as u64);
                    }
                }
                Err(error) if error.kind() == ErrorKind::Interrupted => {}
                Err(error) => return Err(error),
            }
        }
        Ok(())
    }
}
