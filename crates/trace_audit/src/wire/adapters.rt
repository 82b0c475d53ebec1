//! Readers and writers of std as sources and sinks.
ghost use Rattle.std.specs.Prelude.{◌≡◌, false};

use super::{Failed, Sink, Source};
use std::io::{Read, Write};

/// A `Source` over a reader of std, as `FromReader::new(bytes)` over a `&[u8]`. Each error of the reader counts as a
/// failure.
#[derive(Drop)]
pub struct FromReader<R> {
    reader: R,
    failed: bool,
}

impl<R: Read> FromReader<R> {
    /// A source that gives what the reader gives.
    pub fn new(reader: R) -> FromReader<R>
        ensures bytes { ⟦<FromReader<R> as Source>⟧.remaining result ≡ R.remaining reader }
        ensures flag { ⟦<FromReader<R> as Source>⟧.has_failed result ≡ false }
    {
        FromReader {
            reader,
            failed: false,
        }
    }
}

impl<R: Read> Source for FromReader<R> {
    ghost remaining = { λ s. R.remaining s.reader };

    ghost has_failed = { λ s. s.failed };

    fn read(&mut self, piece: &mut [u8]) -> Result<usize, Failed> {
        match self.reader.read(piece) {
            Ok(count) => Ok(count),
            Err(_) => {
                self.failed = true;
                Err(Failed)
            }
        }
    }
}

/// A `Sink` over a writer of std, as `ToWriter::new(Vec::new(alloc))`. Each error of the writer counts as a failure.
#[derive(Drop)]
pub struct ToWriter<W> {
    writer: W,
    failed: bool,
}

impl<W: Write> ToWriter<W> {
    /// A sink that hands on to the writer.
    pub fn new(writer: W) -> ToWriter<W>
        ensures bytes { ⟦<ToWriter<W> as Sink>⟧.contents result ≡ W.contents writer }
        ensures flag { ⟦<ToWriter<W> as Sink>⟧.has_failed result ≡ false }
    {
        ToWriter {
            writer,
            failed: false,
        }
    }

    /// The writer, with what was written.
    pub fn into_inner(self) -> W
        ensures { W.contents result ≡ ⟦<ToWriter<W> as Sink>⟧.contents self }
    {
        self.writer
    }
}

impl<W: Write> Sink for ToWriter<W> {
    ghost contents = { λ s. W.contents s.writer };

    ghost has_failed = { λ s. s.failed };

    fn write(&mut self, piece: &[u8]) -> Result<usize, Failed> {
        match self.writer.write(piece) {
            Ok(count) => {
                if count == 0 && !piece.is_empty() {
                    self.failed = true;
                }
                Ok(count)
            }
            Err(_) => {
                self.failed = true;
                Err(Failed)
            }
        }
    }
}
