//! The adapters over std's readers and writers.
use std::io::{self, ErrorKind, Read, Write};
use trace_audit::{Failed, FromReader, Sink, Source, ToWriter};

/// A reader and a writer that are interrupted each time.
#[derive(Clone, Copy, Drop)]
struct Interrupted;

impl Read for Interrupted {
    fn read(&mut self, _buf: &mut [u8]) -> io::Result<usize> {
        Err(io::Error::from(ErrorKind::Interrupted))
    }
}

impl Write for Interrupted {
    fn write(&mut self, _buf: &[u8]) -> io::Result<usize> {
        Err(io::Error::from(ErrorKind::Interrupted))
    }

    fn flush(&mut self) -> io::Result<()> {
        Ok(())
    }
}

/// None is made up for by trying again, so that a program can stop.
#[test]
fn an_interruption_is_a_failure(rt: HostRuntime) {
    let mut piece = [0u8; 4];
    let mut source = FromReader::new(Interrupted);
    assert!(rt; source.read(piece.as_mut_slice()) == Err(Failed));
    let mut sink = ToWriter::new(Interrupted);
    assert!(rt; sink.write(piece.as_slice()) == Err(Failed));
}
