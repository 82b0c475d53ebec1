//! A capture that is read packet by packet.
ghost use Rattle.std.specs.Prelude.{◌≤◌, length, IfOk};

use fustrevol::PoolError;
use packet_headers::{
    ByteOrder, FILE_HEADER, FileError, FileHeader, LinkType, RECORD_HEADER, RecordError,
    RecordHeader,
};
use std::io::{self, BufRead, BufReader, ErrorKind, Read};
use thiserror::Error;

/// Where and why reading ended before the end of the capture.
#[derive(Debug, Drop, Error)]
#[error("offset {offset}: {cause}")]
pub struct Stop {
    /// How many bytes stand before the header that is not good, or whose packet isn't.
    pub offset: u64,
    pub cause: Cause,
}

/// Why reading ended.
#[derive(Debug, Drop, Error)]
pub enum Cause {
    #[error("the file is empty")]
    Empty,
    #[error("the file ends after {0} of the 24 bytes of its header")]
    NoHeader(usize),
    #[error("{0}")]
    Header(FileError),
    #[error("unknown link type {0}: only Ethernet (1) and raw IP (101) are known")]
    Link(u32),
    #[error("the file ends after {0} of the 16 bytes of a packet's header")]
    EndInHeader(usize),
    #[error("the file ends inside a packet of {0} captured bytes")]
    EndInPacket(u32),
    #[error("{0}")]
    Record(RecordError),
    #[error("{0}")]
    Read(io::Error),
    #[error("{0}")]
    Pool(PoolError),
}

impl Stop {
    /// Whether the capture is to blame, and no read, and not the pool.
    pub fn is_of_the_capture(&self) -> bool {
        !matches!(self.cause, Cause::Read(_) | Cause::Pool(_))
    }
}

/// A capture whose header was read.
#[derive(Drop)]
pub struct Capture<I> {
    reader: BufReader<I>,
    order: ByteOrder,
    /// What its packets begin with.
    pub link: LinkType,
    /// How many bytes were read, all of good packets but for the last one.
    offset: u64,
}

// Reads until all is filled, or nothing more comes, and says how many bytes came.
fn read_all<I: Read>(reader: &mut I, bytes: &mut [u8]) -> io::Result<usize>
    ensures { IfOk result (λ n. n ≤ length bytes.old) }
{
    let mut filled = 0;
    for _ in 0..u64::MAX {
        if filled >= bytes.len() {
            break;
        }
        match reader.read(&mut bytes[filled..]) {
            Ok(0) => break,
            Ok(n) => filled += n,
            Err(error) if error.kind() == ErrorKind::Interrupted => (),
            Err(error) => return Err(error),
        }
    }
    Ok(filled)
}

// Passes over so many bytes, and says whether there were as many.
fn pass_over<I: BufRead>(reader: &mut I, count: usize) -> io::Result<bool> {
    let mut rest = count;
    for _ in 0..u64::MAX {
        if rest == 0 {
            break;
        }
        let there = match reader.fill_buf() {
            Ok(bytes) => bytes.len().min(rest),
            Err(error) if error.kind() == ErrorKind::Interrupted => continue,
            Err(error) => return Err(error),
        };
        if there == 0 {
            break;
        }
        reader.consume(there);
        rest -= there;
    }
    Ok(rest == 0)
}

impl<I: Read + Drop> Capture<I> {
    /// Reads the header of a capture.
    pub fn open(reader: BufReader<I>) -> Result<Capture<I>, Stop> {
        let mut reader = reader;
        let mut bytes = [0; FILE_HEADER];
        let stop = |cause| Stop { offset: 0, cause };
        let count = match read_all(&mut reader, &mut bytes) {
            Ok(count) => count,
            Err(error) => return Err(stop(Cause::Read(error))),
        };
        match count {
            FILE_HEADER => (),
            0 => return Err(stop(Cause::Empty)),
            _ => return Err(stop(Cause::NoHeader(count))),
        }
        let header = match FileHeader::read(&bytes) {
            Ok(header) => header,
            Err(error) => return Err(stop(Cause::Header(error))),
        };
        let Some(link) = LinkType::from_number(header.link) else {
            return Err(stop(Cause::Link(header.link)));
        };
        Ok(Capture {
            reader,
            order: header.order,
            link,
            offset: FILE_HEADER as u64,
        })
    }

    /// That reading ends here.
    pub fn stop(&self, cause: Cause) -> Stop {
        Stop {
            offset: self.offset,
            cause,
        }
    }

    /// The next packet's header, or `None` at the end of the capture.
    pub fn next_record(&mut self) -> Result<Option<RecordHeader>, Stop> {
        let mut bytes = [0; RECORD_HEADER];
        match read_all(&mut self.reader, &mut bytes) {
            Ok(0) => return Ok(None),
            Ok(RECORD_HEADER) => (),
            Ok(count) => return Err(self.stop(Cause::EndInHeader(count))),
            Err(error) => return Err(self.stop(Cause::Read(error))),
        }
        match RecordHeader::read(self.order, &bytes) {
            Ok(record) => Ok(Some(record)),
            Err(error) => Err(self.stop(Cause::Record(error))),
        }
    }

    /// Reads the packet behind this header: as much of it as there is room for, and the rest is passed over.
    pub fn read_packet(&mut self, record: &RecordHeader, bytes: &mut [u8]) -> Result<(), Stop> {
        let captured = record.captured as usize;
        let kept = captured.min(bytes.len());
        match self.read_and_pass(&mut bytes[..kept], captured - kept) {
            Ok(true) => (),
            Ok(false) => return Err(self.stop(Cause::EndInPacket(record.captured))),
            Err(error) => return Err(self.stop(Cause::Read(error))),
        }
        self.offset = self
            .offset
            .saturating_add(RECORD_HEADER as u64 + captured as u64);
        Ok(())
    }

    // Reads these bytes and passes over so many more, and says whether there were as many.
    fn read_and_pass(&mut self, bytes: &mut [u8], rest: usize) -> io::Result<bool> {
        let count = read_all(&mut self.reader, bytes)?;
        Ok(count == bytes.len() && pass_over(&mut self.reader, rest)?)
    }
}
