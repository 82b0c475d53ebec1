//! The file format of captured packets: a header of 24 bytes, and behind it each packet with a header of 16.
//!
//! It is that of libpcap, as draft-ietf-opsawg-pcap describes it. The file's first number tells in which byte
//! order all numbers are written, and whether times have microseconds or nanoseconds.
ghost use Rattle.std.specs.Prelude.{◌≡◌, ◌≢◌, ◌+◌, ◌<◌, ◌≤◌, length, IfOk, IfErr, MatchOption};
ghost use Rattle.packet_headers.specs.Captures.{IsFileHeader, IsFileError, IsRecordHeader, IsRecordError};
ghost use Rattle.packet_headers.specs.Captures.{HasNoMagic, IsNoMagic, long_at, magic_of, short_at};

use thiserror::Error;

/// How many bytes the header of a file has.
pub const FILE_HEADER: usize = 24;

/// How many bytes the header of a packet has.
pub const RECORD_HEADER: usize = 16;

/// No packet has more captured bytes: libpcap writes none that are longer, and refuses to read them.
pub const MOST_CAPTURED: u32 = 262_144;

/// In which order the bytes of a number stand.
#[derive(Clone, Copy, Debug, PartialEq, Eq)]
pub enum ByteOrder {
    /// The most significant byte first.
    Big,
    /// The least significant byte first.
    Little,
}

impl ByteOrder {
    /// The number of 32 bits that begins at this place.
    pub fn long(self, bytes: &[u8], at: usize) -> u32
        requires { at + 3 < length bytes.now }
        ensures { result ≡ long_at self bytes.now at }
    {
        let first = u32::from(bytes[at]);
        let second = u32::from(bytes[at + 1]);
        let third = u32::from(bytes[at + 2]);
        let fourth = u32::from(bytes[at + 3]);
        match self {
            ByteOrder::Big => first * 16_777_216 + second * 65_536 + third * 256 + fourth,
            ByteOrder::Little => fourth * 16_777_216 + third * 65_536 + second * 256 + first,
        }
    }

    /// The number of 16 bits that begins at this place.
    pub fn short(self, bytes: &[u8], at: usize) -> u16
        requires { at + 1 < length bytes.now }
        ensures { result ≡ short_at self bytes.now at }
    {
        let first = u16::from(bytes[at]);
        let second = u16::from(bytes[at + 1]);
        match self {
            ByteOrder::Big => first * 256 + second,
            ByteOrder::Little => second * 256 + first,
        }
    }
}

/// What the fractions of seconds count.
#[derive(Clone, Copy, Debug, PartialEq, Eq)]
pub enum Precision {
    Microseconds,
    Nanoseconds,
}

/// Why a file holds no packets that can be read.
#[derive(Clone, Copy, Debug, PartialEq, Eq, Drop, Error)]
pub enum FileError {
    /// Its first bytes are those of no capture file.
    #[error("unknown magic number: this is no pcap file")]
    Magic,
    /// It is of the format's successor.
    #[error("this is a pcapng file; `editcap -F pcap` makes a pcap file of it")]
    NextGeneration,
    /// It is of another version of the format than 2.
    #[error("unknown version of the format")]
    Version,
}

/// What a file says of all its packets.
#[derive(Clone, Copy, Debug, PartialEq, Eq)]
pub struct FileHeader {
    /// In which order the bytes of its numbers stand.
    pub order: ByteOrder,
    /// What the fractions of seconds count.
    pub precision: Precision,
    /// How many bytes of a packet were captured at most. Zero stands for no limit, and some programs write
    /// longer packets all the same.
    pub snap_length: u32,
    /// What each packet begins with: a link type of tcpdump's list.
    pub link: u32,
}

const MICROSECONDS: u32 = 0xa1b2_c3d4;

const NANOSECONDS: u32 = 0xa1b2_3c4d;

const VERSION: u16 = 2;

// The first block of a pcapng file has the same number in both orders.
const NEXT_GENERATION: u32 = 0x0a0d_0d0a;

/// What the file's first number tells.
#[derive(Clone, Copy, Debug, PartialEq, Eq)]
struct Magic {
    order: ByteOrder,
    precision: Precision,
}

// What this number tells, read in this order.
fn magic_in(order: ByteOrder, number: u32) -> Option<Magic>
    ensures { MatchOption result (IsNoMagic number) (λ m. (m.order ≡ order) × (number ≡ magic_of m.precision)) }
{
    match number {
        MICROSECONDS => Some(Magic {
            order,
            precision: Precision::Microseconds,
        }),
        NANOSECONDS => Some(Magic {
            order,
            precision: Precision::Nanoseconds,
        }),
        _ => None,
    }
}

fn find_magic(bytes: &[u8]) -> Result<Magic, FileError>
    requires { 3 < length bytes.now }
    ensures value { IfOk result (λ m. long_at m.order bytes.now 0 ≡ magic_of m.precision) }
    ensures why { IfErr result (λ e. (e ≢ FileError.Version) × HasNoMagic bytes.now) }
{
    let number = ByteOrder::Big.long(bytes, 0);
    if let Some(magic) = magic_in(ByteOrder::Big, number) {
        return Ok(magic);
    }
    if let Some(magic) = magic_in(ByteOrder::Little, ByteOrder::Little.long(bytes, 0)) {
        return Ok(magic);
    }
    Err(if number == NEXT_GENERATION {
        FileError::NextGeneration
    } else {
        FileError::Magic
    })
}

impl FileHeader {
    /// Reads it.
    pub fn read(bytes: &[u8]) -> Result<FileHeader, FileError>
        requires { 24 ≤ length bytes.now }
        ensures value { IfOk result (IsFileHeader bytes.now) }
        ensures why { IfErr result (IsFileError bytes.now) }
    {
        let Magic { order, precision } = find_magic(bytes)?;
        if order.short(bytes, 4) != VERSION {
            return Err(FileError::Version);
        }
        Ok(FileHeader {
            order,
            precision,
            snap_length: order.long(bytes, 16),
            link: order.long(bytes, 20) % 65_536,
        })
    }
}

/// What a file says of one packet.
#[derive(Clone, Copy, Debug, PartialEq, Eq)]
pub struct RecordHeader {
    /// When it was captured: seconds since 1970.
    pub seconds: u32,
    /// The fraction of that second, in the file's unit.
    pub fraction: u32,
    /// How many of its bytes follow.
    pub captured: u32,
    /// How many bytes it had.
    pub size: u32,
}

/// Why no packet can be behind a header.
#[derive(Clone, Copy, Debug, PartialEq, Eq, Drop, Error)]
pub enum RecordError {
    /// More bytes are said to follow than any program captures.
    #[error("impossible length: {0} captured bytes, and a packet has at most 262144")]
    TooLong(u32),
    /// More bytes are said to follow than the packet had.
    #[error("impossible length: {0} captured bytes of a packet that had {1}")]
    MoreThanAll(u32, u32),
}

impl RecordHeader {
    /// Reads it, in this order.
    pub fn read(order: ByteOrder, bytes: &[u8]) -> Result<RecordHeader, RecordError>
        requires { 16 ≤ length bytes.now }
        ensures value { IfOk result (IsRecordHeader order bytes.now) }
        ensures why { IfErr result (IsRecordError order bytes.now) }
    {
        let captured = order.long(bytes, 8);
        let size = order.long(bytes, 12);
        if captured > MOST_CAPTURED {
            return Err(RecordError::TooLong(captured));
        }
        if captured > size {
            return Err(RecordError::MoreThanAll(captured, size));
        }
        Ok(RecordHeader {
            seconds: order.long(bytes, 0),
            fraction: order.long(bytes, 4),
            captured,
            size,
        })
    }
}
