//! Packets that go from thread to thread together.
//!
//! A packet of up to 512 bytes stands whole in a buffer of its own. How long it was, and how much of it was
//! captured, stands in an index, a buffer of 512 bytes that lies behind up to 64 packets in one parcel.
ghost use Rattle.std.specs.Prelude.{◌≤◌};

use fustrevol::{Burst, Bytes, Data, Heap, PoolError};
use packet_headers::RecordHeader;
use std::sync::Wait;
use std::time::Clock;

/// How many packets there are at most.
pub const MOST_PACKETS: usize = 64;

const ENTRY: usize = 8;

/// How long a packet was, and how many bytes of it the capture has.
#[derive(Clone, Copy, Debug)]
pub struct Entry {
    pub size: u32,
    pub captured: u32,
}

impl Entry {
    fn to_bytes(self) -> [u8; 8] {
        let [a, b, c, d] = self.size.to_le_bytes();
        let [e, f, g, h] = self.captured.to_le_bytes();
        [a, b, c, d, e, f, g, h]
    }

    fn read(bytes: &[u8]) -> Option<Entry> {
        let bytes = bytes.first_chunk::<ENTRY>()?;
        Some(Entry {
            size: u32::from_le_bytes([bytes[0], bytes[1], bytes[2], bytes[3]]),
            captured: u32::from_le_bytes([bytes[4], bytes[5], bytes[6], bytes[7]]),
        })
    }
}

/// Packets that are collected, and their index.
#[derive(Drop)]
pub struct Bundle<H: Heap> {
    packets: H::Parcel,
    index: H::Buffer,
}

impl<H: Heap> Bundle<H> {
    /// One without packets. It waits while the pool has no buffer for the index.
    pub fn new<R: Wait + Clock>(rt: &R, heap: &mut H) -> Result<Bundle<H>, PoolError> {
        let packets = heap.parcel(MOST_PACKETS + 1)?;
        let index = heap.alloc_waiting(rt, MOST_PACKETS * ENTRY)?;
        Ok(Bundle { packets, index })
    }

    /// Whether no packet is in it.
    pub fn is_empty(&self) -> bool {
        self.packets.is_empty()
    }

    /// Whether no packet more has room.
    pub fn is_full(&self) -> bool {
        self.packets.len() >= MOST_PACKETS
    }

    /// Puts a packet in, or gives it back where there is no room.
    pub fn push(&mut self, packet: H::Buffer, record: &RecordHeader) -> Result<(), H::Buffer> {
        let entry = Entry {
            size: record.size,
            captured: record.captured,
        };
        match self.index.extend_from_slice(&entry.to_bytes()) {
            Ok(()) => self.packets.push(packet),
            Err(_) => Err(packet),
        }
    }

    /// The packets in their order, and the index behind them.
    pub fn close(self) -> Result<H::Parcel, Bundle<H>> {
        let Bundle { mut packets, index } = self;
        match packets.push(index) {
            Ok(()) => Ok(packets),
            Err(index) => Err(Bundle { packets, index }),
        }
    }

    /// Frees all of it.
    pub fn free<R: Wait>(self, rt: &R, heap: &mut H) {
        let Bundle { packets, index } = self;
        heap.free_all(rt, packets);
        heap.free(rt, index);
    }
}

/// The entry of the packet at this place of a closed bundle.
pub fn entry_of<B: Bytes, P: Burst<B>>(parcel: &P, place: usize) -> Option<Entry>
    requires { place ≤ 64 }
{
    let index = parcel.buffers().last()?;
    Entry::read(index.data().get(ENTRY * place..)?)
}
