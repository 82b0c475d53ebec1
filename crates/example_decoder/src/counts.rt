//! What is counted.

use crate::bundle::Entry;
use crate::note::Note;
use packet_headers::{Fault, Flow, Protocol, Protocols};
use std::alloc::{AllocError, Global};
use std::cmp::Reverse;
use std::collections::HashMap;

/// How many packets, and how many bytes they had, captured or not.
#[derive(Clone, Copy, Debug, Default, PartialEq, Eq)]
pub struct Count {
    pub packets: u64,
    pub bytes: u64,
}

impl Count {
    fn add(&mut self, bytes: u64) {
        self.packets = self.packets.saturating_add(1);
        self.bytes = self.bytes.saturating_add(bytes);
    }

    fn plus(self, other: Count) -> Count {
        Count {
            packets: self.packets.saturating_add(other.packets),
            bytes: self.bytes.saturating_add(other.bytes),
        }
    }
}

/// Packets that aren't there as a whole, and packets with a header that can't be read.
#[derive(Clone, Copy, Debug, Default, PartialEq, Eq)]
pub struct Damage {
    /// The capture has less of the packet than there was.
    pub cut_by_capture: u64,
    /// A buffer had less room than the capture has of the packet.
    pub cut_to_buffer: u64,
    /// The cut goes through a header.
    pub cut_header: u64,
    /// A packet, or the layer around, ends inside a header.
    pub short_header: u64,
    /// A header has the wrong version.
    pub version: u64,
    /// A header gives itself a length that it can't have.
    pub header_length: u64,
    /// A header gives what it carries a length that it can't have.
    pub length: u64,
}

impl Damage {
    fn add_fault(&mut self, fault: Fault) {
        let count = match fault {
            Fault::Cut => &mut self.cut_header,
            Fault::Short => &mut self.short_header,
            Fault::Version => &mut self.version,
            Fault::HeaderLength => &mut self.header_length,
            Fault::Length => &mut self.length,
        };
        *count = count.saturating_add(1);
    }

    fn add_cut(&mut self, entry: &Entry, kept: u16) {
        if entry.captured < entry.size {
            self.cut_by_capture = self.cut_by_capture.saturating_add(1);
        }
        if u32::from(kept) < entry.captured {
            self.cut_to_buffer = self.cut_to_buffer.saturating_add(1);
        }
    }

    /// How many packets are malformed.
    pub fn malformed(&self) -> u64 {
        self.short_header
            .saturating_add(self.version)
            .saturating_add(self.header_length)
            .saturating_add(self.length)
    }
}

// How many sets of protocols there are.
const SETS: usize = 4096;

/// What all packets add up to.
#[derive(Drop)]
pub struct Counts {
    /// All packets.
    pub all: Count,
    pub damage: Damage,
    by_set: Vec<Count>,
    flows: HashMap<Flow, Count>,
}

impl Counts {
    /// Nothing is counted.
    pub fn new(alloc: Global) -> Result<Counts, AllocError> {
        Ok(Counts {
            all: Count::default(),
            damage: Damage::default(),
            by_set: vec![in alloc; Count::default(); SETS]?,
            flows: HashMap::new(alloc),
        })
    }

    /// Counts a packet.
    pub fn add(&mut self, entry: &Entry, note: &Note) -> Result<(), AllocError> {
        let bytes = u64::from(entry.size);
        if let Some(flow) = note.decoded.flow {
            self.flows
                .entry(flow)?
                .or_insert(Count::default())
                .add(bytes);
        }
        self.all.add(bytes);
        if let Some(count) = self
            .by_set
            .get_mut(usize::from(note.decoded.protocols.bits))
        {
            count.add(bytes);
        }
        self.damage.add_cut(entry, note.kept);
        if let Some(fault) = note.decoded.fault {
            self.damage.add_fault(fault);
        }
        Ok(())
    }

    /// The packets that have this protocol.
    pub fn of_protocol(&self, protocol: Protocol) -> Count {
        let mut count = Count::default();
        for (bits, one) in self.by_set.iter().enumerate() {
            let set = Protocols {
                bits: u16::try_from(bits).unwrap_or(0),
            };
            if set.contains(protocol) {
                count = count.plus(*one);
            }
        }
        count
    }

    /// How many flows there are.
    pub fn flow_count(&self) -> usize {
        self.flows.len()
    }

    /// The flows with most bytes, so many; those with as many bytes in the order of their addresses.
    pub fn top_flows(&self, alloc: Global, most: usize) -> Result<Vec<(Flow, Count)>, AllocError> {
        let mut flows = Vec::with_capacity(alloc, self.flows.len())?;
        for (flow, count) in self.flows.iter() {
            flows.push((*flow, *count))?;
        }
        flows.sort_unstable_by_key(|(flow, count)| (Reverse(count.bytes), *flow));
        flows.truncate(most);
        Ok(flows)
    }
}
