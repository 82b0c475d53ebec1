//! What is reported.

use crate::capture::Stop;
use crate::counts::{Count, Counts};
use crate::stages::Answer;
use fustrevol::{RunReport, Tally};
use packet_headers::{Flow, Protocol};
use std::alloc::{AllocError, Global};

/// All that is reported of a capture.
#[derive(Drop)]
pub struct Report {
    pub counts: Counts,
    /// The flows with most bytes.
    pub top: Vec<(Flow, Count)>,
    /// How many packets the reader read.
    pub read: u64,
    /// Why it read no more, if that was before the end.
    pub stop: Option<Stop>,
    pub tally: Tally,
}

impl Report {
    /// What the threads' answers come to; `None` where one has none.
    pub fn of(
        alloc: Global,
        ended: RunReport<'_, Answer>,
        top: usize,
    ) -> Result<Option<Report>, AllocError> {
        let mut end = None;
        let mut counted = None;
        for answer in ended.answers {
            match answer {
                Some(Answer::Read(one)) => end = Some(one),
                Some(Answer::Counted(counts)) => counted = Some(counts?),
                Some(Answer::Decoded) | None => (),
            }
        }
        let (Some(end), Some(counts)) = (end, counted) else {
            return Ok(None);
        };
        Ok(Some(Report {
            top: counts.top_flows(alloc, top)?,
            counts,
            read: end.packets,
            stop: end.stop,
            tally: ended.tally,
        }))
    }

    /// Whether each packet that was read is counted, and each buffer came home.
    pub fn is_whole(&self) -> bool {
        self.read == self.counts.all.packets
            && self.tally.counts.lost == 0
            && self.tally.audit.is_ok()
    }

    /// What became of all packets and buffers, as a line.
    pub fn account(&self, alloc: Global) -> Result<String, AllocError> {
        let (read, counted) = (self.read, self.counts.all.packets);
        let lost = self.tally.counts.lost;
        match &self.tally.audit {
            Ok(()) => format!(in alloc;
                "audit: {read} packets read, {counted} counted, each buffer once, {lost} lost"
            ),
            Err(fault) => format!(in alloc;
                "audit: {read} packets read, {counted} counted, {fault:?}, {lost} lost"
            ),
        }
    }

    /// The protocols that packets have, with their counts.
    pub fn protocols(&self, alloc: Global) -> Result<Vec<(Protocol, Count)>, AllocError> {
        let mut all = Vec::new(alloc);
        for protocol in Protocol::ALL {
            let count = self.counts.of_protocol(protocol);
            if count.packets > 0 {
                all.push((protocol, count))?;
            }
        }
        Ok(all)
    }
}

/// The name of what an IP packet carries; empty where it has none here.
pub fn transport_name(number: u8) -> &'static str {
    match number {
        1 => "icmp",
        2 => "igmp",
        6 => "tcp",
        17 => "udp",
        47 => "gre",
        50 => "esp",
        58 => "icmpv6",
        89 => "ospf",
        132 => "sctp",
        _ => "",
    }
}
