//! Requests for addresses, and their answers.
ghost use Rattle.std.specs.Prelude.{◌≡◌, IfOk, IfErr};
ghost use Rattle.packet_headers.specs.Headers.{IsArp, IsArpFault};

use crate::layer::{Fault, Layer};

/// A message of ARP.
#[derive(Clone, Copy, Debug, PartialEq, Eq)]
pub struct Arp {
    /// What network it is of, 1 for Ethernet.
    pub hardware: u16,
    /// What is asked for, by the numbers of Ethernet.
    pub protocol: u16,
    /// 1 for a request, 2 for an answer.
    pub operation: u16,
}

impl Arp {
    /// Reads a message, with its four addresses behind the first eight bytes.
    pub fn read(layer: Layer<'_>) -> Result<Arp, Fault>
        ensures value { IfOk result (IsArp layer.entry) }
        ensures why { IfErr result (IsArpFault layer.entry) }
    {
        layer.has(8)?;
        let addresses = 2 * usize::from(layer.byte(4)) + 2 * usize::from(layer.byte(5));
        layer.has(8 + addresses)?;
        Ok(Arp {
            hardware: layer.word(0),
            protocol: layer.word(2),
            operation: layer.word(6),
        })
    }
}
