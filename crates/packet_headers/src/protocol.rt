//! The protocols that a packet is counted under.
ghost use Rattle.std.specs.Prelude.{◌≡◌, ◌≢◌, ◌↔◌, bit_and, bit_or, IsTrue};
ghost use Rattle.packet_headers.specs.Protocols.{bit_of};

/// How many protocols there are.
pub const PROTOCOLS: usize = 12;

/// A protocol whose header is read, or a name for those that aren't.
#[derive(Clone, Copy, Debug, PartialEq, Eq)]
pub enum Protocol {
    Ethernet,
    /// A tag of IEEE 802.1Q or 802.1ad.
    Vlan,
    Arp,
    Ipv4,
    Ipv6,
    /// A fragment of an IP packet, the first one too.
    Fragment,
    Icmp,
    Icmpv6,
    Tcp,
    Udp,
    /// Something else than IP and ARP in a frame.
    OtherNetwork,
    /// Something else than ICMP, TCP and UDP in an IP packet.
    OtherTransport,
}

impl Protocol {
    /// All of them, in the order of their layers.
    pub const ALL: [Protocol; 12] = [
        Protocol::Ethernet,
        Protocol::Vlan,
        Protocol::Arp,
        Protocol::Ipv4,
        Protocol::Ipv6,
        Protocol::Fragment,
        Protocol::Icmp,
        Protocol::Icmpv6,
        Protocol::Tcp,
        Protocol::Udp,
        Protocol::OtherNetwork,
        Protocol::OtherTransport,
    ];

    /// Its name, in small letters.
    pub fn name(self) -> &'static str {
        match self {
            Protocol::Ethernet => "ethernet",
            Protocol::Vlan => "vlan",
            Protocol::Arp => "arp",
            Protocol::Ipv4 => "ipv4",
            Protocol::Ipv6 => "ipv6",
            Protocol::Fragment => "ip fragment",
            Protocol::Icmp => "icmp",
            Protocol::Icmpv6 => "icmpv6",
            Protocol::Tcp => "tcp",
            Protocol::Udp => "udp",
            Protocol::OtherNetwork => "other network",
            Protocol::OtherTransport => "other transport",
        }
    }

    // The bit that stands for it in a set.
    fn bit(self) -> u16
        ensures { result ≡ bit_of self }
    {
        match self {
            Protocol::Ethernet => 1,
            Protocol::Vlan => 2,
            Protocol::Arp => 4,
            Protocol::Ipv4 => 8,
            Protocol::Ipv6 => 16,
            Protocol::Fragment => 32,
            Protocol::Icmp => 64,
            Protocol::Icmpv6 => 128,
            Protocol::Tcp => 256,
            Protocol::Udp => 512,
            Protocol::OtherNetwork => 1024,
            Protocol::OtherTransport => 2048,
        }
    }
}

/// A set of protocols.
#[derive(Clone, Copy, Debug, PartialEq, Eq)]
pub struct Protocols {
    /// A bit for each, in the order of [`Protocol::ALL`], the least first.
    pub bits: u16,
}

impl Protocols {
    /// None of them.
    pub const NONE: Protocols = Protocols { bits: 0 };

    /// Puts one in.
    pub fn insert(&mut self, protocol: Protocol)
        ensures { self.new.bits ≡ bit_or self.old.bits (bit_of protocol) }
    {
        self.bits |= protocol.bit();
    }

    /// Whether it is in it.
    pub fn contains(self, protocol: Protocol) -> bool
        ensures { IsTrue result ↔ (bit_and self.bits (bit_of protocol) ≢ 0) }
    {
        self.bits & protocol.bit() != 0
    }
}
