use crate::{ExtensionKind, Fault, FileHeader, Flow, Layer, LinkType, Ports, Protocol, decode};
use std::net::{IpAddr, Ipv4Addr};
use std::test::Fail;

// A datagram that tcpdump recorded on a loopback.
static DATAGRAM: [u8; 42] = [
    0, 0, 0, 0, 0, 0, 0, 0, 0, 0, 0, 0, 8, 0, 69, 0, 0, 28, 244, 179, 64, 0, 64, 17, 72, 27, 127,
    0, 0, 1, 127, 0, 0, 1, 201, 55, 70, 87, 0, 8, 254, 27,
];

fn has_all(protocols: crate::Protocols, wanted: &[Protocol]) -> bool {
    Protocol::ALL.iter().all(|protocol| protocols.contains(*protocol) == wanted.contains(protocol))
}

#[test]
fn a_datagram(rt: HostRuntime) -> Result<(), Fail> {
    let decoded = decode(LinkType::Ethernet, Layer::new(&DATAGRAM, 42));
    let home = IpAddr::V4(Ipv4Addr::new(127, 0, 0, 1));
    let flow = Flow {
        source: home,
        destination: home,
        protocol: 17,
        ports: Some(Ports {
            source: 51_511,
            destination: 18_007,
        }),
    };
    assert_eq!(rt; decoded.flow, Some(flow));
    assert_eq!(rt; decoded.fault, None);
    assert!(rt;
        has_all(
            decoded.protocols,
            &[Protocol::Ethernet, Protocol::Ipv4, Protocol::Udp]
        )
    );
    Ok(())
}

#[test]
fn the_same_cut_and_short(rt: HostRuntime) -> Result<(), Fail> {
    let cut = decode(LinkType::Ethernet, Layer::new(&DATAGRAM[..33], 42));
    assert_eq!(rt; cut.fault, Some(Fault::Cut));
    assert!(rt; has_all(cut.protocols, &[Protocol::Ethernet]));
    let short = decode(LinkType::Ethernet, Layer::new(&DATAGRAM[..33], 33));
    assert_eq!(rt; short.fault, Some(Fault::Short));
    let raw = decode(LinkType::RawIp, Layer::new(&DATAGRAM[14..], 28));
    assert!(rt; has_all(raw.protocols, &[Protocol::Ipv4, Protocol::Udp]));
    Ok(())
}

#[test]
fn numbers(rt: HostRuntime) -> Result<(), Fail> {
    assert_eq!(rt; LinkType::from_number(1), Some(LinkType::Ethernet));
    assert_eq!(rt; LinkType::from_number(101), Some(LinkType::RawIp));
    assert_eq!(rt; LinkType::from_number(113), None);
    assert_eq!(rt;
        ExtensionKind::from_number(44),
        Some(ExtensionKind::Fragment)
    );
    assert_eq!(rt; ExtensionKind::from_number(6), None);
    assert!(rt; FileHeader::read(&[0; 24]).is_err());
    Ok(())
}
