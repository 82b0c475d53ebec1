//! The report as a table.

use crate::counts::Count;
use crate::report::{Report, transport_name};
use packet_headers::Flow;
use std::alloc::Global;
use std::fmt;
use std::io::{self, Write};
use std::net::IpAddr;

/// Writes the report as a table. At most so many bytes of a packet were kept.
pub fn write_table<W: Write>(
    alloc: Global,
    report: &Report,
    most: usize,
    out: &mut W,
) -> io::Result<()> {
    write_protocols(alloc, report, out)?;
    write_damage(report, most, out)?;
    write_flows(report, out)
}

fn write_protocols<W: Write>(alloc: Global, report: &Report, out: &mut W) -> io::Result<()> {
    writeln!(out, "{:<20}{:>12}{:>16}", "protocol", "packets", "bytes")?;
    for (protocol, count) in report.protocols(alloc)? {
        write_count(protocol.name(), count, out)?;
    }
    write_count("all", report.counts.all, out)
}

fn write_count<W: Write>(name: &str, count: Count, out: &mut W) -> io::Result<()> {
    let Count { packets, bytes } = count;
    writeln!(out, "{name:<20}{packets:>12}{bytes:>16}")
}

fn write_damage<W: Write>(report: &Report, most: usize, out: &mut W) -> io::Result<()> {
    let damage = &report.counts.damage;
    let cut_to_buffer = if most > 512 {
        "cut to 1,024 bytes"
    } else {
        "cut to 512 bytes"
    };
    writeln!(out, "\n{:<20}{:>12}", "damage", "packets")?;
    for (name, packets) in [
        ("malformed", damage.malformed()),
        ("  short header", damage.short_header),
        ("  wrong version", damage.version),
        ("  header length", damage.header_length),
        ("  length", damage.length),
        ("cut by the capture", damage.cut_by_capture),
        (cut_to_buffer, damage.cut_to_buffer),
        ("cut in a header", damage.cut_header),
    ] {
        writeln!(out, "{name:<20}{packets:>12}")?;
    }
    Ok(())
}

fn write_flows<W: Write>(report: &Report, out: &mut W) -> io::Result<()> {
    let shown = report.top.len();
    let all = report.counts.flow_count();
    writeln!(out, "\nflows: {shown} of {all}")?;
    for (flow, count) in &report.top {
        let Count { packets, bytes } = *count;
        writeln!(
            out,
            "{bytes:>16} bytes {packets:>9} packets  {}",
            Shown(flow)
        )?;
    }
    Ok(())
}

/// A flow as text.
#[derive(Clone, Copy)]
struct Shown<'a>(&'a Flow);

impl fmt::Display for Shown<'_> {
    fn fmt<W: fmt::Write>(&self, f: &mut fmt::Formatter<W>) -> fmt::Result {
        let Flow {
            source,
            destination,
            protocol,
            ports,
        } = *self.0;
        match transport_name(protocol) {
            "" => write!(f, "protocol {protocol} ")?,
            name => write!(f, "{name} ")?,
        }
        write_end(f, source, ports.map(|ports| ports.source))?;
        write!(f, " > ")?;
        write_end(f, destination, ports.map(|ports| ports.destination))
    }
}

fn write_end<W: fmt::Write>(
    f: &mut fmt::Formatter<W>,
    address: IpAddr,
    port: Option<u16>,
) -> fmt::Result {
    match (address, port) {
        (IpAddr::V6(address), Some(port)) => write!(f, "[{address}]:{port}"),
        (IpAddr::V4(address), Some(port)) => write!(f, "{address}:{port}"),
        (address, None) => write!(f, "{address}"),
    }
}
