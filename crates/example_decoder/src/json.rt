//! The report as JSON.

use crate::capture::Stop;
use crate::counts::{Count, Damage};
use crate::report::{Report, transport_name};
use packet_headers::Flow;
use serde_json::{Map, Value, json};
use std::alloc::{AllocError, Global};
use std::net::IpAddr;

/// The report as JSON. With `has_audit` it has the audit too.
pub fn json_of(alloc: Global, report: &Report, has_audit: bool) -> Result<Value, AllocError> {
    let Count { packets, bytes } = report.counts.all;
    let flows = report.counts.flow_count() as u64;
    let protocols = protocols_of(alloc, report)?;
    let damage = damage_of(alloc, &report.counts.damage)?;
    let top = top_of(alloc, report)?;
    let error = error_of(alloc, report.stop.as_ref())?;
    let audit = if has_audit {
        audit_of(alloc, report)?
    } else {
        Value::Null
    };
    json!(in alloc; {
        "packets": packets,
        "bytes": bytes,
        "protocols": protocols,
        "damage": damage,
        "flows": flows,
        "top": top,
        "error": error,
        "audit": audit
    })
}

fn protocols_of(alloc: Global, report: &Report) -> Result<Value, AllocError> {
    let mut map = Map::new(alloc);
    for (protocol, count) in report.protocols(alloc)? {
        let Count { packets, bytes } = count;
        let value = json!(in alloc; {"packets": packets, "bytes": bytes})?;
        serde_json::put(&mut map, alloc, protocol.name(), value)?;
    }
    Ok(Value::Object(map))
}

fn damage_of(alloc: Global, damage: &Damage) -> Result<Value, AllocError> {
    let malformed = damage.malformed();
    let Damage {
        cut_by_capture,
        cut_to_buffer,
        cut_header,
        short_header,
        version,
        header_length,
        length,
    } = *damage;
    json!(in alloc; {
        "malformed": malformed,
        "short_header": short_header,
        "wrong_version": version,
        "header_length": header_length,
        "length": length,
        "cut_by_capture": cut_by_capture,
        "cut_to_buffer": cut_to_buffer,
        "cut_in_header": cut_header
    })
}

fn top_of(alloc: Global, report: &Report) -> Result<Value, AllocError> {
    let mut list = Vec::new(alloc);
    for (flow, count) in &report.top {
        list.push(flow_of(alloc, flow, *count)?)?;
    }
    Ok(Value::Array(list))
}

fn flow_of(alloc: Global, flow: &Flow, count: Count) -> Result<Value, AllocError> {
    let Count { packets, bytes } = count;
    let (protocol, name) = (flow.protocol, transport_name(flow.protocol));
    let source = to_value(alloc, flow.source)?;
    let destination = to_value(alloc, flow.destination)?;
    let (from, to) = match flow.ports {
        Some(ports) => (Value::from(ports.source), Value::from(ports.destination)),
        None => (Value::Null, Value::Null),
    };
    json!(in alloc; {
        "source": source,
        "source_port": from,
        "destination": destination,
        "destination_port": to,
        "protocol": protocol,
        "name": name,
        "packets": packets,
        "bytes": bytes
    })
}

fn to_value(alloc: Global, address: IpAddr) -> Result<Value, AllocError> {
    Ok(Value::String(format!(in alloc; "{address}")?))
}

fn error_of(alloc: Global, stop: Option<&Stop>) -> Result<Value, AllocError> {
    let Some(stop) = stop else {
        return Ok(Value::Null);
    };
    let text = format!(in alloc; "{stop}")?;
    let offset = stop.offset;
    json!(in alloc; {"offset": offset, "message": text})
}

fn audit_of(alloc: Global, report: &Report) -> Result<Value, AllocError> {
    let read = report.read;
    let lost = report.tally.counts.lost;
    let fault = match &report.tally.audit {
        Ok(()) => Value::Null,
        Err(fault) => Value::String(format!(in alloc; "{fault:?}")?),
    };
    json!(in alloc; {"read": read, "lost": lost, "fault": fault})
}
