//! Edges that hold so many messages, parcels on them, and waits that end.
ghost use Rattle.std.specs.Prelude.{◌≡◌, ◌≤◌};

use super::{BOTH, Ground, Inboxes, Outcome, outcome_of};
use pool_jobs::{Burst, Bytes, Channels, Data, Heap, Message, PoolError, Task, Unsent};
use region_cut::Slot;
use slot_audit::Fault;
use slot_chain::Full;
use std::sync::Wait;
use std::test::Fail;
use std::time::{Clock, Duration};

// What a thread does. It answers with what went wrong, or with nothing.
#[derive(Drop)]
enum Act {
    // Sends to itself until its edge is full, and receives all of it.
    Fills,
    // Allocates each slot of its chunk, and waits for one more, not for ever.
    Waits,
    // Sends parcels of four lines, which the next task reads.
    Packs(u32),
    Reads(u32),
    // Drops a parcel of four lines, and frees an empty one.
    Drops,
    // Shortens the line of a parcel, and says that there is more of it than it has bytes.
    Shortens,
}

impl Task for Act {
    type Answer = Option<&'static str>;

    fn sends_to(&self, task: usize) -> bool {
        match self {
            Act::Fills => task == 0,
            Act::Packs(_) => task == 1,
            _ => false,
        }
    }

    fn bound(&self, _task: usize) -> usize {
        2
    }

    fn run<H: Heap, R: Wait + Clock>(
        self,
        rt: &R,
        heap: &mut H,
        channels: Channels<H::Buffer, H::Parcel>,
    ) -> Option<&'static str> {
        match self {
            Act::Fills => fill(rt, heap, &channels),
            Act::Waits => wait(rt, heap),
            Act::Packs(count) => pack(rt, heap, &channels, count),
            Act::Reads(count) => read(rt, heap, &channels, count),
            Act::Drops => drop_four(rt, heap),
            Act::Shortens => shorten(rt, heap),
        }
    }
}

fn line<H: Heap, R: Wait>(rt: &R, heap: &mut H, text: &[u8]) -> Result<H::Buffer, PoolError> {
    let mut buffer = heap.alloc(rt, 16)?;
    let _full = buffer.extend_from_slice(text);
    Ok(buffer)
}

fn fill<H: Heap, R: Wait>(
    rt: &R,
    heap: &mut H,
    channels: &Channels<H::Buffer, H::Parcel>,
) -> Option<&'static str> {
    for text in [b"first".as_slice(), b"second"] {
        let Ok(buffer) = line(rt, heap, text) else {
            return Some("no buffer");
        };
        if channels.try_send(rt, 0, Message::Buffer(buffer)).is_err() {
            return Some("refused though there is room");
        }
    }
    let Ok(buffer) = line(rt, heap, b"third") else {
        return Some("no third buffer");
    };
    let Err(Unsent::Full(message)) = channels.try_send(rt, 0, Message::Buffer(buffer)) else {
        return Some("taken though there is no room");
    };
    let Err(Unsent::Closed(message)) = channels.try_send(rt, 1, message) else {
        return Some("taken though there is no such edge");
    };
    if channels.send_or_free(rt, heap, 1, message) {
        return Some("handed over though there is no such edge");
    }
    for text in [b"first".as_slice(), b"second"] {
        let Some(Message::Buffer(buffer)) = channels.try_receive(rt) else {
            return Some("nothing came");
        };
        if buffer.data() != text {
            return Some("another line came");
        }
        heap.free(rt, buffer);
    }
    let Ok(buffer) = line(rt, heap, b"fourth") else {
        return Some("no fourth buffer");
    };
    if !channels.send_or_free(rt, heap, 0, Message::Buffer(buffer)) {
        return Some("freed though there is room");
    }
    let Some(message) = channels.try_receive(rt) else {
        return Some("the fourth didn't come");
    };
    message.free(rt, heap);
    match channels.try_receive(rt) {
        Some(_) => Some("more came than was sent"),
        None => None,
    }
}

fn wait<H: Heap, R: Wait + Clock>(rt: &R, heap: &mut H) -> Option<&'static str> {
    let Ok(mut parcel) = heap.parcel(8) else {
        return Some("no parcel");
    };
    for _ in 0..8 {
        match heap.alloc_waiting(rt, 512) {
            Ok(buffer) => {
                let _full = parcel.push(buffer);
            }
            Err(_) => return Some("no buffer"),
        }
    }
    let waited = heap.alloc_within(rt, 512, Duration::from_millis(5));
    heap.free_all(rt, parcel);
    match waited {
        Err(PoolError::UsedUp) => None,
        _ => Some("a ninth buffer of eight slots"),
    }
}

fn pack<H: Heap, R: Wait + Clock>(
    rt: &R,
    heap: &mut H,
    channels: &Channels<H::Buffer, H::Parcel>,
    count: u32,
) -> Option<&'static str> {
    for _ in 0..count {
        let Ok(mut parcel) = heap.parcel(4) else {
            return Some("no parcel");
        };
        for text in [b"a".as_slice(), b"bb", b"ccc", b""] {
            let Ok(mut buffer) = heap.alloc_waiting(rt, 16) else {
                return Some("no buffer");
            };
            let _full = buffer.extend_from_slice(text);
            let _more = parcel.push(buffer);
        }
        if channels.send_parcel(rt, heap, 1, parcel).is_err() {
            return Some("not handed over");
        }
    }
    None
}

fn read<H: Heap, R: Wait>(
    rt: &R,
    heap: &mut H,
    channels: &Channels<H::Buffer, H::Parcel>,
    count: u32,
) -> Option<&'static str> {
    for _ in 0..count {
        let Some(Message::Parcel(parcel)) = channels.receive(rt, heap) else {
            return Some("no parcel came");
        };
        let mut length = 0usize;
        for buffer in parcel.buffers() {
            length = length
                .saturating_mul(10)
                .saturating_add(buffer.data().len());
        }
        heap.free_all(rt, parcel);
        if length != 1_230 {
            return Some("other lines came");
        }
    }
    match channels.receive(rt, heap) {
        Some(_) => Some("more came than was sent"),
        None => None,
    }
}

fn drop_four<H: Heap, R: Wait>(rt: &R, heap: &mut H) -> Option<&'static str> {
    let Ok(mut parcel) = heap.parcel(4) else {
        return Some("no parcel");
    };
    for _ in 0..4 {
        let Ok(buffer) = line(rt, heap, b"line") else {
            return Some("no buffer");
        };
        if let Err(buffer) = parcel.push(buffer) {
            heap.free(rt, buffer);
            return Some("no room in the parcel");
        }
    }
    drop(parcel);
    let Ok(empty) = heap.parcel(4) else {
        return Some("no empty parcel");
    };
    heap.free_all(rt, empty);
    None
}

fn shorten<H: Heap, R: Wait>(rt: &R, heap: &mut H) -> Option<&'static str> {
    if heap.largest_size() != 512 {
        return Some("another size is the largest");
    }
    let Ok(mut parcel) = heap.parcel(1) else {
        return Some("no parcel");
    };
    let Ok(buffer) = line(rt, heap, b"a line") else {
        return Some("no buffer");
    };
    if let Err(buffer) = parcel.push(buffer) {
        heap.free(rt, buffer);
        return Some("no room in the parcel");
    }
    let is_shorter = parcel.len() == 1 && parcel.set_len_at(0, 2).is_ok();
    let is_refused = parcel.len() == 1 && parcel.set_len_at(0, 17) == Err(Full);
    let mut is_kept = true;
    for buffer in parcel.buffers() {
        is_kept = is_kept && buffer.data() == b"a ".as_slice();
    }
    heap.free_all(rt, parcel);
    if !is_shorter || !is_refused || !is_kept {
        return Some("another length");
    }
    None
}

// A pool of so many chunks, with one desk for each task.
fn ground(inboxes: Inboxes, chunks: usize, desks: u16) -> Ground
    requires { (1 ≤ desks) × (desks ≤ 64) × (chunks ≤ 1024) }
    ensures { (result.chunks ≡ chunks) × (result.desks ≡ desks) × (result.limit ≡ 1024) }
{
    Ground {
        chunks,
        desks,
        width: 2,
        limit: 1_024,
        inboxes,
    }
}

#[test]
fn a_full_edge_hands_back(rt: HostRuntime) -> Result<(), Fail> {
    for inboxes in BOTH {
        let tasks = vec![in rt.alloc(); Act::Fills]?;
        let Outcome { answers, tally } = outcome_of(&rt, ground(inboxes, 1, 1), tasks)?;
        assert!(rt; answers.as_slice() == [Some(None)].as_slice());
        assert!(rt; tally.counts.allocated == 4 && tally.counts.freed == 4 && tally.audit.is_ok());
    }
    Ok(())
}

#[test]
fn a_wait_ends(rt: HostRuntime) -> Result<(), Fail> {
    for inboxes in BOTH {
        let tasks = vec![in rt.alloc(); Act::Waits]?;
        let Outcome { answers, tally } = outcome_of(&rt, ground(inboxes, 1, 1), tasks)?;
        assert!(rt; answers.as_slice() == [Some(None)].as_slice());
        assert!(rt; tally.counts.allocated == 8 && tally.counts.freed == 8);
        assert!(rt; tally.counts.starved == 1 && tally.audit.is_ok());
    }
    Ok(())
}

// The edge holds two parcels, and one chunk has 256 slots: a hundred parcels go through.
#[test]
fn parcels_keep_their_lengths(rt: HostRuntime) -> Result<(), Fail> {
    for inboxes in BOTH {
        let tasks = vec![in rt.alloc(); Act::Packs(100), Act::Reads(100)]?;
        let Outcome { answers, tally } = outcome_of(&rt, ground(inboxes, 2, 2), tasks)?;
        assert!(rt; answers.as_slice() == [Some(None), Some(None)].as_slice());
        assert!(rt; tally.counts.allocated == 400 && tally.counts.freed == 400);
        assert!(rt; tally.audit.is_ok());
    }
    Ok(())
}

// An empty parcel that is freed counts nothing.
#[test]
fn a_dropped_parcel_is_lost(rt: HostRuntime) -> Result<(), Fail> {
    let first = Slot { chunk: 0, index: 0 };
    for inboxes in BOTH {
        let tasks = vec![in rt.alloc(); Act::Drops]?;
        let Outcome { answers, tally } = outcome_of(&rt, ground(inboxes, 1, 1), tasks)?;
        assert!(rt; answers.as_slice() == [Some(None)].as_slice());
        assert!(rt; tally.counts.allocated == 4 && tally.counts.freed == 0);
        assert!(rt; tally.counts.lost == 4 && tally.audit == Err(Fault::Missing(first)));
    }
    Ok(())
}

// A buffer of the least class has 16 bytes.
#[test]
fn a_line_in_a_parcel_gets_shorter(rt: HostRuntime) -> Result<(), Fail> {
    for inboxes in BOTH {
        let tasks = vec![in rt.alloc(); Act::Shortens]?;
        let Outcome { answers, tally } = outcome_of(&rt, ground(inboxes, 1, 1), tasks)?;
        assert!(rt; answers.as_slice() == [Some(None)].as_slice());
        assert!(rt; tally.counts.freed == 1 && tally.audit.is_ok());
    }
    Ok(())
}
