//! One task writes lines into buffers; another one receives and frees them.
#![tactic(auto)]

use fustrevol::{CHUNK, Edges, Heap, Message, Pool, PoolError, Task};
use std::io::Write;
use std::sync::Wait;
use std::time::Clock;

#[derive(Drop)]
struct Worker(usize);

impl Task for Worker {
    type Answer = Result<(), PoolError>;

    fn sends_to(&self, task: usize) -> bool {
        self.0 == 0 && task == 1
    }

    fn run<H: Heap, R: Wait + Clock>(self, rt: &R, heap: &mut H, edges: Edges<H>) -> Self::Answer {
        for line in 0..1_000 {
            if self.0 == 0 {
                let mut buffer = heap.alloc_waiting(rt, 32)?;
                let _fits = write!(buffer, "line {line}\n");
                edges.send_or_free(rt, heap, 1, Message::Buffer(buffer));
            } else if let Some(message) = edges.receive(rt, heap) {
                message.free(rt, heap);
            }
        }
        Ok(())
    }
}

fn main(rt: HostRuntime) -> anyhow::Result<()> {
    let mut region = vec![in rt.alloc(); 0u8; 16 * CHUNK]?;
    let workers = vec![in rt.alloc(); Worker(0), Worker(1)]?;
    let report = Pool::new(rt.alloc(), &mut region)?.run(&rt, workers)?;
    println!(rt; "{:?}", report.tally)?;
    report.tally.audit?;
    Ok(())
}
