//! A gate that holds a worker until posts were counted.

use batch_inbox::{Mailbox, Receiver, Sender};
use inbox_uses::Counting;
use pool_fabric::{Fabric, Naming};
use pool_jobs::Gate;
use std::alloc::{AllocError, Global};
use std::sync::atomic::{AtomicBool, AtomicU64, Ordering};
use std::thread;

// How often the worker looks for the posts before it gives up.
const LOOKS: u32 = 10_000_000;

/// Which call of worker 0 waits, and for how many posts.
#[derive(Clone, Copy, Debug)]
pub struct Hold {
    pub call: u64,
    pub posts: u64,
}

/// A gate that holds worker 0 before one of its calls until so many posts were counted, at all inboxes
/// of a fabric. It gives up after ten million looks, and notes that. It counts the calls of worker 0
/// that were answered.
#[derive(Drop)]
pub struct Watch<'a> {
    hold: Hold,
    counts: Vec<&'a AtomicU64>,
    calls: AtomicU64,
    calls_held: AtomicU64,
    gave_up: AtomicBool,
}

impl<'a> Watch<'a> {
    /// A gate over the inboxes of so many desks.
    pub fn over<'r, M: Mailbox, T: Receiver, S: Sender, J: Naming>(
        alloc: Global,
        fabric: &'a Fabric<'r, Counting<M>, T, S, J>,
        desks: u16,
        hold: Hold,
    ) -> Result<Watch<'a>, AllocError> {
        let mut counts = Vec::new(alloc);
        for number in 0..desks {
            if let Some(inbox) = fabric.inbox(number) {
                counts.push(inbox.counter())?;
            }
        }
        Ok(Watch {
            hold,
            counts,
            calls: AtomicU64::new(0),
            calls_held: AtomicU64::new(0),
            gave_up: AtomicBool::new(false),
        })
    }

    /// How many posts were answered `Ok` so far, at all inboxes.
    pub fn posts(&self) -> u64 {
        let mut posts = 0u64;
        for count in &self.counts {
            posts = posts.saturating_add(count.load(Ordering::SeqCst));
        }
        posts
    }

    /// How many calls of worker 0 were answered so far.
    pub fn calls(&self) -> u64 {
        self.calls.load(Ordering::SeqCst)
    }

    /// How many of them when it was held.
    pub fn calls_held(&self) -> u64 {
        self.calls_held.load(Ordering::SeqCst)
    }

    /// Whether the posts never came.
    pub fn gave_up(&self) -> bool {
        self.gave_up.load(Ordering::SeqCst)
    }
}

impl Gate for Watch<'_> {
    fn before(&self, worker: u32, call: u64) {
        if worker != 0 || call != self.hold.call {
            return;
        }
        self.calls_held.store(self.calls(), Ordering::SeqCst);
        for _ in 0..LOOKS {
            if self.posts() >= self.hold.posts {
                return;
            }
            thread::yield_now();
        }
        self.gave_up.store(true, Ordering::SeqCst);
    }

    fn after(&self, worker: u32, _call: u64) {
        if worker == 0 {
            let _calls = self.calls.fetch_add(1, Ordering::SeqCst);
        }
    }
}
