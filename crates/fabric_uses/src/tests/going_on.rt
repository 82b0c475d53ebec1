//! A post goes on behind a batch that was refused: just that one stays in the cache, and goes with the next post.

use crate::{Posts, RefusingOnce, post_past_link, post_past_queue};
use batch_inbox::Inbox;
use digit_route::Digits;
use link_inbox::LinkInbox;
use pool_fabric::{Opening, account};
use region_cut::{CHUNK, cut};
use std::alloc::Global;
use std::process::Abort;
use std::sync::Wait;
use std::test::Fail;

// One desk posts to five others.
const DESKS: u16 = 6;

// What five batches of a buffer each come to, of which the one to the desk that is told apart is refused.
fn comes_to(rt: &impl Abort, alloc: Global, posts: Posts<'_>) {
    let Posts {
        cached,
        first,
        second,
        found,
    } = posts;
    assert_eq!(rt; cached, 80);
    assert!(rt; !first.went);
    assert_eq!(rt; first.refused, 0);
    assert_eq!(rt; (first.others, first.reached), (4, 4));
    assert_eq!(rt; first.left, 16);
    assert!(rt; second.went);
    assert_eq!(rt; second.refused, 1);
    assert_eq!(rt; (second.others, second.reached), (0, 0));
    assert_eq!(rt; second.left, 0);
    let audit = account(alloc, &[], &found.desks, &found.batches, &found.drawn);
    assert!(rt; audit.is_ok());
    assert!(rt; found.batches.is_empty());
}

// The inbox of this number refuses a batch once, over queues.
fn past_a_queue<R: Abort + AllocGlobal + Wait>(rt: &R, number: u16) -> Result<(), Fail> {
    let alloc = rt.alloc();
    let mut region = Vec::from_elem(alloc, 0u8, 6 * CHUNK)?;
    let parts = cut(alloc, region.as_mut_slice())?;
    let digits = Digits::new(6).ok_or("a width")?;
    let opening = Opening::<
        RefusingOnce<Inbox<'_>>,
        batch_inbox::TakeSeat<'_>,
        batch_inbox::SendSeat<'_>,
    >::new(alloc, parts, DESKS, digits, 4_096)?;
    let posts = post_past_queue(rt, alloc, opening, number)
        .ok()
        .ok_or("all that there is")?;
    comes_to(rt, alloc, posts);
    Ok(())
}

// The same over inboxes of two atomic steps.
fn past_a_link<R: Abort + AllocGlobal + Wait>(rt: &R, number: u16) -> Result<(), Fail> {
    let alloc = rt.alloc();
    let mut region = Vec::from_elem(alloc, 0u8, 6 * CHUNK)?;
    let parts = cut(alloc, region.as_mut_slice())?;
    let digits = Digits::new(6).ok_or("a width")?;
    let opening = Opening::<
        RefusingOnce<LinkInbox<'_>>,
        link_inbox::TakeSeat<'_>,
        link_inbox::SendSeat<'_>,
    >::new(alloc, parts, DESKS, digits, 4_096)?;
    let posts = post_past_link(rt, alloc, opening, number)
        .ok()
        .ok_or("all that there is")?;
    comes_to(rt, alloc, posts);
    Ok(())
}

// Each of the five batches is refused once. Refuses a post that ends there, one that skips the batch
// and keeps nothing of it, and one that leaves another batch.
#[test]
fn a_post_goes_on_behind_a_refused_batch_in_queues(rt: HostRuntime) -> Result<(), Fail> {
    for number in 1..DESKS {
        past_a_queue(&rt, number)?;
    }
    Ok(())
}

#[test]
fn a_post_goes_on_behind_a_refused_batch_in_links(rt: HostRuntime) -> Result<(), Fail> {
    for number in 1..DESKS {
        past_a_link(&rt, number)?;
    }
    Ok(())
}
