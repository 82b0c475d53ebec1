//! A post goes on behind a batch that was refused.
ghost use Rattle.std.specs.Prelude.{◌≡◌, IfOk};
ghost use Rattle.pool_fabric.specs.Whole.{IsWhole, IsEachDesk, AreNoted};

use crate::lending::lend_across;
use crate::refusing_once::RefusingOnce;
use batch_inbox::{Inbox, Mail, NewMail, Receiver, Sender};
use link_inbox::LinkInbox;
use pool_fabric::{Fabric, Found, GatherError, HeldStation, Naming, Opening, gather};
use std::alloc::{AllocError, Global};
use std::marker::Brand;
use std::sync::Wait;

/// What a post did.
#[derive(Clone, Copy)]
pub struct Post {
    /// Whether all went.
    pub went: bool,
    /// How many batches came to the desk whose inbox refuses one.
    pub refused: u32,
    /// How many came to the other desks.
    pub others: u32,
    /// To how many of the other desks some came.
    pub reached: u32,
    /// How many bytes stayed in the cache.
    pub left: u64,
}

/// What came of two posts, of which the first met an inbox that refused its batch.
#[derive(Drop)]
pub struct Posts<'r> {
    /// How many bytes were cached before them.
    pub cached: u64,
    pub first: Post,
    pub second: Post,
    pub found: Found<'r>,
}

// Two posts, and all stations.
#[derive(Drop)]
struct Tried<'r, T: Receiver, S: Sender, J: Naming> {
    cached: u64,
    first: Post,
    second: Post,
    held: Vec<HeldStation<'r, T, S, J>>,
}

// All stations that are on the shelf lend a buffer each, which is freed to this one.
fn lend_all<'r, T, S, M, J, R>(
    rt: &R,
    alloc: Global,
    fabric: &Fabric<'r, RefusingOnce<M>, T, S, J>,
    to: &mut HeldStation<'r, T, S, J>,
    desks: usize,
) -> Result<Vec<HeldStation<'r, T, S, J>>, AllocError>
where
    T: Receiver,
    S: Sender,
    M: Mail<'r, TakeSeat = T, SendSeat = S>,
    J: Naming,
    R: Wait,
{
    let mut others = Vec::new(alloc);
    for _ in 1..desks {
        let Some(station) = fabric.station(rt) else {
            return Ok(others);
        };
        let mut other = station.adopt(1);
        let _lent = lend_across(rt, alloc, fabric, &mut other, to, 16);
        others.push(other)?;
    }
    Ok(others)
}

// One station posts, and the others take. The batches to the station of this number are counted by themselves.
fn post_once<'r, T, S, M, J, R>(
    rt: &R,
    fabric: &Fabric<'r, RefusingOnce<M>, T, S, J>,
    poster: &mut HeldStation<'r, T, S, J>,
    takers: &mut [HeldStation<'r, T, S, J>],
    number: u16,
) -> Post
where
    T: Receiver,
    S: Sender,
    M: Mail<'r, TakeSeat = T, SendSeat = S>,
    J: Naming,
    R: Wait,
{
    let went = poster.post(rt, fabric);
    let mut refused = 0u32;
    let mut others = 0u32;
    let mut reached = 0u32;
    for taker in takers {
        let taken = taker.take(rt, fabric);
        if taker.number() == number {
            refused = refused.saturating_add(taken);
        } else {
            others = others.saturating_add(taken);
            reached = reached.saturating_add(u32::from(taken > 0));
        }
    }
    Post {
        went,
        refused,
        others,
        reached,
        left: poster.cached_bytes(),
    }
}

// The inbox of this number refuses a batch of the first post.
fn tries<'r, T, S, M, J, R>(
    rt: &R,
    alloc: Global,
    fabric: &Fabric<'r, RefusingOnce<M>, T, S, J>,
    poster: HeldStation<'r, T, S, J>,
    desks: usize,
    number: u16,
) -> Result<Tried<'r, T, S, J>, AllocError>
where
    T: Receiver,
    S: Sender,
    M: Mail<'r, TakeSeat = T, SendSeat = S>,
    J: Naming,
    R: Wait,
{
    let mut poster = poster;
    let mut held = lend_all(rt, alloc, fabric, &mut poster, desks)?;
    let cached = poster.cached_bytes();
    if let Some(inbox) = fabric.inbox(number) {
        inbox.refuse_next();
    }
    let first = post_once(rt, fabric, &mut poster, held.as_mut_slice(), number);
    let second = post_once(rt, fabric, &mut poster, held.as_mut_slice(), number);
    held.push(poster)?;
    Ok(Tried {
        cached,
        first,
        second,
        held,
    })
}

// Both posts at a fabric that `J` names, and its end.
fn post_past<'r, T, S, M, J, R>(
    rt: &R,
    alloc: Global,
    opening: Opening<'r, RefusingOnce<M>, T, S>,
    number: u16,
) -> Result<Posts<'r>, GatherError<'r>>
where
    T: Receiver,
    S: Sender,
    M: Mail<'r, TakeSeat = T, SendSeat = S> + NewMail<T, S>,
    J: Naming,
    R: Wait,
    requires { J.names ≡ opening }
    ensures whole { IfOk result (λ p. IsWhole p.found.desks.items p.found.batches.items p.found.lent
        p.found.freed p.found.parts.items opening.entry.chunks) }
    ensures desks { IfOk result (λ p. IsEachDesk opening.entry.count p.found.desks.items) }
    ensures drawn { IfOk result (λ p. AreNoted p.found.desks.items p.found.drawn) }
{
    let desks = opening.desks();
    let Ok(fabric) = Fabric::<'r, RefusingOnce<M>, T, S, J>::open(alloc, opening) else {
        return Err(GatherError::NoMemory);
    };
    let Some(station) = fabric.station(rt) else {
        return Err(GatherError::NoMemory);
    };
    let Ok(tried) = tries(rt, alloc, &fabric, station.adopt(0), desks, number) else {
        return Err(GatherError::NoMemory);
    };
    let Tried {
        cached,
        first,
        second,
        held,
    } = tried;
    let found = gather(rt, alloc, fabric, held)?;
    Ok(Posts {
        cached,
        first,
        second,
        found,
    })
}

// Over queues, at a fabric that `J` names.
fn past_queue_at<'r, J: Naming, R: Wait>(
    rt: &R,
    alloc: Global,
    opening: Opening<
        'r,
        RefusingOnce<Inbox<'r>>,
        batch_inbox::TakeSeat<'r>,
        batch_inbox::SendSeat<'r>,
    >,
    number: u16,
) -> Result<Posts<'r>, GatherError<'r>>
    requires { J.names ≡ opening }
    ensures whole { IfOk result (λ p. IsWhole p.found.desks.items p.found.batches.items p.found.lent
        p.found.freed p.found.parts.items opening.entry.chunks) }
    ensures desks { IfOk result (λ p. IsEachDesk opening.entry.count p.found.desks.items) }
    ensures drawn { IfOk result (λ p. AreNoted p.found.desks.items p.found.drawn) }
{
    post_past::<'r, batch_inbox::TakeSeat<'r>, batch_inbox::SendSeat<'r>, Inbox<'r>, J, R>(
        rt, alloc, opening, number,
    )
}

/// Each desk but one lends a buffer of 16 bytes, which is freed to that one. It posts what it has, and
/// again. The inbox of this number, a queue, refuses its first batch.
pub fn post_past_queue<'r, R: Wait>(
    rt: &R,
    alloc: Global,
    opening: Opening<
        'r,
        RefusingOnce<Inbox<'r>>,
        batch_inbox::TakeSeat<'r>,
        batch_inbox::SendSeat<'r>,
    >,
    number: u16,
) -> Result<Posts<'r>, GatherError<'r>>
    ensures whole { IfOk result (λ p. IsWhole p.found.desks.items p.found.batches.items p.found.lent
        p.found.freed p.found.parts.items opening.entry.chunks) }
    ensures desks { IfOk result (λ p. IsEachDesk opening.entry.count p.found.desks.items) }
    ensures drawn { IfOk result (λ p. AreNoted p.found.desks.items p.found.drawn) }
{
    past_queue_at::<Brand, R>(rt, alloc, opening, number)
}

// Over inboxes of two atomic steps, at a fabric that `J` names.
fn past_link_at<'r, J: Naming, R: Wait>(
    rt: &R,
    alloc: Global,
    opening: Opening<
        'r,
        RefusingOnce<LinkInbox<'r>>,
        link_inbox::TakeSeat<'r>,
        link_inbox::SendSeat<'r>,
    >,
    number: u16,
) -> Result<Posts<'r>, GatherError<'r>>
    requires { J.names ≡ opening }
    ensures whole { IfOk result (λ p. IsWhole p.found.desks.items p.found.batches.items p.found.lent
        p.found.freed p.found.parts.items opening.entry.chunks) }
    ensures desks { IfOk result (λ p. IsEachDesk opening.entry.count p.found.desks.items) }
    ensures drawn { IfOk result (λ p. AreNoted p.found.desks.items p.found.drawn) }
{
    post_past::<'r, link_inbox::TakeSeat<'r>, link_inbox::SendSeat<'r>, LinkInbox<'r>, J, R>(
        rt, alloc, opening, number,
    )
}

/// Posts as [`post_past_queue`] does, over inboxes of two atomic steps.
pub fn post_past_link<'r, R: Wait>(
    rt: &R,
    alloc: Global,
    opening: Opening<
        'r,
        RefusingOnce<LinkInbox<'r>>,
        link_inbox::TakeSeat<'r>,
        link_inbox::SendSeat<'r>,
    >,
    number: u16,
) -> Result<Posts<'r>, GatherError<'r>>
    ensures whole { IfOk result (λ p. IsWhole p.found.desks.items p.found.batches.items p.found.lent
        p.found.freed p.found.parts.items opening.entry.chunks) }
    ensures desks { IfOk result (λ p. IsEachDesk opening.entry.count p.found.desks.items) }
    ensures drawn { IfOk result (λ p. AreNoted p.found.desks.items p.found.drawn) }
{
    past_link_at::<Brand, R>(rt, alloc, opening, number)
}
