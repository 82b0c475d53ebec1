//! How an inbox is opened: its nodes are made, and each sender gets a seat.
ghost use Rattle.std.specs.Prelude.{◌≡◌, ℕ, ◌+◌, ◌*◌, ◌≤◌, [], length, replicate, None, IfOk};
ghost use Rattle.batch_inbox.specs.Limits.{sender_limit};
ghost use Rattle.link_inbox.specs.States.{inbox_of, AreSeatsOf, AreNew, AreAtRest};
ghost use Rattle.link_inbox.specs.Steps.{opener, view};
ghost use Rattle.link_inbox.specs.declared.rule.Role.TheVariants.{Ready};

use crate::load::Load;
use crate::rule::{FREE, NODES, Nodes, SharedNodes, Token};
use crate::seats::SendSeat;
use crate::steps::Seats;
use atomic_table::{Refused, Table};
use batch_inbox::place::Place;
use slot_chain::EmptyMagazine;
use std::alloc::{AllocError, Global};

// So many loads without a batch and without memory.
fn vacant_loads<'r>(alloc: Global, count: usize) -> Result<Vec<Load<'r>>, AllocError>
    ensures { IfOk result (λ loads. loads.items ≡ replicate count None) }
{
    let mut loads = Vec::with_capacity(alloc, count)?;
    for node in 0..count {
        loads.push(Load::vacant(EmptyMagazine::new()))?;
    }
    Ok(loads)
}

// The opening front alone, and the nodes of the senders, which are free.
pub(crate) fn opened<'r>(
    alloc: Global,
    place: &Place,
    senders: u16,
) -> Result<(Nodes<'r>, Token<'r>), AllocError>
    requires { (1 ≤ senders) × (senders ≤ sender_limit) }
    ensures nodes { IfOk result (λ r. (r.0.shared.table_id.slots ≡ senders * 16 + 1)
        × (r.0.shared.table_id.words ≡ senders * 16 + 2) × (r.0.shared.key ≡ place.now)) }
    ensures token { IfOk result (λ r.
        (r.1.table_id ≡ r.0.shared.table_id) × (r.1.me ≡ (opener place.now, []))) }
{
    let nodes = senders as usize * NODES as usize + 1;
    let mut words = Vec::from_elem(alloc, FREE, nodes + 1)?;
    words[0] = 0;
    words[1] = 0;
    match Table::new(alloc, words.as_slice(), vacant_loads(alloc, nodes)?, place) {
        Ok(opened) => Ok(opened),
        Err(Refused { slots }) => {
            drop(slots);
            Err(AllocError)
        }
    }
}

// Makes the seats of the senders, from sender 0 on.
pub(crate) fn seated<'r>(
    alloc: Global,
    words: &SharedNodes<'r>,
    token: &mut Token<'r>,
    senders: u16,
) -> Result<Vec<SendSeat<'r>>, AllocError>
    requires { (token.old.table_id ≡ words.now.table_id) × (token.old.me ≡ (opener words.now.key, []))
        × (senders * 16 + 1 ≤ words.now.table_id.slots) × (1 ≤ words.now.table_id.words) }
    ensures token { IfOk result (λ r. (token.new.table_id ≡ token.old.table_id)
        × (token.new.me ≡ (view Ready words.now.key 0 senders 0 0 [] [], []))) }
    ensures senders { IfOk result (λ r.
        AreSeatsOf (inbox_of words.now.table_id words.now.key) r.items
        × (length r.items ≡ senders) × AreNew r.items × AreAtRest r.items) }
{
    let mut seats = Vec::with_capacity(alloc, senders as usize)?;
    for sender in 0..senders {
        let seat = words.split_seat::<Seats>(token);
        seats.push(SendSeat {
            token: seat,
            sender,
            turn: 0,
            rests: true,
            empty: EmptyMagazine::new(),
        })?;
    }
    Ok(seats)
}
