//! The seats at one inbox.
ghost use Rattle.std.specs.Prelude.{◌≡◌, ℕ, ◌+◌, length, map, IfOk};
ghost use Rattle.region_cut.specs.declared.slot.Slot.{Slot};
ghost use Rattle.slot_balance.specs.Weights.{weigh};
ghost use Rattle.pool_fabric.specs.Accounts.{of_seats};
ghost use Rattle.pool_fabric.specs.Seats.{seat_of};
ghost use Rattle.pool_fabric.specs.Gathered.{AreRows, AreAt};

use crate::named::Named;
use crate::naming::Naming;
use batch_inbox::Sender;
use slot_balance::{Parted, Row, part_last};
use std::alloc::{AllocError, Global};

/// The seats at the last inbox, and the others.
#[derive(Drop)]
pub(crate) struct Column<S: Sender, J: Naming> {
    pub(crate) seats: Vec<S>,
    pub(crate) rows: Vec<Row<S>>,
    pub(crate) of: Named<J>,
}

/// Takes the last seat out of each row.
pub(crate) fn last_column<S: Sender, J: Naming>(
    alloc: Global,
    rows: Vec<Row<S>>,
    last: usize,
) -> Result<Column<S, J>, AllocError>
    requires { AreRows J.names (last + 1) rows.items }
    ensures rows { IfOk result (λ c.
        AreRows J.names last c.rows.items × (length c.rows.items ≡ length rows.items)) }
    ensures seats { IfOk result (λ c.
        AreAt J.names last (map (seat_of S.inbox S.number S.sent S.resting) c.seats.items)
        × (length c.seats.items ≡ length rows.items)) }
    ensures slots { IfOk result (λ c. (h : Slot → ℕ)
        → of_seats h (map (seat_of S.inbox S.number S.sent S.resting) c.seats.items) + weigh (of_seats h) c.rows.items
        ≡ weigh (of_seats h) rows.items) }
{
    let Parted { rows, last: seats } = part_last(alloc, rows)?;
    Ok(Column {
        seats,
        rows,
        of: Named::new(),
    })
}
