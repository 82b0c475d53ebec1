//! The seats of one sender, or those at one inbox.
ghost use Rattle.std.specs.Prelude.{◌≡◌, ℕ, ◌<◌, [], ◌∷◌, ◌++◌, List, Some, length, map, slice_get, MatchOption, IfOk};
ghost use Rattle.slot_balance.specs.Seats.{SeatState, seat_of, AreParted};

use batch_inbox::Sender;
use std::alloc::{AllocError, Global};
use std::marker::Model;

/// The seats of one sender, or those at one inbox. A contract sees the list.
#[derive(Drop)]
pub struct Row<S: Sender> {
    seats: Vec<S>,
}

impl<S: Sender> Model for Row<S> {
    ghost use Rattle.std.specs.Prelude.{List, map};
    ghost use Rattle.slot_balance.specs.Seats.{SeatState, seat_of};

    ghost Value = { List SeatState };

    ghost view = { λ r. map (seat_of S.inbox S.number S.sent S.resting) r.seats.items };
}

impl<S: Sender> Row<S> {
    /// The row of these seats.
    pub fn new(seats: Vec<S>) -> Row<S>
        ensures { result ≡ map (seat_of S.inbox S.number S.sent S.resting) seats.items }
    {
        Row { seats }
    }

    /// Takes out the last seat.
    pub fn pop(&mut self) -> Option<S>
        ensures { MatchOption result (self.old ≡ [])
            (λ x. self.old ≡ self.new ++ seat_of S.inbox S.number S.sent S.resting x ∷ []) }
    {
        self.seats.pop()
    }
}

/// Rows without their last seats, and these seats.
#[derive(Drop)]
pub struct Parted<S: Sender> {
    pub rows: Vec<Row<S>>,
    pub last: Vec<S>,
}

/// Takes the last seat out of each row. Where memory is refused, all is dropped.
pub fn part_last<S: Sender>(alloc: Global, rows: Vec<Row<S>>) -> Result<Parted<S>, AllocError>
    requires { (k : ℕ) (r : List SeatState) → slice_get rows.items k ≡ Some r → 0 < length r }
    ensures { IfOk result (λ p. AreParted rows.items p.rows.items
        (map (seat_of S.inbox S.number S.sent S.resting) p.last.items)) }
{
    let mut others = Vec::new(alloc);
    let mut last = Vec::new(alloc);
    for row in rows {
        let mut row = row;
        let Some(seat) = row.pop() else {
            unreachable!();
        };
        last.push(seat)?;
        others.push(row)?;
    }
    Ok(Parted { rows: others, last })
}
