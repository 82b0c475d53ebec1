//! What a worker does with its station at a fabric.
ghost use Rattle.std.specs.Prelude.{◌≡◌, ◌<◌, ◌≤◌, [], IsTrue, MatchBool};
ghost use Rattle.region_cut.specs.Classes.{classes_of};
ghost use Rattle.pool_desk.specs.HomesState.{LacksClass};
ghost use Rattle.pool_desk.specs.Desks.{profile_at};
ghost use Rattle.pool_fabric.specs.Calls.{ClaimsPart};
ghost use Rattle.slot_balance.specs.Limits.{most_taken};
ghost use Rattle.slot_balance.specs.Posts.{Posts, TakesSome};

use crate::fabric::Fabric;
use crate::held::HeldStation;
use crate::naming::Naming;
use batch_inbox::{Mail, Receiver, Sender};
use region_cut::Class;
use std::sync::Wait;

impl<'r, T: Receiver, S: Sender, J: Naming> HeldStation<'r, T, S, J> {
    /// Takes what is in the desk's inbox, as far as [`Fabric::take_some`] goes, and handles it. Says how many
    /// batches it took.
    pub fn take<M: Mail<'r, TakeSeat = T, SendSeat = S>, R: Wait>(
        &mut self,
        rt: &R,
        fabric: &Fabric<'r, M, T, S, J>,
    ) -> u32
        ensures same { self.new ≡ record self.old { desk = self.new.desk; take = self.new.take } }
        ensures most { result ≤ most_taken }
        ensures takes { TakesSome self.old.desk self.old.take result self.new.desk self.new.take }
    {
        fabric.take_some(rt, &mut self.desk, &mut self.take)
    }

    /// Posts all of the desk's cache. What an inbox refuses stays cached, and nothing else does. Says
    /// whether all went.
    pub fn post<M: Mail<'r, TakeSeat = T, SendSeat = S>, R: Wait>(
        &mut self,
        rt: &R,
        fabric: &Fabric<'r, M, T, S, J>,
    ) -> bool
        ensures same { self.new ≡ record self.old { desk = self.new.desk; seats = self.new.seats } }
        ensures desk { self.new.desk ≡ record self.old.desk { cached = self.new.desk.cached } }
        ensures posts { Posts self.old.desk.digits self.old.desk.number self.old.desk.cached self.old.seats
            [] self.new.desk.cached self.new.seats }
        ensures all { IsTrue result → self.new.desk.cached ≡ [] }
    {
        fabric.post_in_place(rt, &mut self.desk, self.seats.as_mut_slice())
    }

    /// Claims a part of the stock for a class without a slot at home; `false` where the stock is empty.
    pub fn claim<M: Mail<'r, TakeSeat = T, SendSeat = S>, R: Wait>(
        &mut self,
        rt: &R,
        fabric: &Fabric<'r, M, T, S, J>,
        class: Class,
    ) -> bool
        requires class { class < classes_of (profile_at self.old.desk) }
        requires needed { LacksClass class self.old.desk.home }
        ensures { MatchBool result (ClaimsPart self.old class self.new) (self.new ≡ self.old) }
    {
        let dealt = fabric
            .stock
            .lock(rt)
            .deal(&fabric.ledger, &mut self.page, class);
        let Some(part) = dealt else {
            return false;
        };
        self.desk.claim_needed(part, class);
        true
    }
}
