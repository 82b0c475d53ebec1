//! What desks send one another.
ghost use Rattle.std.specs.Prelude.{◌≡◌, IfOk, IfErr, OnErr};
ghost use Rattle.event_floor.specs.Floors.{desk_count};
ghost use Rattle.event_floor.specs.Steps.{Does, Refuses};
ghost use Rattle.pool_machine.specs.declared.request.Request.TheVariants.{Send, Link, Take};

use crate::answers::refusal_by_route;
use crate::any_desk::check_held;
use crate::lists::Lists;
use crate::{Refusal, Reply};

/// The greatest number that a batch can have.
const LAST_NUMBER: u64 = 4_294_967_295;

impl<'r> Lists<'r> {
    pub(crate) fn send(&mut self, a: u32, t: u32) -> Result<Reply, Refusal>
        ensures does { IfOk result (λ reply. Does self.old (Send a t) reply self.new) }
        ensures refuses { IfErr result (λ refusal. Refuses self.old (Send a t) refusal) }
        ensures unchanged { OnErr result (self.new ≡ self.old) }
        ensures desks { desk_count self.new ≡ desk_count self.old }
    {
        if t as usize >= self.desks.len() {
            return Err(Refusal::NoDesk);
        }
        check_held(&self.desks, a)?;
        let desk = &mut self.desks[a as usize];
        match desk.fault_for(t as u16) {
            Some(fault) => return Err(refusal_by_route(fault)),
            None => {}
        }
        if self.next > LAST_NUMBER {
            return Err(Refusal::Spent);
        }
        let number = self.next as u32;
        match desk.send(&mut self.inboxes, t as u16, number) {
            Ok(count) => {
                self.next += 1;
                Ok(Reply::Batch(number, count))
            }
            Err(_) => Err(Refusal::NoMemory),
        }
    }

    pub(crate) fn link(&mut self, number: u32) -> Result<Reply, Refusal>
        ensures does { IfOk result (λ reply. Does self.old (Link number) reply self.new) }
        ensures refuses { IfErr result (λ refusal. Refuses self.old (Link number) refusal) }
        ensures unchanged { OnErr result (self.new ≡ self.old) }
        ensures desks { desk_count self.new ≡ desk_count self.old }
    {
        if self.inboxes.link(number) {
            Ok(Reply::Done)
        } else {
            Err(Refusal::NoBatch)
        }
    }

    pub(crate) fn take(&mut self, b: u32) -> Result<Reply, Refusal>
        ensures does { IfOk result (λ reply. Does self.old (Take b) reply self.new) }
        ensures refuses { IfErr result (λ refusal. Refuses self.old (Take b) refusal) }
        ensures unchanged { OnErr result (self.new ≡ self.old) }
        ensures desks { desk_count self.new ≡ desk_count self.old }
    {
        check_held(&self.desks, b)?;
        let desk = &mut self.desks[b as usize];
        let Some(batch) = self.inboxes.take(b as usize) else {
            return Err(Refusal::Nothing);
        };
        let counts = desk.handle(batch);
        Ok(Reply::Counts(counts.home, counts.on))
    }
}
