//! Who holds a desk.
ghost use Rattle.std.specs.Prelude.{◌≡◌, IfOk, IfErr, OnErr};
ghost use Rattle.event_floor.specs.Floors.{desk_count};
ghost use Rattle.event_floor.specs.Steps.{Does, Refuses};
ghost use Rattle.pool_machine.specs.declared.request.Request.TheVariants.{Adopt, Retire};

use crate::any_desk::check_held;
use crate::lists::Lists;
use crate::{Refusal, Reply};

impl<'r> Lists<'r> {
    pub(crate) fn adopt(&mut self, a: u32, worker: u32) -> Result<Reply, Refusal>
        ensures does { IfOk result (λ reply. Does self.old (Adopt a worker) reply self.new) }
        ensures refuses { IfErr result (λ refusal. Refuses self.old (Adopt a worker) refusal) }
        ensures unchanged { OnErr result (self.new ≡ self.old) }
        ensures desks { desk_count self.new ≡ desk_count self.old }
    {
        let place = a as usize;
        if place >= self.desks.len() {
            return Err(Refusal::NoDesk);
        }
        let desk = &mut self.desks[place];
        if desk.is_held() {
            return Err(Refusal::Held);
        }
        desk.hold(worker);
        Ok(Reply::Done)
    }

    pub(crate) fn retire(&mut self, a: u32) -> Result<Reply, Refusal>
        ensures does { IfOk result (λ reply. Does self.old (Retire a) reply self.new) }
        ensures refuses { IfErr result (λ refusal. Refuses self.old (Retire a) refusal) }
        ensures unchanged { OnErr result (self.new ≡ self.old) }
        ensures desks { desk_count self.new ≡ desk_count self.old }
    {
        check_held(&self.desks, a)?;
        if self.inboxes.has_unlinked_of(a) {
            return Err(Refusal::Unsettled);
        }
        if self.desks[a as usize].release() {
            Ok(Reply::Done)
        } else {
            Err(Refusal::Unsettled)
        }
    }
}
