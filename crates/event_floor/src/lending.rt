//! What is lent of a desk, and what it is lent from.
ghost use Rattle.std.specs.Prelude.{◌≡◌, ◌≤◌, ◌<◌, IfOk, IfErr, OnErr, MatchOption};
ghost use Rattle.region_cut.specs.Classes.{classes_of};
ghost use Rattle.digit_route.specs.Profiles.{profile_of};
ghost use Rattle.event_floor.specs.Floors.{desk_count};
ghost use Rattle.event_floor.specs.Steps.{Does, Refuses};
ghost use Rattle.pool_machine.specs.declared.request.Request.TheVariants.{Claim, Alloc, Free};

use crate::answers::{refusal_by_desk, reply_of_free};
use crate::any_desk::check_held;
use crate::lists::Lists;
use crate::{Refusal, Reply};
use digit_route::Digits;
use region_cut::Class;
use std::alloc::Global;

/// The class of a claim: one of those that the profile uses.
fn class_of(digits: Digits, number: u32) -> Option<Class>
    ensures { let limit = classes_of (profile_of digits.bits) in
        MatchOption result (limit ≤ number) (λ class. (class ≡ number) × (number < limit)) }
{
    if number < digits.profile().classes() {
        Class::new(number)
    } else {
        None
    }
}

impl<'r> Lists<'r> {
    pub(crate) fn claim(&mut self, a: u32, class: u32) -> Result<Reply, Refusal>
        ensures does { IfOk result (λ reply. Does self.old (Claim a class) reply self.new) }
        ensures refuses { IfErr result (λ refusal. Refuses self.old (Claim a class) refusal) }
        ensures unchanged { OnErr result (self.new ≡ self.old) }
        ensures desks { desk_count self.new ≡ desk_count self.old }
    {
        check_held(&self.desks, a)?;
        let desk = &mut self.desks[a as usize];
        let Some(class) = class_of(self.digits, class) else {
            return Err(Refusal::BadClass);
        };
        if desk.has_home(class) {
            return Err(Refusal::NotNeeded);
        }
        let Some(part) = self.chunks.draw(a, class) else {
            return Err(Refusal::NoChunk);
        };
        let chunk = part.chunk();
        desk.claim_needed(part, class);
        Ok(Reply::Chunk(chunk))
    }

    pub(crate) fn alloc(&mut self, alloc: Global, a: u32, size: u32) -> Result<Reply, Refusal>
        ensures does { IfOk result (λ reply. Does self.old (Alloc a size) reply self.new) }
        ensures refuses { IfErr result (λ refusal. Refuses self.old (Alloc a size) refusal) }
        ensures unchanged { OnErr result (self.new ≡ self.old) }
        ensures desks { desk_count self.new ≡ desk_count self.old }
    {
        check_held(&self.desks, a)?;
        let desk = &mut self.desks[a as usize];
        match desk.alloc(alloc, size as usize) {
            Ok(buf) => {
                let slot = buf.slot();
                self.lent.put(buf);
                Ok(Reply::Slot(slot))
            }
            Err(error) => Err(refusal_by_desk(error)),
        }
    }

    pub(crate) fn free(&mut self, a: u32, chunk: u32, index: u32) -> Result<Reply, Refusal>
        ensures does { IfOk result (λ reply. Does self.old (Free a (chunk, index)) reply self.new) }
        ensures refuses { IfErr result (λ refusal. Refuses self.old (Free a (chunk, index)) refusal) }
        ensures unchanged { OnErr result (self.new ≡ self.old) }
        ensures desks { desk_count self.new ≡ desk_count self.old }
    {
        check_held(&self.desks, a)?;
        let desk = &mut self.desks[a as usize];
        let Some(buf) = self.lent.take(chunk, index) else {
            return Err(Refusal::NotLent);
        };
        Ok(reply_of_free(desk.free(buf)))
    }
}
