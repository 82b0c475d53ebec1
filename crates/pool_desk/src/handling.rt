//! How a desk handles what others freed.
ghost use Rattle.std.specs.Prelude.{◌≡◌, ◌≢◌, ◌<◌, ◌^◌, ◌↔◌, [], All, IsTrue};
ghost use Rattle.slot_chain.specs.Magazines.{items_of};
ghost use Rattle.digit_route.specs.Digits.{IsScheme, count};
ghost use Rattle.pool_desk.specs.Handling.{Adds, IsPassed, GoesHome, GoesOn};
ghost use Rattle.pool_desk.specs.Steps.{Handles, CountsOf};

use crate::Counts;
use crate::desk::Desk;
use crate::home::Placing;
use digit_route::Batch;
use digit_route::laws::{shared_at_most_all, shared_by_equals};
use slot_chain::{Buf, BufParcel, Chain, EmptyMagazine, Magazine, Portion};

impl<'r> Desk<'r> {
    /// Takes the own buffers of a batch home, and puts the others into the cache with one more
    /// forward, to be sent on. Takes no memory.
    pub fn handle(&mut self, batch: Batch<'r>) -> Counts
        requires address { batch.address ≡ self.old.number }
        requires digits { batch.digits ≡ self.old.digits }
        ensures parts { Handles self.old batch.entry.items self.new }
        ensures counts { CountsOf self.old.number batch.entry.items result }
    {
        let (counts, _empty) = self.handle_and_empty(batch);
        counts
    }

    /// Handles a batch as [`Desk::handle`] does, and gives out its emptied magazine, which is to go back to
    /// the sender ([`Desk::reuse`]): else that one takes new memory for its next batch.
    pub fn handle_and_empty(&mut self, batch: Batch<'r>) -> (Counts, EmptyMagazine<'r>)
        requires address { batch.address ≡ self.old.number }
        requires digits { batch.digits ≡ self.old.digits }
        ensures parts { Handles self.old batch.entry.items self.new }
        ensures counts { CountsOf self.old.number batch.entry.items result.0 }
    {
        let mut magazine = batch.into_magazine();
        let mut counts = Counts { home: 0, on: 0 };
        while let Some(portion) = magazine.pop_portion() {
            counts = self.handle_portion(portion, counts, &mut magazine);
        }
        (counts, magazine.into_empty())
    }

    // Handles the buffers of a portion, and counts them on. The magazine's own array goes back to it.
    fn handle_portion(
        &mut self,
        portion: Portion<'r>,
        counts: Counts,
        magazine: &mut Magazine<'r>,
    ) -> Counts
        requires { All (IsPassed self.old.digits self.old.number) (items_of portion) }
        ensures parts { Handles self.old (items_of portion.entry) self.new }
        ensures counts { Adds self.old.number (items_of portion.entry) counts result }
        ensures magazine { magazine.new ≡ magazine.old }
    {
        match portion {
            Portion::Linked(chain) => self.handle_chain(chain, counts),
            Portion::Array(array) => {
                let (counts, emptied) = self.handle_array(array, counts);
                magazine.put_back(emptied);
                counts
            }
            Portion::Whole(parcel) => self.handle_parcel(parcel, counts),
        }
    }

    // Handles the buffers of a parcel, and counts them on: an own one comes home as it lies, where it may be
    // kept so, and no buffer is asked for its owner.
    fn handle_parcel(&mut self, parcel: BufParcel<'r>, counts: Counts) -> Counts
        requires { All (IsPassed self.old.digits self.old.number) parcel.items }
        ensures parts { Handles self.old parcel.entry.items self.new }
        ensures counts { Adds self.old.number parcel.entry.items counts result }
    {
        if parcel.owner() == self.cache.number() {
            let all = parcel.len();
            self.keep_parcel(parcel, Placing::Named);
            return counts.plus(all, 0);
        }
        let (counts, emptied) = self.handle_each(parcel.into_buffers(), counts);
        self.spares.keep(emptied);
        counts
    }

    // Handles the buffers of an array, counts them on, and gives the emptied array out. Where one digit tells
    // all desks apart they are own: none is asked for its owner.
    fn handle_array(&mut self, array: Vec<Buf<'r>>, counts: Counts) -> (Counts, Vec<Buf<'r>>)
        requires { All (IsPassed self.old.digits self.old.number) array.items }
        ensures parts { Handles self.old array.entry.items self.new }
        ensures counts { Adds self.old.number array.entry.items counts result.0 }
        ensures emptied { result.1.items ≡ [] }
    {
        if !self.takes_own_alone() {
            return self.handle_each(array, counts);
        }
        shared_by_equals();
        shared_at_most_all();
        let all = array.len();
        let emptied = self.keep_each(array, Placing::Named);
        (counts.plus(all, 0), emptied)
    }

    // Whether each batch to the desk has own buffers alone: one digit tells all desks apart.
    fn takes_own_alone(&self) -> bool
        ensures alone { IsTrue result → count self.now.digits ≡ 1 }
        ensures scheme { IsScheme self.now.digits }
        ensures in_range { self.now.number < 2 ^ self.now.digits.bits }
    {
        let _number = self.number();
        self.cache.digits().is_one()
    }

    // Handles the buffers of an array one by one, counts them on, and gives the emptied array out.
    fn handle_each(&mut self, array: Vec<Buf<'r>>, counts: Counts) -> (Counts, Vec<Buf<'r>>)
        requires { All (IsPassed self.old.digits self.old.number) array.items }
        ensures parts { Handles self.old array.entry.items self.new }
        ensures counts { Adds self.old.number array.entry.items counts result.0 }
        ensures emptied { result.1.items ≡ [] }
    {
        let mut array = array;
        let all = array.len();
        let mut on = 0;
        while let Some(buf) = array.pop() {
            if self.owns(&buf) {
                self.take_home(buf, Placing::Named);
            } else {
                self.pass_on(buf);
                on += 1;
            }
        }
        (counts.plus(all - on, on), array)
    }

    // Handles the buffers of a chain, and counts them on. Who linked them has written to their boxes, so
    // they stay linked.
    fn handle_chain(&mut self, chain: Chain<'r>, counts: Counts) -> Counts
        requires { All (IsPassed self.old.digits self.old.number) chain }
        ensures parts { Handles self.old chain.entry self.new }
        ensures counts { Adds self.old.number chain.entry counts result }
    {
        let mut chain = chain;
        let mut counts = counts;
        while let Some(buf) = chain.pop() {
            if self.owns(&buf) {
                self.take_home(buf, Placing::Linked);
                counts = counts.plus(1, 0);
            } else {
                self.pass_on(buf);
                counts = counts.plus(0, 1);
            }
        }
        counts
    }

    // Whether it is the desk's own.
    fn owns(&self, buf: &Buf<'r>) -> bool
        ensures { IsTrue result ↔ (buf.now.owner ≡ self.now.number) }
    {
        buf.owner() == self.cache.number()
    }

    // Takes an own buffer of a batch home.
    #[inline(always)]
    fn take_home(&mut self, buf: Buf<'r>, placing: Placing)
        requires { buf.owner ≡ self.old.number }
        ensures { GoesHome self.old buf.entry self.new }
    {
        let mut buf = buf;
        buf.clear();
        self.homes.keep(buf, placing);
    }

    // Puts another's buffer of a batch into the cache with one more forward. It isn't inlined, so that
    // own buffers come home in a loop without a jump over it.
    #[inline(never)]
    fn pass_on(&mut self, buf: Buf<'r>)
        requires other { buf.owner ≢ self.old.number }
        requires passed { IsPassed self.old.digits self.old.number buf }
        ensures { GoesOn self.old buf.entry self.new }
    {
        let mut buf = buf;
        let _most = self.cache.digits().count();
        shared_at_most_all();
        let forwards = buf.forwards();
        buf.set_forwards(forwards + 1);
        self.cache.put(buf);
    }
}
