//! Who has which chunk, and who was lent which slot, over all threads.
//!
//! The stock gives chunks out and desks get them, in any order and in any thread. A [`Ledger`] keeps
//! that what was given is what was got, each chunk for its class. Desks lend slots and take them back,
//! and a page keeps its station's part of a ledger of loans beside that. Pages take no memory; only
//! contracts see what is written on them.
ghost use Rattle.std.specs.Prelude.{◌≡◌, ℕ, ◌+◌, ◌-◌, ◌<◌, ◌≤◌, [], ◌∷◌, ◌++◌, map, IfOk};
ghost use Rattle.region_cut.specs.declared.slot.Slot.{Slot};
ghost use Rattle.slot_chain.specs.Slots.{slot_of};
ghost use Rattle.pool_fabric.specs.Ledgers.{whole};
ghost use Rattle.pool_fabric.specs.declared.ledger.DrawnChunk.{DrawnChunk};
ghost use Rattle.pool_fabric.specs.Pages.{PageState, drawn_for, new_page};
ghost use Rattle.slot_balance.specs.Weights.{weigh};

use crossbeam_queue::protocol::{Join, Lesson, Protocol, Split};
use crossbeam_queue::{RuledSegQueue, SegPass};
use loan_ledger::{Loans, Receipt};
use region_cut::{Class, Slot};
use slot_chain::{Buf, NoMemory};
use std::alloc::Global;
use std::collections::LinkedList;
use std::marker::{Brand, Model, PhantomData};
use std::mem;
use std::sync::Wait;

// A chunk, and the number of the class for which it was drawn. No value of it is made.
pub struct DrawnChunk {
    pub chunk: u16,
    pub class: u32,
}

// What a page knows. No value of it is made.
pub struct Hand {
    pub parts: u64,
    pub gave: LinkedList<DrawnChunk>,
    pub got: LinkedList<DrawnChunk>,
}

// The rule: what was given is what was got.
pub struct Fair;

impl Protocol<u16, Hand> for Fair {
    ghost use Rattle.std.specs.Prelude.{[]};
    ghost use Rattle.pool_fabric.specs.Ledgers.{IsBalanced, hand, whole};

    ghost holds = { IsBalanced };

    ghost first = { hand whole [] [] };
}

// A new page with one part, or two pages joined.
pub struct Cut;

impl Split<Hand> for Cut {
    ghost use Rattle.std.specs.Prelude.{[], ◌-◌};
    ghost use Rattle.pool_fabric.specs.Ledgers.{hand};

    ghost left = { λ v. hand (v.parts - 1) v.gave v.got };

    ghost right = { λ v. hand 1 [] [] };
}

impl Join<Hand> for Cut {
    ghost use Rattle.std.specs.Prelude.{[], ◌+◌, ◌++◌};
    ghost use Rattle.pool_fabric.specs.Ledgers.{hand};

    ghost both = { λ v w. hand (v.parts + w.parts) (v.gave ++ w.gave) (v.got ++ w.got) };

    ghost spent = { hand 0 [] [] };
}

// A page with no part, to stand in another's place for a moment.
pub struct Spare;

impl Split<Hand> for Spare {
    ghost use Rattle.std.specs.Prelude.{[]};
    ghost use Rattle.pool_fabric.specs.Ledgers.{hand};

    ghost left = { λ v. v };

    ghost right = { λ v. hand 0 [] [] };
}

/// Names a drawn chunk for contracts; [`Ledger::deal`] picks it.
pub trait Dealing {
    ghost use Rattle.pool_fabric.specs.declared.ledger.DrawnChunk.{DrawnChunk};

    ghost drawn: { DrawnChunk };
}

impl Dealing for Brand {
    ghost use Rattle.pool_fabric.specs.Pages.{drawn_for};

    ghost drawn = { drawn_for 0 0 };
}

// The first page gives the chunk, and the second, which has all that was got, gets it.
pub struct Deals<K> {
    chunk: PhantomData<K>,
}

impl<K: Dealing> Split<Hand> for Deals<K> {
    ghost use Rattle.std.specs.Prelude.{[], ◌∷◌, ◌++◌, ◌-◌};
    ghost use Rattle.pool_fabric.specs.Ledgers.{hand};

    ghost left = { λ v. hand (v.parts - 1) (v.gave ++ K.drawn ∷ []) [] };

    ghost right = { λ v. hand 1 [] (v.got ++ K.drawn ∷ []) };
}

// For the page with every part.
pub struct Ends;

impl Lesson<u16, Hand> for Ends {
    ghost use Rattle.pool_fabric.specs.Ledgers.{IsTotal};

    ghost fact = { IsTotal };
}

// For any page.
pub struct Bounds;

impl Lesson<u16, Hand> for Bounds {
    ghost use Rattle.pool_fabric.specs.Ledgers.{IsWithin};

    ghost fact = { IsWithin };
}

pub(crate) type Line = RuledSegQueue<u16, Hand, Fair>;

pub(crate) type Pass = SegPass<u16, Hand>;

/// What all pages belong to. Threads share it by `&`. A contract sees which one it is.
pub struct Ledger {
    queue: Line,
}

impl Model for Ledger {
    ghost use Rattle.std.specs.Prelude.{ℕ, List};
    ghost use Rattle.pool_fabric.specs.Pages.{key_of};

    ghost Value = { List ℕ };

    ghost view = { λ l. key_of l.queue.web };
}

impl Drop for Ledger {
    fn drop(self) {
        let Self { queue } = self;
        queue.destroy();
    }
}

/// What one holder gave and got, lent and took back, and its share: so many of 65,536 parts. Who has
/// all parts learns that all that was given was got ([`Ledger::close`]).
#[derive(Drop)]
pub struct Page {
    pass: Pass,
    loans: Loans,
}

impl Model for Page {
    ghost use Rattle.std.specs.Prelude.{◌≡◌, None};
    ghost use Rattle.pool_fabric.specs.Pages.{PageState, key_of};

    ghost Value = { PageState };

    ghost view = { λ p. record {
      key = key_of p.pass.web;
      loans = p.loans.ledger;
      parts = p.pass.me.view.client.parts;
      gave = p.pass.me.view.client.gave;
      got = p.pass.me.view.client.got;
      lent = p.loans.lent;
      freed = p.loans.freed;
    } };

    ghost invariant = { λ p. (p.pass.me.hand ≡ None) × (p.pass.me.spare ≡ None)
        × (p.loans.parts ≡ p.pass.me.view.client.parts) };
}

impl Ledger {
    /// A new ledger, with the page that has every part.
    pub fn new(alloc: Global) -> Result<(Ledger, Page), NoMemory>
        ensures { IfOk result (λ r. r.1 ≡ new_page r.0 r.1.loans whole) }
    {
        let (queue, pass) = Line::with_rule(alloc)?;
        let loans = Loans::open();
        Ok((Ledger { queue }, Page { pass, loans }))
    }

    /// Another page, with one part.
    pub fn split(&self, page: &mut Page) -> Page
        requires { (page.old.key ≡ self.now) × (1 < page.old.parts) }
        ensures left { page.new ≡ record page.old { parts = page.old.parts - 1 } }
        ensures right { result ≡ new_page page.old.key page.old.loans 1 }
    {
        let loans = page.loans.split();
        Page {
            pass: self.queue.another::<Cut>(&mut page.pass),
            loans,
        }
    }

    /// Takes in the page of a holder that has ended.
    pub fn join(&self, page: &mut Page, other: Page)
        requires chunks { (page.old.key ≡ self.now) × (other.key ≡ self.now) × (0 < page.old.parts) }
        requires loans { other.loans ≡ page.old.loans }
        ensures { page.new ≡ record {
          key = page.old.key;
          loans = page.old.loans;
          parts = page.old.parts + other.parts;
          gave = page.old.gave ++ other.gave;
          got = page.old.got ++ other.got;
          lent = page.old.lent ++ other.lent;
          freed = page.old.freed ++ other.freed;
        } }
    {
        let Page { pass, loans } = other;
        page.loans.join(loans);
        self.queue.absorb::<Cut>(&mut page.pass, pass);
    }

    /// The first page gives the chunk for the class, and the second gets it.
    pub fn deal(&self, book: &mut Page, page: &mut Page, chunk: u16, class: Class)
        requires book { (book.old.key ≡ self.now) × (book.old.got ≡ []) × (0 < book.old.parts) }
        requires page { (page.old.key ≡ self.now) × (page.old.parts ≡ 1) × (page.old.gave ≡ []) }
        ensures book { book.new ≡ record book.old { gave = book.old.gave ++ drawn_for chunk class ∷ [] } }
        ensures page { page.new ≡ record page.old { got = page.old.got ++ drawn_for chunk class ∷ [] } }
    {
        self.dealt::<Brand>(book, page, chunk, class);
    }

    // The same, of a chunk that is named.
    fn dealt<K: Dealing>(&self, book: &mut Page, page: &mut Page, chunk: u16, class: Class)
        requires chunk { drawn_for chunk class ≡ K.drawn }
        requires book { (book.old.key ≡ self.now) × (book.old.got ≡ []) × (0 < book.old.parts) }
        requires page { (page.old.key ≡ self.now) × (page.old.parts ≡ 1) × (page.old.gave ≡ []) }
        ensures book { book.new ≡ record book.old { gave = book.old.gave ++ drawn_for chunk class ∷ [] } }
        ensures page { page.new ≡ record page.old { got = page.old.got ++ drawn_for chunk class ∷ [] } }
    {
        let _drawn = (chunk, class);
        let spare = self.queue.another::<Spare>(&mut book.pass);
        let mine = mem::replace(&mut page.pass, spare);
        self.queue.absorb::<Cut>(&mut book.pass, mine);
        page.pass = self.queue.another::<Deals<K>>(&mut book.pass);
    }

    /// With every part: all that was given was got, and no slot was taken back more often than it was lent.
    pub fn close<R: Wait>(&self, rt: &R, page: &mut Page)
        requires { (page.old.key ≡ self.now) × (page.old.parts ≡ whole) }
        ensures page { page.new ≡ page.old }
        ensures all { (g : DrawnChunk → ℕ) → weigh g page.new.gave ≡ weigh g page.new.got }
        ensures bounded { (h : Slot → ℕ) → weigh h page.new.freed ≤ weigh h page.new.lent }
    {
        page.loans.audit();
        self.queue.len_as::<Ends, R>(rt, &mut page.pass);
    }

    /// Is never called: beside a page with every part there is no other with one.
    pub(crate) fn exclude<R: Wait>(&self, rt: &R, page: &mut Page, other: Page)
        requires page { (page.old.key ≡ self.now) × (page.old.parts ≡ whole) }
        requires other { (other.key ≡ self.now) × (0 < other.parts) }
        requires loans { other.loans ≡ page.old.loans }
        ensures { ⊥ }
    {
        self.join(page, other);
        self.queue.len_as::<Bounds, R>(rt, &mut page.pass);
    }
}

impl Page {
    /// Notes the loan of a slot. The receipt shows it, and only the receipt's holder can give the slot
    /// back.
    #[inline(always)]
    pub fn lend(&mut self, slot: Slot) -> Receipt
        requires { 0 < self.old.parts }
        ensures page { self.new ≡ record self.old { lent = self.old.lent ++ slot ∷ [] } }
        ensures receipt { result ≡ record { ledger = self.old.loans; slots = slot ∷ [] } }
    {
        self.loans.lend(slot)
    }

    /// Notes the loans of the slots of these buffers, one after the other. The receipt shows them all.
    #[inline(always)]
    pub fn lend_all(&mut self, buffers: &[Buf<'_>]) -> Receipt
        requires { 0 < self.old.parts }
        ensures page { self.new ≡ record self.old { lent = self.old.lent ++ map slot_of buffers.now } }
        ensures receipt { result ≡ record { ledger = self.old.loans; slots = map slot_of buffers.now } }
    {
        let mut receipt = self.blank();
        for buf in buffers {
            receipt.merge(self.lend(buf.slot()));
        }
        receipt
    }

    /// Takes back the slots of a receipt, whoever lent them.
    #[inline(always)]
    pub fn take_back(&mut self, receipt: Receipt)
        requires { (receipt.ledger ≡ self.old.loans) × (0 < self.old.parts) }
        ensures { self.new ≡ record self.old { freed = self.old.freed ++ receipt.slots } }
    {
        self.loans.take_back(receipt);
    }

    /// A receipt of no slot.
    #[inline(always)]
    pub fn blank(&mut self) -> Receipt
        ensures same { self.new ≡ self.old }
        ensures receipt { result ≡ record { ledger = self.old.loans; slots = [] } }
    {
        self.loans.blank()
    }
}
