//! Arrays that are kept for parcels to come.
ghost use Rattle.std.specs.Prelude.{◌≡◌, ◌<◌, ◌≤◌, ◌↔◌, [], length, IsTrue, IfOk, IfSome, vec_capacity};
ghost use Rattle.pool_desk.specs.Spares.{AreEmptied, RoomAt, arrays_in};

use slot_chain::{Buf, BufParcel, NoMemory};
use std::alloc::Global;
use std::marker::Model;

// For how many arrays there are places, at least and at most, where one was made.
const LEAST: usize = 16;

const MOST: usize = 1024;

// For how many buffers an array that is kept has room at most.
const LARGEST: usize = 256;

/// Arrays in which own buffers came home, kept for parcels to come, so that the C library needn't take
/// each back and give it out again. They name no buffer, and contracts see nothing of them.
///
/// There is a place for each array that was made here, up to 1,024: all may be at home at once.
pub(crate) struct Spares<'r> {
    arrays: Option<Vec<Vec<Buf<'r>>>>,
    // How many arrays were made, at most so many as there are places.
    made: usize,
}

impl<'r> Model for Spares<'r> {
    ghost use Rattle.pool_desk.specs.Spares.{AreEmptied, arrays_in};

    ghost Value = { Unit {0} };

    ghost view = { λ _. tt };

    ghost invariant = { λ s. AreEmptied (arrays_in s.arrays) };
}

// By hand, so that it is proved here once, and not again in each crate that lets a desk go.
impl Drop for Spares<'_> {
    fn drop(self) {
        let Spares { arrays, made: _ } = self;
        drop(arrays);
    }
}

impl<'r> Spares<'r> {
    /// None.
    pub(crate) fn new() -> Spares<'r> {
        Spares {
            arrays: None,
            made: 0,
        }
    }

    /// Keeps an array, where it has a place for a buffer, isn't too large to be kept, and a place is left.
    pub(crate) fn keep(&mut self, array: Vec<Buf<'r>>)
        requires { array.items ≡ [] }
    {
        let places = array.capacity();
        if places > 0 && places <= LARGEST {
            put(&mut self.arrays, array);
        }
    }

    /// An empty parcel with room for at least so many buffers, over the array that was kept last of those
    /// that have it. Only where none has, memory is taken: for an array, and for a place to keep it.
    pub(crate) fn parcel(
        &mut self,
        alloc: Global,
        owner: u16,
        places: usize,
    ) -> Result<BufParcel<'r>, NoMemory>
        ensures { IfOk result (λ p.
            (p ≡ record { owner = owner; places = p.places; items = [] }) × (places ≤ p.places)) }
    {
        match take(&mut self.arrays, places) {
            Some(array) => BufParcel::over(owner, array),
            None => {
                let parcel = BufParcel::new(alloc, owner, places)?;
                self.make_place(alloc);
                Ok(parcel)
            }
        }
    }

    // Makes a place for an array that was made. Where there is no memory for it, fewer are kept.
    fn make_place(&mut self, alloc: Global) {
        if self.made < MOST {
            self.made += 1;
            make_places(&mut self.arrays, alloc, self.made);
        }
    }
}

// Puts an array to the others, where a place is left.
fn put<'r>(arrays: &mut Option<Vec<Vec<Buf<'r>>>>, array: Vec<Buf<'r>>)
    requires emptied { AreEmptied (arrays_in arrays.old) }
    requires empty { array.items ≡ [] }
    ensures { AreEmptied (arrays_in arrays.new) }
{
    if let Some(arrays) = arrays {
        if arrays.len() < arrays.capacity() {
            arrays.push_reserved(array);
        }
    }
}

// Takes out the array that was kept last of those with room for so many buffers.
fn take<'r>(arrays: &mut Option<Vec<Vec<Buf<'r>>>>, places: usize) -> Option<Vec<Buf<'r>>>
    requires { AreEmptied (arrays_in arrays.old) }
    ensures emptied { AreEmptied (arrays_in arrays.new) }
    ensures array { IfSome result (λ a. (a.items ≡ []) × (places ≤ vec_capacity a)) }
{
    match arrays {
        None => None,
        Some(arrays) => {
            // mostly the last one has it
            let last = arrays.pop()?;
            if last.capacity() >= places {
                return Some(last);
            }
            arrays.push_reserved(last);
            take_before(arrays, places)
        }
    }
}

// The same, where the last one may have too little room.
#[cold]
#[inline(never)]
fn take_before<'r>(arrays: &mut Vec<Vec<Buf<'r>>>, places: usize) -> Option<Vec<Buf<'r>>>
    requires { AreEmptied arrays.old.items }
    ensures emptied { AreEmptied arrays.new.items }
    ensures array { IfSome result (λ a. (a.items ≡ []) × (places ≤ vec_capacity a)) }
{
    let at = last_with_room(arrays.as_slice(), places)?;
    Some(arrays.remove(at))
}

// Makes at least so many places, and twice as many as there are.
fn make_places(arrays: &mut Option<Vec<Vec<Buf<'_>>>>, alloc: Global, places: usize)
    ensures { arrays_in arrays.new ≡ arrays_in arrays.old }
{
    match arrays {
        None => *arrays = Vec::with_capacity(alloc, LEAST).ok(),
        Some(arrays) => {
            let there = arrays.capacity();
            if there < places {
                let wanted = there.saturating_mul(2).max(places).min(MOST);
                drop(arrays.reserve(wanted.saturating_sub(arrays.len())));
            }
        }
    }
}

// The place of the last array that has room for so many buffers.
fn last_with_room(arrays: &[Vec<Buf<'_>>], places: usize) -> Option<usize>
    ensures { IfSome result (λ k. RoomAt places k arrays.now) }
{
    let mut at = arrays.len();
    while at > 0 {
        at -= 1;
        if arrays[at].capacity() >= places {
            return Some(at);
        }
    }
    None
}
