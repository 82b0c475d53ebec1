//! What a station lends.
ghost use Rattle.std.specs.Prelude.{◌≡◌, ◌<◌, ◌≤◌, ℕ, [], ◌∷◌, None, IfOk, MatchResult};
ghost use Rattle.region_cut.specs.Classes.{classes_of, size_of};
ghost use Rattle.pool_desk.specs.Desks.{profile_at};
ghost use Rattle.seated_desk.specs.Answers.{answer_of};
ghost use Rattle.seated_desk.specs.Bursts.{Adds, FillsAt, OpensAt};
ghost use Rattle.seated_desk.specs.Handles.{Lends, LendsFrom};
ghost use Rattle.seated_desk.specs.Kept.{IsSameStation, LendsBurst, LendsOnto, LendsThere};

use crate::buf_handle::BufHandle;
use crate::burst_handle::BurstHandle;
use crate::refusal::Refusal;
use crate::station::Station;
use pool_desk::DeskError;
use region_cut::{Class, Profile};
use slot_chain::{Buf, BufParcel};

// How many calls go by between two looks into the inbox.
const LOOK_EVERY: u64 = 64;

// How often it looks again where the stock is empty.
const MOST_LOOKS: u32 = 64;

impl<'r> Station<'r> {
    // Takes what else came, as long as no slot of the class is among it: a look ends at its bound, and the stock is
    // empty.
    #[cold]
    #[inline(never)]
    fn take_on(&mut self, class: Class)
        ensures { IsSameStation self.old self.new }
    {
        for _ in 0..MOST_LOOKS {
            if self.take() == 0 || self.desk.has_home(class) {
                return;
            }
        }
    }

    // Takes what came, and draws a chunk where no slot of the class is among it.
    #[cold]
    #[inline(never)]
    fn fetch(&mut self, class: Class)
        requires { class < classes_of (profile_at self.old.desk) }
        ensures { IsSameStation self.old self.new }
    {
        self.since = 0;
        self.take();
        if self.desk.has_home(class) {
            return;
        }
        self.post_from = 0;
        let Some(part) = self.drawer.draw(class) else {
            self.take_on(class);
            return;
        };
        self.desk.claim_needed(part, class);
        self.claimed = self.claimed.wrapping_add(1);
    }

    // Counts a call. Says whether a look into the inbox is due, or no slot of the class is at home.
    #[inline(always)]
    fn is_to_fetch(&mut self, class: Class) -> bool
        ensures { IsSameStation self.old self.new }
    {
        self.since = self.since.wrapping_add(1);
        self.since >= LOOK_EVERY || !self.desk.has_home(class)
    }

    // Counts a call, and fetches where that is due.
    fn count_and_fetch(&mut self, class: Class)
        requires { class < classes_of (profile_at self.old.desk) }
        ensures { IsSameStation self.old self.new }
    {
        if self.is_to_fetch(class) {
            self.fetch(class);
        }
    }

    // Why the desk gave no buffer of the class.
    #[cold]
    #[inline(never)]
    fn refusal_of(&self, error: DeskError, class: Class) -> Refusal {
        if let DeskError::NoMemory = error {
            return Refusal::NoMemory;
        }
        if self.desk.has_drawn(class) {
            Refusal::UsedUp
        } else {
            Refusal::NoChunk
        }
    }

    // A buffer of the class, of a slot at home.
    #[inline(always)]
    fn lend_class(&mut self, class: Class) -> Result<Buf<'r>, Refusal>
        requires { class < classes_of (profile_at self.old.desk) }
        ensures station { MatchResult result
            (λ b. LendsThere (b ∷ []) self.old self.new)
            (λ _. IsSameStation self.old self.new) }
        ensures class { IfOk result (λ b. b.class ≡ class) }
        ensures owner { IfOk result (λ b. b.owner ≡ self.old.desk.number) }
    {
        match self.desk.alloc_class(self.alloc, class) {
            Ok(buf) => {
                self.lent = self.lent.and(&buf);
                Ok(buf)
            }
            Err(error) => Err(self.refusal_of(error, class)),
        }
    }

    // A buffer of at least this size.
    fn lend(&mut self, size: usize) -> Result<Buf<'r>, Refusal>
        ensures station { MatchResult result
            (λ b. LendsThere (b ∷ []) self.old self.new)
            (λ _. IsSameStation self.old self.new) }
        ensures size { IfOk result (λ b. size ≤ size_of b.class) }
        ensures owner { IfOk result (λ b. b.owner ≡ self.old.desk.number) }
    {
        let Some(class) = Profile::Pool.class_for(size) else {
            return Err(Refusal::TooLarge);
        };
        self.count_and_fetch(class);
        self.lend_class(class)
    }

    // Lends a buffer of the class into a handle that holds none: what `alloc` answers.
    #[inline(always)]
    fn lend_into(&mut self, handle: &mut BufHandle<'r>, class: Class) -> u32
        requires class { class < classes_of (profile_at self.old.desk) }
        requires empty { handle.old.buf ≡ None }
        ensures station { LendsFrom result self.old self.new handle.new }
        ensures lends { Lends (size_of class) self.old.pool result handle.old handle.new }
    {
        match self.lend_class(class) {
            Ok(buf) => {
                handle.put(buf, self.pool);
                0
            }
            Err(refusal) => refusal.number(),
        }
    }

    // The same, once it took what came, and drew a chunk where no slot of the class was among it. It is a function of
    // its own, called last, so that the short way of `alloc` saves no register.
    #[cold]
    #[inline(never)]
    fn fetch_into(&mut self, handle: &mut BufHandle<'r>, class: Class) -> u32
        requires class { class < classes_of (profile_at self.old.desk) }
        requires empty { handle.old.buf ≡ None }
        ensures station { LendsFrom result self.old self.new handle.new }
        ensures lends { Lends (size_of class) self.old.pool result handle.old handle.new }
    {
        self.fetch(class);
        self.lend_into(handle, class)
    }

    /// Lends a buffer into a handle that holds none: 0, or the number of a refusal.
    #[inline(always)]
    pub(crate) fn alloc(&mut self, handle: &mut BufHandle<'r>, size: usize) -> u32
        ensures station { LendsFrom result self.old self.new handle.new }
        ensures lends { Lends size self.old.pool result handle.old handle.new }
    {
        if handle.buf.is_some() {
            return Refusal::Holds.number();
        }
        let Some(class) = Profile::Pool.class_for(size) else {
            return Refusal::TooLarge.number();
        };
        if self.is_to_fetch(class) {
            return self.fetch_into(handle, class);
        }
        self.lend_into(handle, class)
    }

    /// Opens a burst with room for so many buffers, where the handle holds no buffer.
    pub(crate) fn open(&mut self, burst: &mut BurstHandle<'r>, places: usize) -> Result<(), Refusal>
        ensures station { IsSameStation self.old self.new }
        ensures opens { OpensAt places self.old.pool (answer_of result) burst.old burst.new }
    {
        if burst.len() > 0 {
            return Err(Refusal::Holds);
        }
        let Ok(parcel) = self.desk.parcel(self.alloc, places) else {
            return Err(Refusal::NoMemory);
        };
        burst.pool = self.pool;
        burst.parcel = Some(parcel);
        Ok(())
    }

    /// Lends so many buffers into a burst, or those that it can.
    pub(crate) fn fill(
        &mut self,
        burst: &mut BurstHandle<'r>,
        size: usize,
        count: usize,
    ) -> Result<(), Refusal>
        ensures station { LendsBurst burst.old.parcel burst.new.parcel self.old self.new }
        ensures fills { FillsAt size count self.old.pool (answer_of result) burst.old burst.new }
    {
        let Some(parcel) = &mut burst.parcel else {
            return Err(Refusal::Empty);
        };
        if burst.pool != self.pool {
            return Err(Refusal::Stranger);
        }
        if parcel.owner() != self.desk.number() {
            return Err(Refusal::Stranger);
        }
        self.fill_up(parcel, size, count)
    }

    // Lends at most so many buffers into an empty parcel of its desk, as they came home together in an array,
    // and says how many: none where no such array is there.
    fn lend_whole(&mut self, parcel: &mut BufParcel<'r>, size: usize, count: usize) -> usize
        requires { parcel.old.owner ≡ self.old.desk.number }
        ensures station { LendsOnto parcel.old parcel.new self.old self.new }
        ensures adds { Adds size result parcel.old parcel.new }
        ensures most { result ≤ count }
    {
        if count == 0 || !parcel.is_empty() {
            return 0;
        }
        let Some(class) = Profile::Pool.class_for(size) else {
            return 0;
        };
        self.count_and_fetch(class);
        self.lend_array(parcel, size, class, count)
    }

    // The same, of a class that holds so many bytes.
    fn lend_array(
        &mut self,
        parcel: &mut BufParcel<'r>,
        size: usize,
        class: Class,
        count: usize,
    ) -> usize
        requires owner { parcel.old.owner ≡ self.old.desk.number }
        requires size { size ≤ size_of class }
        ensures station { LendsOnto parcel.old parcel.new self.old self.new }
        ensures adds { Adds size result parcel.old parcel.new }
        ensures most { result ≤ count }
    {
        let is_lent = self.desk.lend_whole(self.alloc, class, parcel, count);
        if !is_lent {
            return 0;
        }
        let lent = parcel.len();
        self.lent = self.lent.and_all(parcel.buffers());
        self.since = self.since.wrapping_add(lent as u64);
        lent
    }

    // Lends so many buffers into a parcel of its desk, or those that it can.
    fn fill_up(
        &mut self,
        parcel: &mut BufParcel<'r>,
        size: usize,
        count: usize,
    ) -> Result<(), Refusal>
        requires { parcel.old.owner ≡ self.old.desk.number }
        ensures station { LendsOnto parcel.old parcel.new self.old self.new }
        ensures adds { MatchResult result (λ _. Adds size count parcel.old parcel.new)
            (λ _. (n : ℕ) × (n ≤ count) × Adds size n parcel.old parcel.new) }
    {
        let mut lent = self.lend_whole(parcel, size, count);
        while lent < count {
            if parcel.is_full() {
                return Err(Refusal::Full);
            }
            let buf = self.lend(size)?;
            match parcel.push(buf) {
                Ok(()) => lent += 1,
                Err(_) => unreachable!(),
            }
        }
        Ok(())
    }
}
