//! Where a program in C keeps a burst: buffers of one allocator that are handed over and freed as a whole.
ghost use Rattle.std.specs.Prelude.{◌≡◌, None};
ghost use Rattle.seated_desk.specs.Answers.{answer_of};
ghost use Rattle.seated_desk.specs.Bursts.{PutsIn, TakesLast, TellsCount, TellsSpan};

use crate::buf_handle::BufHandle;
use crate::refusal::{Refusal, answer};
use crate::span::Span;
use slot_chain::BufParcel;

/// A handle, which holds one parcel of buffers or none.
#[derive(Drop)]
pub struct BurstHandle<'r> {
    // The number of the buffers' pool.
    pub(crate) pool: u64,
    pub(crate) parcel: Option<BufParcel<'r>>,
}

impl<'r> BurstHandle<'r> {
    /// A handle that holds none.
    pub fn new() -> BurstHandle<'r>
        ensures { result.parcel ≡ None }
    {
        BurstHandle {
            pool: 0,
            parcel: None,
        }
    }

    /// How many buffers the burst has; 0 where it is not open.
    pub fn len(&mut self) -> u64
        ensures { TellsCount result self.old self.new }
    {
        match &self.parcel {
            Some(parcel) => parcel.len() as u64,
            None => 0,
        }
    }

    /// Puts the handle's buffer to the end. `Empty` where the burst is not open or the handle holds none, `Stranger`
    /// where the buffer is another allocator's or another pool's, `Full` where no place is left.
    pub fn push(&mut self, handle: &mut BufHandle<'r>) -> u32
        ensures { PutsIn result self.old self.new handle.old handle.new }
    {
        answer(self.pack(handle))
    }

    fn pack(&mut self, handle: &mut BufHandle<'r>) -> Result<(), Refusal>
        ensures { PutsIn (answer_of result) self.old self.new handle.old handle.new }
    {
        let Some(parcel) = &mut self.parcel else {
            return Err(Refusal::Empty);
        };
        let Some(held) = &handle.buf else {
            return Err(Refusal::Empty);
        };
        if handle.pool != self.pool || held.owner() != parcel.owner() {
            return Err(Refusal::Stranger);
        }
        if parcel.is_full() {
            return Err(Refusal::Full);
        }
        let Some(buf) = handle.take() else {
            return Err(Refusal::Empty);
        };
        match parcel.push(buf) {
            Ok(()) => Ok(()),
            Err(_) => unreachable!(),
        }
    }

    /// Takes the last buffer out, into a handle that holds none. `Holds` where it holds one, `Empty` where the burst
    /// has none.
    pub fn pop(&mut self, handle: &mut BufHandle<'r>) -> u32
        ensures { TakesLast result self.old self.new handle.old handle.new }
    {
        answer(self.unpack(handle))
    }

    fn unpack(&mut self, handle: &mut BufHandle<'r>) -> Result<(), Refusal>
        ensures { TakesLast (answer_of result) self.old self.new handle.old handle.new }
    {
        if handle.buf.is_some() {
            return Err(Refusal::Holds);
        }
        let Some(parcel) = &mut self.parcel else {
            return Err(Refusal::Empty);
        };
        let Some(buf) = parcel.pop() else {
            return Err(Refusal::Empty);
        };
        *handle = BufHandle::of(buf, self.pool);
        Ok(())
    }

    /// Tells where the bytes of the buffer at this place lie, counted from 0. `Empty` where there is none.
    pub fn span(&mut self, span: &mut Span, index: usize) -> u32
        ensures { TellsSpan index result self.old self.new span.old span.new }
    {
        let Some(parcel) = &self.parcel else {
            return Refusal::Empty.number();
        };
        let Some(buf) = parcel.buffers().get(index) else {
            return Refusal::Empty.number();
        };
        *span = Span::of(buf);
        0
    }
}
