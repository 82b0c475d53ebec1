//! What comes out of a magazine at once.
ghost use Rattle.slot_chain.specs.Magazines.{IsArrayOf};

use crate::buf::Buf;
use crate::chain::Chain;
use crate::parcel::BufParcel;
use std::fmt;

/// Buffers of a [`Magazine`](crate::Magazine), one behind the other, as they lie in it.
#[derive(Drop)]
pub enum Portion<'r> {
    /// Those that found no place in an array.
    Linked(Chain<'r>),
    /// Those that were put one by one, in the magazine's own array.
    Array(Vec<Buf<'r>>),
    /// Those of a parcel that came as a whole: all are of one owner, which it knows.
    Whole(BufParcel<'r>),
}

impl<'r> Portion<'r> {
    /// The array, or `None` where the buffers are linked: they are let go then.
    pub fn into_array(self) -> Option<Vec<Buf<'r>>>
        ensures { IsArrayOf self.entry result }
    {
        match self {
            Portion::Linked(_) => None,
            Portion::Array(array) => Some(array),
            Portion::Whole(parcel) => Some(parcel.into_buffers()),
        }
    }
}

// The buffers are not printed.
impl fmt::Debug for Portion<'_> {
    fn fmt<W: fmt::Write>(&self, f: &mut fmt::Formatter<W>) -> fmt::Result {
        match self {
            Portion::Linked(chain) => write!(f, "Linked({} buffers)", chain.len()),
            Portion::Array(array) => write!(f, "Array({} buffers)", array.len()),
            Portion::Whole(parcel) => write!(f, "Whole({} buffers)", parcel.len()),
        }
    }
}
