//! A drawn chunk.
use region_cut::Class;

/// A drawn chunk: the number of the desk that drew it, and the class that it was drawn for.
#[derive(Clone, Copy, Debug)]
pub struct DrawnChunk {
    pub owner: u32,
    pub class: Class,
}
