//! A thread may own, and hand over, a piece, a room, a buffer, a chain, a magazine and a parcel: each is passed to a
//! call that wants `Send`.
use region_cut::Piece;
use slot_chain::{Buf, BufParcel, Chain, Magazine, Room};

// What a thread is started with has to be `Send`.
fn crosses<T: Send + Drop>(value: T) {
    drop(value);
}

/// A piece of a region crosses.
pub fn piece_crosses(piece: Piece<'_>) {
    crosses(piece);
}

/// An empty room crosses.
pub fn room_crosses(room: Room<'_>) {
    crosses(room);
}

/// A buffer crosses.
pub fn buf_crosses(buf: Buf<'_>) {
    crosses(buf);
}

/// A chain crosses.
pub fn chain_crosses(chain: Chain<'_>) {
    crosses(chain);
}

/// A magazine crosses.
pub fn magazine_crosses(magazine: Magazine<'_>) {
    crosses(magazine);
}

/// A parcel crosses.
pub fn parcel_crosses(parcel: BufParcel<'_>) {
    crosses(parcel);
}
