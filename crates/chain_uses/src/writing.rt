//! What is written through a buffer: the buffer stays the same but for its bytes.
ghost use Rattle.std.specs.Prelude.{◌≡◌, [], length, replicate, MatchBool};
ghost use Rattle.slot_chain.specs.Loans.{with_bytes_now};
ghost use Rattle.chain_uses.specs.Written.{marked, MarksTop};

use slot_chain::{Buf, Chain};

/// Writes the first byte. Each class has a size above 0, so there is one.
pub fn mark(buf: &mut Buf<'_>, byte: u8)
    ensures { buf.new ≡ marked buf.old byte }
{
    // No class has the size 0.
    let _size = buf.class().size();
    buf.bytes_mut()[0] = byte;
}

/// Sets each byte to 0.
pub fn clear(buf: &mut Buf<'_>)
    ensures { buf.new ≡ with_bytes_now buf.old (replicate (length buf.old.bytes.now) 0) }
{
    buf.bytes_mut().fill(0);
}

/// Copies bytes in, as many as the buffer has.
pub fn copy_in(buf: &mut Buf<'_>, from: &[u8])
    requires { length from.now ≡ length buf.old.bytes.now }
    ensures { buf.new ≡ with_bytes_now buf.old from.now }
{
    buf.bytes_mut().copy_from_slice(from);
}

/// Writes the first byte and sets the count of hops. The buffer is passed and given back by value.
pub fn stamped<'r>(mut buf: Buf<'r>, forwards: u32, byte: u8) -> Buf<'r>
    ensures { result ≡ record (marked buf.entry byte) { forwards = forwards } }
{
    mark(&mut buf, byte);
    buf.set_forwards(forwards);
    buf
}

/// Takes the buffer on top, writes its first byte and puts it back. The others stay. `false` says that there is none.
pub fn mark_top(chain: &mut Chain<'_>, byte: u8) -> bool
    ensures { MatchBool result (MarksTop chain.old chain.new byte) ((chain.old ≡ []) × (chain.new ≡ [])) }
{
    match chain.pop() {
        None => false,
        Some(mut buf) => {
            mark(&mut buf, byte);
            chain.push(buf);
            true
        }
    }
}
