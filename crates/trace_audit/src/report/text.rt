//! A line that is being made.
ghost use Rattle.std.specs.Prelude.{◌≡◌, ◌≤◌, ◌+◌, ◌++◌, length, decimal};
ghost use Rattle.arrayvec.specs.ArrayVec.{array_vec_len};

use arrayvec::ArrayVec;
use itoa::Buffer;

/// One line of the report, with its line feed. The longest has six words, a few spaces and five numbers of at most
/// 20 digits.
pub(crate) type Line = ArrayVec<u8, 160>;

/// Adds the text.
pub(crate) fn push_text(line: &mut Line, text: &[u8])
    requires { array_vec_len line.old + length text.now ≤ 160 }
    ensures items { line.new.items ≡ line.old.items ++ text.now }
    ensures len { array_vec_len line.new ≡ array_vec_len line.old + length text.now }
{
    let _ = line.try_extend_from_slice(text);
}

/// Adds the number in decimal, without leading zeros.
pub(crate) fn push_number(line: &mut Line, number: u64)
    requires { array_vec_len line.old + 20 ≤ 160 }
    ensures items { line.new.items ≡ line.old.items ++ decimal number }
    ensures len { array_vec_len line.new ≤ array_vec_len line.old + 20 }
{
    let mut buffer = Buffer::new();
    push_text(line, buffer.format(number).as_bytes());
}
