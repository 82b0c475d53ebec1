//! How bytes stand in the texts of a JSON object.

ghost use Rattle.std.specs.Prelude.{◌≡◌, ℕ, ◌+◌, ◌<◌, ◌≤◌, ◌++◌, ◌↔◌, true, false, length, take, slice_index, IsTrue, OnOk, IsUtf8};
ghost use Rattle.syslog_lines.specs.Texts.{byte_text, hex_of, is_plain as plain_byte, text_of};

use std::alloc::AllocError;

/// How bytes stand in a text.
#[derive(Clone, Copy, Debug, PartialEq, Eq)]
pub enum Coding {
    /// As the text that they are. They are UTF-8.
    Text,
    /// Each byte from 128 on as `\xHH`, with two hexadecimal digits, and each backslash as two of them.
    Escaped,
}

impl Coding {
    /// How these bytes have to stand.
    pub fn of(bytes: &[u8]) -> Coding
        ensures { (result ≡ Coding.Text) ↔ IsUtf8 bytes.now }
    {
        match simdutf8::basic::from_utf8(bytes) {
            Ok(_) => Coding::Text,
            Err(_) => Coding::Escaped,
        }
    }
}

/// Appends bytes as they stand between the quotes of a JSON text.
pub fn push_text(out: &mut Vec<u8>, bytes: &[u8], coding: Coding) -> Result<(), AllocError>
    ensures { OnOk result (out.new.items ≡ out.old.items ++ text_of coding bytes.now) }
{
    let mut rest = bytes;
    loop {
        let (ahead, behind) = rest.split_at(plain_len(rest, coding));
        out.extend_from_slice(ahead)?;
        let Some((byte, behind)) = behind.split_first() else {
            return Ok(());
        };
        push_escape(out, *byte, coding)?;
        rest = behind;
    }
}

// How many bytes at the front stand for themselves.
fn plain_len(bytes: &[u8], coding: Coding) -> usize
    ensures within { result ≤ length bytes.now }
    ensures plain { (k : ℕ) → k < result → plain_byte coding (slice_index bytes.now k) ≡ true }
    ensures ends { result < length bytes.now → plain_byte coding (slice_index bytes.now result) ≡ false }
{
    for (at, byte) in bytes.iter().enumerate() {
        if !is_plain(*byte, coding) {
            return at;
        }
    }
    bytes.len()
}

// Whether a byte stands for itself.
fn is_plain(byte: u8, coding: Coding) -> bool
    ensures { result ≡ plain_byte coding byte }
{
    byte >= 32 && byte != b'"' && byte != b'\\' && (byte < 128 || coding == Coding::Text)
}

// Appends a byte that doesn't stand for itself.
fn push_escape(out: &mut Vec<u8>, byte: u8, coding: Coding) -> Result<(), AllocError>
    requires { plain_byte coding byte ≡ false }
    ensures { OnOk result (out.new.items ≡ out.old.items ++ byte_text coding byte) }
{
    match byte {
        b'"' => out.extend_from_slice(b"\\\""),
        b'\\' if coding == Coding::Escaped => out.extend_from_slice(b"\\\\\\\\"),
        b'\\' => out.extend_from_slice(b"\\\\"),
        b'\n' => out.extend_from_slice(b"\\n"),
        b'\r' => out.extend_from_slice(b"\\r"),
        b'\t' => out.extend_from_slice(b"\\t"),
        0..=31 => out.extend_from_slice(&[b'\\', b'u', b'0', b'0', hex(byte / 16), hex(byte % 16)]),
        _ => out.extend_from_slice(&[b'\\', b'\\', b'x', hex(byte / 16), hex(byte % 16)]),
    }
}

fn hex(digit: u8) -> u8
    requires { digit < 16 }
    ensures { result ≡ hex_of digit }
{
    if digit < 10 {
        b'0' + digit
    } else {
        b'a' + (digit - 10)
    }
}
