//! What stands ahead of the text in a buffer.

use syslog_lines::{MARK_BYTES, Mark};

/// What the text in a buffer is.
#[derive(Clone, Copy, Debug, PartialEq, Eq)]
pub enum Form {
    /// The piece of a line, as it was read.
    Piece,
    /// The JSON object of that piece.
    Object,
    /// A piece that isn't kept.
    LeftOut,
}

/// What stands ahead of the text in a buffer: which piece it is of, what form it has, and how long it is.
///
/// The length stands here, ahead of the text: all bytes of such a buffer count as filled.
#[derive(Clone, Copy, Debug, PartialEq, Eq)]
pub struct Label {
    pub mark: Mark,
    pub form: Form,
    pub len: u16,
}

/// How many bytes a label has.
pub const LABEL_BYTES: usize = MARK_BYTES + 3;

impl Label {
    /// Writes the label and its text to the front of some bytes, if they fit.
    pub fn write(self, text: &[u8], bytes: &mut [u8]) {
        let Some((head, rest)) = bytes.split_at_mut_checked(LABEL_BYTES) else {
            return;
        };
        let Some((place, _)) = rest.split_at_mut_checked(text.len()) else {
            return;
        };
        place.copy_from_slice(text);
        let (mark, rest) = head.split_at_mut(MARK_BYTES);
        mark.copy_from_slice(&self.mark.to_bytes());
        let [low, high] = self.len.to_le_bytes();
        rest.copy_from_slice(&[self.form as u8, low, high]);
    }

    /// The label at the front of some bytes, and its text.
    pub fn read(bytes: &[u8]) -> Option<(Label, &[u8])> {
        let (mark, rest) = Mark::split(bytes)?;
        let ([form, low, high], rest) = rest.split_first_chunk::<3>()?;
        let form = match *form {
            0 => Form::Piece,
            1 => Form::Object,
            _ => Form::LeftOut,
        };
        let len = u16::from_le_bytes([*low, *high]);
        let text = rest.get(..usize::from(len))?;
        Some((Label { mark, form, len }, text))
    }
}
