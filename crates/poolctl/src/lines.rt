//! Lines that begin with a word.
ghost use Rattle.std.specs.Prelude.{◌≡◌, ◌++◌, IfOk, string_bytes};
ghost use Rattle.poolctl.specs.Lines.{number_line, word_line};

use std::alloc::AllocError;

/// Adds a number behind a word.
pub fn push_number(text: &mut String, word: &str, number: u64) -> Result<(), AllocError>
    ensures { IfOk result (λ _. string_bytes text.new ≡ string_bytes text.old ++ number_line word.now number) }
{
    text.push_str(word)?;
    write!(text, " {number}\n")
}

/// Adds a word behind a word.
pub fn push_word(text: &mut String, word: &str, other: &str) -> Result<(), AllocError>
    ensures { IfOk result (λ _. string_bytes text.new ≡ string_bytes text.old ++ word_line word.now other.now) }
{
    text.push_str(word)?;
    text.push_str(" ")?;
    text.push_str(other)?;
    text.push_str("\n")
}
