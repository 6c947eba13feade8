//! Texts in columns.

ghost use Rattle.std.specs.Prelude.{◌≡◌, ◌≤◌, ◌∷◌, ◌++◌, [], IfOk, replicate, string_bytes};
ghost use Rattle.std.specs.Fmt.{decimal};
ghost use Rattle.nv_print.specs.Text.{left, right};

use itoa::Buffer;
use std::alloc::AllocError;

/// Adds spaces to a text.
#[tactic(auto, using(crate::proofs::Padding::spaces_cut, crate::proofs::Padding::spaces_are))]
pub(crate) fn push_spaces(text: &mut String, count: usize) -> Result<(), AllocError>
    requires { count ≤ 41 }
    ensures { IfOk result
        (λ _. string_bytes text.new ≡ string_bytes text.old ++ replicate count 32) }
{
    let (spaces, _) = "                                         ".split_at(count);
    text.push_str(spaces)
}

/// Adds a text at the left of a column of `width` characters, and a space.
#[tactic(auto, using(crate::proofs::Padding::left_more))]
pub(crate) fn push_left(text: &mut String, shown: &str, width: usize) -> Result<(), AllocError>
    requires { width ≤ 40 }
    ensures { IfOk result
        (λ _. string_bytes text.new ≡ string_bytes text.old ++ (left width shown.now ++ 32 ∷ [])) }
{
    text.push_str(shown)?;
    push_spaces(text, width.saturating_sub(shown.len()) + 1)
}

/// Adds a number in decimal to a text.
pub(crate) fn push_decimal(text: &mut String, number: u64) -> Result<(), AllocError>
    ensures { IfOk result
        (λ _. string_bytes text.new ≡ string_bytes text.old ++ decimal number) }
{
    let mut digits = Buffer::new();
    text.push_str(digits.format(number))
}

/// Adds a number at the right of a column of `width` characters.
#[tactic(auto, using(crate::proofs::Fields::two_more))]
pub(crate) fn push_right(text: &mut String, number: u64, width: usize) -> Result<(), AllocError>
    requires { width ≤ 40 }
    ensures { IfOk result
        (λ _. string_bytes text.new ≡ string_bytes text.old ++ right width (decimal number)) }
{
    let mut buffer = Buffer::new();
    let digits = buffer.format(number);
    push_spaces(text, width.saturating_sub(digits.len()))?;
    text.push_str(digits)
}

/// Adds a space, and a number at the right of a column of `width` characters.
#[tactic(auto, using(crate::proofs::Padding::column_more))]
pub(crate) fn push_column(text: &mut String, number: u64, width: usize) -> Result<(), AllocError>
    requires { width ≤ 40 }
    ensures { IfOk result
        (λ _. string_bytes text.new ≡ string_bytes text.old ++ (32 ∷ right width (decimal number))) }
{
    let mut buffer = Buffer::new();
    let digits = buffer.format(number);
    push_spaces(text, width.saturating_sub(digits.len()) + 1)?;
    text.push_str(digits)
}
