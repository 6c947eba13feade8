//! Numbers in hexadecimal digits.

ghost use Rattle.std.specs.Prelude.{◌≡◌, ◌≤◌, ◌<◌, ◌++◌, IfOk, OnOk, drop, false, string_bytes};
ghost use Rattle.std.specs.Fmt.{digit_glyph, digits};
ghost use Rattle.std.specs.Str.{IsUtf8};
ghost use Rattle.nv_print.specs.Field.{in_six_digits, shape_data};
ghost use Rattle.nv_print.specs.Text.{hexadecimal, six_digits};
ghost use Rattle.nv_print.specs.inner.Tokens.{Adds, data_tokens};

use json::Writer;
use std::alloc::AllocError;
use std::str;

/// Returns a lower case hexadecimal digit.
fn digit(number: u64) -> u8
    requires { number < 16 }
    ensures { result ≡ digit_glyph false number }
{
    let number = number as u8;
    if number < 10 {
        b'0' + number
    } else {
        b'a' + (number - 10)
    }
}

/// Writes the digits of a number at the end of `room`, and returns where they begin.
fn write_digits(number: u64, room: &mut [u8; 66]) -> usize
    ensures after { 2 ≤ result }
    ensures within { result ≤ 66 }
    ensures value { drop result room.new ≡ digits 16 false number }
{
    let mut start = 66;
    let mut rest = number;
    while start > 2 {
        start -= 1;
        room[start] = digit(rest % 16);
        rest /= 16;
        if rest == 0 {
            break;
        }
    }
    start
}

/// Writes a number with `0x` and lower case digits at the end of `room`, and returns that part.
fn hexadecimal_in(number: u64, room: &mut [u8; 66]) -> &[u8]
    ensures value { result.now ≡ hexadecimal number }
    ensures utf8 { IsUtf8 result.now }
{
    let mut start = write_digits(number, room);
    start -= 1;
    room[start] = b'x';
    start -= 1;
    room[start] = b'0';
    &room[start..]
}

/// Adds a number of one digit with `0x` to a text.
fn push_one_digit(text: &mut String, number: u64) -> Result<(), AllocError>
    requires { number < 16 }
    ensures { IfOk result
        (λ _. string_bytes text.new ≡ string_bytes text.old ++ hexadecimal number) }
{
    text.push_str("0x")?;
    text.push(char::from(digit(number)))?;
    Ok(())
}

/// Adds a number with `0x` and lower case hexadecimal digits to a text. `room` is room for them.
pub(crate) fn push_hexadecimal_in(
    text: &mut String,
    number: u64,
    room: &mut [u8; 66],
) -> Result<(), AllocError>
    ensures { IfOk result
        (λ _. string_bytes text.new ≡ string_bytes text.old ++ hexadecimal number) }
{
    match str::from_utf8(hexadecimal_in(number, room)) {
        Ok(shown) => text.push_str(shown),
        Err(_) => unreachable!(),
    }
}

/// Adds a number with `0x` and lower case hexadecimal digits to a text.
pub(crate) fn push_hexadecimal(text: &mut String, number: u64) -> Result<(), AllocError>
    ensures { IfOk result
        (λ _. string_bytes text.new ≡ string_bytes text.old ++ hexadecimal number) }
{
    if number < 16 {
        return push_one_digit(text, number);
    }
    let mut room = [0; 66];
    push_hexadecimal_in(text, number, &mut room)
}

/// Writes a number with six digits, or more if it needs them, at the end of `room`, and returns
/// that part.
fn six_digits_in(number: u32, room: &mut [u8; 66]) -> &[u8]
    ensures value { result.now ≡ six_digits number }
    ensures utf8 { IsUtf8 result.now }
{
    let start = write_digits(u64::from(number), room);
    let first = start.min(60);
    room[first..start].fill(b'0');
    &room[first..]
}

/// Adds a number with six lower case hexadecimal digits, or more, to a text.
pub(crate) fn push_six_digits(text: &mut String, number: u32) -> Result<(), AllocError>
    ensures { IfOk result
        (λ _. string_bytes text.new ≡ string_bytes text.old ++ six_digits number) }
{
    let mut room = [0; 66];
    match str::from_utf8(six_digits_in(number, &mut room)) {
        Ok(shown) => text.push_str(shown),
        Err(_) => unreachable!(),
    }
}

/// Writes a number with six lower case hexadecimal digits, or more, as a string of JSON.
pub(crate) fn write_six_digits(number: u32, out: &mut Writer) -> Result<(), AllocError>
    ensures { OnOk result
        (Adds (data_tokens (shape_data (in_six_digits number))) out.old out.new) }
{
    let mut room = [0; 66];
    match str::from_utf8(six_digits_in(number, &mut room)) {
        Ok(shown) => out.string(shown),
        Err(_) => unreachable!(),
    }
}
