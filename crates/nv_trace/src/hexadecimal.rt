//! Numbers in hexadecimal digits.

ghost use Rattle.std.specs.Prelude.{◌≡◌, ◌<◌, false};
ghost use Rattle.std.specs.Fmt.{digit_glyph};
ghost use Rattle.nv_trace.specs.Lines.{hex};

/// Returns the digit of a number below 16.
fn digit(value: u8) -> u8
    requires { value < 16 }
    ensures { result ≡ digit_glyph false value }
{
    if value < 10 {
        b'0' + value
    } else {
        b'a' + (value - 10)
    }
}

/// Writes the digits of a number to the end of `room`, and returns them.
pub(crate) fn digits_of(room: &mut [u8; 16], number: u64) -> &[u8]
    ensures { result.now ≡ hex number }
{
    let mut at = 16;
    let mut rest = number;
    loop {
        at -= 1;
        room[at] = digit((rest % 16) as u8);
        rest /= 16;
        if rest == 0 {
            return &room[at..];
        }
    }
}
