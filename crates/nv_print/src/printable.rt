//! The part of some bytes that is shown as text.

ghost use Rattle.std.specs.Prelude.{◌≡◌, ◌-◌, ◌++◌, length, replicate};
ghost use Rattle.std.specs.List.{prefix_len};
ghost use Rattle.std.specs.Str.{IsUtf8};
ghost use Rattle.nv_print.specs.Text.{is_printable, printable};

use std::str;

/// Returns how many bytes at the beginning are printable ASCII.
fn printable_len(bytes: &[u8]) -> usize
    ensures { result ≡ prefix_len is_printable bytes.now }
{
    bytes
        .iter()
        .take_while(|byte| b' ' <= **byte && **byte <= b'~')
        .count()
}

/// Returns bytes without spaces at their end, of which at most seven stay.
fn without_padding(bytes: &[u8]) -> &[u8]
    ensures { bytes.now
        ≡ result.now ++ replicate (length bytes.now - length result.now) 32 }
{
    let mut rest = bytes;
    while let Some((before, last)) = rest.split_last_chunk::<8>() {
        if *last != [b' '; 8] {
            break;
        }
        rest = before;
    }
    rest
}

/// Returns the bytes that are shown.
fn printable_bytes(bytes: &[u8]) -> &[u8]
    ensures value { result.now ≡ printable bytes.now }
    ensures utf8 { IsUtf8 result.now }
{
    let bytes = without_padding(bytes);
    let beginning = &bytes[..printable_len(bytes)];
    beginning.trim_ascii_end()
}

/// Returns the printable ASCII at the beginning of some bytes, without the spaces at its end.
pub(crate) fn printable(bytes: &[u8]) -> &str
    ensures { result.now ≡ printable bytes.now }
{
    match str::from_utf8(printable_bytes(bytes)) {
        Ok(text) => text,
        Err(_) => unreachable!(),
    }
}
