//! Reads and writes numbers at places in a record's bytes, and in the bits of a number.

ghost use Rattle.std.specs.Prelude.{◌≡◌, ◌≤◌, ◌<◌, ◌+◌, ◌*◌, ◌^◌, length};
ghost use Rattle.std.specs.List.{AllByRecursion};
ghost use Rattle.nv_layout.specs.Bits.{at_bits, bits};
ghost use Rattle.nv_layout.specs.Parts.{number, number_at, numbers, numbers_at, placed, text};
ghost use Rattle.nv_layout.specs.Parts.{text_at, zeros};

use byteorder::{ByteOrder, LittleEndian};

/// Zeroes all bytes of a record, before its fields are written.
#[tactic(auto, unfolding(crate::specs::Parts::zeros))]
pub(crate) fn clear(out: &mut [u8])
    ensures { out.new ≡ zeros (length out.old) }
{
    out.fill(0);
}

#[tactic(auto, using(crate::proofs::PartLaws::byte_placed))]
pub(crate) fn put_u8(out: &mut [u8], at: usize, value: u8)
    requires { at < length out.old }
    ensures { out.new ≡ placed out.old (number at 1 value) }
{
    out[at] = value;
}

#[tactic(auto, unfolding(crate::specs::Parts::placed))]
pub(crate) fn put_u16(out: &mut [u8], at: usize, value: u16)
    requires { at + 2 ≤ length out.old }
    ensures { out.new ≡ placed out.old (number at 2 value) }
{
    LittleEndian::write_u16(&mut out[at..], value);
}

#[tactic(auto, unfolding(crate::specs::Parts::placed))]
pub(crate) fn put_u24(out: &mut [u8], at: usize, value: u32)
    requires room { at + 3 ≤ length out.old }
    requires small { value < 2 ^ 24 }
    ensures { out.new ≡ placed out.old (number at 3 value) }
{
    LittleEndian::write_u24(&mut out[at..], value);
}

#[tactic(auto, unfolding(crate::specs::Parts::placed))]
pub(crate) fn put_u32(out: &mut [u8], at: usize, value: u32)
    requires { at + 4 ≤ length out.old }
    ensures { out.new ≡ placed out.old (number at 4 value) }
{
    LittleEndian::write_u32(&mut out[at..], value);
}

#[tactic(auto, unfolding(crate::specs::Parts::placed))]
pub(crate) fn put_u64(out: &mut [u8], at: usize, value: u64)
    requires { at + 8 ≤ length out.old }
    ensures { out.new ≡ placed out.old (number at 8 value) }
{
    LittleEndian::write_u64(&mut out[at..], value);
}

#[tactic(auto, unfolding(crate::specs::Parts::placed))]
pub(crate) fn put_u128(out: &mut [u8], at: usize, value: u128)
    requires { at + 16 ≤ length out.old }
    ensures { out.new ≡ placed out.old (number at 16 value) }
{
    let mut bytes = [0; 16];
    LittleEndian::write_u64(&mut bytes, (value % (1 << 64)) as u64);
    LittleEndian::write_u64(&mut bytes[8..], (value >> 64) as u64);
    put_bytes(out, at, &bytes);
}

#[tactic(auto, unfolding(crate::specs::Parts::placed))]
pub(crate) fn put_u32s(out: &mut [u8], at: usize, values: &[u32])
    requires { at + 4 * length values.now ≤ length out.old }
    ensures { out.new ≡ placed out.old (numbers at 4 (length values.now) values.now) }
{
    LittleEndian::write_u32_into(values, &mut out[at..at + 4 * values.len()]);
}

#[tactic(auto, unfolding(crate::specs::Parts::placed))]
pub(crate) fn put_u16s(out: &mut [u8], at: usize, values: &[u16])
    requires { at + 2 * length values.now ≤ length out.old }
    ensures { out.new ≡ placed out.old (numbers at 2 (length values.now) values.now) }
{
    LittleEndian::write_u16_into(values, &mut out[at..at + 2 * values.len()]);
}

#[tactic(auto, unfolding(crate::specs::Parts::placed))]
pub(crate) fn put_bytes(out: &mut [u8], at: usize, bytes: &[u8])
    requires { at + length bytes.now ≤ length out.old }
    ensures { out.new ≡ placed out.old (text at (length bytes.now) bytes.now) }
{
    out[at..at + bytes.len()].copy_from_slice(bytes);
}

#[tactic(auto, unfolding(crate::specs::Parts::number_at))]
pub(crate) fn u8_at(bytes: &[u8], at: usize) -> u8
    requires { at < length bytes.now }
    ensures { result ≡ number_at at 1 bytes.now }
{
    bytes[at]
}

#[tactic(auto, unfolding(crate::specs::Parts::number_at))]
pub(crate) fn u16_at(bytes: &[u8], at: usize) -> u16
    requires { at + 2 ≤ length bytes.now }
    ensures { result ≡ number_at at 2 bytes.now }
{
    LittleEndian::read_u16(&bytes[at..])
}

#[tactic(auto, unfolding(crate::specs::Parts::number_at))]
pub(crate) fn u24_at(bytes: &[u8], at: usize) -> u32
    requires { at + 3 ≤ length bytes.now }
    ensures { result ≡ number_at at 3 bytes.now }
{
    LittleEndian::read_u24(&bytes[at..])
}

#[tactic(auto, unfolding(crate::specs::Parts::number_at))]
pub(crate) fn u32_at(bytes: &[u8], at: usize) -> u32
    requires { at + 4 ≤ length bytes.now }
    ensures { result ≡ number_at at 4 bytes.now }
{
    LittleEndian::read_u32(&bytes[at..])
}

#[tactic(auto, unfolding(crate::specs::Parts::number_at))]
pub(crate) fn u64_at(bytes: &[u8], at: usize) -> u64
    requires { at + 8 ≤ length bytes.now }
    ensures { result ≡ number_at at 8 bytes.now }
{
    LittleEndian::read_u64(&bytes[at..])
}

#[tactic(auto, unfolding(crate::specs::Parts::number_at))]
pub(crate) fn u128_at(bytes: &[u8], at: usize) -> u128
    requires { at + 16 ≤ length bytes.now }
    ensures { result ≡ number_at at 16 bytes.now }
{
    u64_at(bytes, at) as u128 + ((u64_at(bytes, at + 8) as u128) << 64)
}

/// States a law: each of the numbers fits two bytes, as its type says. The call does nothing.
pub(crate) fn each_u16_fits(values: &[u16])
    ensures { AllByRecursion (λ x. x < 2 ^ 16) values.now }
{}

/// Reads as many numbers of two bytes each as `values` has.
pub(crate) fn read_u16s(bytes: &[u8], at: usize, values: &mut [u16])
    requires { at + 2 * length values.old ≤ length bytes.now }
    ensures { values.new ≡ numbers_at at 2 (length values.old) bytes.now }
{
    LittleEndian::read_u16_into(&bytes[at..at + 2 * values.len()], values);
}

pub(crate) fn u32s_at<const N: usize>(bytes: &[u8], at: usize) -> [u32; N]
    requires { at + 4 * N ≤ length bytes.now }
    ensures { result ≡ numbers_at at 4 N bytes.now }
{
    let mut values = [0; N];
    LittleEndian::read_u32_into(&bytes[at..at + 4 * N], &mut values);
    values
}

#[tactic(auto, unfolding(crate::specs::Parts::text_at))]
pub(crate) fn bytes_at<const N: usize>(bytes: &[u8], at: usize) -> [u8; N]
    requires { at + N ≤ length bytes.now }
    ensures { result ≡ text_at at N bytes.now }
{
    let mut part = [0; N];
    part.copy_from_slice(&bytes[at..at + N]);
    part
}

/// Returns the `count` bits of a number from bit `low` on.
pub fn bits_of(number: u32, low: u32, count: u32) -> u32
    requires low { low < 32 }
    requires count { count < 32 }
    ensures { result ≡ bits low count number }
{
    (number >> low) % (1 << count)
}

/// Returns a number with the lowest `count` bits of a value from bit `low` on, and with zeros
/// elsewhere.
#[tactic(auto, using(crate::proofs::PartLaws::to_bits_value))]
pub fn to_bits(value: u32, low: u32, count: u32) -> u32
    requires low { low < 32 }
    requires count { count < 32 }
    requires inside { low + count ≤ 32 }
    ensures { result ≡ at_bits low count value }
{
    (value % (1 << count)) << low
}
