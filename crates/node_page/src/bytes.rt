// Numbers and zeros in a page.
ghost use Rattle.std.specs.Prelude.{◌≡◌, ◌⊎◌, ◌↔◌, ◌+◌, ◌-◌, ◌<◌, ◌≤◌, ℕ, length, slice_index, IsTrue};
ghost use Rattle.node_page.specs.Bytes.{number_at, are_zero};

use byteorder::{BigEndian, ByteOrder};

/// Writes 0 into each byte: a page of zeros is an empty leaf.
pub fn clear(page: &mut [u8])
    ensures { (k : ℕ) → slice_index page.new k ≡ 0 }
{
    for byte in page.iter_mut() {
        *byte = 0;
    }
}

// Bytes that are tested at a time. They are few enough for LLVM to make no loop of them.
const TESTED_AT_ONCE: usize = 128;

// Whether each byte of a part of the page is 0.
#[inline(always)]
fn is_part_zero(page: &[u8], from: usize, to: usize) -> bool
    requires ordered { from ≤ to }
    requires within { to ≤ length page.now }
    ensures { result ≡ are_zero from (to - from) page.now }
{
    let mut any = 0u8;
    for byte in &page[from..to] {
        any |= *byte;
    }
    any == 0
}

// Whether each byte from `from` up to `to` is 0.
pub fn are_zero(page: &[u8], from: usize, to: usize) -> bool
    requires ordered { from ≤ to }
    requires within { to ≤ length page.now }
    ensures { result ≡ are_zero from (to - from) page.now }
{
    if to - from < TESTED_AT_ONCE {
        return is_part_zero(page, from, to);
    }
    let last = to - TESTED_AT_ONCE;
    let mut at = from;
    while at < last {
        if !is_part_zero(page, at, at + TESTED_AT_ONCE) {
            return false;
        }
        at += TESTED_AT_ONCE;
    }
    // The last part may share bytes with the one before it.
    is_part_zero(page, last, to)
}

// The number in two bytes.
pub fn get_u16(page: &[u8], at: usize) -> u16
    requires { at + 2 ≤ length page.now }
    ensures { result ≡ number_at at 2 page.now }
{
    BigEndian::read_u16(&page[at..at + 2])
}

// The number in four bytes.
pub fn get_u32(page: &[u8], at: usize) -> u32
    requires { at + 4 ≤ length page.now }
    ensures { result ≡ number_at at 4 page.now }
{
    BigEndian::read_u32(&page[at..at + 4])
}

// The number in eight bytes.
pub fn get_u64(page: &[u8], at: usize) -> u64
    requires { at + 8 ≤ length page.now }
    ensures { result ≡ number_at at 8 page.now }
{
    BigEndian::read_u64(&page[at..at + 8])
}

// Writes a byte.
pub fn put_u8(page: &mut [u8], at: usize, n: u8)
    requires { at < length page.old }
    ensures number { slice_index page.new at ≡ n }
    ensures others { (k : ℕ) → (k < at) ⊎ (at < k) → slice_index page.new k ≡ slice_index page.old k }
{
    page[at] = n;
}

// Writes a number of two bytes.
pub fn put_u16(page: &mut [u8], at: usize, n: u16)
    requires { at + 2 ≤ length page.old }
    ensures number { number_at at 2 page.new ≡ n }
    ensures others { (k : ℕ) → (k < at) ⊎ (at + 2 ≤ k) → slice_index page.new k ≡ slice_index page.old k }
{
    BigEndian::write_u16(&mut page[at..at + 2], n);
}

// Writes a number of four bytes.
pub fn put_u32(page: &mut [u8], at: usize, n: u32)
    requires { at + 4 ≤ length page.old }
    ensures number { number_at at 4 page.new ≡ n }
    ensures others { (k : ℕ) → (k < at) ⊎ (at + 4 ≤ k) → slice_index page.new k ≡ slice_index page.old k }
{
    BigEndian::write_u32(&mut page[at..at + 4], n);
}

// Writes a number of eight bytes.
pub fn put_u64(page: &mut [u8], at: usize, n: u64)
    requires { at + 8 ≤ length page.old }
    ensures number { number_at at 8 page.new ≡ n }
    ensures others { (k : ℕ) → (k < at) ⊎ (at + 8 ≤ k) → slice_index page.new k ≡ slice_index page.old k }
{
    BigEndian::write_u64(&mut page[at..at + 8], n);
}
