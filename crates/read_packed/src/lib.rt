// Packed arrays, checked and unpacked. Every slice `s` is the file cut where
// the record ends, so that its length is the record's end.
#![tactic(auto)]

ghost use Rattle.std.specs.Prelude.{◌≡◌, suc, ◌+◌, ◌-◌, ◌*◌, ◌/◌, ◌%◌, ◌≤◌, ◌<◌, ◌++◌, map, length, take, drop};
ghost use Rattle.format.specs.Limits.{most_samples};
ghost use Rattle.format.specs.Packed.{one, two, more, packed_size};
ghost use Rattle.head_index.specs.NumbersAt.{digits_at};
ghost use Rattle.read_packed.specs.Arrays.{bits_of, most_numbers, number_in, unused, store, Spread, put};
ghost use Rattle.read_packed.specs.Unpacked.{array_at, unpack_left, unpacked_two, unpacked_one, of_pair};

use base_cursor::Cursor;
use format::{Refusal, refusal_at};

// How many bits a number of an array has.
#[derive(Clone, Copy)]
pub enum Width {
    One,
    Two,
}

// How many bytes hold n numbers.
pub fn packed_size(width: Width, n: usize) -> usize
    requires { n ≤ most_numbers }
    ensures { result ≡ packed_size (bits_of width) n }
{
    match width {
        Width::One => n.div_ceil(8),
        Width::Two => n.div_ceil(4),
    }
}

// Number k of the two-bit array that starts at `at`.
pub fn two_bits(s: &[u8], at: usize, k: usize) -> u8
    requires { at + k / 4 < length s.now }
    ensures { result ≡ number_in two s.now at k }
{
    let b = s[at + k / 4];
    (b >> (2 * (k % 4))) & 3
}

// Number k of the one-bit array that starts at `at`.
pub fn one_bit(s: &[u8], at: usize, k: usize) -> u8
    requires { at + k / 8 < length s.now }
    ensures { result ≡ number_in one s.now at k }
{
    let b = s[at + k / 8];
    (b >> (k % 8)) & 1
}

// Number k of an array.
fn number_in(s: &[u8], at: usize, k: usize, width: Width) -> u8
    requires { at + k / suc (more (bits_of width)) < length s.now }
    ensures { result ≡ number_in (bits_of width) s.now at k }
{
    match width {
        Width::One => one_bit(s, at, k),
        Width::Two => two_bits(s, at, k),
    }
}

// What is left of the last byte of n numbers.
pub fn unused_bits(s: &[u8], at: usize, n: usize, width: Width) -> u8
    requires { (at + packed_size (bits_of width) n ≤ length s.now) × (n ≤ most_numbers) }
    ensures { result ≡ unused (bits_of width) s.now at n }
{
    match width {
        Width::One => {
            if n % 8 == 0 {
                0
            } else {
                s[at + n / 8] >> (n % 8)
            }
        }
        Width::Two => {
            if n % 4 == 0 {
                0
            } else {
                s[at + n / 4] >> (2 * (n % 4))
            }
        }
    }
}

// 01, Replies: "first that the part fits (12), then its rule": 18, "unused record bits set", at "that byte".
pub fn check_array(s: &[u8], c: Cursor, n: usize, width: Width) -> Result<Cursor, Refusal>
    requires { (c.at ≤ length s.now) × (n ≤ most_numbers) }
    ensures { result ≡ array_at (bits_of width) n s.now c.at }
{
    let at = c.at;
    let size = packed_size(width, n);
    if size > s.len() - at {
        return Err(refusal_at(12, s.len()));
    }
    if unused_bits(s, at, n, width) != 0 {
        return Err(refusal_at(18, at + size - 1));
    }
    Ok(c.past(size))
}

// The four two-bit numbers of a byte, one to each byte of a wider number.
fn spread_quad(b: u8) -> u32
    ensures { Spread result (b % 4) (b / 4 % 4) (b / 16 % 4) (b / 64) }
{
    let x = u32::from(b);
    x % 4 + 256 * (x / 4 % 4) + 65536 * (x / 16 % 4) + 16777216 * (x / 64)
}

// The four low bits of a byte, likewise.
fn spread_bits(b: u8) -> u32
    ensures { Spread result (b % 2) (b / 2 % 2) (b / 4 % 2) (b / 8 % 2) }
{
    let x = u32::from(b);
    x % 2 + 256 * (x / 2 % 2) + 65536 * (x / 4 % 2) + 16777216 * (x / 8 % 2)
}

// Its four bytes one after another: the compiler stores them at once, and several such in one step of the loops below. Written as
// a copy of `to_le_bytes`, two bits were unpacked at a fifth of the speed.
fn put_four(row: &mut [u8], at: usize, x: u32)
    requires { at + 4 ≤ length row.old }
    ensures { row.new ≡ put row.old at x }
{
    row[at] = (x % 256) as u8;
    row[at + 1] = (x / 256 % 256) as u8;
    row[at + 2] = (x / 65536 % 256) as u8;
    row[at + 3] = (x / 16777216) as u8;
}

// The two-bit numbers of the first `full` bytes, a byte at a time.
fn store_quads(s: &[u8], at: usize, full: usize, row: &mut [u8])
    requires { (at + full ≤ length s.now) × (4 * full ≤ length row.old) }
    ensures { row.new ≡ store (number_in two s.now at) (4 * full) 0 row.old }
{
    for i in 0..full {
        put_four(row, 4 * i, spread_quad(s[at + i]));
    }
}

// Eight bits at a time.
fn store_octets(s: &[u8], at: usize, full: usize, row: &mut [u8])
    requires { (at + full ≤ length s.now) × (8 * full ≤ length row.old) }
    ensures { row.new ≡ store (number_in one s.now at) (8 * full) 0 row.old }
{
    for i in 0..full {
        let b = s[at + i];
        put_four(row, 8 * i, spread_bits(b));
        put_four(row, 8 * i + 4, spread_bits(b / 16));
    }
}

// The numbers of the last byte, which may be fewer.
fn store_rest(s: &[u8], at: usize, from: usize, n: usize, width: Width, row: &mut [u8])
    requires from_le_n { (from ≤ n) × (n ≤ length row.old) }
    requires n_in_bounds { at + packed_size (bits_of width) n ≤ length s.now }
    ensures { row.new ≡ store (number_in (bits_of width) s.now at) (n - from) from row.old }
{
    for k in from..n {
        row[k] = number_in(s, at, k, width);
    }
}

// n numbers into a row, as they are.
fn store_numbers(s: &[u8], at: usize, n: usize, width: Width, row: &mut [u8])
    requires { (n ≤ length row.old) × (at + packed_size (bits_of width) n ≤ length s.now) }
    ensures { row.new ≡ digits_at (bits_of width) (drop at s.now) 0 n ++ drop n row.old }
{
    match width {
        Width::One => {
            store_octets(s, at, n / 8, row);
            store_rest(s, at, 8 * (n / 8), n, Width::One, row);
        }
        Width::Two => {
            store_quads(s, at, n / 4, row);
            store_rest(s, at, 4 * (n / 4), n, Width::Two, row);
        }
    }
}

// 01, Categories: "Packed: two bits per sample, lowest sample in the lowest bits." The array's categories into the row's first n bytes.
pub fn unpack_categories(s: &[u8], c: Cursor, n: usize, row: &mut [u8]) -> Result<Cursor, Refusal>
    requires { (c.at ≤ length s.now) × (n ≤ most_samples) × (n ≤ length row.old) }
    ensures { unpack_left result row.new ≡ unpacked_two n s.now c.at row.old }
{
    let end = check_array(s, c, n, Width::Two)?;
    store_numbers(s, c.at, n, Width::Two, row);
    Ok(end)
}

// The category of a pair that a bit stands for.
pub fn of_pair(bit: u8, lower: u8, higher: u8) -> u8
    ensures { result ≡ of_pair lower higher bit }
{
    if bit == 0 { lower } else { higher }
}

// Bits, one to a byte, made the categories that they stand for.
fn choose(row: &mut [u8], n: usize, lower: u8, higher: u8)
    requires { n ≤ length row.old }
    ensures { row.new ≡ map (of_pair lower higher) (take n row.old) ++ drop n row.old }
{
    for i in 0..n {
        row[i] = of_pair(row[i], lower, higher);
    }
}

// 01, Categories and kinds: "a bit per sample (set: the higher category of the pair)".
pub fn unpack_pair(
    s: &[u8],
    c: Cursor,
    n: usize,
    lower: u8,
    higher: u8,
    row: &mut [u8],
) -> Result<Cursor, Refusal>
    requires { (c.at ≤ length s.now) × (n ≤ most_samples) × (n ≤ length row.old) }
    ensures { unpack_left result row.new ≡ unpacked_one lower higher n s.now c.at row.old }
{
    let end = check_array(s, c, n, Width::One)?;
    store_numbers(s, c.at, n, Width::One, row);
    choose(row, n, lower, higher);
    Ok(end)
}
