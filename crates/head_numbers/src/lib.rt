// Numbers of a header by index, and sums of lengths, each read from the file's bytes as the format's definitions say.
#![tactic(auto)]

ghost use Rattle.std.specs.Prelude.{◌≡◌, ◌+◌, ◌*◌, ◌^◌, ◌<◌, ◌≤◌, length, drop};
ghost use Rattle.format.specs.Limits.{variants_to_a_block};
ghost use Rattle.format.specs.Layout.{sum};
ghost use Rattle.head_index.specs.NumbersAt.{number_at, numbers_at};

// 01, What the software covers: "All numbers are little-endian." The number of so many bytes at a place.
pub fn number_at(file: &[u8], at: usize, width: usize) -> u64
    requires { (width ≤ 8) × (at + width ≤ length file.now) }
    ensures { (result ≡ number_at width (drop at file.now)) × (result < 256 ^ width) }
{
    let mut number: u64 = 0;
    for i in 0..width {
        number += u64::from(file[at + i]) << (8 * i);
    }
    number
}

// The same where the width is known as the program is built: W bytes, which are then read at once.
// From the lowest byte on, since the compiler makes the faster sum of three bytes each of that.
pub fn number_of<const W: usize>(file: &[u8], at: usize) -> u32
    requires { (W ≤ 4) × (at + W ≤ length file.now) }
    ensures { (result ≡ number_at W (drop at file.now)) × (result < 256 ^ W) }
{
    let mut number: u32 = 0;
    for i in 0..W {
        number += u32::from(file[at + i]) << (8 * i);
    }
    number
}

// The sum of a block's lengths of W bytes each: one flat loop for each width, as they are the longest arrays of a header.
fn sum_of<const W: usize>(file: &[u8], at: usize, n: usize) -> u64
    requires { (W ≤ 4) × (n ≤ variants_to_a_block) × (at + W * n ≤ length file.now) }
    ensures { (result ≡ sum (numbers_at W n (drop at file.now))) × (result ≤ 4294967295 * n) }
{
    let mut total: u64 = 0;
    for i in 0..n {
        total += u64::from(number_of::<W>(file, at + W * i));
    }
    total
}

// The same of one or two bytes each, in 32 bits: twice as many numbers fit a vector register, and the loop is twice as fast.
fn short_sum_of<const W: usize>(file: &[u8], at: usize, n: usize) -> u32
    requires { (W ≤ 2) × (n ≤ variants_to_a_block) × (at + W * n ≤ length file.now) }
    ensures { (result ≡ sum (numbers_at W n (drop at file.now))) × (result ≤ 4294967295 * n) }
{
    let mut total: u32 = 0;
    for i in 0..n {
        total += number_of::<W>(file, at + W * i);
    }
    total
}

// The sum of n lengths of so many bytes each.
pub fn sum_lengths(file: &[u8], at: usize, n: usize, width: usize) -> u64
    requires { (1 ≤ width) × (width ≤ 4) × (n ≤ variants_to_a_block) × (at + width * n ≤ length file.now) }
    ensures { (result ≡ sum (numbers_at width n (drop at file.now))) × (result ≤ 4294967295 * n) }
{
    match width {
        1 => u64::from(short_sum_of::<1>(file, at, n)),
        2 => u64::from(short_sum_of::<2>(file, at, n)),
        3 => sum_of::<3>(file, at, n),
        _ => sum_of::<4>(file, at, n),
    }
}
