// Rows, a byte for each sample: filled, cleared, copied, exchanged; and the larger of two bytes, for flat loops that look for a largest.
#![tactic(auto)]

ghost use Rattle.std.specs.Prelude.{◌≡◌, ◌≤◌, true, ◌++◌, length, take, drop, replicate};
ghost use Rattle.std.specs.Int.Bits.{bit_xor};
ghost use Rattle.format.specs.Category.{exchange, exchange_all};

// The first n samples in one category.
pub fn fill(row: &mut [u8], n: usize, category: u8)
    requires { n ≤ length row.old }
    ensures { row.new ≡ replicate n category ++ drop n row.old }
{
    row[..n].fill(category);
}

// 01, Replies: "its first N bytes are zero and the rest unchanged".
pub fn clear(row: &mut [u8], n: usize)
    requires { n ≤ length row.old }
    ensures { row.new ≡ replicate n 0 ++ drop n row.old }
{
    fill(row, n, 0);
}

// The first n bytes of one row into another.
pub fn copy(from: &[u8], n: usize, to: &mut [u8])
    requires { (n ≤ length from.now) × (n ≤ length to.old) }
    ensures { to.new ≡ take n from.now ++ drop n to.old }
{
    // not by `copy_from_slice`, which needs a function of the C library
    for i in 0..n {
        to[i] = from[i];
    }
}

// The bit that 0 and 2 differ in, for either of them, and none for another category.
fn turned_bit(category: u8) -> u8
    ensures { bit_xor category result ≡ exchange category }
{
    if category == 0 || category == 2 { 2 } else { 0 }
}

// A category with 0 and 2 exchanged: by a bit, of which the compiler makes a flat loop over a row; of the category itself by two tests it makes branches.
fn exchanged(category: u8) -> u8
    ensures { result ≡ exchange category }
{
    category ^ turned_bit(category)
}

// 01, Categories and kinds: "0 and 2 exchanged for all samples".
pub fn exchange_row(row: &mut [u8], n: usize)
    requires { n ≤ length row.old }
    ensures { row.new ≡ exchange_all true (take n row.old) ++ drop n row.old }
{
    for category in &mut row[..n] {
        *category = exchanged(*category);
    }
}

// The larger of two bytes.
pub fn larger(a: u8, b: u8) -> u8
    ensures { (a ≤ result) × (b ≤ result) }
{
    if a < b { b } else { a }
}
