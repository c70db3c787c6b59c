// Packed values flipped in place by masks: categories of two bits, and bits.
#![tactic(auto)]

ghost use Rattle.std.specs.Prelude.{◌≡◌, ◌+◌, ◌/◌, ◌≤◌, ◌<◌, length};
ghost use Rattle.flip_bytes.specs.Changed.{values_exchanged, bits_complemented};
ghost use Rattle.flip_bytes.specs.Masks.{exchanged_by, value_mask, bit_mask};

// The high bits of a byte's first n values, n below 4.
fn mask_of_values(n: usize) -> u8
    requires { n < 4 }
    ensures { result ≡ value_mask n }
{
    match n {
        0 => 0,
        1 => 0x02,
        2 => 0x0a,
        _ => 0x2a,
    }
}

// 01, Categories: "0 homozygous reference, 1 heterozygous, 2 double alternate, 3 missing". 0 and 2 are exchanged in the values whose high bits the
// mask has: a high bit turns where the low bit is clear.
fn exchange_byte(b: u8, mask: u8) -> u8
    ensures { result ≡ exchanged_by mask b }
{
    b ^ (!(b << 1) & mask)
}

// The first n categories from byte `at` on, 0 and 2 exchanged, in place.
pub fn exchange_values(s: &mut [u8], at: usize, n: usize)
    requires { at + (n + 3) / 4 ≤ length s.old }
    ensures { s.new ≡ values_exchanged at n s.old }
{
    for i in 0..n / 4 {
        s[at + i] = exchange_byte(s[at + i], 0xaa);
    }
    if n % 4 != 0 {
        let last = at + n / 4;
        s[last] = exchange_byte(s[last], mask_of_values(n % 4));
    }
}

// A byte's first n bits, n below 8.
fn mask_of_bits(n: usize) -> u8
    requires { n < 8 }
    ensures { result ≡ bit_mask n }
{
    (1 << n) - 1
}

// The first n bits from byte `at` on, complemented, in place; the unused bits of the last byte stay (01, The header: "its unused bits are zero").
pub fn complement_bits(s: &mut [u8], at: usize, n: usize)
    requires { at + (n + 7) / 8 ≤ length s.old }
    ensures { s.new ≡ bits_complemented at n s.old }
{
    for i in 0..n / 8 {
        s[at + i] ^= 0xff;
    }
    if n % 8 != 0 {
        s[at + n / 8] ^= mask_of_bits(n % 8);
    }
}
