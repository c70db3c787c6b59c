// The fixed fields of a header, where the arrays of its blocks stand, and the checks of one block's arrays.
#![tactic(auto)]

ghost use Rattle.std.specs.Prelude.{◌≡◌, false, [], ◌+◌, ◌-◌, ◌*◌, ◌<◌, ◌≤◌, length, drop, eqb};
ghost use Rattle.format.specs.Base.{pick, Bytes, ok};
ghost use Rattle.format.specs.Packed.{one, four, eight, packed_size};
ghost use Rattle.format.specs.Limits.{most_samples, most_variants, variants_to_a_block};
ghost use Rattle.format.specs.Layout.{fields_of, unblocked, fixed_type, fixed_size, block_size, header_end, first_record};
ghost use Rattle.head_index.specs.NumbersAt.{unused_bits, fixed_at};
ghost use Rattle.head_index.specs.Rules.{need_unused};
ghost use Rattle.head_blocks.specs.Parts.{fixed, blocks_of, BlocksSmall, form_from, form_in, unused_out};

use format::{Fields, VARIANTS_TO_A_BLOCK};
use head_numbers::number_of;
use head_types::types_size;

// 01, The header: "Bytes 0 to 2: 0x6c 0x1b and the mode. Bytes 3 to 6: M. Bytes 7 to 10: N. Byte 11: the form."
pub fn fields_at(file: &[u8]) -> Fields
    requires { 12 ≤ length file.now }
    ensures { result ≡ fields_of (fixed_at file.now) }
{
    Fields {
        mode: file[2],
        variants: number_of::<4>(file, 3) as usize,
        samples: number_of::<4>(file, 7) as usize,
        form: file[11],
    }
}

// 01: "Mode 0x02: no offsets, types or lengths". No other spot of the code says which modes have no blocks.
pub fn is_unblocked(mode: u8) -> bool
    ensures { result ≡ unblocked mode }
{
    mode == 0x02
}

// 01: "Every record has type 0 and ceil(N/4) bytes." The type and the size that every record has where there are no blocks.
pub fn fixed_type(f: Fields) -> u8
    ensures { result ≡ fixed_type (fixed f) }
{
    0
}

pub fn fixed_size(f: Fields) -> usize
    requires { f.samples ≤ most_samples }
    ensures { (result ≡ fixed_size (fixed f)) × (result ≤ f.samples) }
{
    f.samples.div_ceil(4)
}

// 01: how the arrays of mode 0x10 are stored: those of the first block start at `at`, those of each next `full` bytes further; types of 4 bits if `half`,
// else of 8; lengths of `width` bytes; a flag bit per variant if `stored`.
#[derive(Clone, Copy)]
pub struct Blocks {
    pub at: usize,
    pub full: usize,
    pub half: bool,
    pub width: usize,
    pub stored: bool,
}

// How many bytes the flag bits of n variants take.
pub fn flags_size(n: usize, stored: bool) -> usize
    requires { n ≤ most_variants }
    ensures { (result ≡ packed_size one (pick stored n 0)) × (result ≤ n) }
{
    if stored { n.div_ceil(8) } else { 0 }
}

// 01: "for each block its packed types (low nibble first), its lengths, and, where bits 6 and 7 are 3, its flag bits"
pub fn block_size(n: usize, half: bool, width: usize, stored: bool) -> usize
    requires { (n ≤ variants_to_a_block) × (width ≤ 4) }
    ensures { (result ≡ block_size (form_from half width stored) n) × (result ≤ 6 * n) }
{
    types_size(n, half) + (width * n + flags_size(n, stored))
}

// 01: "Form, bits 0 to 3. Mode 0x10: 0 to 3 mean 4-bit record types and lengths of 1, 2, 3, 4 bytes; 4 to 7 mean 8-bit types and the same lengths."
// "Bits 6 and 7: any; 3 means a flag bit per variant is stored." "First an 8-byte file offset per block."
pub fn blocks_of(f: Fields) -> Blocks
    requires { (f.variants ≤ most_variants) × (unblocked f.mode ≡ false) }
    ensures { (result ≡ blocks_of (fixed f)) × BlocksSmall result }
{
    let half = f.form % 16 < 4;
    let width = usize::from(f.form % 4) + 1;
    let stored = f.form / 64 == 3;
    Blocks {
        at: 12 + 8 * f.variants.div_ceil(VARIANTS_TO_A_BLOCK),
        full: block_size(VARIANTS_TO_A_BLOCK, half, width, stored),
        half,
        width,
        stored,
    }
}

// Where the header ends: every block but the last is full.
pub fn header_end(f: Fields) -> usize
    requires { f.variants ≤ most_variants }
    ensures { (result ≡ header_end variants_to_a_block (fixed f)) × (result ≤ 134217728) }
{
    let m = f.variants;
    if is_unblocked(f.mode) {
        return 12 + flags_size(m, f.form / 64 == 3);
    }
    let b = blocks_of(f);
    b.at + (m / VARIANTS_TO_A_BLOCK * b.full
        + block_size(m % VARIANTS_TO_A_BLOCK, b.half, b.width, b.stored))
}

// 01: "Records stand one after another from the header's end to the file's end". Where the first of them starts.
pub fn first_record(f: Fields) -> usize
    requires { f.variants ≤ most_variants }
    ensures { (result ≡ first_record variants_to_a_block (fixed f)) × (result ≤ 134217728) }
{
    header_end(f)
}

// 01: "Each packed array ends at a byte boundary, and its unused bits are zero." Of n types at a place.
fn types_clear(file: &[u8], place: usize, n: usize, half: bool) -> bool
    requires { Bytes file.now × (place + packed_size (pick half four eight) n ≤ length file.now) }
    ensures { result ≡ eqb (unused_bits (pick half four eight) n (drop place file.now)) 0 }
{
    !half || n % 2 == 0 || file[place + n / 2] / 16 == 0
}

// Of the flag bits of n variants.
pub fn flags_clear(file: &[u8], place: usize, n: usize, stored: bool) -> bool
    requires { Bytes file.now × (place + packed_size one (pick stored n 0) ≤ length file.now) }
    ensures { result ≡ eqb (unused_bits one (pick stored n 0) (drop place file.now)) 0 }
{
    !stored || n % 8 == 0 || file[place + n / 8] >> (n % 8) == 0
}

// Of the arrays of a block of n variants, which start at a place.
pub fn unused_in(file: &[u8], place: usize, n: usize, b: Blocks) -> Option<usize>
    requires { (1 ≤ n) × (n ≤ variants_to_a_block) × (b.width ≤ 4) × (place + block_size (form_in b) n ≤ length file.now) }
    ensures { unused_out result ≡ need_unused (form_in b) place n file.now (ok tt []) }
{
    let size = types_size(n, b.half);
    if !types_clear(file, place, n, b.half) {
        return Some(place + size - 1);
    }
    if !flags_clear(file, place + (size + b.width * n), n, b.stored) {
        return Some(place + block_size(n, b.half, b.width, b.stored) - 1);
    }
    None
}
