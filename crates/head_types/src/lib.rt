// The types of a block by index: one of them, the first that is not allowed, and the nearest that does not lean.
#![tactic(auto)]

ghost use Rattle.std.specs.Prelude.{◌≡◌, true, suc, ◌+◌, ◌/◌, ◌<◌, ◌≤◌, length, drop};
ghost use Rattle.format.specs.Base.{pick};
ghost use Rattle.format.specs.Packed.{four, eight, more, packed_size};
ghost use Rattle.format.specs.Limits.{variants_to_a_block};
ghost use Rattle.format.specs.Body.{kind_of, type_leans, type_phased};
ghost use Rattle.format.specs.Variant.{block_variant, nearest};
ghost use Rattle.format.specs.Layout.{bits_allowed, type_allowed};
ghost use Rattle.head_index.specs.NumbersAt.{digit_at, digits_at};
ghost use Rattle.head_index.specs.Rules.{bad_in_block};
ghost use Rattle.head_types.specs.Fine.{Fine, FineByte, FineBytes};

use base_rows::larger;
use format::BlockVariant;

// 01, The header: "packed types (low nibble first)". The type of variant i of a block whose types start at `at`; `half`: types of 4 bits, else of 8.
pub fn type_at(file: &[u8], at: usize, i: BlockVariant, half: bool) -> u8
    requires { at + i.0 / suc (more (pick half four eight)) < length file.now }
    ensures { result ≡ digit_at (pick half four eight) (drop at file.now) i.0 }
{
    let n = i.0;
    if !half {
        return file[at + n];
    }
    let byte = file[at + n / 2];
    if n % 2 == 0 { byte % 16 } else { byte / 16 }
}

// 01: "A type's low three bits are its kind."
pub fn kind_of(record_type: u8) -> u8
    ensures { result ≡ kind_of record_type }
{
    record_type % 8
}

// 01, Categories and kinds: kinds 2 and 3 lean on an anchor.
pub fn type_leans(record_type: u8) -> bool
    ensures { result ≡ type_leans record_type }
{
    matches!(kind_of(record_type), 2 | 3)
}

// 02, Ask 1: "record type bit 4" says that a phase track follows the main track.
pub fn type_phased(record_type: u8) -> bool
    ensures { result ≡ type_phased record_type }
{
    record_type / 16 % 2 == 1
}

// 01: "all its other bits are 0". 02, Ask 1: "bit 4 leaves 8"; so the other bits are 3, 5, 6 and 7.
fn bits_allowed(record_type: u8) -> bool
    ensures { result ≡ bits_allowed record_type }
{
    record_type % 16 < 8 && record_type < 32
}

// 01: "A type is allowed if its kind is not 5, all its other bits are 0, and its kind is not 2 or 3 at the first variant of a block."
pub fn type_allowed(i: BlockVariant, record_type: u8) -> bool
    ensures { result ≡ type_allowed i record_type }
{
    bits_allowed(record_type) && kind_of(record_type) != 5 && !(i.0 == 0 && type_leans(record_type))
}

// The first of n types of a block that is not allowed, looked for one by one.
fn scan(file: &[u8], at: usize, n: usize, half: bool) -> Option<BlockVariant>
    requires { at + packed_size (pick half four eight) n ≤ length file.now }
    ensures { result ≡ bad_in_block (block_variant 0) (digits_at (pick half four eight) (drop at file.now) 0 n) }
{
    for i in 0..n {
        let v = BlockVariant(i);
        if !type_allowed(v, type_at(file, at, v, half)) {
            return Some(v);
        }
    }
    None
}

// 1 for a type that is allowed nowhere, else 0: for kinds 2 and 3 at a block's first variant see `bad_in_block`.
fn amiss(record_type: u8) -> u8
    ensures { result ≡ 0 → Fine record_type }
{
    if bits_allowed(record_type) && kind_of(record_type) != 5 {
        0
    } else {
        1
    }
}

// The same of the types in one byte.
fn amiss_in(byte: u8, half: bool) -> u8
    ensures { result ≡ 0 → FineByte (pick half four eight) byte }
{
    if half {
        larger(amiss(byte % 16), amiss(byte / 16))
    } else {
        amiss(byte)
    }
}

// Whether no byte of an array of types has one that is allowed nowhere: one flat loop with no exit, as accepted files are the common case.
fn none_amiss(file: &[u8], at: usize, size: usize, half: bool) -> bool
    requires { at + size ≤ length file.now }
    ensures { result ≡ true → FineBytes file.now at size (pick half four eight) }
{
    let mut worst: u8 = 0;
    for k in 0..size {
        worst = larger(worst, amiss_in(file[at + k], half));
    }
    worst == 0
}

// How many bytes the types of n variants take.
pub fn types_size(n: usize, half: bool) -> usize
    requires { n ≤ variants_to_a_block }
    ensures { result ≡ packed_size (pick half four eight) n }
{
    if half { n.div_ceil(2) } else { n }
}

// 01, Replies: 8, "type not allowed". The first of a block's types that is not allowed.
pub fn bad_in_block(file: &[u8], at: usize, n: usize, half: bool) -> Option<BlockVariant>
    requires { (1 ≤ n) × (n ≤ variants_to_a_block) × (at + packed_size (pick half four eight) n ≤ length file.now) }
    ensures { result ≡ bad_in_block (block_variant 0) (digits_at (pick half four eight) (drop at file.now) 0 n) }
{
    if type_leans(type_at(file, at, BlockVariant(0), half)) {
        return Some(BlockVariant(0));
    }
    if none_amiss(file, at, types_size(n, half), half) {
        return None;
    }
    scan(file, at, n, half)
}

// 01: "the nearest earlier variant in the same block whose kind is neither 2 nor 3", among the first i of the block; the first if all of them lean.
pub fn nearest_before(file: &[u8], at: usize, i: BlockVariant, half: bool) -> BlockVariant
    requires { at + packed_size (pick half four eight) i.0 ≤ length file.now }
    ensures { result ≡ nearest (digits_at (pick half four eight) (drop at file.now) 0 i.0) i }
{
    for k in (0..i.0).rev() {
        let v = BlockVariant(k);
        if !type_leans(type_at(file, at, v, half)) {
            return v;
        }
    }
    BlockVariant(0)
}
