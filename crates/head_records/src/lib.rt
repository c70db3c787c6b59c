// The type and the size of a variant's record, by index in the header's arrays. For any bytes: one past the end counts as 0.
#![tactic(auto)]

ghost use Rattle.std.specs.Prelude.{◌≡◌, false, ◌≤◌, ◌<◌, drop, get_or};
ghost use Rattle.format.specs.Limits.{most_samples, most_variants, variants_to_a_block};
ghost use Rattle.format.specs.Variant.{block_of};
ghost use Rattle.format.specs.Layout.{unblocked};
ghost use Rattle.head_index.specs.NumbersAt.{number_at};
ghost use Rattle.head_index.specs.VariantsAt.{lengths_place, type_at, length_at};
ghost use Rattle.head_blocks.specs.Parts.{fixed};
ghost use Rattle.head_records.specs.Extent.{record_type, record_size};

use base_variants::{block_of, in_block};
use format::{Fields, FileVariant};
use head_blocks::{blocks_of, fixed_size, fixed_type, is_unblocked};
use head_columns::{count_in, type_place};
use head_numbers::number_of;
use head_types::{type_at, types_size};

// The byte at p.
pub fn byte_at(s: &[u8], p: usize) -> u8
    ensures { result ≡ get_or s.now p 0 }
{
    s.get(p).copied().unwrap_or(0)
}

// 01, What the software covers: "All numbers are little-endian." The number in the four bytes at a place.
fn four_at(file: &[u8], at: usize) -> u32
    requires { at ≤ 4294967296 }
    ensures { result ≡ number_at 4 (drop at file.now) }
{
    if at + 4 <= file.len() {
        return number_of::<4>(file, at);
    }
    u32::from(byte_at(file, at))
        + 256 * u32::from(byte_at(file, at + 1))
        + 65536 * u32::from(byte_at(file, at + 2))
        + 16777216 * u32::from(byte_at(file, at + 3))
}

// The number in the first `width` of them: one read for every width.
fn number_from(file: &[u8], at: usize, width: usize) -> usize
    requires { (1 ≤ width) × (width ≤ 4) × (at ≤ 4294967296) }
    ensures { result ≡ number_at width (drop at file.now) }
{
    let four = four_at(file, at) as usize;
    match width {
        1 => four % 256,
        2 => four % 65536,
        3 => four % 16777216,
        _ => four,
    }
}

// The type of a variant, as it is stored where there are blocks.
pub fn stored_type(file: &[u8], f: Fields, v: FileVariant) -> u8
    requires { (f.variants ≤ most_variants) × (v.0 < f.variants) × (unblocked f.mode ≡ false) }
    ensures { result ≡ type_at variants_to_a_block (fixed f) file.now v }
{
    let b = blocks_of(f);
    if type_place(b, v) < file.len() {
        type_at(file, b.at + block_of(v) * b.full, in_block(v), b.half)
    } else {
        0
    }
}

// Where the lengths of a variant's block start, where there are blocks.
pub fn lengths_place(f: Fields, v: FileVariant) -> usize
    requires { (f.variants ≤ most_variants) × (v.0 < f.variants) × (unblocked f.mode ≡ false) }
    ensures { (result ≡ lengths_place variants_to_a_block (fixed f) (block_of variants_to_a_block v)) × (result ≤ 100730892) }
{
    let b = blocks_of(f);
    let block = block_of(v);
    b.at + block * b.full + types_size(count_in(f.variants, block), b.half)
}

// The length of a variant's record, as it is stored where there are blocks.
fn length_of(file: &[u8], f: Fields, v: FileVariant) -> usize
    requires { (f.variants ≤ most_variants) × (v.0 < f.variants) × (unblocked f.mode ≡ false) }
    ensures { result ≡ length_at variants_to_a_block (fixed f) file.now v }
{
    let b = blocks_of(f);
    let place = lengths_place(f, v);
    let i = in_block(v);
    number_from(file, place + b.width * i.0, b.width)
}

// 01, The header: "Mode 0x02: ... Every record has type 0 and ceil(N/4) bytes." The type and the size of a variant's record in any mode.
pub fn type_of(file: &[u8], f: Fields, v: FileVariant) -> u8
    requires { (f.variants ≤ most_variants) × (v.0 < f.variants) }
    ensures { result ≡ record_type variants_to_a_block (fixed f) file.now v }
{
    if is_unblocked(f.mode) {
        fixed_type(f)
    } else {
        stored_type(file, f, v)
    }
}

pub fn size_of(file: &[u8], f: Fields, v: FileVariant) -> usize
    requires { (f.variants ≤ most_variants) × (v.0 < f.variants) × (f.samples ≤ most_samples) }
    ensures { result ≡ record_size variants_to_a_block (fixed f) file.now v }
{
    if is_unblocked(f.mode) {
        fixed_size(f)
    } else {
        length_of(file, f, v)
    }
}
