// The types and the lengths of a whole file in mode 0x10, block after block: rules 8 and 9 of the header check.
#![tactic(auto)]

ghost use Rattle.std.specs.Prelude.{◌≡◌, ◌*◌, ◌<◌, ◌≤◌};
ghost use Rattle.format.specs.Limits.{most_variants, variants_to_a_block};
ghost use Rattle.format.specs.Layout.{Fixed};
ghost use Rattle.format.specs.Header.{type_place};
ghost use Rattle.head_blocks.specs.Parts.{blocks_of, BlocksSmall, count_in, BlocksFit};
ghost use Rattle.head_columns.specs.Looks.{FirstBad, EndOfRecords};

use base_variants::{block_of, in_block, in_file};
use format::{FileVariant, VARIANTS_TO_A_BLOCK};
use head_blocks::Blocks;
use head_numbers::{number_at, sum_lengths};
use head_types::{bad_in_block, types_size};

// 01, The header: "blocks of 65,536 variants, the last may be shorter". How many variants a block of a file of m has.
pub fn count_in(m: usize, block: usize) -> usize
    requires { (block ≤ 256) × (block * variants_to_a_block < m) }
    ensures { (result ≡ count_in m block) × (1 ≤ result) × (result ≤ variants_to_a_block) }
{
    VARIANTS_TO_A_BLOCK.min(m - block * VARIANTS_TO_A_BLOCK)
}

// 01, Replies: the place of refusal 8, the "byte holding it".
pub fn type_place(b: Blocks, v: FileVariant) -> usize
    requires { BlocksSmall b × (v.0 < most_variants) }
    ensures { (f : Fixed) → b ≡ blocks_of f → result ≡ type_place variants_to_a_block f v }
{
    let at = b.at + block_of(v) * b.full;
    let i = in_block(v);
    if b.half { at + i.0 / 2 } else { at + i.0 }
}

// 01, Replies: 8, "type not allowed". The first variant of the file whose type is not allowed.
pub fn bad_type(file: &[u8], m: usize, b: Blocks) -> Option<FileVariant>
    requires { BlocksFit file.now m b }
    ensures { FirstBad file.now m b result }
{
    let blocks = m.div_ceil(VARIANTS_TO_A_BLOCK);
    for j in 0..blocks {
        if let Some(i) = bad_in_block(file, b.at + j * b.full, count_in(m, j), b.half) {
            return Some(in_file(j, i));
        }
    }
    None
}

// The block whose offset is wrong.
#[derive(Clone, Copy)]
pub struct WrongOffset(pub usize);

// 01: "each block offset is exactly where its first record starts". The first record of all starts at `first`.
pub fn records_end(file: &[u8], m: usize, b: Blocks, first: usize) -> Result<u64, WrongOffset>
    requires { BlocksFit file.now m b × (first ≤ 134217728) }
    ensures { EndOfRecords file.now m b first result }
{
    let blocks = m.div_ceil(VARIANTS_TO_A_BLOCK);
    let mut start = first as u64;
    for j in 0..blocks {
        if number_at(file, 12 + 8 * j, 8) != start {
            return Err(WrongOffset(j));
        }
        let n = count_in(m, j);
        let lengths = b.at + j * b.full + types_size(n, b.half);
        start += sum_lengths(file, lengths, n, b.width);
    }
    Ok(start)
}
