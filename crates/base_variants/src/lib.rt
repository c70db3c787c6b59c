// From a variant's number in the file to its number in its block, and back.
#![tactic(auto)]

ghost use Rattle.std.specs.Prelude.{◌≡◌, ◌≤◌, ◌<◌};
ghost use Rattle.format.specs.Limits.{variants_to_a_block};
ghost use Rattle.format.specs.Variant.{block_of, in_block, in_file};

use format::{BlockVariant, FileVariant, VARIANTS_TO_A_BLOCK};

// The block that holds a variant of the file.
pub fn block_of(v: FileVariant) -> usize
    ensures { result ≡ block_of variants_to_a_block v }
{
    v.0 / VARIANTS_TO_A_BLOCK
}

// Its number in that block.
pub fn in_block(v: FileVariant) -> BlockVariant
    ensures { result ≡ in_block variants_to_a_block v }
{
    BlockVariant(v.0 % VARIANTS_TO_A_BLOCK)
}

// The number in the file of a variant of a block; a file has at most 256 blocks.
pub fn in_file(block: usize, i: BlockVariant) -> FileVariant
    requires { (block ≤ 256) × (i.0 < variants_to_a_block) }
    ensures { result ≡ in_file variants_to_a_block block i }
{
    FileVariant(block * VARIANTS_TO_A_BLOCK + i.0)
}
