// Where the record of a variant stands in a file that the header check accepts, and which variant it leans on.
// `f` holds the fields that the check gave. All is looked up in the index; `held`, the data, is what the places are in: a file in one piece is both.
#![tactic(auto)]

ghost use Rattle.std.specs.Prelude.{◌≡◌, false};
ghost use Rattle.format.specs.Layout.{unblocked};
ghost use Rattle.head_places.specs.Located.{HasVariant, HasLeaner, Starts, Located, Anchored};

use base_variants::{block_of, in_block, in_file};
use format::{Fields, FileVariant};
use head_blocks::{blocks_of, first_record, fixed_size, is_unblocked};
use head_numbers::{number_at, sum_lengths};
use head_records::{lengths_place, size_of, type_of};
use head_types::nearest_before;

// A record's bytes are those from `start` to `end`.
#[derive(Clone, Copy)]
pub struct Place {
    pub start: usize,
    pub end: usize,
    pub record_type: u8,
}

// Where a record starts if there are blocks: at its block's offset, past the records of the block's variants before this one.
fn start_in_block(index: &[u8], held: &[u8], f: Fields, v: FileVariant) -> usize
    requires { HasVariant index.now held.now f v × (unblocked f.mode ≡ false) }
    ensures { Starts index.now held.now f v result }
{
    let b = blocks_of(f);
    let block = block_of(v);
    let i = in_block(v);
    let lengths = lengths_place(f, v);
    let start = number_at(index, 12 + 8 * block, 8) + sum_lengths(index, lengths, i.0, b.width);
    start as usize
}

// 01, The header: "Records stand one after another from the header's end to the file's end, and each block offset is exactly where its first record starts."
fn start_of(index: &[u8], held: &[u8], f: Fields, v: FileVariant) -> usize
    requires { HasVariant index.now held.now f v }
    ensures { Starts index.now held.now f v result }
{
    if is_unblocked(f.mode) {
        first_record(f) + v.0 * fixed_size(f)
    } else {
        start_in_block(index, held, f, v)
    }
}

pub fn place_of(index: &[u8], held: &[u8], f: Fields, v: FileVariant) -> Place
    requires { HasVariant index.now held.now f v }
    ensures { Located index.now held.now f v result }
{
    let start = start_of(index, held, f, v);
    Place {
        start,
        end: start + size_of(index, f, v),
        record_type: type_of(index, f, v),
    }
}

// 01, Categories and kinds: "the anchor, which is the nearest earlier variant in the same block whose kind is neither 2 nor 3"
pub fn anchor_of(index: &[u8], held: &[u8], f: Fields, v: FileVariant) -> FileVariant
    requires { HasLeaner index.now held.now f v }
    ensures { Anchored index.now held.now f v result }
{
    let b = blocks_of(f);
    let block = block_of(v);
    in_file(
        block,
        nearest_before(index, b.at + block * b.full, in_block(v), b.half),
    )
}
