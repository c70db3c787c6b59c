// A difference list measured and written: its count, the parts that are written entry by entry, and its values.
#![tactic(auto)]

ghost use Rattle.std.specs.Prelude.{◌≡◌, ◌+◌, ◌*◌, ◌≤◌, ◌<◌, length};
ghost use Rattle.format.specs.Limits.{most_samples};
ghost use Rattle.format.specs.Difflist.{number_width, list_bytes};
ghost use Rattle.write_bytes.specs.Written.{Wrote};
ghost use Rattle.write_bytes.specs.InTurn.{PackingFits, PackedOn};
ghost use Rattle.write_parts.specs.Rows.{listed_entries, RowsFit};
ghost use Rattle.write_parts.specs.Parts.{entry_bytes, GroupFits};
ghost use Rattle.write_parts.specs.declared.Part.TheVariants.{Steps};
ghost use Rattle.write_list.specs.Values.{values_bytes, sample_values};
ghost use Rattle.write_list.specs.Sizes.{Counts, Measured, SizeOf};

use base_list::{groups, number_width};
use write_bytes::{Packing, end_packed, put_packed, put_varint, varint_size};
use write_parts::{Base, Group, Part, Sample, advance, put_part, sample_at};

// How many entries there are so far, and how many bytes their steps have.
#[derive(Clone, Copy)]
pub struct Counted {
    pub group: Group,
    pub count: usize,
    pub steps: usize,
}

// A list's count and its size in bytes.
#[derive(Clone, Copy)]
pub struct ListSize {
    pub count: usize,
    pub bytes: usize,
}

// A sample's value, if the list has it.
fn write_value(s: Sample, packing: Packing, output: &mut [u8]) -> Packing
    requires value_bound { (s.value < 4) × PackingFits 4 packing.scale packing.byte }
    requires value_in_bounds { packing.at + length (sample_values s.base s.value) ≤ length output.old }
    ensures { PackedOn 4 output.old packing (sample_values s.base s.value) result output.new }
{
    if s.value == s.base {
        return packing;
    }
    put_packed(4, usize::from(s.value), packing, output)
}

// 01, Difference lists: "ceil(L/4) bytes of 2-bit values".
fn put_values(base: Base, categories: &[u8], anchor: &[u8], output: &mut [u8], at: usize) -> usize
    requires rows_fit { RowsFit base anchor.now categories.now }
    requires categories_in_bounds { at + length (values_bytes (listed_entries base anchor.now categories.now)) ≤ length output.old }
    ensures { Wrote output.old at
        (values_bytes (listed_entries base anchor.now categories.now)) result output.new }
{
    let mut packing = Packing {
        scale: 1,
        byte: 0,
        at,
    };
    for i in 0..categories.len() {
        let s = sample_at(base, categories, anchor, i);
        packing = write_value(s, packing, output);
    }
    end_packed(packing, output)
}

// How many bytes of steps an entry has.
fn step_size(group: Group, sample: usize) -> usize
    requires { GroupFits group sample × (sample < most_samples) }
    ensures { result ≡ length (entry_bytes Steps 0 group sample) }
{
    if group.room == 0 {
        return 0;
    }
    varint_size(sample - group.before)
}

// Sample i, counted if the list has it.
fn count_sample(s: Sample, i: usize, counted: Counted) -> Counted
    requires i_lt_most_samples { (i < most_samples) × GroupFits counted.group i }
    requires count_lt_most_samples { (counted.count < most_samples) × (counted.steps ≤ 5 * most_samples) }
    ensures { Counts s.base s.value i counted result }
{
    if s.value == s.base {
        return counted;
    }
    let group = counted.group;
    Counted {
        group: advance(group, i),
        count: counted.count + 1,
        steps: counted.steps + step_size(group, i),
    }
}

// Counts the entries and the bytes of their steps.
fn measure(base: Base, categories: &[u8], anchor: &[u8]) -> Counted
    requires { RowsFit base anchor.now categories.now }
    ensures { Measured (listed_entries base anchor.now categories.now) result }
{
    let mut counted = Counted {
        group: Group {
            room: 0,
            size: 0,
            before: 0,
            begun: 0,
        },
        count: 0,
        steps: 0,
    };
    for i in 0..categories.len() {
        let s = sample_at(base, categories, anchor, i);
        counted = count_sample(s, i, counted);
    }
    counted
}

// The count of the list and its size in bytes.
pub fn list_size(base: Base, categories: &[u8], anchor: &[u8]) -> ListSize
    requires { RowsFit base anchor.now categories.now }
    ensures { SizeOf (length categories.now) (listed_entries base anchor.now categories.now) result }
{
    let counted = measure(base, categories, anchor);
    let count = counted.count;
    if count == 0 {
        return ListSize { count, bytes: 1 };
    }
    // a head for each group, a size byte for each but the last
    let heads = groups(count);
    let width = number_width(categories.len());
    let values = count.div_ceil(4);
    let bytes = varint_size(count) + width * heads + (heads - 1) + values + counted.steps;
    ListSize { count, bytes }
}

// The parts of the list in their order, if a head has `width` bytes. 01, Difference lists: "A count L, ... then, in order: the first sample number of
// each group ...; G − 1 size bytes, ...; ceil(L/4) bytes of 2-bit values; L − G varints".
fn put_parts(
    width: usize,
    base: Base,
    categories: &[u8],
    anchor: &[u8],
    count: usize,
    output: &mut [u8],
    at: usize,
) -> usize
    requires rows_fit { RowsFit base anchor.now categories.now × (count ≡ length (listed_entries base anchor.now categories.now)) }
    requires categories_in_bounds { at + length (list_bytes width (listed_entries base anchor.now categories.now)) ≤ length output.old }
    ensures { Wrote output.old at
        (list_bytes width (listed_entries base anchor.now categories.now)) result output.new }
{
    let heads = put_varint(output, at, count);
    let sizes = put_part(Part::Heads, width, base, categories, anchor, output, heads);
    let values = put_part(Part::Sizes, width, base, categories, anchor, output, sizes);
    let steps = put_values(base, categories, anchor, output, values);
    put_part(Part::Steps, width, base, categories, anchor, output, steps)
}

// Writes the list of the samples of `categories` that differ from the base, and gives the place after it.
pub fn put_list(
    base: Base,
    categories: &[u8],
    anchor: &[u8],
    count: usize,
    output: &mut [u8],
    at: usize,
) -> usize
    requires rows_fit { RowsFit base anchor.now categories.now × (count ≡ length (listed_entries base anchor.now categories.now)) }
    requires categories_in_bounds { at + length (list_bytes (number_width (length categories.now)) (listed_entries base anchor.now categories.now))
        ≤ length output.old }
    ensures { Wrote output.old at
        (list_bytes (number_width (length categories.now)) (listed_entries base anchor.now categories.now))
        result output.new }
{
    let width = number_width(categories.len());
    put_parts(width, base, categories, anchor, count, output, at)
}
