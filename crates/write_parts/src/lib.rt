// A difference list against a base that stands in no buffer of its own: what it has for each sample, and the parts that are written entry by entry,
// each in a pass of its own over the samples.
#![tactic(auto)]

ghost use Rattle.std.specs.Prelude.{◌≡◌, ◌+◌, ◌≤◌, ◌<◌, length, get_or};
ghost use Rattle.format.specs.Limits.{most_samples};
ghost use Rattle.format.specs.Category.{exchange_if};
ghost use Rattle.write_bytes.specs.Written.{Wrote};
ghost use Rattle.write_parts.specs.Rows.{row, base_row, listed_entries, RowsFit};
ghost use Rattle.write_parts.specs.Parts.{first_bytes, step_bytes, entry_bytes, after_entry, GroupFits, sample_bytes, after_sample, Passed, part_bytes};

use write_bytes::{put_number, put_varint, varint_size};

// 01, Categories and kinds: what a list is against. Kinds 4, 6 and 7: "the samples outside category 0, 2, 3"; kinds 2 and 3: "against the anchor",
// 3 inverted; kind 1: "samples in the other two categories".
#[derive(Clone, Copy)]
pub enum Base {
    Category(u8),
    Anchor { inverted: bool },
    Pair { lower: u8, higher: u8 },
}

// A sample's value, were it listed, and its base's. It is listed where they differ.
#[derive(Clone, Copy)]
pub struct Sample {
    pub value: u8,
    pub base: u8,
}

// The parts that are written entry by entry.
#[derive(Clone, Copy)]
pub enum Part {
    Heads,
    Sizes,
    Steps,
}

// Where a pass is: `room` entries are still to come in the group, whose varints so far have `size` bytes; `before` is the sample before, and
// `begun` is 1 after the first entry: a number, as with a bool the passes were measured two to four times slower.
#[derive(Clone, Copy)]
pub struct Group {
    pub room: usize,
    pub size: usize,
    pub before: usize,
    pub begun: usize,
}

#[derive(Clone, Copy)]
pub struct Moved {
    pub group: Group,
    pub at: usize,
}

// 01, Categories and kinds: kind 3, "0 and 2 exchanged for all samples".
fn exchange_if(inverted: bool, category: u8) -> u8
    ensures { result ≡ exchange_if inverted category }
{
    // as a difference, which the compiler computes with no jump: categories come in no order that a processor could foresee
    if inverted && category < 3 && category != 1 {
        2 - category
    } else {
        category
    }
}

// Sample i of the row that is written, and of its base.
pub fn sample_at(base: Base, categories: &[u8], anchor: &[u8], i: usize) -> Sample
    requires { (i < length categories.now) × RowsFit base anchor.now categories.now }
    ensures { (result.value ≡ get_or (row base categories.now) i 0)
        × (result.base ≡ get_or (base_row base anchor.now categories.now) i 0) }
{
    let category = categories[i];
    match base {
        Base::Category(other) => Sample {
            value: category,
            base: other,
        },
        Base::Anchor { inverted } => Sample {
            value: exchange_if(inverted, category),
            base: anchor[i],
        },
        Base::Pair { lower, higher } => Sample {
            value: category,
            base: if category == higher { higher } else { lower },
        },
    }
}

// What a part has for the first entry of a group.
fn put_first(
    part: Part,
    width: usize,
    group: Group,
    sample: usize,
    output: &mut [u8],
    at: usize,
) -> usize
    requires sample_in_bounds { (at + length (first_bytes part width group.size group.begun sample) ≤ length output.old) × (sample < most_samples) }
    requires group_fits { GroupFits group sample × (group.room ≡ 0) }
    ensures { Wrote output.old at (first_bytes part width group.size group.begun sample) result output.new }
{
    match part {
        Part::Heads => put_number(output, at, width, sample),
        Part::Sizes => {
            if group.begun == 0 {
                return at;
            }
            output[at] = (group.size - 63) as u8;
            at + 1
        }
        Part::Steps => at,
    }
}

// What a part has for another entry, a step from the one before it in its group.
fn put_step(part: Part, step: usize, output: &mut [u8], at: usize) -> usize
    requires { (at + length (step_bytes part step) ≤ length output.old) × (step < most_samples) }
    ensures { Wrote output.old at (step_bytes part step) result output.new }
{
    match part {
        Part::Heads => at,
        Part::Sizes => at,
        Part::Steps => put_varint(output, at, step),
    }
}

// What a part has for an entry.
fn put_entry(
    part: Part,
    width: usize,
    group: Group,
    sample: usize,
    output: &mut [u8],
    at: usize,
) -> usize
    requires sample_in_bounds { (at + length (entry_bytes part width group sample) ≤ length output.old) × (sample < most_samples) }
    requires group_fits { GroupFits group sample }
    ensures { Wrote output.old at (entry_bytes part width group sample) result output.new }
{
    if group.room == 0 {
        return put_first(part, width, group, sample, output, at);
    }
    put_step(part, sample - group.before, output, at)
}

// Where a pass is after an entry.
pub fn advance(group: Group, sample: usize) -> Group
    requires { GroupFits group sample × (sample < most_samples) }
    ensures { result ≡ after_entry group sample }
{
    if group.room == 0 {
        return Group {
            room: 63,
            size: 0,
            before: sample,
            begun: 1,
        };
    }
    Group {
        room: group.room - 1,
        size: group.size + varint_size(sample - group.before),
        before: sample,
        begun: 1,
    }
}

// Sample i: its bytes of the part, if the list has it.
fn put_sample(
    part: Part,
    width: usize,
    s: Sample,
    i: usize,
    group: Group,
    output: &mut [u8],
    at: usize,
) -> Moved
    requires i_lt_most_samples { (i < most_samples) × GroupFits group i }
    requires i_in_bounds { at + length (sample_bytes part width s.base s.value group i) ≤ length output.old }
    ensures { Passed output.old at (sample_bytes part width s.base s.value group i)
        (after_sample s.base s.value group i) result output.new }
{
    if s.value == s.base {
        return Moved { group, at };
    }
    Moved {
        group: advance(group, i),
        at: put_entry(part, width, group, i, output, at),
    }
}

// A whole part of the list, whose sample numbers have `width` bytes.
pub fn put_part(
    part: Part,
    width: usize,
    base: Base,
    categories: &[u8],
    anchor: &[u8],
    output: &mut [u8],
    at: usize,
) -> usize
    requires rows_fit { RowsFit base anchor.now categories.now }
    requires categories_in_bounds { at + length (part_bytes part width (listed_entries base anchor.now categories.now)) ≤ length output.old }
    ensures { Wrote output.old at
        (part_bytes part width (listed_entries base anchor.now categories.now)) result output.new }
{
    let mut group = Group {
        room: 0,
        size: 0,
        before: 0,
        begun: 0,
    };
    let mut place = at;
    for i in 0..categories.len() {
        let s = sample_at(base, categories, anchor, i);
        let moved = put_sample(part, width, s, i, group, output, place);
        group = moved.group;
        place = moved.at;
    }
    place
}
