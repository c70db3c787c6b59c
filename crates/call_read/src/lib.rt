// The calls that read: the whole-file check, a read of categories or of phases, a lookup, the view of a record. Each opens the file before it looks at a
// record.
#![tactic(auto)]

ghost use Rattle.std.specs.Prelude.{◌≡◌};
ghost use Rattle.format.specs.Limits.{variants_to_a_block};
ghost use Rattle.format.specs.Reply.{check_left, check_call, read_left, read_call, phases_call, lookup_left, lookup_call, view_left, part_of_file, view_call};

use base_rows::clear;
use call_open::{call_refusal, open, open_at};
use format::{Fields, FileVariant, MOST_SAMPLES, Refusal};
use head_places::place_of;
use read_file::{check_records, read_output, read_row};

// 01: "the whole-file check, which goes in variant order". The work area needs a byte for each sample.
pub fn check(file: &[u8], work: &mut [u8]) -> Result<Fields, Refusal>
    ensures { check_left result work.new ≡ check_call variants_to_a_block file.now work.old }
{
    let f = open(file, work.len())?;
    check_records(file, file, f, work)?;
    Ok(f)
}

// 01: "A read changes the output's first N bytes and no others." 02, Ask 3: "Every reply and buffer ends as before", the work area too.
pub fn read(
    file: &[u8],
    variant: FileVariant,
    output: &mut [u8],
    work: &mut [u8],
) -> Result<(), Refusal>
    ensures { read_left result output.new work.new
        ≡ read_call variants_to_a_block file.now variant output.old work.old }
{
    let lent = output.len().min(work.len());
    let f = open_at(file, variant, lent)?;
    read_output(file, file, f, variant, output, work)
}

// 02, Ask 1: "A new reading fills N bytes: 0 unphased, 1 unswapped, 2 swapped." The categories, which tell whose the phases are, stand in the work area.
pub fn read_phases(
    file: &[u8],
    variant: FileVariant,
    output: &mut [u8],
    work: &mut [u8],
) -> Result<(), Refusal>
    ensures { read_left result output.new work.new
        ≡ phases_call variants_to_a_block file.now variant output.old work.old }
{
    let f = open_at(file, variant, output.len().min(work.len()))?;
    read_file::read_phases(file, file, f, variant, work, output)?;
    clear(work, f.samples);
    Ok(())
}

// 01: "a lookup gives the category (0 on a refusal)"
pub fn lookup(
    file: &[u8],
    variant: FileVariant,
    sample: usize,
    work: &mut [u8],
) -> Result<u8, Refusal>
    ensures { lookup_left result work.new ≡ lookup_call variants_to_a_block file.now variant sample work.old }
{
    let f = open_at(file, variant, work.len())?;
    let n = f.samples;
    if sample >= n {
        return Err(call_refusal(11, variant));
    }
    read_row(file, file, f, variant, work)?;
    let category = work[sample];
    clear(work, n);
    Ok(category)
}

// 01: "hands back the bytes of one record as a part of the caller's file". "A refused view is the empty part. A view checks 1 to 9 and 11 only."
// It is lent no buffer: what it opens with would hold any row.
pub fn view<'a>(
    file: &'a [u8],
    variant: FileVariant,
    refusal: &mut u8,
    place: &mut usize,
    named: &mut usize,
) -> &'a [u8]
    ensures { view_left refusal.new place.new named.new result.now result.ref_ptr
        ≡ part_of_file file.entry.ref_ptr (view_call variants_to_a_block file.now variant) }
{
    match open_at(file, variant, MOST_SAMPLES) {
        Err(why) => {
            *refusal = why.number;
            *place = why.place;
            *named = why.variant.0;
            &file[..0]
        }
        Ok(f) => {
            let record = place_of(file, file, f, variant);
            let start = record.start;
            let end = record.end;
            *refusal = 0;
            *place = 0;
            *named = 0;
            &file[start..end]
        }
    }
}
