// The records of a file that the header check accepts: all checked in order, or one read, over its anchor if it leans, its phases too. `f` holds the fields
// that the check gave.
#![tactic(auto)]

ghost use Rattle.std.specs.Prelude.{◌≤◌, length};
ghost use Rattle.format.specs.Limits.{most_variants};
ghost use Rattle.head_places.specs.Located.{Located};
ghost use Rattle.read_file.specs.Rows.{HasRow, HasVariantRow, TypeIfAny, RecordsChecked, AnchorRead, VariantRead, VariantGiven, VariantPhased};

use base_cursor::Cursor;
use base_rows::{clear, copy};
use format::{Fields, FileVariant, Refusal, named, named_reply};
use head_blocks::first_record;
use head_places::{Place, anchor_of, place_of};
use head_records::{size_of, type_of};
use head_types::type_leans;
use read_check::{check_next, read_straight};
use read_record::{read_body, read_phased};

// The type of variant v. Past the last one there is none, and 0 stands for it, a type that leans on no record.
fn type_if_any(index: &[u8], f: Fields, v: FileVariant) -> u8
    requires { f.variants ≤ most_variants }
    ensures { TypeIfAny index.now f v result }
{
    if v.0 < f.variants {
        return type_of(index, f, v);
    }
    0
}

// 01, Replies: "the whole-file check, which goes in variant order". Where the next record leans, the row holds the categories of its anchor, the last
// record that leans on none. A type is looked up once, as that of the record after, and carried to its own turn. `held` is what the
// data holds that the index speaks of: a file in one piece is both.
pub fn check_records(index: &[u8], held: &[u8], f: Fields, row: &mut [u8]) -> Result<(), Refusal>
    requires { HasRow index.now held.now f row.old }
    ensures { RecordsChecked index.now held.now f row.old result row.new }
{
    let m = f.variants;
    let n = f.samples;
    let mut start = first_record(f);
    let mut record_type = type_if_any(index, f, FileVariant(0));
    for v in 0..m {
        let end = start + size_of(index, f, FileVariant(v));
        let after = type_if_any(index, f, FileVariant(v + 1));
        let here = Cursor { at: start };
        let got = check_next(&held[..end], here, n, record_type, after, row);
        if let Err(why) = got {
            clear(row, n);
            return Err(named(FileVariant(v), why));
        }
        start = end;
        record_type = after;
    }
    clear(row, n);
    Ok(())
}

// 01: "an anchor is checked before the record that leans on it". The anchor's categories into the row, where the record of variant v at `p` leans.
fn read_anchor(
    index: &[u8],
    held: &[u8],
    f: Fields,
    v: FileVariant,
    p: Place,
    row: &mut [u8],
) -> Result<(), Refusal>
    requires has_variant_row { HasVariantRow index.now held.now f v row.old }
    requires located { Located index.now held.now f v p }
    ensures { AnchorRead index.now held.now f v row.old result row.new }
{
    if type_leans(p.record_type) {
        let anchor = anchor_of(index, held, f, v);
        let a = place_of(index, held, f, anchor);
        let end = a.end;
        let there = Cursor { at: a.start };
        let got = read_body(&held[..end], there, f.samples, a.record_type, row);
        return named_reply(anchor, got);
    }
    Ok(())
}

// 01: "a read or lookup checks only its variant's, and an anchor is checked before the record that leans on it". The record of variant v stands at `p`.
fn read_at(
    index: &[u8],
    held: &[u8],
    f: Fields,
    v: FileVariant,
    p: Place,
    row: &mut [u8],
) -> Result<(), Refusal>
    requires has_variant_row { HasVariantRow index.now held.now f v row.old }
    requires located { Located index.now held.now f v p }
    ensures { VariantRead index.now held.now f v row.old result row.new }
{
    let end = p.end;
    let here = Cursor { at: p.start };
    read_anchor(index, held, f, v, p, row)?;
    let got = read_body(&held[..end], here, f.samples, p.record_type, row);
    named_reply(v, got)
}

// The categories of variant v into the row.
pub fn read_row(
    index: &[u8],
    held: &[u8],
    f: Fields,
    v: FileVariant,
    row: &mut [u8],
) -> Result<(), Refusal>
    requires { HasVariantRow index.now held.now f v row.old }
    ensures { VariantRead index.now held.now f v row.old result row.new }
{
    let p = place_of(index, held, f, v);
    read_at(index, held, f, v, p, row)
}

// A record that leans is read in the row, which held its anchor's categories, and copied from there.
fn copy_leaning(
    index: &[u8],
    held: &[u8],
    f: Fields,
    v: FileVariant,
    p: Place,
    output: &mut [u8],
    row: &mut [u8],
) -> Result<(), Refusal>
    requires has_variant_row { HasVariantRow index.now held.now f v row.old }
    requires located { Located index.now held.now f v p × (f.samples ≤ length output.old) }
    ensures { VariantGiven index.now held.now f v output.old row.old
        result output.new row.new }
{
    let n = f.samples;
    read_at(index, held, f, v, p, row)?;
    copy(row, n, output);
    clear(row, n);
    Ok(())
}

// The categories of variant v into the output, which a refusal finds untouched. 02, Ask 3: one that leans on nothing goes "straight to the output".
pub fn read_output(
    index: &[u8],
    held: &[u8],
    f: Fields,
    v: FileVariant,
    output: &mut [u8],
    row: &mut [u8],
) -> Result<(), Refusal>
    requires has_variant_row { HasVariantRow index.now held.now f v row.old }
    requires samples_in_bounds { f.samples ≤ length output.old }
    ensures { VariantGiven index.now held.now f v output.old row.old
        result output.new row.new }
{
    let p = place_of(index, held, f, v);
    if type_leans(p.record_type) {
        return copy_leaning(index, held, f, v, p, output, row);
    }
    let end = p.end;
    let n = f.samples;
    let here = Cursor { at: p.start };
    let got = read_straight(&held[..end], here, n, p.record_type, output);
    clear(row, n);
    named_reply(v, got)
}

// As `read_row`, and its phases into the output, which a refusal finds untouched.
pub fn read_phases(
    index: &[u8],
    held: &[u8],
    f: Fields,
    v: FileVariant,
    row: &mut [u8],
    output: &mut [u8],
) -> Result<(), Refusal>
    requires has_variant_row { HasVariantRow index.now held.now f v row.old }
    requires samples_in_bounds { f.samples ≤ length output.old }
    ensures { VariantPhased index.now held.now f v row.old output.old
        result row.new output.new }
{
    let p = place_of(index, held, f, v);
    let end = p.end;
    let here = Cursor { at: p.start };
    read_anchor(index, held, f, v, p, row)?;
    let got = read_phased(&held[..end], here, f.samples, p.record_type, row, output);
    named_reply(v, got)
}
