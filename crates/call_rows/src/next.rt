// Where the next record of a way through a file stands, or why none is read: by the state and the buffers' sizes, then by the index and the data.
ghost use Rattle.std.specs.Prelude.{◌≡◌, false, ◌≤◌, ◌<◌};
ghost use Rattle.format.specs.Limits.{most_variants, variants_to_a_block};
ghost use Rattle.format.specs.Layout.{unblocked};
ghost use Rattle.format.specs.Header.{type_place};
ghost use Rattle.format.specs.Reply.{answer};
ghost use Rattle.head_blocks.specs.Parts.{fixed};
ghost use Rattle.call_rows.specs.Calls.{state_checked, Standing, anchor_told, type_follows, record_checked, next_record, found};

use crate::{Rows, anchor_reply};
use base_variants::in_block;
use call_open::call_refusal;
use format::{Fields, FileVariant, MOST_SAMPLES, MOST_VARIANTS, Refusal, refusal_at, refusal_of};
use head_blocks::blocks_of;
use head_check::from_1_to;
use head_columns::type_place;
use head_places::Place;
use head_records::{size_of, type_of};
use head_types::{type_allowed, type_leans};

// 4, 10 and 11, by the state and the sizes of output and work area.
fn state_checked(rows: Rows, output: usize, work: usize) -> Result<(), Refusal>
    ensures { answer result ≡ state_checked rows output work }
{
    let f = rows.fields;
    if !from_1_to(MOST_VARIANTS, f.variants) {
        return Err(refusal_at(4, 3));
    }
    if !from_1_to(MOST_SAMPLES, f.samples) {
        return Err(refusal_at(4, 7));
    }
    if output < f.samples {
        return Err(call_refusal(10, FileVariant(f.variants)));
    }
    if work < f.samples {
        return Err(call_refusal(10, FileVariant(f.variants)));
    }
    if f.variants <= rows.variant.0 {
        return Err(call_refusal(11, FileVariant(f.variants)));
    }
    Ok(())
}

// Whether a state tells how its anchor was read: accepted, or refused as a record is, 12 to 18 and 23 to 25. One that no start gave may tell anything.
fn anchor_told(anchor: Result<(), Refusal>) -> bool
    ensures { result ≡ anchor_told anchor }
{
    match anchor_reply(anchor) {
        Ok(()) => true,
        Err(why) => matches!(why.number, 12..=18 | 23..=25),
    }
}

// Whether a record of this type may come next: no record leans where no anchor is told of.
fn type_follows(rows: Rows, record_type: u8) -> bool
    ensures { result ≡ type_follows rows record_type }
{
    let allowed = type_allowed(in_block(rows.variant), record_type);
    if !type_leans(record_type) {
        return allowed;
    }
    if !anchor_told(rows.anchor) {
        return false;
    }
    allowed
}

// 01, Replies: the place of refusal 8, the "byte holding it".
fn place_of_type(f: Fields, v: FileVariant) -> usize
    requires { (f.variants ≤ most_variants) × (v.0 < f.variants) × (unblocked f.mode ≡ false) }
    ensures { result ≡ type_place variants_to_a_block (fixed f) v }
{
    type_place(blocks_of(f), v)
}

// 8 and 9, by the index and the length of the data.
fn record_checked(rows: Rows, index: &[u8], held: &[u8]) -> Result<Place, Refusal>
    requires { Standing rows }
    ensures { found result ≡ record_checked rows index.now held.now }
{
    let f = rows.fields;
    let v = rows.variant;
    let start = rows.start;
    let record_type = type_of(index, f, v);
    if !type_follows(rows, record_type) {
        return Err(refusal_of(v, 8, place_of_type(f, v)));
    }
    let size = size_of(index, f, v);
    if held.len() < start || held.len() - start < size {
        return Err(refusal_of(FileVariant(f.variants), 9, held.len()));
    }
    Ok(Place {
        start,
        end: start + size,
        record_type,
    })
}

// The next record, in the order of the refusals: first those by the state and the buffers' sizes, then those by the index and the data.
pub fn next_record(
    rows: Rows,
    index: &[u8],
    held: &[u8],
    output: usize,
    work: usize,
) -> Result<Place, Refusal>
    ensures { found result ≡ next_record rows index.now held.now output work }
{
    state_checked(rows, output, work)?;
    record_checked(rows, index, held)
}
