// A way through a file that pays for one header check: a state that a start call gives, and a call for the next variant's categories. Between calls
// the work area holds the categories of the last record that leans on none, which is the anchor of the next one that leans.
#![tactic(auto)]

ghost use Rattle.std.specs.Prelude.{◌≡◌, true, false, ◌≤◌, ◌<◌, length};
ghost use Rattle.format.specs.Limits.{most_variants};
ghost use Rattle.format.specs.Body.{type_leans};
ghost use Rattle.format.specs.Reply.{answer};
ghost use Rattle.call_rows.specs.Calls.{first_row, start_rows_call, past, kept, row_kept, RowReady, over_nothing};
ghost use Rattle.call_rows.specs.Calls.{anchor_reply, leaning_checked, over_anchor, row_left, next_row_in, next_row_call};

use base_cursor::Cursor;
use base_rows::{clear, copy};
use call_open::open;
use format::{Fields, FileVariant, Refusal, named_reply};
use head_blocks::first_record;
use head_places::Place;
use head_types::type_leans;
use read_check::{check_body, read_straight};
use read_record::read_body;

pub mod next;
pub mod phased;

use crate::next::next_record;
pub use phased::next_phased_row;

// The next variant, where its record starts, and the reply of the last record that leans on none, whose refusal names it; one with number 0, which no start
// gives, tells that it was accepted.
#[derive(Clone, Copy)]
pub struct Rows {
    pub fields: Fields,
    pub variant: FileVariant,
    pub start: usize,
    pub anchor: Result<(), Refusal>,
}

// What the next call gives: its reply, and the state moved on.
#[derive(Clone, Copy)]
pub struct RowStep {
    pub rows: Rows,
    pub reply: Result<(), Refusal>,
}

// Before the first variant of a file with these fields.
pub fn first_row(fields: Fields) -> Rows
    requires { fields.variants ≤ most_variants }
    ensures { result ≡ first_row fields }
{
    Rows {
        fields,
        variant: FileVariant(0),
        start: first_record(fields),
        anchor: Ok(()),
    }
}

// The header check, which is made once. 10: the work area needs a byte for each sample.
pub fn start_rows(file: &[u8], work: &[u8]) -> Result<Rows, Refusal>
    ensures { answer result ≡ start_rows_call file.now work.now }
{
    let fields = open(file, work.len())?;
    Ok(first_row(fields))
}

// Past a record that ends at a place.
fn past(rows: Rows, end: usize, anchor: Result<(), Refusal>) -> Rows
    requires { rows.variant.0 < most_variants }
    ensures { result ≡ past rows end anchor }
{
    let fields = rows.fields;
    Rows {
        fields,
        variant: FileVariant(rows.variant.0 + 1),
        start: end,
        anchor,
    }
}

// Past a record that leans on none, by its reply. Its categories, which the output holds, are copied to the work area, where they stay for those that lean on
// it.
fn keep_row(
    rows: Rows,
    end: usize,
    got: Result<(), Refusal>,
    output: &[u8],
    work: &mut [u8],
) -> RowStep
    requires { (rows.variant.0 < most_variants) × (rows.fields.samples ≤ length output.now) × (rows.fields.samples ≤ length work.old) }
    ensures { kept result work.new ≡ row_kept rows end got output.now work.old }
{
    let n = rows.fields.samples;
    match got {
        Err(why) => {
            clear(work, n);
            RowStep {
                rows: past(rows, end, Err(why)),
                reply: Err(why),
            }
        }
        Ok(()) => {
            copy(output, n, work);
            RowStep {
                rows: past(rows, end, Ok(())),
                reply: Ok(()),
            }
        }
    }
}

// 02, Ask 3: a record that leans on none is checked, and then read straight in the output.
fn step_alone(rows: Rows, held: &[u8], p: Place, output: &mut [u8], work: &mut [u8]) -> RowStep
    requires { RowReady rows held.now p work.old × (rows.fields.samples ≤ length output.old) × (type_leans p.record_type ≡ false) }
    ensures { row_left result output.new work.new ≡ over_nothing rows held.now p output.old work.old }
{
    let end = p.end;
    let n = rows.fields.samples;
    let read = read_straight(
        &held[..end],
        Cursor { at: p.start },
        n,
        p.record_type,
        output,
    );
    keep_row(
        rows,
        end,
        named_reply(rows.variant, read),
        &output[..],
        work,
    )
}

// How an anchor was read, by what a state keeps of it. 01, Replies: "An accepted call has refusal 0", so an `Err` with number 0 tells that it was accepted.
fn anchor_reply(anchor: Result<(), Refusal>) -> Result<(), Refusal>
    ensures { result ≡ anchor_reply anchor }
{
    match anchor {
        Err(why) if why.number == 0 => Ok(()),
        told => told,
    }
}

// One that leans is refused as its anchor was, or checked over the anchor's row, which the work area holds.
fn leaning_checked(rows: Rows, held: &[u8], p: Place, work: &[u8]) -> Result<(), Refusal>
    requires { RowReady rows held.now p work.now × (type_leans p.record_type ≡ true) }
    ensures { result ≡ leaning_checked rows held.now p work.now }
{
    anchor_reply(rows.anchor)?;
    let end = p.end;
    let n = rows.fields.samples;
    let got = check_body(&held[..end], Cursor { at: p.start }, n, p.record_type, work);
    named_reply(rows.variant, got)
}

// It is read in the output over a copy of the work area, which stays: a refusal finds the output untouched.
fn step_leaning(rows: Rows, held: &[u8], p: Place, output: &mut [u8], work: &mut [u8]) -> RowStep
    requires { RowReady rows held.now p work.old × (rows.fields.samples ≤ length output.old) × (type_leans p.record_type ≡ true) }
    ensures { row_left result output.new work.new ≡ over_anchor rows held.now p output.old work.old }
{
    let end = p.end;
    let n = rows.fields.samples;
    let next = past(rows, end, rows.anchor);
    match leaning_checked(rows, held, p, &work[..]) {
        Err(why) => RowStep {
            rows: next,
            reply: Err(why),
        },
        Ok(()) => {
            copy(work, n, output);
            // accepted, as the check has found
            let reply = read_body(
                &held[..end],
                Cursor { at: p.start },
                n,
                p.record_type,
                output,
            );
            RowStep { rows: next, reply }
        }
    }
}

// The next variant's categories in the output, by an index and the data that it speaks of.
fn next_row_in(rows: Rows, index: &[u8], held: &[u8], output: &mut [u8], work: &mut [u8]) -> RowStep
    ensures { row_left result output.new work.new
        ≡ next_row_in rows index.now held.now output.old work.old }
{
    match next_record(rows, index, held, output.len(), work.len()) {
        Err(why) => RowStep {
            rows,
            reply: Err(why),
        },
        Ok(p) => {
            if type_leans(p.record_type) {
                return step_leaning(rows, held, p, output, work);
            }
            step_alone(rows, held, p, output, work)
        }
    }
}

// The same of a file in one piece: as a read gives them.
pub fn next_row(rows: Rows, file: &[u8], output: &mut [u8], work: &mut [u8]) -> RowStep
    ensures { row_left result output.new work.new ≡ next_row_call rows file.now output.old work.old }
{
    next_row_in(rows, file, file, output, work)
}
