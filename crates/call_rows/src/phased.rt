// The next variant's phases besides its categories: the steps of `next_row`, with one lent buffer more.
ghost use Rattle.std.specs.Prelude.{◌≡◌, true, false, ◌≤◌, length};
ghost use Rattle.format.specs.Body.{type_leans};
ghost use Rattle.call_rows.specs.Calls.{RowReady};
ghost use Rattle.call_rows.specs.Phased.{phased_row_left, phased_over_nothing, phased_over_anchor, next_phased_row_in, next_phased_row_call};

use crate::next::next_record;
use crate::{RowStep, Rows, keep_row, leaning_checked, past};
use base_cursor::Cursor;
use base_rows::copy;
use format::named_reply;
use head_places::Place;
use head_types::type_leans;
use read_check::read_straight_phased;
use read_record::read_phased;

// 02, Ask 3: a record that leans on none is checked, and then read straight in the output, its phases in theirs.
fn phased_alone(
    rows: Rows,
    held: &[u8],
    p: Place,
    output: &mut [u8],
    phases: &mut [u8],
    work: &mut [u8],
) -> RowStep
    requires row_ready { RowReady rows held.now p work.old × (rows.fields.samples ≤ length output.old) × (rows.fields.samples ≤ length phases.old) }
    requires record_type_value { type_leans p.record_type ≡ false }
    ensures { phased_row_left result output.new phases.new work.new
        ≡ phased_over_nothing rows held.now p output.old phases.old work.old }
{
    let end = p.end;
    let n = rows.fields.samples;
    let read = read_straight_phased(
        &held[..end],
        Cursor { at: p.start },
        n,
        p.record_type,
        output,
        phases,
    );
    keep_row(
        rows,
        end,
        named_reply(rows.variant, read),
        &output[..],
        work,
    )
}

// One that leans is checked over the work area, which stays, and then read in the output over a copy of it: a refusal finds output and phases untouched.
fn phased_leaning(
    rows: Rows,
    held: &[u8],
    p: Place,
    output: &mut [u8],
    phases: &mut [u8],
    work: &mut [u8],
) -> RowStep
    requires row_ready { RowReady rows held.now p work.old × (rows.fields.samples ≤ length output.old) × (rows.fields.samples ≤ length phases.old) }
    requires record_type_value { type_leans p.record_type ≡ true }
    ensures { phased_row_left result output.new phases.new work.new
        ≡ phased_over_anchor rows held.now p output.old phases.old work.old }
{
    let end = p.end;
    let n = rows.fields.samples;
    let next = past(rows, end, rows.anchor);
    match leaning_checked(rows, held, p, &work[..]) {
        Err(why) => RowStep {
            rows: next,
            reply: Err(why),
        },
        Ok(()) => {
            copy(work, n, output);
            // accepted, as the check has found
            let reply = read_phased(
                &held[..end],
                Cursor { at: p.start },
                n,
                p.record_type,
                output,
                phases,
            );
            RowStep { rows: next, reply }
        }
    }
}

// The next variant's categories in the output and its phases in theirs, by an index and the data that it speaks of.
fn next_phased_row_in(
    rows: Rows,
    index: &[u8],
    held: &[u8],
    output: &mut [u8],
    phases: &mut [u8],
    work: &mut [u8],
) -> RowStep
    ensures { phased_row_left result output.new phases.new work.new
        ≡ next_phased_row_in rows index.now held.now output.old phases.old work.old }
{
    let lent = output.len().min(phases.len());
    match next_record(rows, index, held, lent, work.len()) {
        Err(why) => RowStep {
            rows,
            reply: Err(why),
        },
        Ok(p) => {
            if type_leans(p.record_type) {
                return phased_leaning(rows, held, p, output, phases, work);
            }
            phased_alone(rows, held, p, output, phases, work)
        }
    }
}

// 02, Ask 1: "A new reading fills N bytes: 0 unphased, 1 unswapped, 2 swapped". The same of a file in one piece; steps of this call and of `next_row` may
// follow one another.
pub fn next_phased_row(
    rows: Rows,
    file: &[u8],
    output: &mut [u8],
    phases: &mut [u8],
    work: &mut [u8],
) -> RowStep
    ensures { phased_row_left result output.new phases.new work.new
        ≡ next_phased_row_call rows file.now output.old phases.old work.old }
{
    next_phased_row_in(rows, file, file, output, phases, work)
}
