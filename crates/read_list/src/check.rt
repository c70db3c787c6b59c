// A difference list only checked, against a row that stays or off a pair, with no row. Nothing is put anywhere, so the answer is the cursor after the
// list, or a refusal, and no more.
ghost use Rattle.std.specs.Prelude.{◌≡◌, true, ◌+◌, ◌/◌, ◌≤◌, ◌<◌, length};
ghost use Rattle.format.specs.Limits.{most_samples};
ghost use Rattle.read_list.specs.Room.{Room, EntryReady};
ghost use Rattle.read_list.specs.Walked.{Checking};
ghost use Rattle.read_list.specs.Runs.{AllOff};
ghost use Rattle.read_list.specs.Entries.{Against, check_entry, check_entries};
ghost use Rattle.read_list.specs.Checked.{checked};

use crate::entry::{check_value, may_hold, next_sample};
use crate::run::{after_run, run_of, walked};
use crate::values::values_off;
use crate::{ListRule, State, Walk, lay_parts, read_count};
use base_cursor::Cursor;
use format::Refusal;

// One entry.
fn check_entry(
    s: &[u8],
    n: usize,
    values: usize,
    held: ListRule,
    st: State,
    row: &[u8],
) -> Result<State, Refusal>
    requires entry_ready { EntryReady s.now n st }
    requires against { Against held n row.now }
    requires passed_in_bounds { values + st.passed / 4 < length s.now }
    ensures { result ≡ check_entry s.now n values held st row.now }
{
    let next = next_sample(s, n, st)?;
    check_value(s, values, held, next, row)
}

// Steps of a byte or two that are accepted, as many as come one after another: a loop of its own, since it needs to carry so little.
fn check_short_steps(
    s: &[u8],
    n: usize,
    values: usize,
    held: ListRule,
    first: State,
    count: usize,
    row: &[u8],
) -> Walk
    requires room { Room s.now n values count first }
    requires against { Against held n row.now }
    ensures { Checking s.now n values held count first row.now result.st result.more }
{
    let from = first.passed;
    let end = from + first.room.min(count);
    let mut here = first.at;
    let mut last = first.last;
    let mut passed = from;
    while passed < end {
        let Some((step, next)) = here.short(s) else {
            break;
        };
        if step == 0 || step >= n - last {
            break;
        }
        let sample = last + step;
        let value = read_packed::two_bits(s, values, passed);
        if !may_hold(held, row, sample, value) {
            break;
        }
        last = sample;
        here = next;
        passed += 1;
    }
    walked(first, count, passed - from, last, here)
}

// The steps that follow an entry, as many as are accepted: a run of them at once, if `off` says that the list may hold its values. The walk step by step is
// called from two places, so that it stays a function with the registers for itself.
fn check_group(
    s: &[u8],
    n: usize,
    values: usize,
    held: ListRule,
    off: bool,
    first: State,
    count: usize,
    row: &[u8],
) -> Walk
    requires room { Room s.now n values count first }
    requires against { Against held n row.now }
    requires all_off { off ≡ true → AllOff s.now values (first.passed + count) held }
    ensures { Checking s.now n values held count first row.now result.st result.more }
{
    if off {
        if let Some(run) = run_of(s, n, first, count) {
            let st = after_run(first, run);
            return check_short_steps(s, n, values, held, st, count - run.count, row);
        }
    }
    check_short_steps(s, n, values, held, first, count, row)
}

// All entries, one after another.
fn check_entries(
    s: &[u8],
    n: usize,
    values: usize,
    held: ListRule,
    first: State,
    count: usize,
    row: &[u8],
) -> Result<Cursor, Refusal>
    requires room { Room s.now n values count first }
    requires against { Against held n row.now }
    ensures { result ≡ check_entries count s.now n values held first row.now }
{
    let mut st = first;
    let mut more = count;
    let off = values_off(s, values, first.passed + count, held);
    while more > 0 {
        let next = check_entry(s, n, values, held, st, row)?;
        let walk = check_group(s, n, values, held, off, next, more - 1, row);
        st = walk.st;
        more = walk.more;
    }
    Ok(st.at)
}

// The list at `c`, of n samples: the cursor after it, or a refusal.
pub fn check_list(
    s: &[u8],
    n: usize,
    held: ListRule,
    c: Cursor,
    row: &[u8],
) -> Result<Cursor, Refusal>
    requires at_in_bounds { (c.at ≤ length s.now) × (n ≤ most_samples) }
    requires against { Against held n row.now }
    ensures { result ≡ checked held n s.now c.at row.now }
{
    let (m, next) = read_count(s, n, c)?;
    if m == 0 {
        return Ok(next);
    }
    let (values, first) = lay_parts(s, n, m, next)?;
    check_entries(s, n, values, held, first, m, row)
}
