// A difference list, checked and put into a row that holds what it is against (01, Difference lists), or only checked: either is one function over
// the number width and the rule of what a list may hold. Every slice `s` is the file cut where the record ends, so that its length is the record's end.
#![tactic(auto)]

ghost use Rattle.std.specs.Prelude.{◌≡◌, true, ◌≤◌, ◌<◌, length};
ghost use Rattle.format.specs.Limits.{most_samples};
ghost use Rattle.base_cursor.specs.Steps.{varint_at};
ghost use Rattle.read_list.specs.Entries.{list_left, Lists};
ghost use Rattle.read_list.specs.Parts.{count_of, lay_out, put_parts};
ghost use Rattle.read_list.specs.Listed.{listed};

use base_cursor::Cursor;
use base_list::number_width;
use format::{Refusal, refusal_at};
use read_packed::Width;

pub mod check;
pub mod entry;
pub mod known;
pub mod run;
pub mod values;

use crate::entry::put_entries;

// 01, Categories and kinds: "No list holds a value it need not": none in the pair, or none that the row has for that sample.
#[derive(Clone, Copy)]
pub enum ListRule {
    OffPair(u8, u8),
    OffRow,
}

// Where the walk through the entries is: `room` entries are still to come in this group, whose steps start at `from`; `last` is the sample
// before; the next head, size byte and step stand at `head`, `size` and `at`; `passed` entries have been passed.
#[derive(Clone, Copy)]
pub struct State {
    pub room: usize,
    pub from: Cursor,
    pub last: usize,
    pub head: Cursor,
    pub size: Cursor,
    pub passed: usize,
    pub at: Cursor,
}

// Such a place, with how many entries are still to come in the list.
#[derive(Clone, Copy)]
pub struct Walk {
    pub st: State,
    pub more: usize,
}

// Steps of a byte or two that stand one after another: how many, the bytes that they take, and what they come to.
#[derive(Clone, Copy)]
pub struct StepRun {
    pub count: usize,
    pub size: usize,
    pub sum: usize,
}

// 01: "A count L, at most N, as a varint." Its refusals: 12, 15, 16.
pub fn read_count(s: &[u8], n: usize, c: Cursor) -> Result<(usize, Cursor), Refusal>
    requires { c.at ≤ length s.now }
    ensures { result ≡ count_of (varint_at s.now c.at) n c.at }
{
    let at = c.at;
    let (m, next) = c.varint(s)?;
    if m > n {
        return Err(refusal_at(16, at));
    }
    Ok((m, next))
}

// 01, Replies: "the heads, size bytes and values must fit; unused value bits (18)". The parts of a list of m entries, whose heads start at `c`.
pub fn lay_parts(s: &[u8], n: usize, m: usize, c: Cursor) -> Result<(usize, State), Refusal>
    requires { (c.at ≤ length s.now) × (0 < m) × (m ≤ most_samples) }
    ensures { result ≡ lay_out s.now n m c.at }
{
    let groups = base_list::groups(m);
    let size = c.past(number_width(n) * groups);
    let values = size.past(groups - 1);
    let steps = values.past(m.div_ceil(4));
    if steps.at > s.len() {
        return Err(refusal_at(12, s.len()));
    }
    if read_packed::unused_bits(s, values.at, m, Width::Two) != 0 {
        return Err(refusal_at(18, steps.at - 1));
    }
    let first = State {
        room: 0,
        from: steps,
        last: 0,
        head: c,
        size,
        passed: 0,
        at: steps,
    };
    Ok((values.at, first))
}

// A list, whose entries stay in the row where a later one is refused.
fn put_parts(
    s: &[u8],
    n: usize,
    held: ListRule,
    known: bool,
    c: Cursor,
    row: &mut [u8],
) -> Result<Cursor, Refusal>
    requires at_in_bounds { c.at ≤ length s.now }
    requires n_in_bounds { (n ≤ length row.old) × (n ≤ most_samples) }
    requires lists { known ≡ true → Lists (put_parts held n s.now c.at row.old) }
    ensures { list_left result row.new ≡ put_parts held n s.now c.at row.old }
{
    let (m, next) = read_count(s, n, c)?;
    if m == 0 {
        return Ok(next);
    }
    let (values, first) = lay_parts(s, n, m, next)?;
    put_entries(s, n, values, held, known, first, m, row)
}

// The list at `c`, of n samples: its values are put into the row's first n bytes, which hold what the list is against, and a refusal leaves them zero. `known`
// tells that it was accepted before.
pub fn put_list(
    s: &[u8],
    n: usize,
    held: ListRule,
    known: bool,
    c: Cursor,
    row: &mut [u8],
) -> Result<Cursor, Refusal>
    requires at_in_bounds { c.at ≤ length s.now }
    requires n_in_bounds { (n ≤ length row.old) × (n ≤ most_samples) }
    requires lists { known ≡ true → Lists (listed held n s.now c.at row.old) }
    ensures { list_left result row.new ≡ listed held n s.now c.at row.old }
{
    let got = put_parts(s, n, held, known, c, row);
    if got.is_err() {
        base_rows::clear(row, n);
    }
    got
}
