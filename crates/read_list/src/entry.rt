// The entries of a difference list, one after another: 01, Replies: "entry by entry its varint (12, 15), its number (16), its value (17), and
// after each group but the last its size byte (16)". 02, Ask 2: "23 is a number not rising, 24 a number not below N, 25 a size byte".
ghost use Rattle.std.specs.Prelude.{◌≡◌, true, suc, ◌+◌, ◌/◌, ◌≤◌, ◌<◌, length, get_or, Ok};
ghost use Rattle.format.specs.Limits.{most_samples};
ghost use Rattle.format.specs.Difflist.{number_width};
ghost use Rattle.base_cursor.specs.Steps.{varint_at};
ghost use Rattle.read_list.specs.Room.{Room, EntryReady};
ghost use Rattle.read_list.specs.Walked.{Putting};
ghost use Rattle.read_list.specs.Entries.{allows, Against, take_head, take_step, next_head, next_sample, check_value};
ghost use Rattle.read_list.specs.Entries.{turn, put_entry, list_left, Lists, put_entries};

use crate::known::put_known_steps;
use crate::run::walked;
use crate::{ListRule, State, Walk};
use base_cursor::Cursor;
use base_list::number_width;
use format::{Refusal, refusal_at};

// May the list hold `value` for a sample of the row? A list off a pair asks no row.
pub fn may_hold(held: ListRule, row: &[u8], sample: usize, value: u8) -> bool
    requires { Against held (suc sample) row.now }
    ensures { result ≡ allows held (get_or row.now sample 0) value }
{
    match held {
        ListRule::OffPair(lower, higher) => value != lower && value != higher,
        ListRule::OffRow => value != row[sample],
    }
}

// The head of a group: at least `least`, and below n. The next size byte stands at `size`.
fn take_head(s: &[u8], n: usize, least: usize, size: Cursor, st: State) -> Result<State, Refusal>
    requires { st.head.at + number_width n ≤ length s.now }
    ensures { result ≡ take_head s.now n least size st }
{
    let place = st.head.at;
    let read = st.head.number(s, number_width(n));
    let last = read.value;
    if last < least {
        return Err(refusal_at(23, place));
    }
    if last >= n {
        return Err(refusal_at(24, place));
    }
    Ok(State {
        room: 63,
        from: st.at,
        last,
        head: read.next,
        size,
        ..st
    })
}

// "the step from the sample before it in its group": at least 1, and to a sample below n.
pub fn take_step(s: &[u8], n: usize, st: State) -> Result<State, Refusal>
    requires { EntryReady s.now n st × (0 < st.room) }
    ensures { result ≡ take_step (varint_at s.now st.at.at) n st }
{
    let here = st.at.at;
    let (step, next) = st.at.varint(s)?;
    if step == 0 {
        return Err(refusal_at(23, here));
    }
    if step >= n - st.last {
        return Err(refusal_at(24, here));
    }
    Ok(State {
        room: st.room - 1,
        last: st.last + step,
        at: next,
        ..st
    })
}

// The head of the next group, after the size byte of the group before it ("63 less than the byte size of its group's varints").
pub fn next_head(s: &[u8], n: usize, st: State) -> Result<State, Refusal>
    requires { EntryReady s.now n st × (st.room ≡ 0) }
    ensures { result ≡ next_head s.now n st }
{
    if st.passed == 0 {
        return take_head(s, n, 0, st.size, st);
    }
    let read = st.size.number(s, 1);
    if st.at.at != st.from.at + (read.value + 63) {
        return Err(refusal_at(25, st.size.at));
    }
    take_head(s, n, st.last + 1, read.next, st)
}

// The sample of the next entry: the head of the next group, or a step in the same group.
pub fn next_sample(s: &[u8], n: usize, st: State) -> Result<State, Refusal>
    requires { EntryReady s.now n st }
    ensures { result ≡ next_sample s.now n st }
{
    if st.room == 0 {
        next_head(s, n, st)
    } else {
        take_step(s, n, st)
    }
}

// The value of the entry whose sample is st.last, looked at. Samples rise, so the row still has there what the list is against.
pub fn check_value(
    s: &[u8],
    values: usize,
    held: ListRule,
    st: State,
    row: &[u8],
) -> Result<State, Refusal>
    requires passed_in_bounds { (values + st.passed / 4 < length s.now) × (st.passed < most_samples) }
    requires against { Against held (suc st.last) row.now }
    ensures { result ≡ check_value s.now values held (Ok st) row.now }
{
    let passed = st.passed;
    let value = read_packed::two_bits(s, values, passed);
    if !may_hold(held, row, st.last, value) {
        return Err(refusal_at(17, values + passed / 4));
    }
    Ok(State {
        passed: passed + 1,
        ..st
    })
}

// One entry, put into the row.
fn put_entry(
    s: &[u8],
    n: usize,
    values: usize,
    held: ListRule,
    st: State,
    row: &mut [u8],
) -> Result<State, Refusal>
    requires entry_ready { EntryReady s.now n st }
    requires n_in_bounds { n ≤ length row.old }
    requires passed_in_bounds { values + st.passed / 4 < length s.now }
    ensures { turn result row.new ≡ put_entry s.now n values held st row.old }
{
    let next = next_sample(s, n, st)?;
    let passed = next.passed;
    let value = read_packed::two_bits(s, values, passed);
    if !may_hold(held, row, next.last, value) {
        return Err(refusal_at(17, values + passed / 4));
    }
    row[next.last] = value;
    Ok(State {
        passed: passed + 1,
        ..next
    })
}

// Steps of a byte or two that are accepted, as many as come one after another: a loop of its own, since it needs to carry so little.
fn put_short_steps(
    s: &[u8],
    n: usize,
    values: usize,
    held: ListRule,
    first: State,
    count: usize,
    row: &mut [u8],
) -> Walk
    requires room { Room s.now n values count first }
    requires n_in_bounds { n ≤ length row.old }
    ensures { Putting s.now n values held count first row.old row.new result.st result.more }
{
    let passed = first.passed;
    let least = first.room.min(count);
    let mut here = first.at;
    let mut last = first.last;
    let mut done = 0;
    while done < least {
        let Some((step, next)) = here.short(s) else {
            break;
        };
        if step == 0 || step >= n - last {
            break;
        }
        let sample = last + step;
        let value = read_packed::two_bits(s, values, passed + done);
        if !may_hold(held, row, sample, value) {
            break;
        }
        row[sample] = value;
        last = sample;
        here = next;
        done += 1;
    }
    walked(first, count, done, last, here)
}

// The steps that follow an entry. `known` tells that the list was accepted before.
fn put_steps(
    s: &[u8],
    n: usize,
    values: usize,
    held: ListRule,
    known: bool,
    first: State,
    count: usize,
    row: &mut [u8],
) -> Walk
    requires room { Room s.now n values count first }
    requires n_in_bounds { n ≤ length row.old }
    requires lists { known ≡ true → Lists (put_entries count s.now n values held first row.old) }
    ensures { Putting s.now n values held count first row.old row.new result.st result.more }
{
    if known {
        put_known_steps(s, n, values, first, count, row)
    } else {
        put_short_steps(s, n, values, held, first, count, row)
    }
}

// All entries, one after another.
pub fn put_entries(
    s: &[u8],
    n: usize,
    values: usize,
    held: ListRule,
    known: bool,
    first: State,
    count: usize,
    row: &mut [u8],
) -> Result<Cursor, Refusal>
    requires room { Room s.now n values count first }
    requires n_in_bounds { n ≤ length row.old }
    requires lists { known ≡ true → Lists (put_entries count s.now n values held first row.old) }
    ensures { list_left result row.new ≡ put_entries count s.now n values held first row.old }
{
    let mut st = first;
    let mut more = count;
    while more > 0 {
        let next = put_entry(s, n, values, held, st, row)?;
        let walk = put_steps(s, n, values, held, known, next, more - 1, row);
        st = walk.st;
        more = walk.more;
    }
    Ok(st.at)
}
