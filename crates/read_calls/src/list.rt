// A difference list only checked, and the heterozygous samples counted of what it makes of that which it is against. Neither is a row made nor one changed.
ghost use Rattle.std.specs.Prelude.{◌≡◌, ◌+◌, ◌/◌, ◌≤◌, ◌<◌, length, take};
ghost use Rattle.format.specs.Limits.{most_samples};
ghost use Rattle.format.specs.Phase.{heterozygous_count};
ghost use Rattle.read_list.specs.declared.ListRule.TheVariants.{OffRow};
ghost use Rattle.read_list.specs.Room.{Room, EntryReady};
ghost use Rattle.read_list.specs.Entries.{Against, check_entry, put_entries};
ghost use Rattle.read_calls.specs.Bases.{rule_of, category_before, base_row, BaseAt, BaseThere};
ghost use Rattle.read_calls.specs.Tallied.{Standing, Stepping};
ghost use Rattle.read_calls.specs.Counted.{counted_left, counted};

use crate::{StoredBase, Tally};
use base_calls::call_count;
use base_cursor::Cursor;
use format::Refusal;
use read_list::entry::{check_value, may_hold, next_sample};
use read_list::{ListRule, State, lay_parts, read_count};
use read_packed::{of_pair, one_bit, two_bits};

// 01, Categories and kinds: "No list holds a value it need not".
fn rule_of(base: StoredBase) -> ListRule
    ensures { result ≡ rule_of base }
{
    match base {
        StoredBase::Row => ListRule::OffRow,
        StoredBase::Bits(_, lower, higher) => ListRule::OffPair(lower, higher),
    }
}

// The category that a sample has without the list.
fn category_before(s: &[u8], base: StoredBase, row: &[u8], sample: usize) -> u8
    requires { BaseAt base s.now row.now sample }
    ensures { result ≡ category_before base s.now row.now sample }
{
    match base {
        StoredBase::Row => row[sample],
        StoredBase::Bits(at, lower, higher) => of_pair(one_bit(s, at, sample), lower, higher),
    }
}

// Steps of a byte or two that are accepted, as many as come one after another: a loop of its own, since it needs to carry so little.
fn count_short_steps(
    s: &[u8],
    n: usize,
    values: usize,
    base: StoredBase,
    from: Tally,
    row: &[u8],
) -> Tally
    requires { Standing s.now n values base row.now from }
    ensures { Stepping s.now n values base row.now from result }
{
    let held = rule_of(base);
    let mut st = from.st;
    let mut more = from.more;
    let mut had = from.had;
    let mut lost = from.lost;
    while more > 0 {
        if st.room == 0 {
            break;
        }
        let here = st.at;
        let Some((step, next)) = here.short(s) else {
            break;
        };
        if step == 0 {
            break;
        }
        if step >= n - st.last {
            break;
        }
        let sample = st.last + step;
        let value = two_bits(s, values, st.passed);
        if !may_hold(held, row, sample, value) {
            break;
        }
        had = had + (call_count(value) as usize);
        lost = lost + (call_count(category_before(s, base, row, sample)) as usize);
        st.room = st.room - 1;
        st.last = sample;
        st.passed = st.passed + 1;
        st.at = next;
        more = more - 1;
    }
    Tally {
        st,
        more,
        had,
        lost,
    }
}

// One entry, as a check has it. A function of its own: with two callers the check's would be inlined into neither, and every check of a list would pay.
fn count_entry(
    s: &[u8],
    n: usize,
    values: usize,
    held: ListRule,
    st: State,
    row: &[u8],
) -> Result<State, Refusal>
    requires entry_ready { EntryReady s.now n st }
    requires against { Against held n row.now }
    requires passed_in_bounds { values + st.passed / 4 < length s.now }
    ensures { result ≡ check_entry s.now n values held st row.now }
{
    let next = next_sample(s, n, st)?;
    check_value(s, values, held, next, row)
}

// All entries, one after another, from `first`. A sample that is listed leaves the count if it was heterozygous, and comes in if it is listed so.
fn count_entries(
    s: &[u8],
    n: usize,
    values: usize,
    base: StoredBase,
    first: Tally,
    row: &[u8],
) -> Result<(Cursor, usize), Refusal>
    requires room { Room s.now n values first.more first.st }
    requires n_le_most_samples { (n ≤ most_samples) × BaseThere base n s.now row.now }
    requires had_value { (first.had ≡ heterozygous_count (base_row base n s.now row.now)) × (first.lost ≡ 0) }
    ensures { result ≡ counted_left
        (put_entries first.more s.now n values (rule_of base) first.st (base_row base n s.now row.now)) }
{
    let held = rule_of(base);
    let mut t = first;
    while t.more > 0 {
        let st = t.st;
        let next = count_entry(s, n, values, held, st, row)?;
        let value = two_bits(s, values, st.passed);
        let old = category_before(s, base, row, next.last);
        let from = Tally {
            st: next,
            more: t.more - 1,
            had: t.had + (call_count(value) as usize),
            lost: t.lost + (call_count(old) as usize),
        };
        t = count_short_steps(s, n, values, base, from, row);
    }
    let st = t.st;
    let at = st.at;
    Ok((at, t.had - t.lost))
}

// The list at `c`, of n samples, against what `base` says, of which h are heterozygous: the cursor after it with the count of what it makes of them, or a
// refusal.
pub fn count_list(
    s: &[u8],
    n: usize,
    base: StoredBase,
    c: Cursor,
    row: &[u8],
    h: usize,
) -> Result<(Cursor, usize), Refusal>
    requires at_in_bounds { (c.at ≤ length s.now) × (n ≤ most_samples) × BaseThere base n s.now row.now }
    requires h_value { h ≡ heterozygous_count (base_row base n s.now row.now) }
    ensures { result ≡ counted (rule_of base) (base_row base n s.now row.now) n s.now c.at }
{
    let (m, next) = read_count(s, n, c)?;
    if m == 0 {
        return Ok((next, h));
    }
    let (values, first) = lay_parts(s, n, m, next)?;
    let from = Tally {
        st: first,
        more: m,
        had: h,
        lost: 0,
    };
    count_entries(s, n, values, base, from, row)
}

// Likewise against a row's first n bytes, its anchor's categories.
pub fn count_leaning(
    s: &[u8],
    n: usize,
    c: Cursor,
    row: &[u8],
    h: usize,
) -> Result<(Cursor, usize), Refusal>
    requires at_in_bounds { (c.at ≤ length s.now) × (n ≤ most_samples) × (n ≤ length row.now) }
    requires h_value { h ≡ heterozygous_count (take n row.now) }
    ensures { result ≡ counted OffRow (take n row.now) n s.now c.at }
{
    count_list(s, n, StoredBase::Row, c, row, h)
}
