// A record's main track only checked, and its heterozygous samples counted (02, Ask 1: H), in the form in which it is stored: no row is made. Every slice `s`
// is the file cut where the record ends, so that its length is the record's end and a place in it is a place in the file.
#![tactic(auto)]

ghost use Rattle.std.specs.Prelude.{◌≡◌, true, false, [], ◌≤◌, ◌<◌, length, replicate};
ghost use Rattle.std.specs.Int.Count;
ghost use Rattle.format.specs.Base.{pick};
ghost use Rattle.format.specs.Limits.{most_samples};
ghost use Rattle.format.specs.Phase.{heterozygous};
ghost use Rattle.format.specs.Track.{leans_kind};
ghost use Rattle.read_list.specs.declared.ListRule.TheVariants.{OffPair};
ghost use Rattle.read_calls.specs.Bytes.{four_calls, byte_calls};
ghost use Rattle.read_calls.specs.Counted.{counted};
ghost use Rattle.read_calls.specs.Tracks.{bits_counted, track_counted};

use base_calls::is_heterozygous;
use base_cursor::Cursor;
use format::{Kind, Refusal, refusal_at};
use read_list::check::check_list;
use read_list::{ListRule, State, lay_parts, read_count};
use read_packed::{Width, check_array};
use read_phase::{heterozygous_count, ones_in};
use read_record::pair_at;

pub mod list;

use crate::list::{count_leaning, count_list};

// What a list is against where it is walked to be counted: a row's categories; the categories of a pair, the lower and the higher, that the bits from a place
// on stand for.
#[derive(Clone, Copy)]
pub enum StoredBase {
    Row,
    Bits(usize, u8, u8),
}

// Where a walk through the entries of a list is, with how many are still to come, and the heterozygous samples so far: those that there were or that the list
// brought, and those that the list took.
#[derive(Clone, Copy)]
pub struct Tally {
    pub st: State,
    pub more: usize,
    pub had: usize,
    pub lost: usize,
}

// A bit for each heterozygous one of a byte's four categories: the low bit of each, where its high bit is clear.
fn call_bits(b: u8) -> u8
    ensures { Count.ones result ≡ four_calls b }
{
    b & !(b >> 1) & 0x55
}

// How many of the categories in some bytes are heterozygous.
fn packed_calls(part: &[u8]) -> usize
    requires { length part.now ≤ most_samples }
    ensures { result ≡ byte_calls part.now }
{
    let mut count: u32 = 0;
    for b in part {
        count += u8::count_ones(call_bits(*b));
    }
    count as usize
}

// "Kind 0: the packed array."
fn count_plain(s: &[u8], c: Cursor, n: usize) -> Result<(Cursor, usize), Refusal>
    requires { (c.at ≤ length s.now) × (n ≤ most_samples) }
    ensures { result ≡ track_counted Kind.Array n s.now c.at [] }
{
    let next = check_array(s, c, n, Width::Two)?;
    let at = c.at;
    let end = next.at;
    Ok((next, packed_calls(&s[at..end])))
}

// H of so many samples that are all in one category.
fn alike_calls(category: u8, count: usize) -> usize
    ensures { result ≡ pick (heterozygous category) count 0 }
{
    if is_heterozygous(category) { count } else { 0 }
}

// "a bit per sample (set: the higher category of the pair), then a list of pairs for samples in the other two categories"
fn count_under_code(
    s: &[u8],
    c: Cursor,
    n: usize,
    lower: u8,
    higher: u8,
) -> Result<(Cursor, usize), Refusal>
    requires { (c.at ≤ length s.now) × (n ≤ most_samples) }
    ensures { result ≡ bits_counted lower higher n s.now c.at }
{
    let next = check_array(s, c, n, Width::One)?;
    let at = c.at;
    let end = next.at;
    let ones = ones_in(&s[at..end]);
    let h = alike_calls(higher, ones) + alike_calls(lower, n - ones);
    // no row is looked at: the list is against the bits
    count_list(s, n, StoredBase::Bits(at, lower, higher), next, &s[..0], h)
}

// "Kind 1: a pair code". 14, "pair code unknown", at "that byte".
fn count_pair(s: &[u8], c: Cursor, n: usize) -> Result<(Cursor, usize), Refusal>
    requires { (c.at ≤ length s.now) × (n ≤ most_samples) }
    ensures { result ≡ track_counted Kind.Paired n s.now c.at [] }
{
    let (pair, next) = pair_at(s, c)?;
    count_under_code(s, next, n, pair.lower, pair.higher)
}

// "Kinds 4, 6, 7: a list of the samples outside category 0, 2, 3", of which none is heterozygous. So no listed sample was, and H is that of the list's values:
// their bytes are counted as they stand, with no walk, once the list is accepted. (Their unused bits are then zero, which is no call to count.)
fn count_sparse(s: &[u8], c: Cursor, n: usize, category: u8) -> Result<(Cursor, usize), Refusal>
    requires { (c.at ≤ length s.now) × (n ≤ most_samples) × (heterozygous category ≡ false) }
    ensures { result ≡ counted (OffPair category category) (replicate n category) n s.now c.at }
{
    let (m, next) = read_count(s, n, c)?;
    if m == 0 {
        return Ok((next, 0));
    }
    let (values, first) = lay_parts(s, n, m, next)?;
    // no row is looked at: the list is off a pair
    let past = check_list(s, n, ListRule::OffPair(category, category), c, &s[..0])?;
    let steps = first.at;
    let end = steps.at;
    Ok((past, packed_calls(&s[values..end])))
}

// The main track of a kind: the cursor past it, with H of the record's own row, or a refusal. The row's first n bytes hold the anchor's categories if it
// leans; no other kind looks at them. No kind is against category 1.
pub fn count_track(
    s: &[u8],
    c: Cursor,
    n: usize,
    kind: Kind,
    row: &[u8],
) -> Result<(Cursor, usize), Refusal>
    requires at_in_bounds { (c.at ≤ length s.now) × (n ≤ most_samples) }
    requires n_in_bounds { leans_kind kind ≡ true → n ≤ length row.now }
    requires other { kind ≡ Kind.AgainstCategory 1 → ⊥ }
    ensures { result ≡ track_counted kind n s.now c.at row.now }
{
    match kind {
        Kind::Array => count_plain(s, c, n),
        Kind::Paired => count_pair(s, c, n),
        Kind::AgainstAnchor(_) => count_leaning(s, n, c, row, heterozygous_count(row, n)),
        Kind::AgainstCategory(category) => count_sparse(s, c, n, category),
        Kind::NoKind => Err(refusal_at(8, 0)),
    }
}
