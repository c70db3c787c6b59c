// A record's body, checked and read into a row of categories (01, Categories and kinds). Every slice `s` is the file cut where the record ends,
// so that its length is the record's end and a place in it is a place in the file.
#![tactic(auto)]

ghost use Rattle.std.specs.Prelude.{◌≡◌, true, ◌≤◌, ◌<◌, length, take, drop};
ghost use Rattle.format.specs.Phase.{heterozygous_count, read_phase_track};
ghost use Rattle.format.specs.Body.{type_phased};
ghost use Rattle.format.specs.Limits.{most_samples};
ghost use Rattle.read_list.specs.Entries.{list_left, Lists};
ghost use Rattle.read_record.specs.Rows.{wiped, stored, pair_at, pair_categories, tracked, turned};
ghost use Rattle.read_list.specs.Checked.{stepped};
ghost use Rattle.read_record.specs.Recorded.{whole_record, end_checked, tracks_read, record_left, recorded};
ghost use Rattle.read_record.specs.Recorded.{AfterThere, after_put, phased_left, phased_recorded};

use base_cursor::Cursor;
use format::{Kind, Pair, Refusal, refusal_at};
use head_types::{kind_of, type_phased};
use read_list::ListRule;
use read_phase::{check_phases, heterozygous_count, put_phases};

// "Kind 0: the packed array."
fn read_array(s: &[u8], c: Cursor, n: usize, row: &mut [u8]) -> Result<Cursor, Refusal>
    requires { (c.at ≤ length s.now) × (n ≤ most_samples) × (n ≤ length row.old) }
    ensures { wiped n (list_left result row.new) ≡ tracked Kind.Array n s.now c.at row.old }
{
    read_packed::unpack_categories(s, c, n, row)
}

// "a bit per sample (set: the higher category of the pair), then a list of pairs for samples in the other two categories"
fn read_bits(
    s: &[u8],
    c: Cursor,
    n: usize,
    lower: u8,
    higher: u8,
    known: bool,
    row: &mut [u8],
) -> Result<Cursor, Refusal>
    requires at_in_bounds { (c.at ≤ length s.now) × (n ≤ most_samples) × (n ≤ length row.old) }
    requires lists { known ≡ true → Lists (stored (length s.now) n row.old (pair_categories lower higher n s.now c.at)) }
    ensures { wiped n (list_left result row.new)
        ≡ stored (length s.now) n row.old (pair_categories lower higher n s.now c.at) }
{
    let next = read_packed::unpack_pair(s, c, n, lower, higher, row)?;
    read_list::put_list(s, n, ListRule::OffPair(lower, higher), known, next, row)
}

// "Kind 1: a pair code". 14, "pair code unknown", at "that byte". Its pair, with the cursor past it.
pub fn pair_at(s: &[u8], c: Cursor) -> Result<(Pair, Cursor), Refusal>
    ensures { result ≡ pair_at s.now c.at }
{
    let (code, next) = c.byte(s)?;
    match base_pairs::pair_of(code) {
        None => Err(refusal_at(14, c.at)),
        Some(pair) => Ok((pair, next)),
    }
}

fn read_pair(s: &[u8], c: Cursor, n: usize, known: bool, row: &mut [u8]) -> Result<Cursor, Refusal>
    requires at_in_bounds { (c.at ≤ length s.now) × (n ≤ most_samples) × (n ≤ length row.old) }
    requires lists { known ≡ true → Lists (tracked Kind.Paired n s.now c.at row.old) }
    ensures { wiped n (list_left result row.new) ≡ tracked Kind.Paired n s.now c.at row.old }
{
    let (pair, next) = pair_at(s, c)?;
    read_bits(s, next, n, pair.lower, pair.higher, known, row)
}

// The exchange of an inverted kind.
fn exchange_row_if(row: &mut [u8], n: usize, inverted: bool)
    requires { n ≤ length row.old }
    ensures { row.new ≡ turned inverted n row.old }
{
    if inverted {
        base_rows::exchange_row(row, n);
    }
}

// "Kind 2: a list against the anchor". "Kind 3: as kind 2, then 0 and 2 exchanged for all samples", so after the list: in kind 3 the listed
// values are the ones before inversion.
fn read_leaning(
    s: &[u8],
    c: Cursor,
    n: usize,
    inverted: bool,
    row: &mut [u8],
) -> Result<Cursor, Refusal>
    requires { (c.at ≤ length s.now) × (n ≤ most_samples) × (n ≤ length row.old) }
    ensures { wiped n (list_left result row.new) ≡ tracked (Kind.AgainstAnchor inverted) n s.now c.at row.old }
{
    let got = read_list::put_list(s, n, ListRule::OffRow, false, c, row);
    exchange_row_if(row, n, inverted);
    got
}

// "Kinds 4, 6, 7: a list of the samples outside category 0, 2, 3": put into a row in that category, and off it, so that no value asks the row.
fn read_sparse(
    s: &[u8],
    c: Cursor,
    n: usize,
    category: u8,
    known: bool,
    row: &mut [u8],
) -> Result<Cursor, Refusal>
    requires at_in_bounds { (c.at ≤ length s.now) × (n ≤ most_samples) × (n ≤ length row.old) }
    requires lists { known ≡ true → Lists (tracked (Kind.AgainstCategory category) n s.now c.at row.old) }
    ensures { wiped n (list_left result row.new) ≡ tracked (Kind.AgainstCategory category) n s.now c.at row.old }
{
    base_rows::fill(row, n, category);
    read_list::put_list(s, n, ListRule::OffPair(category, category), known, c, row)
}

// The main track of a kind. 8, "type not allowed", of no kind: the header lets no such record through. `known` tells that it was accepted before.
pub fn read_track(
    s: &[u8],
    c: Cursor,
    n: usize,
    kind: Kind,
    known: bool,
    row: &mut [u8],
) -> Result<Cursor, Refusal>
    requires at_in_bounds { (c.at ≤ length s.now) × (n ≤ most_samples) × (n ≤ length row.old) }
    requires lists { known ≡ true → Lists (tracked kind n s.now c.at row.old) }
    ensures { wiped n (list_left result row.new) ≡ tracked kind n s.now c.at row.old }
{
    match kind {
        Kind::Array => read_array(s, c, n, row),
        Kind::Paired => read_pair(s, c, n, known, row),
        Kind::AgainstAnchor(inverted) => read_leaning(s, c, n, inverted, row),
        Kind::AgainstCategory(category) => read_sparse(s, c, n, category, known, row),
        Kind::NoKind => Err(refusal_at(8, 0)),
    }
}

// 01, Replies: "Lastly 13". `got` is what the last track gave of a record that ends at `end`.
pub fn whole_record(got: Result<Cursor, Refusal>, end: usize) -> Result<(), Refusal>
    ensures { result ≡ whole_record end got }
{
    let next = got?;
    if next.at < end {
        return Err(refusal_at(13, next.at));
    }
    Ok(())
}

// 02, Ask 1: the phase track at `c`, over h heterozygous calls: the cursor past it.
fn past_phases(s: &[u8], c: Cursor, h: usize) -> Result<Cursor, Refusal>
    requires { (c.at ≤ length s.now) × (h ≤ most_samples) }
    ensures { result ≡ stepped (length s.now) (read_phase_track (length s.now) h (drop c.at s.now)) }
{
    check_phases(s, c, h)
}

// The phase track at `c`, over h heterozygous calls, and nothing after it.
pub fn check_phased_end(s: &[u8], c: Cursor, h: usize) -> Result<(), Refusal>
    requires { (c.at ≤ length s.now) × (h ≤ most_samples) }
    ensures { result ≡ end_checked true h s.now c.at }
{
    whole_record(past_phases(s, c, h), s.len())
}

// What follows the main track of a record of a type, whose own categories the row's first n bytes hold: its phase track if it has one, and nothing after it.
fn check_end(s: &[u8], c: Cursor, n: usize, record_type: u8, row: &[u8]) -> Result<(), Refusal>
    requires { (c.at ≤ length s.now) × (n ≤ most_samples) × (n ≤ length row.now) }
    ensures { result ≡ end_checked (type_phased record_type) (heterozygous_count (take n row.now)) s.now c.at }
{
    if type_phased(record_type) {
        return check_phased_end(s, c, heterozygous_count(row, n));
    }
    whole_record(Ok(c), s.len())
}

// The tracks of the record of a type, at `c`: the cursor past the main one. The row's first n bytes hold the anchor's categories if it leans; they become the
// record's own.
fn put_tracks(
    s: &[u8],
    c: Cursor,
    n: usize,
    record_type: u8,
    row: &mut [u8],
) -> Result<Cursor, Refusal>
    requires { (c.at ≤ length s.now) × (n ≤ most_samples) × (n ≤ length row.old) }
    ensures { wiped n (list_left result row.new) ≡ tracks_read n record_type s.now c.at row.old }
{
    let kind = Kind::from(kind_of(record_type));
    let next = read_track(s, c, n, kind, false, row)?;
    check_end(s, next, n, record_type, &row[..])?;
    Ok(next)
}

// The same, and after a refusal the row's first n bytes are zero.
pub fn read_tracks(
    s: &[u8],
    c: Cursor,
    n: usize,
    record_type: u8,
    row: &mut [u8],
) -> Result<Cursor, Refusal>
    requires { (c.at ≤ length s.now) × (n ≤ most_samples) × (n ≤ length row.old) }
    ensures { list_left result row.new ≡ tracks_read n record_type s.now c.at row.old }
{
    let got = put_tracks(s, c, n, record_type, row);
    if got.is_err() {
        base_rows::clear(row, n);
    }
    got
}

// The record of a type, at `c`, read into the row likewise.
pub fn read_body(
    s: &[u8],
    c: Cursor,
    n: usize,
    record_type: u8,
    row: &mut [u8],
) -> Result<(), Refusal>
    requires at_in_bounds { (c.at ≤ length s.now) × (n ≤ most_samples) × (n ≤ length row.old) }
    ensures { record_left result row.new ≡ recorded n record_type s.now c.at row.old }
{
    read_tracks(s, c, n, record_type, row)?;
    Ok(())
}

// The phases of an accepted record of a type, whose tracks after the main one start at `c`, by its own row. Without a track all are unphased.
pub fn put_after(s: &[u8], c: Cursor, n: usize, record_type: u8, row: &[u8], output: &mut [u8])
    requires after_there { AfterThere n record_type s.now c.at row.now }
    requires n_in_bounds { (n ≤ length row.now) × (n ≤ length output.old) × (n ≤ most_samples) }
    ensures { output.new ≡ after_put n record_type s.now c.at row.now output.old }
{
    if type_phased(record_type) {
        put_phases(s, c, n, row, output);
    } else {
        base_rows::clear(output, n);
    }
}

// The record of a type, at `c`: its categories into the row, as `read_body` has them, and its phases into the output.
pub fn read_phased(
    s: &[u8],
    c: Cursor,
    n: usize,
    record_type: u8,
    row: &mut [u8],
    output: &mut [u8],
) -> Result<(), Refusal>
    requires at_in_bounds { (c.at ≤ length s.now) × (n ≤ most_samples) × (n ≤ length row.old) }
    requires output_in_bounds { n ≤ length output.old }
    ensures { phased_left result row.new output.new
        ≡ phased_recorded n record_type s.now c.at row.old output.old }
{
    let next = read_tracks(s, c, n, record_type, row)?;
    put_after(s, next, n, record_type, &row[..], output);
    Ok(())
}
