// A record only checked: nothing is read into a row, so nothing is left of one after a refusal. One that leans looks at the row that holds its anchor's
// categories; another looks at no row, and may be read straight into an output once it is accepted. And the next record of a check of all. Every slice `s` is
// the file cut where the record ends, so that its length is the record's end and a place in it is a place in the file.
#![tactic(auto)]

ghost use Rattle.std.specs.Prelude.{◌≡◌, true, false, [], ◌≤◌, ◌<◌, length};
ghost use Rattle.format.specs.Body.{kind_of, type_leans};
ghost use Rattle.format.specs.Limits.{most_samples};
ghost use Rattle.format.specs.Track.{kind, leans_kind};
ghost use Rattle.read_record.specs.Recorded.{record_left, phased_left};
ghost use Rattle.read_check.specs.Checked.{track_checked, bits_checked, phased_checked, body_checked};
ghost use Rattle.read_list.specs.Entries.{list_left};
ghost use Rattle.read_check.specs.Straight.{straight_tracks, straight, straight_phased};
ghost use Rattle.read_check.specs.Next.{row_made, next_checked};

use base_cursor::Cursor;
use format::{Kind, Refusal, refusal_at};
use head_types::{kind_of, type_leans, type_phased};
use read_calls::count_track;
use read_list::ListRule;
use read_list::check::check_list;
use read_packed::{Width, check_array};
use read_record::{check_phased_end, pair_at, put_after, read_body, read_track, whole_record};

// "a bit per sample (set: the higher category of the pair), then a list of pairs for samples in the other two categories"
fn check_bits(s: &[u8], c: Cursor, n: usize, lower: u8, higher: u8) -> Result<Cursor, Refusal>
    requires { (c.at ≤ length s.now) × (n ≤ most_samples) }
    ensures { result ≡ bits_checked lower higher n s.now c.at }
{
    let next = check_array(s, c, n, Width::One)?;
    // no row is looked at: the list is off a pair
    check_list(s, n, ListRule::OffPair(lower, higher), next, &s[..0])
}

// "Kind 1: a pair code". 14, "pair code unknown", at "that byte".
fn check_pair(s: &[u8], c: Cursor, n: usize) -> Result<Cursor, Refusal>
    requires { (c.at ≤ length s.now) × (n ≤ most_samples) }
    ensures { result ≡ track_checked Kind.Paired n s.now c.at [] }
{
    let (pair, next) = pair_at(s, c)?;
    check_bits(s, next, n, pair.lower, pair.higher)
}

// The main track of a kind: the cursor past it, or a refusal. A further track of the record starts at that cursor; 13 is looked for after the last of them,
// so not here.
pub fn check_track(s: &[u8], c: Cursor, n: usize, kind: Kind, row: &[u8]) -> Result<Cursor, Refusal>
    requires at_in_bounds { (c.at ≤ length s.now) × (n ≤ most_samples) }
    requires n_in_bounds { leans_kind kind ≡ true → n ≤ length row.now }
    ensures { result ≡ track_checked kind n s.now c.at row.now }
{
    match kind {
        Kind::Array => check_array(s, c, n, Width::Two),
        Kind::Paired => check_pair(s, c, n),
        Kind::AgainstAnchor(_) => check_list(s, n, ListRule::OffRow, c, row),
        // "Kinds 4, 6, 7: a list of the samples outside category 0, 2, 3"
        Kind::AgainstCategory(category) => {
            check_list(s, n, ListRule::OffPair(category, category), c, row)
        }
        Kind::NoKind => Err(refusal_at(8, 0)),
    }
}

// A record with a phase track: H is counted as its main track is checked, so no row is made.
fn check_phased(s: &[u8], c: Cursor, n: usize, record_type: u8, row: &[u8]) -> Result<(), Refusal>
    requires { (c.at ≤ length s.now) × (n ≤ most_samples) × (n ≤ length row.now) }
    ensures { result ≡ phased_checked (kind (kind_of record_type)) n s.now c.at row.now }
{
    let kind = Kind::from(kind_of(record_type));
    let (next, h) = count_track(s, c, n, kind, row)?;
    check_phased_end(s, next, h)
}

// The record of a type, at `c`.
pub fn check_body(s: &[u8], c: Cursor, n: usize, record_type: u8, row: &[u8]) -> Result<(), Refusal>
    requires { (c.at ≤ length s.now) × (n ≤ most_samples) × (n ≤ length row.now) }
    ensures { result ≡ body_checked n record_type s.now c.at row.now }
{
    if type_phased(record_type) {
        return check_phased(s, c, n, record_type, row);
    }
    let kind = Kind::from(kind_of(record_type));
    whole_record(check_track(s, c, n, kind, row), s.len())
}

// 02, Ask 3: "Check such a record first, then unpack straight to the output." Of a record that leans on none: what the output holds is not looked at by the
// check, and a refusal leaves it as it was. Once the record is accepted its main track cannot be refused: the cursor past it.
fn straight_tracks(
    s: &[u8],
    c: Cursor,
    n: usize,
    record_type: u8,
    output: &mut [u8],
) -> Result<Cursor, Refusal>
    requires { (c.at ≤ length s.now) × (n ≤ most_samples) × (n ≤ length output.old) }
    ensures { list_left result output.new ≡ straight_tracks n record_type s.now c.at output.old }
{
    check_body(s, c, n, record_type, &output[..])?;
    let kind = Kind::from(kind_of(record_type));
    read_track(s, c, n, kind, true, output)
}

// Its categories, and nothing after its main track is looked at again.
pub fn read_straight(
    s: &[u8],
    c: Cursor,
    n: usize,
    record_type: u8,
    output: &mut [u8],
) -> Result<(), Refusal>
    requires at_in_bounds { (c.at ≤ length s.now) × (n ≤ most_samples) × (n ≤ length output.old) }
    requires leans { type_leans record_type ≡ false }
    ensures { record_left result output.new ≡ straight n record_type s.now c.at output.old }
{
    straight_tracks(s, c, n, record_type, output)?;
    Ok(())
}

// Likewise with its phases in theirs: a refusal leaves both as they were.
pub fn read_straight_phased(
    s: &[u8],
    c: Cursor,
    n: usize,
    record_type: u8,
    output: &mut [u8],
    phases: &mut [u8],
) -> Result<(), Refusal>
    requires at_in_bounds { (c.at ≤ length s.now) × (n ≤ most_samples) × (n ≤ length output.old) × (n ≤ length phases.old) }
    requires leans { type_leans record_type ≡ false }
    ensures { phased_left result output.new phases.new
        ≡ straight_phased n record_type s.now c.at output.old phases.old }
{
    let next = straight_tracks(s, c, n, record_type, output)?;
    put_after(s, next, n, record_type, &output[..], phases);
    Ok(())
}

// Whether a record's own row is made, in a check of all: one that leans on none is read into the row if the record after it leans.
fn row_made(record_type: u8, after: u8) -> bool
    ensures { result ≡ row_made record_type after }
{
    !type_leans(record_type) && type_leans(after)
}

// The next record of a check of all, in variant order; `after` is the type of the record after it. The row's first n bytes hold the anchor's categories if it
// leans, and then they stay. They become its own only where its row is made; elsewhere nothing looks at them.
pub fn check_next(
    s: &[u8],
    c: Cursor,
    n: usize,
    record_type: u8,
    after: u8,
    row: &mut [u8],
) -> Result<(), Refusal>
    requires { (c.at ≤ length s.now) × (n ≤ most_samples) × (n ≤ length row.old) }
    ensures { record_left result row.new ≡ next_checked n record_type after s.now c.at row.old }
{
    if row_made(record_type, after) {
        return read_body(s, c, n, record_type, row);
    }
    check_body(s, c, n, record_type, &row[..])
}
