// The writer of one main-track record, in any of the seven kinds; in phased.rt, with a phase track after it.
#![tactic(auto)]

ghost use Rattle.std.specs.Prelude.{◌≡◌, ℕ, ◌≤◌, ◌<◌, length, get_or};
ghost use Rattle.format.specs.Base.{pick};
ghost use Rattle.format.specs.PairCode.{code_numbered};
ghost use Rattle.format.specs.Track.{kind, leans_kind};
ghost use Rattle.format.specs.Reply.{write_left, write_call};
ghost use Rattle.write_bytes.specs.Written.{Wrote};
ghost use Rattle.call_write.specs.Asked.{asked_code, asked_kind, asked_count, asked_bytes, AskedFits, RecordSize};
ghost use Rattle.call_write.specs.Checked.{first_above, check_categories, as_checked, kind_checks, record_checks};

use base_pairs::pair_of;
use format::{Kind, MOST_SAMPLES, Pair, Refusal, refusal_at};
use write_bytes::{Array, array_size, put_array};
use write_list::{ListSize, list_size, put_list};
use write_parts::Base;

pub mod phased;

// 01, Categories and kinds: what a kind and a pair code ask for. Kind 0, "the packed array"; kind 1, a pair's bits and list; the others, a list.
#[derive(Clone, Copy)]
pub enum Asked {
    Array,
    Pair(Pair),
    List(Base),
}

// The kind that the caller's number names. Document 01 gives the writer any number: one past a byte is no kind either.
fn kind_numbered(number: usize) -> Kind
    ensures { result ≡ kind number }
{
    u8::try_from(number).map_or(Kind::NoKind, Kind::from)
}

// The pair that a code asks for.
fn asked_pair(code: usize) -> Option<Asked>
    ensures { result ≡ asked_code (code_numbered code) }
{
    let code = u8::try_from(code).ok()?;
    pair_of(code).map(Asked::Pair)
}

// 01, Replies: 19, "kind or pair code not allowed"; the writer takes "a pair code (0 unless kind 1)".
fn asked_for(kind: Kind, code: usize) -> Option<Asked>
    ensures { result ≡ asked_kind kind code }
{
    match kind {
        Kind::Paired => asked_pair(code),
        _ if code != 0 => None,
        Kind::Array => Some(Asked::Array),
        Kind::AgainstAnchor(inverted) => Some(Asked::List(Base::Anchor { inverted })),
        Kind::AgainstCategory(category) => Some(Asked::List(Base::Category(category))),
        Kind::NoKind => None,
    }
}

// 01: "10 (anchor not as long as the categories in kinds 2 and 3, or not empty in another)". How long it has to be.
fn anchor_size(kind: Kind, samples: usize) -> usize
    ensures { result ≡ pick (leans_kind kind) samples 0 }
{
    match kind {
        Kind::AgainstAnchor(_) => samples,
        _ => 0,
    }
}

// A bound of all categories, the largest: one flat loop with no exit, as categories above 3 are rare.
fn largest(categories: &[u8]) -> u8
    ensures { (i : ℕ) → i < length categories.now → get_or categories.now i 0 ≤ result }
{
    let mut most: u8 = 0;
    for category in categories {
        most = most.max(*category);
    }
    most
}

// 01: 20, "category above 3", at "its index". The index of the first such category, else how many there are.
pub fn first_above_3(categories: &[u8]) -> usize
    ensures { result ≡ first_above categories.now }
{
    if largest(categories) <= 3 {
        return categories.len();
    }
    for (i, category) in categories.iter().enumerate() {
        if *category > 3 {
            return i;
        }
    }
    categories.len()
}

// 01: "20 (categories, then anchor; the index counts within its own buffer)".
fn check_categories(categories: &[u8], anchor: &[u8]) -> Result<(), Refusal>
    ensures { result ≡ as_checked (check_categories tt categories.now anchor.now) }
{
    let i = first_above_3(categories);
    if i < categories.len() {
        return Err(refusal_at(20, i));
    }
    let j = first_above_3(anchor);
    if j < anchor.len() {
        return Err(refusal_at(20, j));
    }
    Ok(())
}

// 01: "Order: 4 with place 0 (category count outside 1 to 65,536), 19, 10 (anchor not as long as the categories in kinds 2 and 3, or not empty in
// another)".
fn check_kind(categories: &[u8], kind: Kind, code: usize, anchor: &[u8]) -> Result<Asked, Refusal>
    ensures { result ≡ as_checked (kind_checks categories.now kind code anchor.now) }
{
    let samples = categories.len();
    if samples == 0 || samples > MOST_SAMPLES {
        return Err(refusal_at(4, 0));
    }
    let Some(asked) = asked_for(kind, code) else {
        return Err(refusal_at(19, 0));
    };
    if anchor.len() != anchor_size(kind, samples) {
        return Err(refusal_at(10, 0));
    }
    Ok(asked)
}

// 01: then "20".
fn check_record(categories: &[u8], kind: Kind, code: usize, anchor: &[u8]) -> Result<Asked, Refusal>
    ensures { result ≡ as_checked (record_checks categories.now kind code anchor.now) }
{
    let asked = check_kind(categories, kind, code, anchor)?;
    check_categories(categories, anchor)?;
    Ok(asked)
}

// How many bytes the record has, and how many entries its list.
fn record_size(asked: Asked, categories: &[u8], anchor: &[u8]) -> ListSize
    requires { AskedFits asked anchor.now categories.now }
    ensures { RecordSize asked anchor.now categories.now result }
{
    match asked {
        Asked::Array => ListSize {
            count: 0,
            bytes: array_size(Array::Categories, categories.len()),
        },
        Asked::Pair(pair) => {
            let lower = pair.lower;
            let higher = pair.higher;
            let bits = array_size(Array::Bits { higher }, categories.len());
            let list = list_size(Base::Pair { lower, higher }, categories, anchor);
            ListSize {
                count: list.count,
                bytes: 1 + bits + list.bytes,
            }
        }
        Asked::List(base) => list_size(base, categories, anchor),
    }
}

// 01, Categories and kinds: "Kind 1: a pair code, a bit per sample (set: the higher category of the pair), then a list of pairs for samples in the
// other two categories. ... A listed sample's bit may be either; the writer clears it."
fn put_pair(pair: Pair, categories: &[u8], anchor: &[u8], count: usize, output: &mut [u8]) -> usize
    requires asked_fits { AskedFits (Asked.Pair pair) anchor.now categories.now × (count ≡ asked_count (Asked.Pair pair) anchor.now categories.now) }
    requires categories_in_bounds { length (asked_bytes (Asked.Pair pair) anchor.now categories.now) ≤ length output.old }
    ensures { Wrote output.old 0 (asked_bytes (Asked.Pair pair) anchor.now categories.now) result output.new }
{
    let lower = pair.lower;
    let higher = pair.higher;
    output[0] = pair.code;
    let list = put_array(Array::Bits { higher }, categories, output, 1);
    put_list(
        Base::Pair { lower, higher },
        categories,
        anchor,
        count,
        output,
        list,
    )
}

// The record, from the output's start. Gives its byte count.
fn put_record(
    asked: Asked,
    categories: &[u8],
    anchor: &[u8],
    count: usize,
    output: &mut [u8],
) -> usize
    requires asked_fits { AskedFits asked anchor.now categories.now × (count ≡ asked_count asked anchor.now categories.now) }
    requires categories_in_bounds { length (asked_bytes asked anchor.now categories.now) ≤ length output.old }
    ensures { Wrote output.old 0 (asked_bytes asked anchor.now categories.now) result output.new }
{
    match asked {
        Asked::Array => put_array(Array::Categories, categories, output, 0),
        Asked::Pair(pair) => put_pair(pair, categories, anchor, count, output),
        Asked::List(base) => put_list(base, categories, anchor, count, output, 0),
    }
}

// Writes one main-track record. 01, Replies: "The writer takes categories, a kind, a pair code (0 unless kind 1), an anchor's categories (empty unless
// kind 2 or 3) and an output. ... It replies with the byte count; bytes past it are untouched. A refusal has count 0."
pub fn write_record(
    categories: &[u8],
    kind: usize,
    code: usize,
    anchor: &[u8],
    output: &mut [u8],
) -> Result<usize, Refusal>
    ensures { write_left result output.new ≡ write_call categories.now kind code anchor.now output.old }
{
    let kind = kind_numbered(kind);
    let asked = check_record(categories, kind, code, anchor)?;
    let size = record_size(asked, categories, anchor);
    if size.bytes > output.len() {
        return Err(refusal_at(10, 0));
    }
    Ok(put_record(asked, categories, anchor, size.count, output))
}
