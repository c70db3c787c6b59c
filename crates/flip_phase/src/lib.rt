// The phase bits of members, turned where they stand (02, Ask 1): a pass of its own over a file's records, before that over their main tracks.
#![tactic(auto)]

ghost use Rattle.std.specs.Prelude.{◌≡◌, true, false, ◌&&◌, ◌≤◌, length, take};
ghost use Rattle.format.specs.Limits.{most_variants, variants_to_a_block};
ghost use Rattle.format.specs.Phase.{heterozygous_count};
ghost use Rattle.format.specs.Body.{type_leans, type_phased};
ghost use Rattle.format.specs.Reply.{member};
ghost use Rattle.flip_phase.specs.Turned.{TrackThere, track_turned};
ghost use Rattle.flip_phase.specs.OneRecord.{RecordThere, CountHeld, MainPassed, MainRead, Passed};
ghost use Rattle.flip_phase.specs.Accepted.{Accepted};
ghost use Rattle.flip_phase.specs.AllRecords.{LeansIfAny, PhasedIfAny, AllPassed};

use base_cursor::Cursor;
use base_rows::clear;
use format::{Fields, FileVariant, Kind};
use head_blocks::first_record;
use head_places::Place;
use head_records::{byte_at, size_of, type_of};
use head_types::{kind_of, type_leans, type_phased};
use read_calls::list::count_leaning;
use read_phase::{first_count, heterozygous_count, phased_count, presence_stored};
use read_record::read_track;

// Where a record's main track ends, and how many of its samples are heterozygous.
#[derive(Clone, Copy)]
pub struct Main {
    pub end: Cursor,
    pub count: usize,
}

// 02, Ask 1: "A flip turns each phase bit of a flipped variant". The track at `c`, over h heterozygous calls: "The phase bits begin at the next byte
// boundary, one per phased call". The bits before them stay, and so do the unused ones.
pub fn flip_track(s: &mut [u8], c: Cursor, h: usize)
    requires { TrackThere h c.at s.old }
    ensures { s.new ≡ track_turned h c.at s.old }
{
    let at = c.at;
    let stored = presence_stored(&s[..], at);
    let bits = at + (first_count(stored, h) + 7) / 8;
    let count = phased_count(&s[at..bits], stored, h);
    flip_bytes::complement_bits(s, bits, count);
}

// The main track of a record that leans: its list is counted over its anchor's row, which stays, and of which h are heterozygous.
fn pass_leaning(file: &[u8], p: Place, n: usize, row: &[u8], h: usize) -> Main
    requires record_there { RecordThere n p row.now file.now }
    requires record_type_value { (type_leans p.record_type ≡ true) × (h ≡ heterozygous_count (take n row.now)) }
    ensures { MainPassed n p row.now file.now result }
{
    let end = p.end;
    let here = Cursor { at: p.start };
    match count_leaning(&file[..end], n, here, row, h) {
        Err(_) => Main {
            end: here,
            count: 0,
        },
        Ok((end, count)) => Main { end, count },
    }
}

// The main track of any other record, read into the row.
fn read_standing(file: &[u8], p: Place, n: usize, row: &mut [u8]) -> Main
    requires { RecordThere n p row.old file.now × (type_leans p.record_type ≡ false) }
    ensures { MainRead n p row.old file.now row.new result }
{
    let end = p.end;
    let here = Cursor { at: p.start };
    let got = read_track(
        &file[..end],
        here,
        n,
        Kind::from(kind_of(p.record_type)),
        false,
        row,
    );
    let count = heterozygous_count(&row[..], n);
    match got {
        Err(_) => Main { end: here, count },
        Ok(next) => Main { end: next, count },
    }
}

// Whether a record has phase bits to turn.
fn turns(own: bool, record_type: u8) -> bool
    ensures { result ≡ own && type_phased record_type }
{
    own && type_phased(record_type)
}

// One record. `own`: it is in the set; a record that only leans on a member keeps its phase bits. `leant`: the next record leans, on this one or on
// what this one leans on; the row then holds those categories, of which so many are heterozygous.
fn flip_record(
    file: &mut [u8],
    p: Place,
    n: usize,
    own: bool,
    leant: bool,
    h: usize,
    row: &mut [u8],
) -> usize
    requires { RecordThere n p row.old file.old × CountHeld n p row.old h }
    ensures { Passed n p row.old own leant file.old file.new row.new result }
{
    let turn = turns(own, p.record_type);
    if type_leans(p.record_type) {
        if turn {
            let main = pass_leaning(&file[..], p, n, &row[..], h);
            flip_track(file, main.end, main.count);
        }
        return h;
    }
    if turn {
        let main = read_standing(&file[..], p, n, row);
        flip_track(file, main.end, main.count);
        return main.count;
    }
    if leant {
        let main = read_standing(&file[..], p, n, row);
        return main.count;
    }
    h
}

// 01, Flipping: "The set has bit v for variant v."
pub fn is_member(set: &[u8], v: FileVariant) -> bool
    ensures { result ≡ member set.now v }
{
    let b = byte_at(set, v.0 / 8);
    (b >> (v.0 % 8)) % 2 == 1
}

// Whether variant v leans. Past the last one there is none.
fn leans_if_any(file: &[u8], f: Fields, v: FileVariant) -> bool
    requires { f.variants ≤ most_variants }
    ensures { LeansIfAny file.now f v result }
{
    v.0 < f.variants && type_leans(type_of(file, f, v))
}

// All records, in variant order. Only those are read that have phase bits to turn or that the next one leans on.
fn flip_records(file: &mut [u8], f: Fields, set: &[u8], row: &mut [u8])
    requires { Accepted variants_to_a_block file.old f × (f.samples ≤ length row.old) }
    ensures { AllPassed (member set.now) f.samples row.old file.old file.new row.new }
{
    let m = f.variants;
    let n = f.samples;
    let mut start = first_record(f);
    let mut h = 0;
    for v in 0..m {
        let record_type = type_of(&file[..], f, FileVariant(v));
        let end = start + size_of(&file[..], f, FileVariant(v));
        let p = Place {
            start,
            end,
            record_type,
        };
        let own = is_member(set, FileVariant(v));
        let leant = leans_if_any(&file[..], f, FileVariant(v + 1));
        h = flip_record(file, p, n, own, leant, h, row);
        start = end;
    }
    clear(row, n);
}

// Whether any record has a phase track. 01, The header: form "0 to 3 mean 4-bit record types", which have no bit 4.
fn any_phased(file: &[u8], f: Fields) -> bool
    requires { f.variants ≤ most_variants }
    ensures { PhasedIfAny file.now f result }
{
    if f.form % 16 < 4 {
        return false;
    }
    for v in 0..f.variants {
        if type_phased(type_of(file, f, FileVariant(v))) {
            return true;
        }
    }
    false
}

// A file that the whole-file check accepts, with the phases of members flipped; f are its fields. A file without phase tracks costs no pass over its
// records. The row's first n bytes are zero then.
pub fn flip_phases(file: &mut [u8], f: Fields, set: &[u8], row: &mut [u8])
    requires { Accepted variants_to_a_block file.old f × (f.samples ≤ length row.old) }
    ensures { AllPassed (member set.now) f.samples row.old file.old file.new row.new }
{
    if any_phased(&file[..], f) {
        flip_records(file, f, set, row);
        return;
    }
    clear(row, f.samples);
}
