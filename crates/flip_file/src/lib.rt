// The flip of a set of variants in the file's own bytes. 01, Flipping: "The flag bits and every length and offset stay. Only types and record bodies
// may differ." Three passes over the variants: the phases of members (flip_phase); the main tracks, with the types as they were; then the types.
#![tactic(auto)]

ghost use Rattle.std.specs.Prelude.{◌≡◌, false, suc, ◌+◌, ◌%◌, ◌≤◌, ◌<◌, length, leb};
ghost use Rattle.format.specs.Base.{pick};
ghost use Rattle.format.specs.Limits.{most_samples, most_variants, variants_to_a_block};
ghost use Rattle.format.specs.Category.{just_one};
ghost use Rattle.format.specs.Packed.{four, eight, limit, more};
ghost use Rattle.format.specs.Layout.{unblocked, form_of};
ghost use Rattle.format.specs.File.{flip_bytes};
ghost use Rattle.format.specs.Reply.{emptied, member};
ghost use Rattle.format.specs.Body.{flip_kind, flip_type};
ghost use Rattle.head_blocks.specs.Parts.{fixed};
ghost use Rattle.flip_file.specs.Passes.{all_bodies, all_types, passes, digit_put, type_put, touched, type_flipped};
ghost use Rattle.flip_phase.specs.Accepted.{Accepted};

use base_variants::in_block;
use flip_body::{flip_body, next_lent};
use flip_phase::{flip_phases, is_member};
use format::{BlockVariant, Fields, FileVariant};
use head_blocks::{blocks_of, first_record, is_unblocked};
use head_columns::type_place;
use head_records::{size_of, stored_type, type_of};
use head_types::{kind_of, type_leans};

// Whether a record that starts there and has that size ends in the file.
fn fits(start: usize, size: usize, length: usize) -> bool
    ensures { result ≡ leb (start + size) length }
{
    start <= length && size <= length - start
}

// All bodies, in variant order. 01, Errors: "Flipping an anchor and leaving the records that lean on it."
fn flip_bodies(file: &mut [u8], f: Fields, set: &[u8])
    requires { (f.variants ≤ most_variants) × (f.samples ≤ most_samples) }
    ensures { file.new ≡ all_bodies variants_to_a_block (fixed f) (member set.now) file.old }
{
    let m = f.variants;
    let n = f.samples;
    let mut start = first_record(f);
    let mut lent = false;
    for v in 0..m {
        let record_type = type_of(&file[..], f, FileVariant(v));
        let size = size_of(&file[..], f, FileVariant(v));
        if !fits(start, size, file.len()) {
            return;
        }
        let end = start + size;
        let own = is_member(set, FileVariant(v));
        flip_body(file, start, end, n, record_type, lent, own);
        lent = next_lent(record_type, lent, own);
        start = end;
    }
}

// The first number if just one of the two is in the set, else the second.
fn by_memberships(lent: bool, own: bool, one: u8, other: u8) -> u8
    ensures { result ≡ pick (just_one lent own) one other }
{
    if lent == own { other } else { one }
}

// 01, Categories and kinds: kind 3 is kind 2 "then 0 and 2 exchanged for all samples"; kinds 4 and 6 list against 0 and 2.
fn flip_of_kind(lent: bool, own: bool, kind: u8) -> u8
    ensures { result ≡ flip_kind lent own kind }
{
    match kind {
        2 => by_memberships(lent, own, 3, 2),
        3 => by_memberships(lent, own, 2, 3),
        4 => if own { 6 } else { 4 },
        6 => if own { 4 } else { 6 },
        _ => kind,
    }
}

// 01, The header: "A type's low three bits are its kind." They change as the kind does, the others stay.
fn flip_of_type(lent: bool, own: bool, record_type: u8) -> u8
    ensures { result ≡ flip_type lent own record_type }
{
    record_type / 8 * 8 + flip_of_kind(lent, own, kind_of(record_type))
}

// In the set, or leaning on a member of it.
fn is_touched(lent: bool, own: bool, record_type: u8) -> bool
    ensures { result ≡ touched lent own record_type }
{
    own || (type_leans(record_type) && lent)
}

// 01, The header: "its packed types (low nibble first)": the byte that holds type i of a block, with x for that type; `half`: types of 4 bits, else of 8.
fn with_type(byte: u8, half: bool, i: BlockVariant, x: u8) -> u8
    requires { x < limit (pick half four eight) }
    ensures { result ≡ digit_put (limit (pick half four eight)) (i.0 % suc (more (pick half four eight))) x byte }
{
    if half {
        if i.0 % 2 == 0 {
            return byte / 16 * 16 + x;
        }
        return x * 16 + byte % 16;
    }
    x
}

fn put_type(file: &mut [u8], f: Fields, v: FileVariant, x: u8)
    requires { (f.variants ≤ most_variants) × (v.0 < f.variants) × (unblocked f.mode ≡ false) × (x < limit (form_of (fixed f)).type_bits) }
    ensures { file.new ≡ type_put variants_to_a_block (fixed f) v x file.old }
{
    let b = blocks_of(f);
    let place = type_place(b, v);
    let i = in_block(v);
    if place < file.len() {
        let byte = file[place];
        file[place] = with_type(byte, b.half, i, x);
    }
}

fn flip_type(file: &mut [u8], f: Fields, v: FileVariant, lent: bool, own: bool, record_type: u8)
    requires { (f.variants ≤ most_variants) × (v.0 < f.variants) × (unblocked f.mode ≡ false) × (record_type < limit (form_of (fixed f)).type_bits) }
    ensures { file.new ≡ type_flipped variants_to_a_block (fixed f) v lent own record_type file.old }
{
    if is_touched(lent, own, record_type) {
        let x = flip_of_type(lent, own, record_type);
        put_type(file, f, v, x);
    }
}

// All types, in variant order.
fn flip_types(file: &mut [u8], f: Fields, set: &[u8])
    requires { (f.variants ≤ most_variants) × (unblocked f.mode ≡ false) }
    ensures { file.new ≡ all_types variants_to_a_block (fixed f) (member set.now) file.old }
{
    let mut lent = false;
    for v in 0..f.variants {
        let record_type = stored_type(&file[..], f, FileVariant(v));
        let own = is_member(set, FileVariant(v));
        flip_type(file, f, FileVariant(v), lent, own, record_type);
        lent = next_lent(record_type, lent, own);
    }
}

// The main tracks, then the types. 01, The header: "Mode 0x02: no offsets, types or lengths".
fn flip_main_tracks(file: &mut [u8], f: Fields, set: &[u8])
    requires { (f.variants ≤ most_variants) × (f.samples ≤ most_samples) }
    ensures { file.new ≡ passes variants_to_a_block (fixed f) (member set.now) file.old }
{
    flip_bodies(file, f, set);
    if is_unblocked(f.mode) {
        return;
    }
    flip_types(file, f, set);
}

// A file that the whole-file check accepts, flipped; f are its fields. The row's first N bytes are zero then.
pub fn flip_accepted(file: &mut [u8], f: Fields, set: &[u8], row: &mut [u8])
    requires { Accepted variants_to_a_block file.old f × (f.samples ≤ length row.old) }
    ensures { (file.new ≡ flip_bytes variants_to_a_block (member set.now) file.old)
        × (row.new ≡ emptied f.samples row.old) }
{
    flip_phases(file, f, set, row);
    flip_main_tracks(file, f, set);
}
