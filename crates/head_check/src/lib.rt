// The header check: refusals 1 to 9 in their order, each at its place. 02, Ask 2: each names a variant, "M where no variant is concerned, 0 in 1 to 4".
#![tactic(auto)]

ghost use Rattle.std.specs.Prelude.{◌≡◌, true, false, [], ◌≤◌, length};
ghost use Rattle.format.specs.Base.{ok, refusal};
ghost use Rattle.format.specs.Limits.{variants_to_a_block};
ghost use Rattle.format.specs.Layout.{fields_of, unblocked, mode_covered, from_1_to, form_allowed, header_end};
ghost use Rattle.format.specs.Reply.{summary, header_left, header_call};
ghost use Rattle.head_index.specs.NumbersAt.{fixed_at};
ghost use Rattle.head_index.specs.Rules.{unused_arrays, after_fixed};
ghost use Rattle.head_blocks.specs.Parts.{fixed};
ghost use Rattle.head_check.specs.Ready.{FieldsPassed, Held, Placed};
ghost use Rattle.head_check.specs.Finding.{UnusedFound, TypesFound, EndsFound};

use format::{
    Fields, FileVariant, MOST_SAMPLES, MOST_VARIANTS, Refusal, VARIANTS_TO_A_BLOCK, refusal_at,
    refusal_of,
};
use head_blocks::{
    Blocks, blocks_of, fields_at, first_record, fixed_size, flags_clear, header_end, is_unblocked,
    unused_in,
};
use head_columns::{WrongOffset, bad_type, count_in, records_end, type_place};
use head_numbers::number_at;

// 01, What the software covers: "storage modes 0x02 and 0x10"
fn mode_covered(mode: u8) -> bool
    ensures { result ≡ mode_covered mode }
{
    is_unblocked(mode) || mode == 0x10
}

// 01: "samples N from 1 to 65,536; variants M from 1 to 16,777,216"
pub fn from_1_to(most: usize, n: usize) -> bool
    ensures { result ≡ from_1_to most n }
{
    1 <= n && n <= most
}

// 01, The header: "Mode 0x02: must be 0. Bits 4 and 5: must be 0. Bits 6 and 7: any"
fn form_allowed(mode: u8, form: u8) -> bool
    ensures { result ≡ form_allowed mode form }
{
    form % 64 < if is_unblocked(mode) { 1 } else { 8 }
}

// Refusals 7 and 9 where there are no blocks: one array of flag bits, if stored, up to the header's end, and records of one size.
fn check_unblocked(file: &[u8], f: Fields, end: usize) -> Result<Fields, Refusal>
    requires { Held file.now f × (end ≡ header_end variants_to_a_block (fixed f)) × (unblocked f.mode ≡ true) }
    ensures { header_left result ≡ summary (after_fixed variants_to_a_block file.now) }
{
    if !flags_clear(file, 12, f.variants, f.form / 64 == 3) {
        return Err(refusal_of(FileVariant(f.variants), 7, end - 1));
    }
    if first_record(f) + f.variants * fixed_size(f) != file.len() {
        return Err(refusal_of(FileVariant(f.variants), 9, file.len()));
    }
    Ok(f)
}

// 9, "block offset wrong, or records don't end at the file's end", where there are blocks.
fn check_ends(file: &[u8], f: Fields, b: Blocks) -> Result<Fields, Refusal>
    requires { Placed file.now f b × (unused_arrays variants_to_a_block (fixed f) file.now ≡ ok tt []) }
    ensures { EndsFound file.now result }
{
    match records_end(file, f.variants, b, first_record(f)) {
        Err(WrongOffset(block)) => Err(refusal_of(FileVariant(f.variants), 9, 12 + 8 * block)),
        Ok(last) => {
            if last != file.len() as u64 {
                return Err(refusal_of(FileVariant(f.variants), 9, file.len()));
            }
            Ok(f)
        }
    }
}

// 7, "unused header bits set". Every block but the last is full, and the arrays of a full block fill their bytes.
fn find_unused(file: &[u8], f: Fields, b: Blocks) -> Result<(), Refusal>
    requires { Placed file.now f b }
    ensures { UnusedFound file.now f result }
{
    let last = (f.variants - 1) / VARIANTS_TO_A_BLOCK;
    match unused_in(file, b.at + last * b.full, count_in(f.variants, last), b) {
        Some(place) => Err(refusal_of(FileVariant(f.variants), 7, place)),
        None => Ok(()),
    }
}

// 8, "type not allowed". 02, Ask 2: it names the variant of that type, "the lower one where one byte holds two such types".
fn bad_types(file: &[u8], f: Fields, b: Blocks) -> Result<(), Refusal>
    requires { Placed file.now f b }
    ensures { TypesFound file.now result }
{
    match bad_type(file, f.variants, b) {
        Some(v) => Err(refusal_of(v, 8, type_place(b, v))),
        None => Ok(()),
    }
}

// 7, then 8, then 9, where there are blocks.
fn check_blocked(file: &[u8], f: Fields) -> Result<Fields, Refusal>
    requires { Held file.now f × (unblocked f.mode ≡ false) }
    ensures { header_left result ≡ summary (after_fixed variants_to_a_block file.now) }
{
    let b = blocks_of(f);
    find_unused(file, f, b)?;
    bad_types(file, f, b)?;
    check_ends(file, f, b)
}

// 6, "file ends inside the header", then 7 to 9.
fn check_arrays(file: &[u8], f: Fields) -> Result<Fields, Refusal>
    requires { FieldsPassed file.now f }
    ensures { header_left result ≡ summary (after_fixed variants_to_a_block file.now) }
{
    let end = header_end(f);
    if file.len() < end {
        return Err(refusal_of(FileVariant(f.variants), 6, file.len()));
    }
    if is_unblocked(f.mode) {
        return check_unblocked(file, f, end);
    }
    check_blocked(file, f)
}

// 3, "mode not covered"; 4, "M or N outside its range", "M first"; 5, "form not allowed"; then 6 to 9.
fn check_fields(file: &[u8], f: Fields) -> Result<Fields, Refusal>
    requires { (12 ≤ length file.now) × ((fixed_at file.now).magic ≡ 0x1b6c) × (f ≡ fields_of (fixed_at file.now)) }
    ensures { header_left result ≡ header_call variants_to_a_block file.now }
{
    if !mode_covered(f.mode) {
        return Err(refusal_at(3, 2));
    }
    if !from_1_to(MOST_VARIANTS, f.variants) {
        return Err(refusal_at(4, 3));
    }
    if !from_1_to(MOST_SAMPLES, f.samples) {
        return Err(refusal_at(4, 7));
    }
    if !form_allowed(f.mode, f.form) {
        return Err(refusal_of(FileVariant(f.variants), 5, 11));
    }
    check_arrays(file, f)
}

// 01, Replies: "1 to 11 by number, the lowest place first within a number". 1, "file under 12 bytes"; 2, "magic wrong"; then 3 to 9.
pub fn check(file: &[u8]) -> Result<Fields, Refusal>
    ensures { header_left result ≡ header_call variants_to_a_block file.now }
{
    if file.len() < 12 {
        return Err(refusal_at(1, file.len()));
    }
    if number_at(file, 0, 2) != 0x1b6c {
        return Err(refusal_at(2, 0));
    }
    check_fields(file, fields_at(file))
}
