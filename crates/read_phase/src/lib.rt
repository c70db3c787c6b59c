// The phase track of a record: H of a row, the track checked, the track put into an output. Every slice `s` is the file cut where the record ends, so
// that its length is the record's end.
#![tactic(auto)]

ghost use Rattle.std.specs.Prelude.{◌≡◌, suc, ◌+◌, ◌-◌, ◌/◌, ◌<◌, ◌≤◌, true, length, take};
ghost use Rattle.format.specs.Base.{pick};
ghost use Rattle.format.specs.Limits.{most_samples};
ghost use Rattle.format.specs.Phase.{heterozygous_count};
ghost use Rattle.read_phase.specs.Phases.{byte_ones, stored_at, phases_at, PhasesThere, phases_put};
ghost use Rattle.read_phase.specs.Parts.{presence_at, phase_of, PartsThere, calls_put, spread_from, parts_put};

use base_calls::call_count;
use base_cursor::Cursor;
use format::Refusal;
use read_packed::{Width, check_array, one_bit, packed_size};

// H of a part of a row, in a byte, so that the loop goes over many samples at once.
fn count_in(part: &[u8]) -> u8
    requires { length part.now ≤ 255 }
    ensures { result ≡ heterozygous_count part.now }
{
    let mut count = 0u8;
    for category in part {
        count += call_count(*category);
    }
    count
}

// 02, Ask 1: "H is the number of samples in category 1." In parts of one size, which the compiler knows, and the rest.
pub fn heterozygous_count(row: &[u8], n: usize) -> usize
    requires { (n ≤ length row.now) × (n ≤ most_samples) }
    ensures { result ≡ heterozygous_count (take n row.now) }
{
    let parts = row[..n].chunks_exact(224);
    let rest = parts.remainder();
    let mut count = 0usize;
    for part in parts {
        count += usize::from(count_in(part));
    }
    count + usize::from(count_in(rest))
}

// How many bits of some bytes are set.
pub fn ones_in(part: &[u8]) -> usize
    requires { length part.now ≤ most_samples }
    ensures { result ≡ byte_ones part.now }
{
    let mut count = 0u32;
    for b in part {
        count += b.count_ones();
    }
    count as usize
}

// 02, Ask 1: "The track's first bit says whether H presence bits follow it at once". Clear where the record has ended.
pub fn presence_stored(s: &[u8], at: usize) -> bool
    ensures { result ≡ stored_at s.now at }
{
    at < s.len() && s[at] % 2 == 1
}

// How many bits stand before the phase bits.
pub fn first_count(stored: bool, h: usize) -> usize
    requires { h ≤ most_samples }
    ensures { result ≡ suc (pick stored h 0) }
{
    if stored { h + 1 } else { 1 }
}

// 02, Ask 1: "The reader finds P by counting ones in the presence bits." They follow the first bit, which is set.
pub fn phased_count(part: &[u8], stored: bool, h: usize) -> usize
    requires { (length part.now ≤ most_samples) × (stored ≡ true → 0 < byte_ones part.now) }
    ensures { result ≡ pick stored (byte_ones part.now - 1) h }
{
    if stored { ones_in(part) - 1 } else { h }
}

// 01, Replies: "first that the part fits (12), then its rule": the presence bits with the first, then the phase bits.
pub fn check_phases(s: &[u8], c: Cursor, h: usize) -> Result<Cursor, Refusal>
    requires { (c.at ≤ length s.now) × (h ≤ most_samples) }
    ensures { result ≡ phases_at h s.now c.at }
{
    let at = c.at;
    let stored = presence_stored(s, at);
    let next = check_array(s, c, first_count(stored, h), Width::One)?;
    let count = phased_count(&s[at..next.at], stored, h);
    check_array(s, next, count, Width::One)
}

// Where the parts of a track stand, and how many phase bits it has.
#[derive(Drop)]
struct PhaseParts {
    at: usize,
    stored: bool,
    bits: usize,
    count: usize,
}

// Presence bit k of the track whose first bit stands at `at`. 02, Ask 1: "if clear, all are phased".
fn presence_bit(s: &[u8], at: usize, stored: bool, k: usize) -> u8
    requires { (k ≤ most_samples) × (stored ≡ true → at + (k + 1) / 8 < length s.now) }
    ensures { result ≡ presence_at stored s.now at k }
{
    if stored { one_bit(s, at, k + 1) } else { 1 }
}

// 02, Ask 1: "0 unphased, 1 unswapped, 2 swapped". The phase of a sample, by whether its call is phased, and by the phase bit.
fn phase_of(on: u8, bit: u8) -> u8
    ensures { result ≡ phase_of on bit }
{
    if on == 0 {
        0
    } else if bit == 0 {
        1
    } else {
        2
    }
}

// The phases of the h heterozygous calls, one after another, in an output's first h bytes. Once the phase bits are used up, all other calls are
// unphased: so the loop looks for no bit that is not there, and has no other test.
fn put_calls(s: &[u8], parts: PhaseParts, h: usize, output: &mut [u8])
    requires parts_there { PartsThere h s.now parts }
    requires h_in_bounds { (h ≤ length output.old) × (h ≤ most_samples) }
    ensures { output.new ≡ calls_put h s.now parts output.old }
{
    base_rows::clear(output, h);
    let mut k = 0usize;
    let mut p = 0usize;
    while p < parts.count {
        let on = presence_bit(s, parts.at, parts.stored, k);
        output[k] = phase_of(on, one_bit(s, parts.bits, p));
        k += 1;
        p += usize::from(on);
    }
}

// The phases that stand one after another at an output's front, to their samples from `from` up to `to`; h calls stand before `to`, and it gives how
// many stand before `from`. It goes backwards, as a sample's phase stands at the sample's own place or before it: so no phase is overwritten that is
// still to be read.
fn spread_samples(from: usize, to: usize, h: usize, row: &[u8], output: &mut [u8]) -> usize
    requires from_le_to { (from ≤ to) × (to ≤ length row.now) × (to ≤ length output.old) }
    requires h_value { h ≡ heterozygous_count (take to row.now) }
    ensures value { result ≡ heterozygous_count (take from row.now) }
    ensures output_after { output.new ≡ spread_from from to row.now output.old }
{
    let mut k = h;
    for i in (from..to).rev() {
        let here = call_count(row[i]);
        k -= usize::from(here);
        output[i] = here * output[k];
    }
    k
}

// The same for a short part, which is only cleared where no sample of it is heterozygous: that is quicker than to go through its samples.
fn spread_part(from: usize, to: usize, h: usize, row: &[u8], output: &mut [u8]) -> usize
    requires from_le_to { (from ≤ to) × (to ≤ from + 16) × (to ≤ length row.now) × (to ≤ length output.old) }
    requires h_value { h ≡ heterozygous_count (take to row.now) }
    ensures value { result ≡ heterozygous_count (take from row.now) }
    ensures output_after { output.new ≡ spread_from from to row.now output.old }
{
    if count_in(&row[from..to]) == 0 {
        base_rows::clear(&mut output[from..to], to - from);
        return h;
    }
    spread_samples(from, to, h, row, output)
}

// All of them to their samples, the first n of the row, a short part at a time, from the last to the first.
fn spread_calls(n: usize, h: usize, row: &[u8], output: &mut [u8])
    requires n_in_bounds { (n ≤ length row.now) × (n ≤ length output.old) }
    requires h_value { h ≡ heterozygous_count (take n row.now) }
    ensures { output.new ≡ spread_from 0 n row.now output.old }
{
    let mut i = n;
    let mut k = h;
    while 0 < i {
        let from = i.saturating_sub(16);
        k = spread_part(from, i, k, row, output);
        i = from;
    }
}

// The phases that the parts tell, in two passes, so that bits are looked for once for each call, and not for each sample.
fn put_bits(s: &[u8], parts: PhaseParts, h: usize, n: usize, row: &[u8], output: &mut [u8])
    requires parts_there { PartsThere h s.now parts × (h ≡ heterozygous_count (take n row.now)) }
    requires n_in_bounds { (n ≤ length row.now) × (n ≤ length output.old) × (n ≤ most_samples) }
    ensures { output.new ≡ parts_put n s.now parts row.now output.old }
{
    put_calls(s, parts, h, output);
    spread_calls(n, h, row, output);
}

// 02, Ask 1: "A new reading fills N bytes": the phases of an accepted track into an output, by the record's own row.
pub fn put_phases(s: &[u8], c: Cursor, n: usize, row: &[u8], output: &mut [u8])
    requires phases_there { PhasesThere n s.now c.at row.now × (c.at ≤ length s.now) }
    requires n_in_bounds { (n ≤ length row.now) × (n ≤ length output.old) × (n ≤ most_samples) }
    ensures { output.new ≡ phases_put n s.now c.at row.now output.old }
{
    let at = c.at;
    let h = heterozygous_count(row, n);
    let stored = presence_stored(s, at);
    let bits = at + packed_size(Width::One, first_count(stored, h));
    let count = phased_count(&s[at..bits], stored, h);
    let parts = PhaseParts {
        at,
        stored,
        bits,
        count,
    };
    put_bits(s, parts, h, n, row, output);
}
