// The phase track of a record to be written: whether its phases are allowed, how many bytes it has, and its bytes.
#![tactic(auto)]

ghost use Rattle.std.specs.Prelude.{◌≡◌, ℕ, ◌+◌, ◌≤◌, ◌<◌, true, length, get_or, eqb};
ghost use Rattle.format.specs.Limits.{most_samples};
ghost use Rattle.format.specs.Phase.{some_unphased, gathered, phase_track_bytes};
ghost use Rattle.format.specs.Writer.{phase_allowed, phases_for};
ghost use Rattle.write_bytes.specs.Written.{Wrote};
ghost use Rattle.write_bytes.specs.InTurn.{PackingFits, PackedOn};
ghost use Rattle.write_phase.specs.Calls.{first_not_allowed, has_bit, call_bit, call_bits, calls_bits, begun, first_bytes, part_bytes, TrackSizeOf};

use base_calls::is_heterozygous;
use write_bytes::{Packing, end_packed, put_packed};

// 02, Ask 1: the two parts of a track. "The track's first bit says whether H presence bits follow it at once"; "The phase bits begin at the next byte
// boundary, one per phased call".
#[derive(Clone, Copy)]
pub enum TrackPart {
    PresenceBits,
    PhaseBits,
}

// Whether presence bits are stored, and the track's size in bytes.
#[derive(Clone, Copy)]
pub struct TrackSize {
    pub stored: bool,
    pub bytes: usize,
}

// 02, Ask 1: 22, "a phase above 2 or a nonzero one outside category 1". 0 if the phase is allowed.
fn excess(category: u8, phase: u8) -> u8
    ensures { eqb result 0 ≡ phase_allowed category phase }
{
    if is_heterozygous(category) && phase <= 2 {
        0
    } else {
        phase
    }
}

// 0 only if all phases are allowed: one flat loop with no exit, as others are rare.
fn largest_excess(categories: &[u8], phases: &[u8]) -> u8
    requires { length phases.now ≡ length categories.now }
    ensures { result ≡ 0 → (i : ℕ) → i < length categories.now
        → phase_allowed (get_or categories.now i 0) (get_or phases.now i 0) ≡ true }
{
    let mut most: u8 = 0;
    for i in 0..categories.len() {
        most = most.max(excess(categories[i], phases[i]));
    }
    most
}

// 02, Ask 1: 22, "at its index". The index of the first phase that is not allowed, else how many there are.
pub fn first_not_allowed(categories: &[u8], phases: &[u8]) -> usize
    requires { length phases.now ≡ length categories.now }
    ensures { result ≡ first_not_allowed categories.now phases.now }
{
    if largest_excess(categories, phases) == 0 {
        return categories.len();
    }
    for i in 0..categories.len() {
        if excess(categories[i], phases[i]) > 0 {
            return i;
        }
    }
    categories.len()
}

// Whether a part has a bit for a sample: presence bits for each heterozygous call, phase bits for each phased one.
fn has_bit(part: TrackPart, category: u8, phase: u8) -> bool
    ensures { result ≡ has_bit part category phase }
{
    match part {
        TrackPart::PresenceBits => is_heterozygous(category),
        TrackPart::PhaseBits => is_heterozygous(category) && phase != 0,
    }
}

// A call's bit: that it is phased, or that it is swapped.
fn bit_of(part: TrackPart, phase: u8) -> usize
    ensures { (result ≡ call_bit part phase) × (result < 2) }
{
    match part {
        TrackPart::PresenceBits => usize::from(phase != 0),
        TrackPart::PhaseBits => usize::from(phase == 2),
    }
}

// How many bits a part has for a row's calls.
fn count_bits(part: TrackPart, categories: &[u8], phases: &[u8]) -> usize
    requires { (length phases.now ≡ length categories.now) × (length categories.now ≤ most_samples) }
    ensures { (result ≡ length (calls_bits part categories.now phases.now)) × (result ≤ most_samples) }
{
    let mut count: usize = 0;
    for i in 0..categories.len() {
        count += usize::from(has_bit(part, categories[i], phases[i]));
    }
    count
}

// 02, Ask 1: the writer "stores presence bits only if a call is unphased". Whether it does, and the track's size.
pub fn track_size(categories: &[u8], phases: &[u8]) -> TrackSize
    requires { (length phases.now ≡ length categories.now) × (length categories.now ≤ most_samples) }
    ensures { TrackSizeOf categories.now phases.now result }
{
    let heterozygous = count_bits(TrackPart::PresenceBits, categories, phases);
    let phased = count_bits(TrackPart::PhaseBits, categories, phases);
    let bits = phased.div_ceil(8);
    if phased == heterozygous {
        return TrackSize {
            stored: false,
            bytes: 1 + bits,
        };
    }
    TrackSize {
        stored: true,
        bytes: (1 + heterozygous).div_ceil(8) + bits,
    }
}

// A sample's bit, if the part has one for it.
fn put_call(
    part: TrackPart,
    category: u8,
    phase: u8,
    packing: Packing,
    output: &mut [u8],
) -> Packing
    requires { PackingFits 2 packing.scale packing.byte × (packing.at + length (call_bits part category phase) ≤ length output.old) }
    ensures { PackedOn 2 output.old packing (call_bits part category phase) result output.new }
{
    if !has_bit(part, category, phase) {
        return packing;
    }
    put_packed(2, bit_of(part, phase), packing, output)
}

// Where a part begins: the presence bits follow the track's first bit, which is set.
fn begin_part(part: TrackPart, at: usize) -> Packing
    ensures { result ≡ begun part at }
{
    match part {
        TrackPart::PresenceBits => Packing {
            scale: 2,
            byte: 1,
            at,
        },
        TrackPart::PhaseBits => Packing {
            scale: 1,
            byte: 0,
            at,
        },
    }
}

// Writes a part call by call, and gives the place after it.
fn put_part(
    part: TrackPart,
    categories: &[u8],
    phases: &[u8],
    output: &mut [u8],
    at: usize,
) -> usize
    requires { (length phases.now ≡ length categories.now) × (at + length (part_bytes part categories.now phases.now) ≤ length output.old) }
    ensures { Wrote output.old at (part_bytes part categories.now phases.now) result output.new }
{
    let mut packing = begin_part(part, at);
    for i in 0..categories.len() {
        packing = put_call(part, categories[i], phases[i], packing, output);
    }
    end_packed(packing, output)
}

// The first bit, and the presence bits if they are stored. 02, Ask 1: "if clear, all are phased and the rest of its byte unused".
fn put_first(stored: bool, categories: &[u8], phases: &[u8], output: &mut [u8], at: usize) -> usize
    requires { (length phases.now ≡ length categories.now) × (at + length (first_bytes stored categories.now phases.now) ≤ length output.old) }
    ensures { Wrote output.old at (first_bytes stored categories.now phases.now) result output.new }
{
    if stored {
        return put_part(TrackPart::PresenceBits, categories, phases, output, at);
    }
    output[at] = 0;
    at + 1
}

// Writes the track, and gives the place after it.
pub fn put_track(
    stored: bool,
    categories: &[u8],
    phases: &[u8],
    output: &mut [u8],
    at: usize,
) -> usize
    requires phases_len { (length phases.now ≡ length categories.now) × (stored ≡ some_unphased (gathered categories.now phases.now)) }
    requires phases_in_bounds { at + length (phase_track_bytes (phases_for categories.now phases.now)) ≤ length output.old }
    ensures { Wrote output.old at (phase_track_bytes (phases_for categories.now phases.now)) result output.new }
{
    let bits = put_first(stored, categories, phases, output, at);
    put_part(TrackPart::PhaseBits, categories, phases, output, bits)
}
