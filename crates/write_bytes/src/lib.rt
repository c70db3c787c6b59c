// Bytes written into a lent output: varints, numbers of so many bytes, packed arrays.
#![tactic(auto)]

ghost use Rattle.std.specs.Prelude.{◌≡◌, suc, ◌+◌, ◌≤◌, ◌<◌, ◌^◌, [], ◌∷◌, length, get_or, drop};
ghost use Rattle.format.specs.Base.{Below};
ghost use Rattle.format.specs.Varint.{varint_bytes};
ghost use Rattle.format.specs.Numbers.{number_bytes};
ghost use Rattle.format.specs.Packed.{limit, more, byte_of, packed_size};
ghost use Rattle.format.specs.Limits.{most_samples};
ghost use Rattle.write_bytes.specs.Written.{Wrote};
ghost use Rattle.write_bytes.specs.Arrays.{width, numbers, array_bytes, array_byte};
ghost use Rattle.write_bytes.specs.InTurn.{last_byte, PackingFits, PackedOn};

// 01, Categories and kinds: the two arrays of a record. Kind 0, "the packed array"; kind 1, "a bit per sample (set: the higher category of the pair)".
#[derive(Clone, Copy)]
pub enum Array {
    Categories,
    Bits { higher: u8 },
}

// Where the packing of numbers one after another is: the byte at hand, the weight of the next number in it, and its place.
#[derive(Clone, Copy)]
pub struct Packing {
    pub scale: usize,
    pub byte: usize,
    pub at: usize,
}

// How many bytes a number's varint has.
pub fn varint_size(number: usize) -> usize
    requires { number < 2 ^ 32 }
    ensures { result ≡ length (varint_bytes number) }
{
    if number < 128 {
        return 1;
    }
    if number < 16384 {
        return 2;
    }
    if number < 2097152 {
        return 3;
    }
    if number < 268435456 {
        return 4;
    }
    5
}

// 01, Difference lists: "A varint is base 128, low part first, ... in its shortest form." Gives the place after it.
pub fn put_varint(output: &mut [u8], at: usize, number: usize) -> usize
    requires { (at + length (varint_bytes number) ≤ length output.old) × (number < 2 ^ 32) }
    ensures { Wrote output.old at (varint_bytes number) result output.new }
{
    let mut rest = number;
    let mut place = at;
    while rest >= 128 {
        output[place] = (rest % 128 + 128) as u8;
        rest /= 128;
        place += 1;
    }
    output[place] = rest as u8;
    place + 1
}

// A number of `width` bytes, "little-endian". Gives the place after it.
pub fn put_number(output: &mut [u8], at: usize, width: usize, number: usize) -> usize
    requires { at + width ≤ length output.old }
    ensures { Wrote output.old at (number_bytes width number) result output.new }
{
    let end = at + width;
    let mut rest = number;
    for place in at..end {
        output[place] = (rest % 256) as u8;
        rest /= 256;
    }
    end
}

// How many bytes an array of so many samples has.
pub fn array_size(array: Array, samples: usize) -> usize
    requires { samples ≤ most_samples }
    ensures { result ≡ packed_size (width array) samples }
{
    samples.div_ceil(in_byte(array))
}

// What an array holds for sample i: its category, or its bit; 0 past the last sample.
fn packed_number(array: Array, categories: &[u8], i: usize) -> u8
    requires { Below 4 categories.now }
    ensures { (result ≡ get_or (numbers array categories.now) i 0) × (result < limit (width array)) }
{
    if i >= categories.len() {
        return 0;
    }
    let category = categories[i];
    match array {
        Array::Categories => category,
        Array::Bits { higher } => u8::from(category == higher),
    }
}

// 01: "two bits per sample, lowest sample in the lowest bits". The byte that begins with sample i.
fn four_categories(categories: &[u8], i: usize) -> u8
    requires { Below 4 categories.now × (i < length categories.now) }
    ensures { result ≡ array_byte Array.Categories categories.now i }
{
    let first = packed_number(Array::Categories, categories, i);
    let second = packed_number(Array::Categories, categories, i + 1);
    let third = packed_number(Array::Categories, categories, i + 2);
    let fourth = packed_number(Array::Categories, categories, i + 3);
    first + 4 * second + 16 * third + 64 * fourth
}

// The bits of sample i and the three after it.
fn four_bits(categories: &[u8], higher: u8, i: usize) -> u8
    requires { Below 4 categories.now × (i < length categories.now + 8) }
    ensures { (result ≡ byte_of 2 4 (drop i (numbers (Array.Bits higher) categories.now))) × (result < 16) }
{
    let array = Array::Bits { higher };
    let first = packed_number(array, categories, i);
    let second = packed_number(array, categories, i + 1);
    let third = packed_number(array, categories, i + 2);
    let fourth = packed_number(array, categories, i + 3);
    first + 2 * second + 4 * third + 8 * fourth
}

// The byte of an array that begins with sample i.
fn byte_of(array: Array, categories: &[u8], i: usize) -> u8
    requires { Below 4 categories.now × (i < length categories.now) }
    ensures { result ≡ array_byte array categories.now i }
{
    match array {
        Array::Categories => four_categories(categories, i),
        Array::Bits { higher } => {
            let low = four_bits(categories, higher, i);
            let high = four_bits(categories, higher, i + 4);
            low + 16 * high
        }
    }
}

// How many samples a byte of an array holds.
fn in_byte(array: Array) -> usize
    ensures { result ≡ suc (more (width array)) }
{
    match array {
        Array::Categories => 4,
        Array::Bits { .. } => 8,
    }
}

// Writes an array byte by byte, and gives the place after it.
fn put_bytes(array: Array, categories: &[u8], output: &mut [u8], at: usize) -> usize
    requires { Below 4 categories.now × (at + length (array_bytes array categories.now) ≤ length output.old) }
    ensures { Wrote output.old at (array_bytes array categories.now) result output.new }
{
    let samples = in_byte(array);
    let size = categories.len().div_ceil(samples);
    for k in 0..size {
        output[at + k] = byte_of(array, categories, k * samples);
    }
    at + size
}

// Writes an array, and gives the place after it. 01, The header: "Each packed array ends at a byte boundary, and its unused bits are zero." Each array
// by a call of its own, so that the compiler makes a loop for each.
pub fn put_array(array: Array, categories: &[u8], output: &mut [u8], at: usize) -> usize
    requires { Below 4 categories.now × (at + length (array_bytes array categories.now) ≤ length output.old) }
    ensures { Wrote output.old at (array_bytes array categories.now) result output.new }
{
    match array {
        Array::Categories => put_bytes(Array::Categories, categories, output, at),
        Array::Bits { higher } => put_bytes(Array::Bits { higher }, categories, output, at),
    }
}

// Packs one more number, below `limit`: the byte at hand is stored once it is full.
pub fn put_packed(limit: usize, number: usize, packing: Packing, output: &mut [u8]) -> Packing
    requires { (number < limit) × PackingFits limit packing.scale packing.byte × (packing.at < length output.old) }
    ensures { PackedOn limit output.old packing (number ∷ []) result output.new }
{
    let at = packing.at;
    let scale = packing.scale * limit;
    let byte = packing.byte + number * packing.scale;
    if scale < 256 {
        return Packing { scale, byte, at };
    }
    output[at] = byte as u8;
    Packing {
        scale: 1,
        byte: 0,
        at: at + 1,
    }
}

// Stores the byte at hand, if it has a number, and gives the place after it.
pub fn end_packed(packing: Packing, output: &mut [u8]) -> usize
    requires { (packing.byte < 256) × (packing.at + length (last_byte packing.scale packing.byte) ≤ length output.old) }
    ensures { Wrote output.old packing.at (last_byte packing.scale packing.byte) result output.new }
{
    let Packing { scale, byte, at } = packing;
    if scale == 1 {
        return at;
    }
    output[at] = byte as u8;
    at + 1
}
