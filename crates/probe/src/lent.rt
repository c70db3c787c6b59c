// What a case lends besides its first string.
ghost use Rattle.std.specs.Prelude.{◌≡◌, length};

use crate::cases::MOST_LENT;

// The most of its second string, its output and its work area.
#[derive(Drop)]
pub struct Lent<'a> {
    pub second: &'a mut [u8],
    pub output: &'a mut [u8],
    pub work: &'a mut [u8],
}

pub fn lend<'a>(second: &'a mut [u8], output: &'a mut [u8], work: &'a mut [u8]) -> Lent<'a> {
    Lent {
        second,
        output,
        work,
    }
}

// The first bytes of a buffer, filled with one byte: so many as a case lends.
pub fn part(buffer: &mut [u8], n: usize, fill: u8) -> &mut [u8] {
    let count = n.min(buffer.len());
    let lent = &mut buffer[..count];
    lent.fill(fill);
    lent
}

// Room for the most of one of them. The `ensures` gives the length, which lending an array as a slice needs.
pub fn space() -> [u8; MOST_LENT]
    ensures { 131072 ≡ length result }
{
    [0; MOST_LENT]
}
