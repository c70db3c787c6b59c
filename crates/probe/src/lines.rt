// The parts of a line: what a reply tells, and how it is written.
use format::{Fields, Refusal, refusal_at};
use std::fmt;

// How many bytes are turned into digits at a time.
const PIECE: usize = 256;

// The digits of some bytes, for which there must be space.
fn digits<'a>(bytes: &[u8], space: &'a mut [u8]) -> Result<&'a str, fmt::Error> {
    let used = space.len().min(2 * bytes.len());
    let text = &mut space[..used];
    hex::encode_to_slice(bytes, text).map_err(|_| fmt::Error)?;
    str::from_utf8(text).map_err(|_| fmt::Error)
}

// A refusal's number and its place.
#[derive(Clone, Copy)]
pub struct Told(pub Refusal);

impl fmt::Display for Told {
    fn fmt<W: fmt::Write>(&self, f: &mut fmt::Formatter<W>) -> fmt::Result {
        let why = self.0;
        write!(f, "{} {}", why.number, why.place)
    }
}

// The four numbers of a file.
#[derive(Clone, Copy)]
pub struct Numbers(pub Fields);

impl fmt::Display for Numbers {
    fn fmt<W: fmt::Write>(&self, f: &mut fmt::Formatter<W>) -> fmt::Result {
        let of = self.0;
        write!(f, "{} {} {} {}", of.mode, of.variants, of.samples, of.form)
    }
}

// Some bytes in hexadecimal, or `-` where there is none.
#[derive(Clone, Copy)]
pub struct Hex<'a>(pub &'a [u8]);

impl fmt::Display for Hex<'_> {
    // A piece at a time, since a `write!` for each byte takes more than ten times as long.
    fn fmt<W: fmt::Write>(&self, f: &mut fmt::Formatter<W>) -> fmt::Result {
        if self.0.is_empty() {
            return f.write_str("-");
        }
        for bytes in self.0.chunks(PIECE) {
            let mut space = [0u8; 2 * PIECE];
            f.write_str(digits(bytes, &mut space)?)?;
        }
        Ok(())
    }
}

// 01, Replies: "An accepted call has refusal 0 and place 0." 02, Ask 2: it names variant 0.
pub fn none() -> Refusal {
    refusal_at(0, 0)
}

// 01, Replies: "0 for each on a refusal".
pub const NO_FIELDS: Fields = Fields {
    mode: 0,
    variants: 0,
    samples: 0,
    form: 0,
};

// A reply's refusal, and what comes with it; `otherwise` on a refusal.
pub fn parts<T: Drop>(reply: Result<T, Refusal>, otherwise: T) -> (Refusal, T) {
    match reply {
        Ok(value) => (none(), value),
        Err(why) => (why, otherwise),
    }
}
