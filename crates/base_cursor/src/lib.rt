// The place within a record (01, Difference lists): "a small cursor that each reading step takes and hands back moved on". A cursor
// is a place in the slice, whose length is the record's end: the slice is the file cut where the record ends, and a cursor a place in the file. A flip
// cuts the record out: there it is a place in the record.
#![tactic(auto)]

ghost use Rattle.std.specs.Prelude.{◌≡◌, ◌+◌, ◌^◌, ◌≤◌, ◌<◌, length};
ghost use Rattle.base_cursor.specs.Steps.{cursor_at, byte_at, varint_rest, varint_at, short_at, number_step};

use format::{Refusal, refusal_at};

#[derive(Clone, Copy)]
pub struct Cursor {
    pub at: usize,
}

// A number of some bytes, with the next cursor.
#[derive(Clone, Copy)]
pub struct NumberStep {
    pub value: usize,
    pub next: Cursor,
}

// A varint that started at `first`: at most `more` bytes follow the one at the cursor, and the last is at least `least` ("in its shortest form").
fn varint_from(
    s: &[u8],
    first: usize,
    more: usize,
    least: u8,
    c: Cursor,
) -> Result<(usize, Cursor), Refusal>
    requires { (more ≤ 4) × (least ≤ 1) }
    ensures { result ≡ varint_rest s.now first more least c.at }
{
    let (b, next) = c.byte(s)?;
    if b < least {
        return Err(refusal_at(15, first));
    }
    if more == 0 {
        if b < 16 {
            return Ok((usize::from(b), next));
        }
        return Err(refusal_at(15, first));
    }
    if b < 128 {
        return Ok((usize::from(b), next));
    }
    let (n, end) = varint_from(s, first, more - 1, 1, next)?;
    Ok((128 * n + usize::from(b - 128), end))
}

impl Cursor {
    // 01, Replies: 12, "record ends too soon", at the "record's end".
    pub fn byte(self, s: &[u8]) -> Result<(u8, Cursor), Refusal>
        ensures { result ≡ byte_at s.now self.at }
    {
        let at = self.at;
        if at < s.len() {
            return Ok((s[at], Cursor { at: at + 1 }));
        }
        Err(refusal_at(12, s.len()))
    }

    // 01, Difference lists: "A varint is base 128, low part first, at most five bytes, value below 4,294,967,296, in its shortest form."
    pub fn varint(self, s: &[u8]) -> Result<(usize, Cursor), Refusal>
        requires { self.at ≤ length s.now }
        ensures { result ≡ varint_at s.now self.at }
    {
        match self.short(s) {
            Some(read) => Ok(read),
            None => varint_from(s, self.at, 4, 0, self),
        }
    }

    // A varint of one byte or two: by far the commonest, so read where no call is needed.
    pub fn short(self, s: &[u8]) -> Option<(usize, Cursor)>
        ensures { result ≡ short_at s.now self.at }
    {
        let first = self.at;
        if first >= s.len() {
            return None;
        }
        let low = s[first];
        if low < 128 {
            return Some((usize::from(low), Cursor { at: first + 1 }));
        }
        if first + 1 >= s.len() {
            return None;
        }
        let high = s[first + 1];
        if high >= 128 {
            return None;
        }
        if high == 0 {
            return None;
        }
        Some((
            128 * usize::from(high) + usize::from(low - 128),
            Cursor { at: first + 2 },
        ))
    }

    // A number of `width` bytes, one or two, "little-endian": a head, or a size byte.
    pub fn number(self, s: &[u8], width: usize) -> NumberStep
        requires { (0 < width) × (width ≤ 2) × (self.at + width ≤ length s.now) }
        ensures { result ≡ number_step width s.now self.at }
    {
        let at = self.at;
        let low = usize::from(s[at]);
        if width == 1 {
            return NumberStep {
                value: low,
                next: Cursor { at: at + 1 },
            };
        }
        let high = usize::from(s[at + 1]);
        NumberStep {
            value: high * 256 + low,
            next: Cursor { at: at + 2 },
        }
    }

    // Past an array of a known size.
    pub fn past(self, count: usize) -> Cursor
        requires { self.at + count < 2 ^ 64 }
        ensures { result ≡ cursor_at (self.at + count) }
    {
        Cursor {
            at: self.at + count,
        }
    }
}
