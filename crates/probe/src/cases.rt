// The head of a case.

// A head's length in bytes.
pub const HEAD: usize = 33;

// The first string has up to 524,288 bytes; the second, the output and the work area up to 131,072 each.
pub const MOST_FIRST: usize = 524288;

pub const MOST_LENT: usize = 131072;

// The call that has a third string, the phases; and a way through a file, of so many steps at most.
pub const PHASED: u8 = 9;

pub const WALK: u8 = 23;

const MOST_STEPS: usize = 64;

#[derive(Clone, Copy)]
pub struct Case {
    pub call: u8,
    pub x: usize,
    pub y: usize,
    pub first: usize,
    pub second: usize,
    pub output: usize,
    pub work: usize,
}

// A length of four bytes, and what comes after it.
fn length(head: &[u8]) -> Option<(usize, &[u8])> {
    let (n, rest) = head.split_first_chunk::<4>()?;
    Some((u32::from_le_bytes(*n) as usize, rest))
}

// The numbers of a head that came whole.
fn numbers(head: &[u8]) -> Option<Case> {
    let (call, rest) = head.split_first()?;
    let (x, rest) = rest.split_first_chunk::<8>()?;
    let (y, rest) = rest.split_first_chunk::<8>()?;
    let (first, rest) = length(rest)?;
    let (second, rest) = length(rest)?;
    let (output, rest) = length(rest)?;
    let (work, _) = length(rest)?;
    Some(Case {
        call: *call,
        x: usize::from_le_bytes(*x),
        y: usize::from_le_bytes(*y),
        first,
        second,
        output,
        work,
    })
}

// It names a call, 1 to 9 or a walk, and keeps the limits.
fn allowed(c: &Case) -> bool {
    let known = matches!(c.call, 1..=PHASED) || (c.call == WALK && c.x <= MOST_STEPS);
    known
        && c.first <= MOST_FIRST
        && c.second <= MOST_LENT
        && c.output <= MOST_LENT
        && c.work <= MOST_LENT
}

// The case that a head announces, if the head is whole and allowed.
pub fn case_of(head: &[u8]) -> Option<Case> {
    let c = numbers(head)?;
    if allowed(&c) { Some(c) } else { None }
}
