// Runs cases from standard input through the public calls and prints a line for each, so that any program can be compared with the library.
// A case is a head of 33 bytes (call, x, y, and four lengths, little-endian) and two byte strings; that of a phased record has a third.
#![tactic(auto)]

mod answers;
mod cases;
mod lent;
mod lines;

use answers::answer;
use cases::{Case, HEAD, MOST_FIRST, PHASED, case_of};
use lent::{Lent, lend, part, space};
use std::io;
use std::io::{Read, Write};
use text::{Held, Input, Output};

const OUTPUT_FILL: u8 = 0xa5;

const WORK_FILL: u8 = 0x5a;

// What a line leaves by: in one write if it is not long.
const MOST_HELD: usize = 4096;

// The strings are read, and the call's line is written out before the next case is read. The third string is read into the work area, which that call has
// none of. Where the input ends within a string, the rest of the string's buffer stays as it was; a line that can't be written is lost.
fn serve<R: Read, W: Write>(
    input: &mut R,
    out: &mut W,
    c: Case,
    first: &mut [u8],
    lent: &mut Lent<'_>,
) {
    let second = part(lent.second, c.second, 0);
    let output = part(lent.output, c.output, OUTPUT_FILL);
    let work = part(lent.work, c.work, WORK_FILL);
    let _ = input.read(first);
    let _ = input.read(second);
    if c.call == PHASED {
        let _ = input.read(work);
    }
    let _ = answer(out, c, first, second, output, work);
    let _ = out.flush();
}

// The rest of what a case may lend takes room while it is served, and none before: so it stands apart.
#[inline(never)]
fn lend_and_serve<R: Read, W: Write>(input: &mut R, out: &mut W, c: Case, first: &mut [u8]) {
    let mut second = space();
    let mut output = space();
    let mut work = space();
    let mut lent = lend(&mut second, &mut output, &mut work);
    serve(input, out, c, first, &mut lent);
}

// One case, if there is one; whether another may follow. A head that breaks a limit, names another call, or is cut short ends the run.
fn step<R: Read, W: Write>(input: &mut R, out: &mut W, first: &mut [u8]) -> bool {
    let mut head = [0u8; HEAD];
    // An input that can't be read ends there.
    let got = input.read(&mut head).unwrap_or(0);
    if got == 0 {
        return false;
    }
    let Some(c) = case_of(&head[..got]) else {
        let _ = out.write_all(b"bad case\n");
        let _ = out.flush();
        return false;
    };
    let n = c.first.min(first.len());
    lend_and_serve(input, out, c, &mut first[..n]);
    true
}

// All cases. The count of them only makes the loop end; no input has so many.
fn main() {
    let mut out = Held::<Output, MOST_HELD>::new(Output);
    let mut first = [0u8; MOST_FIRST];
    for _ in 0..u64::MAX {
        if !step(&mut Input, &mut out, &mut first) {
            break;
        }
    }
}

#[cfg(test)]
mod tests {
    use super::*;
    use std::test::Fail;

    // A read of an empty file into an output of two bytes, with a work area of one; a head that is cut short; and nothing more.
    #[test]
    fn answers_and_ends(rt: HostRuntime) -> Result<(), Fail> {
        let mut cases = [0u8; 65];
        cases[0] = 3;
        cases[25] = 2;
        cases[29] = 1;
        cases[33] = 1;
        let mut input = &cases[..];
        let mut out = Vec::new(rt.alloc());
        assert!(rt; step(&mut input, &mut out, &mut []));
        assert_eq!(rt; out.as_slice(), "1 0 o a5a5 w 5a v 0\n".as_bytes());
        assert!(rt; !step(&mut input, &mut out, &mut []));
        assert!(rt; !step(&mut input, &mut out, &mut []));
        assert_eq!(rt;
            out.as_slice(),
            "1 0 o a5a5 w 5a v 0\nbad case\n".as_bytes()
        );
        Ok(())
    }
}
