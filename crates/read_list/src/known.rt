// The short steps of a list that was accepted before, put into a row: no step is 0 or leads past the last sample, and each value may be listed, so none of
// that is tested. Where four steps take a byte each, and the values of their entries fill one, all four are put at once.
ghost use Rattle.std.specs.Prelude.{◌≡◌, true, ◌+◌, ◌≤◌, length};
ghost use Rattle.read_list.specs.Room.{Room};
ghost use Rattle.read_list.specs.Walked.{Accepted, PutKnown};
ghost use Rattle.read_list.specs.Fours.{Single, FourNext, FourThere, sample_after, values_put};

use crate::run::walked;
use crate::{State, Walk};
use base_cursor::Cursor;

// Whether four steps from `at` on take a byte each.
fn four_single(s: &[u8], at: usize) -> bool
    requires { at + 4 ≤ length s.now }
    ensures { result ≡ true → Single s.now at 4 }
{
    s[at..at + 4].iter().all(|b| *b < 128)
}

// Whether the next four entries, of `left`, may be put at once: `passed` are, and their steps would start at `at`.
fn four_next(s: &[u8], at: usize, passed: usize, left: usize) -> bool
    requires { at ≤ length s.now }
    ensures { result ≡ true → FourNext s.now at passed left }
{
    passed % 4 == 0 && left >= 4 && s.len() - at >= 4 && four_single(s, at)
}

// Four entries, with steps of a byte each from `at` on, and their values in a byte: the last one's sample.
fn put_four_entries(s: &[u8], at: usize, packed: u8, last: usize, row: &mut [u8]) -> usize
    requires { FourThere s.now at last row.old }
    ensures { (result ≡ sample_after s.now at last 4) × (row.new ≡ values_put s.now at packed last 4 row.old) }
{
    let mut sample = last;
    let mut rest = packed;
    for j in 0..4 {
        sample += usize::from(s[at + j]);
        row[sample] = rest % 4;
        rest /= 4;
    }
    sample
}

// As many as come one after another.
pub fn put_known_steps(
    s: &[u8],
    n: usize,
    values: usize,
    first: State,
    count: usize,
    row: &mut [u8],
) -> Walk
    requires room { Room s.now n values count first }
    requires n_in_bounds { n ≤ length row.old }
    requires accepted { Accepted s.now n values count first row.old }
    ensures { PutKnown s.now n values count first row.old row.new result.st result.more }
{
    let from = first.passed;
    let least = first.room.min(count);
    let mut here = first.at;
    let mut last = first.last;
    let mut done = 0;
    while done < least {
        let at = here.at;
        if four_next(s, at, from + done, least - done) {
            last = put_four_entries(s, at, s[values + (from + done) / 4], last, row);
            here = Cursor { at: at + 4 };
            done += 4;
        } else {
            let Some((step, next)) = here.short(s) else {
                break;
            };
            last += step;
            row[last] = read_packed::two_bits(s, values, from + done);
            here = next;
            done += 1;
        }
    }
    walked(first, count, done, last, here)
}
