// The body of one record flipped in place, whatever its bytes.
#![tactic(auto)]

ghost use Rattle.std.specs.Prelude.{◌≡◌, ◌+◌, ◌-◌, ◌/◌, ◌≤◌, length};
ghost use Rattle.format.specs.Limits.{most_samples};
ghost use Rattle.format.specs.Body.{type_leans};
ghost use Rattle.format.specs.File.{next_anchor};
ghost use Rattle.flip_body.specs.Edits.{values_flipped, list_flipped, list_flipped_at, bits_turned, list_place};
ghost use Rattle.flip_body.specs.Edits.{pair_flipped, kind_flipped, body_flipped, flipped_in};

use base_cursor::Cursor;
use base_list::number_width;
use head_types::{kind_of, type_leans};

// The values of a list, or of a whole record of kind 0, from `c` on, if they fit.
fn flip_values(s: &mut [u8], c: Cursor, count: usize)
    requires { count ≤ most_samples }
    ensures { s.new ≡ values_flipped c.at count s.old }
{
    if c.at <= s.len() && (count + 3) / 4 <= s.len() - c.at {
        flip_bytes::exchange_values(s, c.at, count);
    }
}

// A list: only its values change, and their place depends on the count alone.
fn flip_list(s: &mut [u8], n: usize)
    requires { n ≤ most_samples }
    ensures { s.new ≡ list_flipped n s.old }
{
    let Ok((count, next)) = Cursor { at: 0 }.varint(&s[..]) else {
        return;
    };
    if count <= n {
        let groups = base_list::groups(count);
        // 01: "G − 1 size bytes"; none where there is no group
        let before = number_width(n) * groups + groups.saturating_sub(1);
        flip_values(s, next.past(before), count);
    }
}

// A list from `at` on.
fn flip_list_at(s: &mut [u8], at: usize, n: usize)
    requires { (n ≤ most_samples) × (at ≤ length s.old) }
    ensures { s.new ≡ list_flipped_at at n s.old }
{
    flip_list(&mut s[at..], n);
}

// 01, Errors: "Complementing kind 1's bits for codes 3, 6 and 9, where the order of the pair stays, or complementing unused bits."
fn turn_bits(turns: bool, s: &mut [u8], n: usize)
    requires { list_place n ≤ length s.old }
    ensures { s.new ≡ bits_turned turns n s.old }
{
    if turns {
        flip_bytes::complement_bits(s, 1, n);
    }
}

// Kind 1: the code becomes its image, the bits turn if the pair's order does, the list's values are exchanged.
fn flip_pair(s: &mut [u8], n: usize)
    requires { n ≤ most_samples }
    ensures { s.new ≡ pair_flipped n s.old }
{
    let q = 1 + (n + 7) / 8;
    if s.len() < q {
        return;
    }
    let Some(pair) = base_pairs::pair_of(s[0]) else {
        return;
    };
    s[0] = pair.image;
    turn_bits(pair.turns, s, n);
    flip_list_at(s, q, n);
}

// 01, Categories and kinds: kind 0 is "the packed array", kind 1 a pair; all others are a list.
fn flip_kind(s: &mut [u8], n: usize, kind: u8)
    requires { n ≤ most_samples }
    ensures { s.new ≡ kind_flipped n kind s.old }
{
    match kind {
        0 => flip_values(s, Cursor { at: 0 }, n),
        1 => flip_pair(s, n),
        _ => flip_list(s, n),
    }
}

// Whether the body is flipped; also whether what the next record leans on is in the set.
pub fn next_lent(record_type: u8, lent: bool, member: bool) -> bool
    ensures { result ≡ next_anchor (type_leans record_type) lent member }
{
    if type_leans(record_type) {
        lent
    } else {
        member
    }
}

fn flip_part(s: &mut [u8], n: usize, record_type: u8, lent: bool, member: bool)
    requires { n ≤ most_samples }
    ensures { s.new ≡ body_flipped n record_type lent member s.old }
{
    if next_lent(record_type, lent, member) {
        flip_kind(s, n, kind_of(record_type));
    }
}

// The body of the record from start to end of a file of n samples. lent: its anchor is in the set; member: it is itself.
pub fn flip_body(
    file: &mut [u8],
    start: usize,
    end: usize,
    n: usize,
    record_type: u8,
    lent: bool,
    member: bool,
)
    requires { (n ≤ most_samples) × (start ≤ end) × (end ≤ length file.old) }
    ensures { file.new ≡ flipped_in start end n record_type lent member file.old }
{
    flip_part(&mut file[start..end], n, record_type, lent, member);
}
