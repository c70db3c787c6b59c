// The values of a list, looked at by a flat loop, with no exit in it: whether the list may hold each of them, whatever its sample has.
ghost use Rattle.std.specs.Prelude.{◌≡◌, true, ◌+◌, ◌/◌, ◌≤◌, length};
ghost use Rattle.read_list.specs.declared.ListRule.TheVariants.{OffPair};
ghost use Rattle.read_list.specs.Runs.{FourApart, BytesApart, AllOff};

use crate::ListRule;
use crate::entry::may_hold;
use base_rows::larger;

// Of a byte's four values: in the low bit of each one's place 1 for a category of the pair, else 0. Such a value differs from the category in neither bit.
fn among_four(b: u8, lower: u8, higher: u8) -> u8
    ensures { result ≡ 0 → FourApart lower higher b }
{
    let x = b ^ (85 * (lower % 4));
    let y = b ^ (85 * (higher % 4));
    !((x | (x >> 1)) & (y | (y >> 1))) & 0x55
}

// Whether no value in the first `full` bytes is in the pair.
fn bytes_apart(s: &[u8], values: usize, full: usize, lower: u8, higher: u8) -> bool
    requires { values + full ≤ length s.now }
    ensures { result ≡ true → BytesApart s.now values full lower higher }
{
    let mut most: u8 = 0;
    for i in 0..full {
        most = larger(most, among_four(s[values + i], lower, higher));
    }
    most == 0
}

// Whether none of m values is in the pair: the last few, which may not fill a byte, one by one.
fn values_apart(s: &[u8], values: usize, m: usize, lower: u8, higher: u8) -> bool
    requires { values + (m + 3) / 4 ≤ length s.now }
    ensures { result ≡ true → AllOff s.now values m (OffPair lower higher) }
{
    let full = m / 4;
    if !bytes_apart(s, values, full, lower, higher) {
        return false;
    }
    for k in 4 * full..m {
        let value = read_packed::two_bits(s, values, k);
        // no row is looked at: the list is off a pair
        if !may_hold(ListRule::OffPair(lower, higher), &s[..0], 0, value) {
            return false;
        }
    }
    true
}

// Whether the list may hold each of m values, whatever its sample has. A row is not looked at: of a list against one, false.
pub fn values_off(s: &[u8], values: usize, m: usize, held: ListRule) -> bool
    requires { values + (m + 3) / 4 ≤ length s.now }
    ensures { result ≡ true → AllOff s.now values m held }
{
    match held {
        ListRule::OffPair(lower, higher) => values_apart(s, values, m, lower, higher),
        ListRule::OffRow => false,
    }
}
