// The table of the pair codes.
#![tactic(auto)]

ghost use Rattle.std.specs.Prelude.{◌≡◌, ◌<◌};
ghost use Rattle.format.specs.PairCode.{pair_at, found};

use format::Pair;

// 01: "1 is 0,1; 2 is 0,2; 3 is 0,3; 5 is 1,2; 6 is 1,3; 9 is 2,3"
const PAIRS: [Pair; 6] = [
    Pair {
        code: 1,
        lower: 0,
        higher: 1,
        image: 5,
        turns: true,
    },
    Pair {
        code: 2,
        lower: 0,
        higher: 2,
        image: 2,
        turns: true,
    },
    Pair {
        code: 3,
        lower: 0,
        higher: 3,
        image: 9,
        turns: false,
    },
    Pair {
        code: 5,
        lower: 1,
        higher: 2,
        image: 1,
        turns: true,
    },
    Pair {
        code: 6,
        lower: 1,
        higher: 3,
        image: 6,
        turns: false,
    },
    Pair {
        code: 9,
        lower: 2,
        higher: 3,
        image: 3,
        turns: false,
    },
];

// Row i of the table. Its rule is proved once, over the whole table: row i is the pair of the i-th code, as defined.
fn pair_row(i: usize) -> Pair
    requires { i < 6 }
    ensures { result ≡ pair_at i }
{
    PAIRS[i]
}

// The pair of a code byte.
pub fn pair_of(code: u8) -> Option<Pair>
    ensures { result ≡ found code }
{
    match code {
        1 => Some(pair_row(0)),
        2 => Some(pair_row(1)),
        3 => Some(pair_row(2)),
        5 => Some(pair_row(3)),
        6 => Some(pair_row(4)),
        9 => Some(pair_row(5)),
        _ => None,
    }
}
