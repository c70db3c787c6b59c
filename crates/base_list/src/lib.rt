// The shape of a difference list, as far as the numbers of samples and of entries give it: one answer for those who read a list, flip it and write it.
#![tactic(auto)]

ghost use Rattle.std.specs.Prelude.{◌≡◌, ◌≤◌};
ghost use Rattle.format.specs.Limits.{most_samples};
ghost use Rattle.format.specs.Difflist.{number_width, groups};

// 01, Difference lists: a sample number has "1 byte if N is at most 256, else 2".
pub fn number_width(n: usize) -> usize
    ensures { result ≡ number_width n }
{
    if n <= 256 { 1 } else { 2 }
}

// 01, Difference lists: "G = ceil(L/64) groups".
pub fn groups(count: usize) -> usize
    requires { count ≤ most_samples }
    ensures { result ≡ groups count }
{
    count.div_ceil(64)
}
