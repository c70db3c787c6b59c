// Which calls can be phased: once for reading, counting and writing.
#![tactic(auto)]

ghost use Rattle.std.specs.Prelude.{◌≡◌};
ghost use Rattle.format.specs.Phase.{heterozygous};
ghost use Rattle.base_calls.specs.CallCount.{call_count};

// 01, Categories and kinds: "1 heterozygous". 02, Ask 1: "H is the number of samples in category 1."
pub fn is_heterozygous(category: u8) -> bool
    ensures { result ≡ heterozygous category }
{
    category == 1
}

// What a call adds to H.
pub fn call_count(category: u8) -> u8
    ensures { result ≡ call_count category }
{
    u8::from(is_heterozygous(category))
}
