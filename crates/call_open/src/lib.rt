// The opening of a public call: the header check, then the sizes of what was lent, then the variant.
#![tactic(auto)]

ghost use Rattle.std.specs.Prelude.{◌≡◌};
ghost use Rattle.format.specs.Base.{refusal, named};
ghost use Rattle.call_open.specs.Open.{Opening, OpeningAt};

use format::{Fields, FileVariant, Refusal, refusal_of};

// 01, Replies: 10, 11 and 21, which "depend on the call's other arguments", have place 0. 02, Ask 2: they name a variant, "M where no variant is
// concerned".
pub fn call_refusal(number: u8, variant: FileVariant) -> Refusal
    ensures { result ≡ named variant (refusal number 0) }
{
    refusal_of(variant, number, 0)
}

// 1 to 9, then 10, "a lent buffer of wrong size": lent is the length of the shortest buffer that is to hold a row.
pub fn open(file: &[u8], lent: usize) -> Result<Fields, Refusal>
    ensures { Opening file.now lent result }
{
    let f = head_check::check(file)?;
    if lent < f.samples {
        return Err(call_refusal(10, FileVariant(f.variants)));
    }
    Ok(f)
}

// The same, then 11, "variant not below M".
pub fn open_at(file: &[u8], variant: FileVariant, lent: usize) -> Result<Fields, Refusal>
    ensures { OpeningAt file.now variant lent result }
{
    let f = open(file, lent)?;
    if variant.0 >= f.variants {
        return Err(call_refusal(11, FileVariant(f.variants)));
    }
    Ok(f)
}
