// The call that flips a set of variants in the stored bytes, once the file, the set and the work area are found to be in order.
#![tactic(auto)]

ghost use Rattle.std.specs.Prelude.{◌≡◌};
ghost use Rattle.format.specs.Limits.{variants_to_a_block};
ghost use Rattle.format.specs.Reply.{past_last, flip_left, flip_call};

use call_open::{call_refusal, open};
use flip_file::flip_accepted;
use format::{FileVariant, Refusal};
use head_records::byte_at;
use read_file::check_records;

// 01, Flipping: "The set has bit v for variant v." What the set holds from bit M on, 0 where M bits fill it.
fn past_last(set: &[u8], m: usize) -> u8
    ensures { result ≡ past_last m set.now }
{
    byte_at(set, m / 8) >> (m % 8)
}

// 01: "For flips 21 comes next." All records are checked before a byte is written. A set of wrong size is 10, as a short work area is, so its test may
// follow the opening.
pub fn flip(file: &mut [u8], set: &[u8], work: &mut [u8]) -> Result<(), Refusal>
    ensures { flip_left result file.new work.new
        ≡ flip_call variants_to_a_block file.old set.now work.old }
{
    let f = open(&file[..], work.len())?;
    let variants = f.variants;
    if set.len() != (variants + 7) / 8 {
        return Err(call_refusal(10, FileVariant(variants)));
    }
    if past_last(set, variants) != 0 {
        return Err(call_refusal(21, FileVariant(variants)));
    }
    check_records(&file[..], &file[..], f, work)?;
    flip_accepted(file, f, set, work);
    Ok(())
}
