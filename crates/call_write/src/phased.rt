// The writer of one phased record: its main track, in any of the seven kinds, and its phase track.
ghost use Rattle.std.specs.Prelude.{◌≡◌, length};
ghost use Rattle.format.specs.Reply.{write_left, write_phased_call};
ghost use Rattle.call_write.specs.Checked.{as_checked, check_phases, phased_checks};

use crate::{Asked, check_categories, check_kind, kind_numbered, put_record, record_size};
use format::{Kind, Refusal, refusal_at};
use write_phase::{first_not_allowed, put_track, track_size};

// 02, Ask 1: "22, after 20, a phase above 2 or a nonzero one outside category 1, at its index".
fn check_phases(categories: &[u8], phases: &[u8]) -> Result<(), Refusal>
    requires { length phases.now ≡ length categories.now }
    ensures { result ≡ as_checked (check_phases tt categories.now phases.now) }
{
    let i = first_not_allowed(categories, phases);
    if i < categories.len() {
        return Err(refusal_at(22, i));
    }
    Ok(())
}

// 02, Ask 1: "in the writer 10 is also phases not N long, after the anchor, and 22, after 20".
fn check_phased(
    categories: &[u8],
    phases: &[u8],
    kind: Kind,
    code: usize,
    anchor: &[u8],
) -> Result<Asked, Refusal>
    ensures { result ≡ as_checked (phased_checks categories.now phases.now kind code anchor.now) }
{
    let asked = check_kind(categories, kind, code, anchor)?;
    if phases.len() != categories.len() {
        return Err(refusal_at(10, 0));
    }
    check_categories(categories, anchor)?;
    check_phases(categories, phases)?;
    Ok(asked)
}

// Writes one record with a phase track. 02, Ask 1: "Add a writer, which stores presence bits only if a call is unphased".
pub fn write_phased_record(
    categories: &[u8],
    phases: &[u8],
    kind: usize,
    code: usize,
    anchor: &[u8],
    output: &mut [u8],
) -> Result<usize, Refusal>
    ensures { write_left result output.new
        ≡ write_phased_call categories.now phases.now kind code anchor.now output.old }
{
    let kind = kind_numbered(kind);
    let asked = check_phased(categories, phases, kind, code, anchor)?;
    let size = record_size(asked, categories, anchor);
    let track = track_size(categories, phases);
    if size.bytes + track.bytes > output.len() {
        return Err(refusal_at(10, 0));
    }
    let at = put_record(asked, categories, anchor, size.count, output);
    Ok(put_track(track.stored, categories, phases, output, at))
}
