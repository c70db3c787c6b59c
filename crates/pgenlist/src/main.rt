// Lists a PGEN file from standard input: M and N, then for each variant its number, its type and its categories.
#![tactic(auto)]

ghost use Rattle.std.specs.Prelude.{◌≡◌, true, length};
ghost use Rattle.format.specs.Limits.{most_samples};
ghost use Rattle.call_rows.specs.Calls.{next_row_call};
ghost use Rattle.pgenlist.specs.Listing.{FileChecked, RowTaken};

use call_rows::{Rows, first_row};
use format::{Fields, FileVariant, MOST_SAMPLES};
use head_records::type_of;
use pgen::next_row;
use std::io;
use std::io::{Read, Write};
use text::{Held, Input, Output};

// 01: "The listing program reads at most 65,536 bytes from standard input."
const MOST_INPUT: usize = 65536;

// The output leaves in writes of so many bytes.
const MOST_HELD: usize = 65536;

fn row_space() -> [u8; MOST_SAMPLES]
    ensures { most_samples ≡ length result }
{
    [0; MOST_SAMPLES]
}

// The next row, where it is proved that none is refused: so the state moved on is all that the call answers.
fn take_row(rows: Rows, file: &[u8], row: &mut [u8], work: &mut [u8]) -> Rows
    requires { (next_row_call rows file.now row.old work.old).verdict.accepted ≡ true }
    ensures { RowTaken rows file.now row.old work.old result row.new work.new }
{
    let step = next_row(rows, file, row, work);
    step.rows
}

// 01: "per variant its number, its type in decimal and its categories as digits". The digits take the categories' place: the next row is put over them.
fn put_row<W: Write>(
    out: &mut W,
    v: FileVariant,
    record_type: u8,
    row: &mut [u8],
) -> io::Result<()> {
    for category in row.iter_mut() {
        *category = b'0' + *category % 4;
    }
    out.write_all(itoa::Buffer::new().format(v.0).as_bytes())?;
    out.write_all(b" ")?;
    out.write_all(itoa::Buffer::new().format(record_type).as_bytes())?;
    out.write_all(b" ")?;
    out.write_all(row)?;
    out.write_all(b"\n")
}

// Every row of a file that the whole-file check has accepted, one variant after another.
fn put_rows<W: Write>(
    out: &mut W,
    file: &[u8],
    f: Fields,
    work: &mut [u8],
    row: &mut [u8],
) -> io::Result<()>
    requires { FileChecked file.now f work.old row.old }
{
    let m = f.variants;
    let n = f.samples;
    let mut rows = first_row(f);
    while rows.variant.0 < m {
        let v = rows.variant;
        rows = take_row(rows, file, row, work);
        put_row(out, v, type_of(file, f, v), &mut row[..n])?;
    }
    Ok(())
}

// 01: "the listing program before it prints, make the whole-file check"
// 01: "A refused file gives only the line `refused`, number, place, spaced likewise".
fn list<W: Write>(out: &mut W, file: &[u8], work: &mut [u8], row: &mut [u8]) -> io::Result<()>
    requires { length row.old ≡ most_samples }
{
    let found = pgen::check(file, work);
    match found {
        Err(why) => writeln!(out, "refused {} {}", why.number, why.place),
        Ok(fields) => {
            writeln!(out, "{} {}", fields.variants, fields.samples)?;
            put_rows(out, file, fields, work, row)
        }
    }
}

// A longer input is not looked at.
fn put_listing<W: Write>(out: &mut W, input: &[u8]) -> io::Result<()> {
    let mut work = row_space();
    let mut row = row_space();
    if MOST_INPUT < input.len() {
        return writeln!(out, "too large");
    }
    list(out, input, &mut work, &mut row)
}

// One byte more than may be shows that there are more. Input that can't be read ends there, and what can't be written is lost.
fn run<R: Read, W: Write>(input: &mut R, out: &mut W) {
    let mut file = [0u8; MOST_INPUT + 1];
    let count = input.read(&mut file).unwrap_or(0);
    let _ = put_listing(out, &file[..count]);
    let _ = out.flush();
}

fn main() {
    run(&mut Input, &mut Held::<Output, MOST_HELD>::new(Output));
}

#[cfg(test)]
mod tests {
    use super::*;
    use std::test::Fail;

    // File A of document 01, and cut by one byte.
    #[test]
    fn lists(rt: HostRuntime) -> Result<(), Fail> {
        let file =
            b"\x6c\x1b\x10\x03\x00\x00\x00\x05\x00\x00\x00\x40\x19\x00\x00\x00\x00\x00\x00\x00\x20\x04\x02\x04\x03\xe4\x00\x02\x01\x06\x03\x01\x02\x03";
        let mut out = Vec::new(rt.alloc());
        run(&mut &file[..], &mut out);
        run(&mut &file[..33], &mut out);
        let want = "3 5\n0 0 01230\n1 2 02231\n2 4 00300\nrefused 9 33\n";
        assert_eq!(rt; out.as_slice(), want.as_bytes());
        Ok(())
    }

    // The longest input that is looked at, and one byte more.
    #[test]
    fn looks_no_further(rt: HostRuntime) -> Result<(), Fail> {
        let mut out = Vec::new(rt.alloc());
        run(&mut io::repeat(0).take(MOST_INPUT as u64), &mut out);
        run(&mut io::repeat(0), &mut out);
        assert_eq!(rt; out.as_slice(), "refused 2 0\ntoo large\n".as_bytes());
        Ok(())
    }
}
