// Each call and its line: the refusal number, the place, the call's own numbers, then each lent buffer with its letter, last the variant.
use crate::cases::{Case, PHASED, WALK};
use crate::lines::{Hex, NO_FIELDS, Numbers, Told, none, parts};
use call_rows::Rows;
use format::{FileVariant, Refusal};
use std::io;
use std::io::Write;

fn header_checked<W: Write>(out: &mut W, file: &[u8]) -> io::Result<()> {
    let (why, fields) = parts(pgen::header_check(file), NO_FIELDS);
    writeln!(out, "{} {} v {}", Told(why), Numbers(fields), why.variant.0)
}

fn checked<W: Write>(out: &mut W, file: &[u8], work: &mut [u8]) -> io::Result<()> {
    let (why, fields) = parts(pgen::check(file, work), NO_FIELDS);
    writeln!(
        out,
        "{} {} w {} v {}",
        Told(why),
        Numbers(fields),
        Hex(work),
        why.variant.0
    )
}

// The line of a call with an output and a work area.
fn filled<W: Write>(
    out: &mut W,
    r: Result<(), Refusal>,
    output: &[u8],
    work: &[u8],
) -> io::Result<()> {
    let (why, ()) = parts(r, ());
    writeln!(
        out,
        "{} o {} w {} v {}",
        Told(why),
        Hex(output),
        Hex(work),
        why.variant.0
    )
}

fn read<W: Write>(
    out: &mut W,
    file: &[u8],
    v: FileVariant,
    output: &mut [u8],
    work: &mut [u8],
) -> io::Result<()> {
    let r = pgen::read(file, v, output, work);
    filled(out, r, output, work)
}

fn phases_read<W: Write>(
    out: &mut W,
    file: &[u8],
    v: FileVariant,
    output: &mut [u8],
    work: &mut [u8],
) -> io::Result<()> {
    let r = pgen::read_phases(file, v, output, work);
    filled(out, r, output, work)
}

fn looked_up<W: Write>(
    out: &mut W,
    file: &[u8],
    v: FileVariant,
    sample: usize,
    work: &mut [u8],
) -> io::Result<()> {
    let (why, category) = parts(pgen::lookup(file, v, sample, work), 0);
    writeln!(
        out,
        "{} {category} w {} v {}",
        Told(why),
        Hex(work),
        why.variant.0
    )
}

fn viewed<W: Write>(out: &mut W, file: &[u8], v: FileVariant) -> io::Result<()> {
    let mut number = 0u8;
    let mut place = 0usize;
    let mut named = 0usize;
    let part = pgen::view(file, v, &mut number, &mut place, &mut named);
    writeln!(
        out,
        "{number} {place} {} p {} v {named}",
        part.len(),
        Hex(part)
    )
}

// The line of a writer.
fn put<W: Write>(out: &mut W, r: Result<usize, Refusal>, output: &[u8]) -> io::Result<()> {
    let (why, count) = parts(r, 0);
    writeln!(
        out,
        "{} {count} o {} v {}",
        Told(why),
        Hex(output),
        why.variant.0
    )
}

fn written<W: Write>(
    out: &mut W,
    c: Case,
    categories: &[u8],
    anchor: &[u8],
    output: &mut [u8],
) -> io::Result<()> {
    let r = pgen::write_record(categories, c.x, c.y, anchor, output);
    put(out, r, output)
}

fn phased_written<W: Write>(
    out: &mut W,
    c: Case,
    categories: &[u8],
    anchor: &[u8],
    phases: &[u8],
    output: &mut [u8],
) -> io::Result<()> {
    let r = pgen::write_phased_record(categories, phases, c.x, c.y, anchor, output);
    put(out, r, output)
}

fn flipped<W: Write>(out: &mut W, file: &mut [u8], set: &[u8], work: &mut [u8]) -> io::Result<()> {
    let (why, ()) = parts(pgen::flip(file, set, work), ());
    writeln!(
        out,
        "{} f {} w {} v {}",
        Told(why),
        Hex(file),
        Hex(work),
        why.variant.0
    )
}

// So many steps, each with its letter, its reply, the output after it and the variant that its reply names.
fn steps<W: Write>(
    out: &mut W,
    first: Rows,
    count: usize,
    file: &[u8],
    output: &mut [u8],
    work: &mut [u8],
) -> io::Result<()> {
    let mut rows = first;
    for _ in 0..count {
        let moved = pgen::next_row(rows, file, output, work);
        rows = moved.rows;
        let (why, ()) = parts(moved.reply, ());
        write!(
            out,
            " s {} o {} v {}",
            Told(why),
            Hex(output),
            why.variant.0
        )?;
    }
    Ok(())
}

// The start's reply and, if it was accepted, the steps from there. The line's own variant stays the start's. The start is made on the second string if
// there is one: its state is then a foreign one for the steps, which go over the first.
fn walked<W: Write>(
    out: &mut W,
    first: &[u8],
    second: &[u8],
    count: usize,
    output: &mut [u8],
    work: &mut [u8],
) -> io::Result<()> {
    let begun = if second.is_empty() { first } else { second };
    let (why, start) = match pgen::start_rows(begun, work) {
        Ok(rows) => (none(), Some(rows)),
        Err(why) => (why, None),
    };
    write!(out, "{}", Told(why))?;
    if let Some(rows) = start {
        steps(out, rows, count, first, output, work)?;
    }
    writeln!(out, " w {} v {}", Hex(work), why.variant.0)
}

// One call, on the strings and on just as much of each buffer as the case lends. The third string of a phased record stands in its work area.
pub fn answer<W: Write>(
    out: &mut W,
    c: Case,
    first: &mut [u8],
    second: &[u8],
    output: &mut [u8],
    work: &mut [u8],
) -> io::Result<()> {
    let v = FileVariant(c.x);
    match c.call {
        1 => header_checked(out, first),
        2 => checked(out, first, work),
        3 => read(out, first, v, output, work),
        4 => looked_up(out, first, v, c.y, work),
        5 => viewed(out, first, v),
        7 => flipped(out, first, second, work),
        8 => phases_read(out, first, v, output, work),
        PHASED => phased_written(out, c, first, second, work, output),
        WALK => walked(out, first, second, c.x, output, work),
        _ => written(out, c, first, second, output),
    }
}
