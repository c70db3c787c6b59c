// The README's example: a sample's category in the file on standard input, before its variant is flipped and after.
#![tactic(auto)]

use format::FileVariant;
use std::io;
use std::io::{Read, Write};
use text::{Held, Input, Output};

const MOST_INPUT: usize = 4096;

const MOST_HELD: usize = 64;

// The category of a sample as a digit, or r for a refusal.
fn put_category<W: Write>(
    out: &mut W,
    file: &[u8],
    variant: FileVariant,
    sample: usize,
    work: &mut [u8],
) -> io::Result<()> {
    match pgen::lookup(file, variant, sample, work) {
        Ok(category) => write!(out, "{category}"),
        Err(_) => write!(out, "r"),
    }
}

// Sample 0 of variant 1, before variant 1 is flipped and after.
fn before_and_after<W: Write>(out: &mut W, file: &mut [u8], work: &mut [u8]) -> io::Result<()> {
    put_category(out, file, FileVariant(1), 0, work)?;
    match pgen::flip(file, &[0b010], work) {
        Err(_) => write!(out, "r")?,
        Ok(()) => put_category(out, file, FileVariant(1), 0, work)?,
    }
    out.write_all(b"\n")
}

fn main() {
    run(&mut Input, &mut Held::<Output, MOST_HELD>::new(Output));
}

// Input that can't be read ends there, and what can't be written is lost.
fn run<R: Read, W: Write>(input: &mut R, out: &mut W) {
    let mut file = [0u8; MOST_INPUT];
    let mut work = [0u8; 512];
    let count = input.read(&mut file).unwrap_or(0);
    let _ = before_and_after(out, &mut file[..count], &mut work);
    let _ = out.flush();
}

#[cfg(test)]
mod tests {
    use super::*;
    use std::test::Fail;

    // File A of document 01, and no file.
    #[test]
    fn flips_one_variant(rt: HostRuntime) -> Result<(), Fail> {
        let file =
            b"\x6c\x1b\x10\x03\x00\x00\x00\x05\x00\x00\x00\x40\x19\x00\x00\x00\x00\x00\x00\x00\x20\x04\x02\x04\x03\xe4\x00\x02\x01\x06\x03\x01\x02\x03";
        let mut out = Vec::new(rt.alloc());
        run(&mut &file[..], &mut out);
        run(&mut io::empty(), &mut out);
        assert_eq!(rt; out.as_slice(), "02\nrr\n".as_bytes());
        Ok(())
    }
}
