// What the programs read by and write by, in the memory that they have: standard input and output as std's readers and writers, and a buffer that gathers
// what is written, so that it leaves in large writes. Nothing here takes memory. What is written is tested, not proved.
#![tactic(auto)]

ghost use Rattle.std.specs.Prelude.{◌≡◌, ◌≤◌, length};

use io::{read_full, write_all};
use std::io::{Error, ErrorKind, Read, Result, Write};

// Standard input and output, as the system numbers them.
const STDIN_FILENO: i32 = 0;

const STDOUT_FILENO: i32 = 1;

// Standard input. One read fills the whole buffer, unless the input ends before or can't be read, which is its end too.
#[derive(Clone, Copy)]
pub struct Input;

impl Read for Input {
    fn read(&mut self, buf: &mut [u8]) -> Result<usize> {
        Ok(read_full(STDIN_FILENO, buf))
    }
}

// Standard output.
#[derive(Clone, Copy)]
pub struct Output;

impl Write for Output {
    fn write(&mut self, buf: &[u8]) -> Result<usize> {
        if write_all(STDOUT_FILENO, buf) {
            Ok(buf.len())
        } else {
            Err(Error::from(ErrorKind::WriteZero))
        }
    }

    fn flush(&mut self) -> Result<()> {
        Ok(())
    }
}

// A writer before another: up to N bytes are held, and are written out when there are so many and more are to come, and by `flush`. What can't be written
// then is lost, and no write fails for it.
#[derive(Drop)]
pub struct Held<W: Write + Drop, const N: usize> {
    out: W,
    buffer: [u8; N],
    filled: usize,
}

impl<W: Write + Drop, const N: usize> Held<W, N> {
    pub fn new(out: W) -> Held<W, N>
        ensures { result.filled ≡ 0 }
    {
        Held {
            out,
            buffer: [0; N],
            filled: 0,
        }
    }

    fn leave(&mut self) {
        let n = self.filled.min(N);
        let held = &self.buffer[..];
        let _ = self.out.write_all(&held[..n]);
        self.filled = 0;
    }

    // As much of the bytes as there is room for: how much.
    fn hold(&mut self, buf: &[u8]) -> usize
        ensures { result ≤ length buf.now }
    {
        let from = self.filled.min(N);
        let n = buf.len().min(N - from);
        let space = &mut self.buffer[..];
        space[from..from + n].copy_from_slice(&buf[..n]);
        self.filled = from + n;
        n
    }

    // Bytes that don't fit. It stands apart, so that the test for room is inlined.
    #[cold]
    #[inline(never)]
    fn hold_long(&mut self, buf: &[u8]) {
        let taken = self.hold(buf);
        for part in buf[taken..].chunks(N.max(1)) {
            self.leave();
            self.hold(part);
        }
    }
}

impl<W: Write + Drop, const N: usize> Write for Held<W, N> {
    fn write(&mut self, buf: &[u8]) -> Result<usize> {
        if self.filled >= N {
            self.leave();
        }
        Ok(self.hold(buf))
    }

    // Most of what the programs write is a few bytes long.
    fn write_all(&mut self, buf: &[u8]) -> Result<()> {
        let from = self.filled;
        if from <= N && buf.len() <= N - from {
            let end = from + buf.len();
            let space = &mut self.buffer[..];
            space[from..end].copy_from_slice(buf);
            self.filled = end;
        } else {
            self.hold_long(buf);
        }
        Ok(())
    }

    fn flush(&mut self) -> Result<()> {
        self.leave();
        Ok(())
    }
}

#[cfg(test)]
mod tests {
    use super::*;
    use std::test::Fail;

    // Four bytes leave when a fifth comes, and the rest by `flush`.
    #[test]
    fn holds_four(rt: HostRuntime) -> std::result::Result<(), Fail> {
        let mut held = Held::<Vec<u8>, 4>::new(Vec::new(rt.alloc()));
        held.write_all(b"abcd")?;
        assert_eq!(rt; held.out.as_slice(), "".as_bytes());
        held.write_all(b"ef")?;
        assert_eq!(rt; held.out.as_slice(), "abcd".as_bytes());
        held.flush()?;
        assert_eq!(rt; held.out.as_slice(), "abcdef".as_bytes());
        Ok(())
    }

    // A writer whose first write fails.
    #[derive(Drop)]
    struct Failing {
        out: Vec<u8>,
        failed: bool,
    }

    impl Write for Failing {
        fn write(&mut self, buf: &[u8]) -> Result<usize> {
            if self.failed {
                return self.out.write(buf);
            }
            self.failed = true;
            Err(Error::from(ErrorKind::WriteZero))
        }

        fn flush(&mut self) -> Result<()> {
            Ok(())
        }
    }

    // What can't be written is lost, and what comes after it is not.
    #[test]
    fn loses_what_fails(rt: HostRuntime) -> std::result::Result<(), Fail> {
        let out = Vec::new(rt.alloc());
        let mut held = Held::<Failing, 4>::new(Failing { out, failed: false });
        held.write_all(b"abcdef")?;
        held.flush()?;
        assert_eq!(rt; held.out.out.as_slice(), "ef".as_bytes());
        Ok(())
    }
}
