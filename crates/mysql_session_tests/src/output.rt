//! How a test of this crate ends, and the outputs of its tests.

ghost use Rattle.std.specs.Prelude.{◌≡◌, true};

use std::io;
use std::io::{ErrorKind, Write};
use std::process::Abort;
use tests_support::Assert;

/// Ends a test by an assertion.
#[derive(Drop)]
pub struct Asserting<'a, R>(pub &'a R);

impl<R: Abort> Assert for Asserting<'_, R> {
    fn holds(&self, is_so: bool)
        ensures { is_so ≡ true }
    {
        assert!(self.0; is_so);
    }
}

/// How many bytes an output takes at once at most, in how many writes, and how many bytes in all.
pub type Limits = (usize, usize, usize);

/// An output that is interrupted before each write, and fails behind its limits.
#[derive(Clone, Copy)]
pub struct Output<'a> {
    /// What it is wanted to be given from now on.
    pub wanted: &'a [u8],
    pub limits: Limits,
    /// How it fails: it takes nothing for `WriteZero`.
    pub kind: ErrorKind,
    /// Whether it can be flushed, and whether it was.
    pub flushes: bool,
    pub is_flushed: bool,
    pub is_interrupted: bool,
    pub is_broken: bool,
    /// Whether it was given what is wanted each time, and was asked no more once it failed.
    pub is_wanted: bool,
}

impl<'a> Output<'a> {
    /// An output that is wanted to be given these bytes.
    pub fn new(wanted: &'a [u8], limits: Limits, kind: ErrorKind, flushes: bool) -> Self {
        Output {
            wanted,
            limits,
            kind,
            flushes,
            is_flushed: false,
            is_interrupted: false,
            is_broken: false,
            is_wanted: true,
        }
    }
}

impl Write for Output<'_> {
    fn write(&mut self, buf: &[u8]) -> io::Result<usize> {
        if self.is_broken {
            self.is_wanted = false;
        }
        self.is_interrupted = !self.is_interrupted;
        if self.is_interrupted {
            return Err(io::Error::from(ErrorKind::Interrupted));
        }
        let (most, writes, left) = self.limits;
        if writes == 0 || left == 0 {
            self.is_broken = true;
            if self.kind == ErrorKind::WriteZero {
                return Ok(0);
            }
            return Err(io::Error::from(self.kind));
        }
        let count = buf.len().min(most).min(left);
        self.limits = (most, writes - 1, left - count);
        match self.wanted.strip_prefix(&buf[..count]) {
            Some(rest) => self.wanted = rest,
            None => self.is_wanted = false,
        }
        Ok(count)
    }

    fn flush(&mut self) -> io::Result<()> {
        self.is_flushed = true;
        if self.flushes {
            Ok(())
        } else {
            Err(io::Error::from(ErrorKind::Other))
        }
    }
}
