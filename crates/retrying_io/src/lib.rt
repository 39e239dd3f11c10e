//! A reader and a writer that try again if a signal interrupts them.
//!
//! A signal can interrupt a read or a write before any byte has moved (`EINTR`). `Retrying` then calls its device again. It reads
//! and writes what the device does, and never fails by an interruption. After `TRIES` interruptions in a row it fails with
//! `TimedOut`, so each call ends.
#![tactic(auto)]

ghost use Rattle.std.specs.Prelude.{◌≡◌, ◌≢◌, ◌↔◌, IfErr, IsTrue};
ghost use Rattle.std.specs.IoError.{error_kind};
ghost use Rattle.std.specs.Io.{ReadsAtMost, WritesAtMost};
ghost use Rattle.std.specs.Io.KnownBytes.{ReadConsumes, WriteAppends};
ghost use Rattle.std.specs.declared.io.ErrorKind.TheVariants.{Interrupted};

#[cfg(test)]
mod tests;

use std::io::{self, Error, ErrorKind, Read, Write};

/// How often a call is tried.
const TRIES: u64 = u64::MAX;

/// A device whose interrupted calls are tried again.
#[derive(Drop)]
pub struct Retrying<D> {
    device: D,
}

impl<D> Retrying<D> {
    /// The same device, tried again.
    pub fn new(device: D) -> Retrying<D>
        ensures { result.device ≡ device }
    {
        Retrying { device }
    }
}

/// Whether a signal interrupted a call.
fn is_interrupted(error: &Error) -> bool
    ensures { IsTrue result ↔ (error_kind error.now ≡ Interrupted) }
{
    error.kind() == ErrorKind::Interrupted
}

impl<R: Read> Read for Retrying<R> {
    ghost remaining = { λ s. R.remaining s.device };

    fn read(&mut self, buf: &mut [u8]) -> io::Result<usize>
        ensures bound { ReadsAtMost result buf.new }
        ensures bytes { ReadConsumes (R.remaining self.old.device) (R.remaining self.new.device) result buf.new }
        ensures retried { IfErr result (λ e. error_kind e ≢ Interrupted) }
    {
        for _ in 0..TRIES {
            match self.device.read(buf) {
                Ok(count) => return Ok(count),
                Err(error) => {
                    if !is_interrupted(&error) {
                        return Err(error);
                    }
                }
            }
        }
        Err(Error::from(ErrorKind::TimedOut))
    }
}

impl<W: Write> Write for Retrying<W> {
    ghost contents = { λ s. W.contents s.device };

    fn write(&mut self, buf: &[u8]) -> io::Result<usize>
        ensures bound { WritesAtMost result buf.now }
        ensures bytes { WriteAppends (W.contents self.old.device) (W.contents self.new.device) result buf.now }
        ensures retried { IfErr result (λ e. error_kind e ≢ Interrupted) }
    {
        for _ in 0..TRIES {
            match self.device.write(buf) {
                Ok(count) => return Ok(count),
                Err(error) => {
                    if !is_interrupted(&error) {
                        return Err(error);
                    }
                }
            }
        }
        Err(Error::from(ErrorKind::TimedOut))
    }

    fn flush(&mut self) -> io::Result<()> {
        self.device.flush()
    }
}
