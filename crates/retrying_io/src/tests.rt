//! Devices whose calls are interrupted.
use super::*;

/// Is interrupted some times before each call, and then reads one byte, takes one or fails.
#[derive(Drop)]
struct Signals {
    before: u32,
    left: u32,
    then: Option<u8>,
    taken: u8,
}

impl Signals {
    /// Whether this call is interrupted.
    fn interrupts(&mut self) -> bool {
        if self.left == 0 {
            self.left = self.before;
            return false;
        }
        self.left -= 1;
        true
    }
}

impl Read for Signals {
    fn read(&mut self, buf: &mut [u8]) -> io::Result<usize> {
        if self.interrupts() {
            return Err(Error::from(ErrorKind::Interrupted));
        }
        match self.then {
            None => Err(Error::from(ErrorKind::BrokenPipe)),
            Some(_) if buf.is_empty() => Ok(0),
            Some(byte) => {
                buf[0] = byte;
                Ok(1)
            }
        }
    }
}

impl Write for Signals {
    fn write(&mut self, buf: &[u8]) -> io::Result<usize> {
        if self.interrupts() {
            return Err(Error::from(ErrorKind::Interrupted));
        }
        match self.then {
            None => Err(Error::from(ErrorKind::BrokenPipe)),
            Some(_) if buf.is_empty() => Ok(0),
            Some(_) => {
                self.taken = buf[0];
                Ok(1)
            }
        }
    }

    fn flush(&mut self) -> io::Result<()> {
        Ok(())
    }
}

fn interrupted_by(before: u32, then: Option<u8>) -> Signals {
    Signals {
        before,
        left: before,
        then,
        taken: 0,
    }
}

#[test]
fn interrupted_calls_are_tried_again(rt: HostRuntime) {
    let mut device = Retrying::new(interrupted_by(3, Some(7)));
    let mut buf = [0; 2];
    let read = device.read(&mut buf);
    assert!(rt; matches!(&read, Ok(1)));
    assert!(rt; buf[0] == 7);
    let written = device.write(&[9, 8]);
    assert!(rt; matches!(&written, Ok(1)));
    assert!(rt; device.device.taken == 9);
}

#[test]
fn other_errors_stay(rt: HostRuntime) {
    let mut device = Retrying::new(interrupted_by(2, None));
    let read = device.read(&mut [0; 2]);
    assert!(rt; matches!(&read, Err(e) if e.kind() == ErrorKind::BrokenPipe));
    let written = device.write(&[1]);
    assert!(rt; matches!(&written, Err(e) if e.kind() == ErrorKind::BrokenPipe));
}
