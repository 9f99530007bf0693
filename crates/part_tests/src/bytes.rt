//! Errors of a real reader and of a real writer.

use es_io::{ReadAll, StdSink, StdSource, WroteFault, read_all, write_all_of};
use std::io;
use std::io::{Error, ErrorKind, Read, Write};

/// A reader that fails, and a writer that does as it is told.
#[derive(Clone, Copy)]
enum Fake {
    Fails,
    TakesNothing,
    FailsToFlush,
}

impl Read for Fake {
    fn read(&mut self, _buf: &mut [u8]) -> io::Result<usize> {
        Err(Error::from(ErrorKind::Interrupted))
    }
}

impl Write for Fake {
    fn write(&mut self, buf: &[u8]) -> io::Result<usize> {
        match self {
            Fake::Fails => Err(Error::from(ErrorKind::BrokenPipe)),
            Fake::TakesNothing => Ok(0),
            Fake::FailsToFlush => Ok(buf.len()),
        }
    }

    fn flush(&mut self) -> io::Result<()> {
        match self {
            Fake::FailsToFlush => Err(Error::from(ErrorKind::BrokenPipe)),
            _ => Ok(()),
        }
    }
}

fn writes_to(fake: Fake) -> Result<(), WroteFault> {
    write_all_of(&mut StdSink::new(fake), b"some bytes")
}

#[test]
fn errors_of_a_reader_and_a_writer_are_faults(rt: HostRuntime) {
    let answer = read_all(rt.alloc(), &mut StdSource::new(Fake::Fails), 10);
    assert!(rt; matches!(&answer, Err(ReadAll::ReadFault)));
    assert!(rt; writes_to(Fake::Fails) == Err(WroteFault { sent: 0 }));
    assert!(rt; writes_to(Fake::TakesNothing) == Err(WroteFault { sent: 0 }));
    assert!(rt; writes_to(Fake::FailsToFlush) == Err(WroteFault { sent: 0 }));
}
