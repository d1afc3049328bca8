//! A file on disk, and a stream that takes a part of a piece.

use crate::files::FileShelf;
use crate::streams::StdSink;
use odd_base::{Shelf, ShelfFault, Sink, SinkFault};
use odd_text::Text;
use std::io::{ErrorKind, Write};
use std::test::Fail;
use std::{fs, io, process};

// A stream that takes at most `most` bytes of a piece, and that can be flushed or not.
#[derive(Drop)]
struct Narrow {
    most: usize,
    flushes: bool,
}

impl Write for Narrow {
    fn write(&mut self, buf: &[u8]) -> io::Result<usize> {
        Ok(buf.len().min(self.most))
    }

    fn flush(&mut self) -> io::Result<()> {
        if self.flushes {
            Ok(())
        } else {
            Err(io::Error::from(ErrorKind::Other))
        }
    }
}

#[test]
fn an_output_says_what_its_stream_took(rt: HostRuntime) -> Result<(), Fail> {
    for (most, flushes, answer) in [
        (2, true, Ok(2)),
        (9, true, Ok(3)),
        (0, true, Err(SinkFault)),
        (2, false, Err(SinkFault)),
    ] {
        let mut sink = StdSink::new(Narrow { most, flushes });
        assert_eq!(rt; sink.put(b"abc"), answer);
        assert_eq!(rt; sink.put(b""), Ok(0));
    }
    Ok(())
}

#[test]
fn a_file_on_disk_is_read_to_its_end(rt: HostRuntime) -> Result<(), Fail> {
    let id = process::id(rt.process());
    let path = format!(in rt.alloc(); "odd_file_{id}")?;
    fs::write(&rt, path.as_str(), b"abc".as_slice())?;
    let name = Text::from_str(rt.alloc(), path.as_str())?;
    let mut shelf = FileShelf::new(&rt);
    let mut buf = [0u8; 2];
    assert_eq!(rt; shelf.read(&mut buf), Err(ShelfFault));
    assert_eq!(rt; shelf.begin(&name), Ok(()));
    assert_eq!(rt; shelf.read(&mut buf), Ok(2));
    assert_eq!(rt; buf.as_slice(), b"ab".as_slice());
    assert_eq!(rt; shelf.read(&mut buf), Ok(1));
    assert_eq!(rt; &buf[..1], b"c".as_slice());
    assert_eq!(rt; shelf.read(&mut buf), Ok(0));
    fs::remove_file(&rt, path.as_str())?;
    assert_eq!(rt; shelf.begin(&name), Err(ShelfFault));
    assert_eq!(rt; shelf.read(&mut buf), Err(ShelfFault));
    Ok(())
}
