use super::*;
use std::io;
use std::io::{Cursor, Error, ErrorKind, Read, Write};
use std::test::*;

/// Fails with this kind of error at each call.
#[derive(Drop)]
struct Broken(ErrorKind);

impl Read for Broken {
    fn read(&mut self, _buf: &mut [u8]) -> io::Result<usize> {
        Err(Error::from(self.0))
    }
}

impl Write for Broken {
    fn write(&mut self, _buf: &[u8]) -> io::Result<usize> {
        Err(Error::from(self.0))
    }

    fn flush(&mut self) -> io::Result<()> {
        Ok(())
    }
}

/// Takes nothing.
#[derive(Drop)]
struct Full;

impl Write for Full {
    fn write(&mut self, _buf: &[u8]) -> io::Result<usize> {
        Ok(0)
    }

    fn flush(&mut self) -> io::Result<()> {
        Ok(())
    }
}

#[test]
fn lists_texts_and_entries_hold_what_they_are_given(rt: HostRuntime) -> Result<(), Fail> {
    let alloc = rt.alloc();
    let bytes = Bytes::of(alloc, b"abc").ok().ok_or("bytes")?;
    let again = bytes.copy().ok().ok_or("a copy")?;
    assert_eq!(rt; again.as_slice(), b"abc".as_slice());
    assert_eq!(rt; (bytes.len(), bytes.is_empty()), (3, false));
    let entry = Entry { term: -1, bytes };
    let same = entry.copy().ok().ok_or("an entry")?;
    assert_eq!(rt; same.term, -1);
    assert_eq!(rt; same.bytes.as_slice(), b"abc".as_slice());
    let text = Text::of(alloc, "naïve").ok().ok_or("a text")?.into_string();
    assert_eq!(rt; text.as_str(), "naïve");
    let mut list = List::new(alloc);
    assert!(rt; list.is_empty() && list.pop().is_none());
    for n in [3u8, 1, 2] {
        assert!(rt; list.push(n).is_ok());
    }
    assert_eq!(rt; list.as_slice(), [3, 1, 2].as_slice());
    assert_eq!(rt; (list.len(), list.pop()), (3, Some(2)));
    assert_eq!(rt;
        List::from_vec(list.into_vec()).as_slice(),
        [3, 1].as_slice()
    );
    Ok(())
}

#[test]
fn memory_fails_at_the_calls_of_its_list(rt: HostRuntime) -> Result<(), Fail> {
    let alloc = rt.alloc();
    let bytes = Vec::from_slice(alloc, b"hello")?;
    let mut source = MemSource::new(bytes, Vec::from_slice(alloc, &[2, 4])?);
    let mut buf = [0u8; 3];
    assert_eq!(rt; source.read(&mut buf), Ok(3));
    assert_eq!(rt; &buf[..], b"hel".as_slice());
    assert_eq!(rt; source.read(&mut buf), Err(Failed));
    assert_eq!(rt; source.read(&mut buf), Ok(2));
    assert_eq!(rt; &buf[..2], b"lo".as_slice());
    assert_eq!(rt; source.read(&mut buf), Err(Failed));
    assert_eq!(rt; (source.read(&mut buf), source.faults()), (Ok(0), 2));
    let mut sink = MemSink::new(alloc, Vec::from_slice(alloc, &[1])?);
    assert_eq!(rt; sink.write(b"lost"), Err(Trouble::Failed));
    assert_eq!(rt; sink.write(b"kept"), Ok(4));
    assert_eq!(rt; (sink.held(), sink.faults()), (b"kept".as_slice(), 1));
    Ok(())
}

#[test]
fn a_reader_of_std_is_a_source(rt: HostRuntime) {
    let mut source = ReadSource::new(Cursor::new(b"hi".as_slice()));
    let mut buf = [0u8; 4];
    assert_eq!(rt; source.read(&mut buf), Ok(2));
    assert_eq!(rt; &buf[..2], b"hi".as_slice());
    assert_eq!(rt; (source.read(&mut buf), source.faults()), (Ok(0), 0));
    let mut broken = ReadSource::new(Broken(ErrorKind::BrokenPipe));
    assert_eq!(rt; (broken.read(&mut buf), broken.faults()), (Err(Failed), 1));
}

#[test]
fn a_writer_of_std_is_a_sink(rt: HostRuntime) {
    let mut out = Vec::new(rt.alloc());
    let mut sink = WriteSink::new(&mut out);
    assert_eq!(rt; (sink.write(b"hi"), sink.faults()), (Ok(2), 0));
    assert_eq!(rt; out.as_slice(), b"hi".as_slice());
    let mut broken = WriteSink::new(Broken(ErrorKind::BrokenPipe));
    assert_eq!(rt;
        (broken.write(b"hi"), broken.faults()),
        (Err(Trouble::Failed), 1)
    );
    let mut starved = WriteSink::new(Broken(ErrorKind::OutOfMemory));
    assert_eq!(rt;
        (starved.write(b"hi"), starved.faults()),
        (Err(Trouble::NoMemory), 0)
    );
    let mut full = WriteSink::new(Full);
    assert_eq!(rt;
        (full.write(b"hi"), full.faults()),
        (Err(Trouble::Failed), 1)
    );
    assert_eq!(rt; (full.write(b""), full.faults()), (Ok(0), 1));
}
