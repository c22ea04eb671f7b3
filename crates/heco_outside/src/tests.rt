use crate::{FileStore, OutSink, Sink, SinkErr, Store, StoreErr};
use std::io;
use std::io::Write;
use std::test::Fail;

// Takes two bytes at a time, five in all.
#[derive(Drop)]
struct Narrow {
    bytes: Vec<u8>,
}

impl Write for Narrow {
    fn write(&mut self, buf: &[u8]) -> io::Result<usize> {
        let count = buf
            .len()
            .min(2)
            .min(5usize.saturating_sub(self.bytes.len()));
        self.bytes.extend_from_slice(&buf[..count])?;
        Ok(count)
    }

    fn flush(&mut self) -> io::Result<()> {
        Ok(())
    }
}

#[test]
fn a_writer_that_takes_no_more_is_a_fault(rt: HostRuntime) -> Result<(), Fail> {
    let mut sink = OutSink::new(Narrow {
        bytes: Vec::new(rt.alloc()),
    });
    assert_eq!(rt; sink.write_all(b"".as_slice()), Ok(()));
    assert_eq!(rt; sink.write_all(b"abc".as_slice()), Ok(()));
    assert_eq!(rt; sink.write_all(b"def".as_slice()), Err(SinkErr::Failed));
    assert_eq!(rt; sink.write_all(b"".as_slice()), Ok(()));
    Ok(())
}

#[test]
fn files_of_the_system(rt: HostRuntime) -> Result<(), Fail> {
    let alloc = rt.alloc();
    let mut store = FileStore::new(rt.clone()?);
    let long = vec![in alloc; 7u8; 5000]?;
    store.write(alloc, "a", long.as_slice())?;
    store.write(alloc, "a", b"abc".as_slice())?;
    store.write(alloc, "b", long.as_slice())?;
    assert_eq!(rt; store.read(alloc, "a", 9)?.as_slice(), b"abc".as_slice());
    assert_eq!(rt; store.read(alloc, "a", 2)?.as_slice(), b"ab".as_slice());
    assert_eq!(rt; store.read(alloc, "b", 4097)?.len(), 4097);
    assert_eq!(rt;
        store.read(alloc, "b", u64::MAX)?.as_slice(),
        long.as_slice()
    );
    assert!(rt; matches!(store.read(alloc, "c", 9), Err(StoreErr::Failed)));
    assert_eq!(rt;
        store.write(alloc, "c/d", b"".as_slice()),
        Err(StoreErr::Failed)
    );
    Ok(())
}
