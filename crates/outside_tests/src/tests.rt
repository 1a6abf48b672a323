//! What no clause says: that calls succeed, what the system's files hold, and how calls go on that
//! were asked to fail.

use outside::{
    Bytes, Failed, Folder, MemoryFolder, MemorySink, ReadFault, RealFolder, RealSink, Sink,
};
use std::io;
use std::io::{ErrorKind, Write};
use std::test::Fail;

/// Whether the name holds exactly these bytes.
fn holds(folder: &MemoryFolder, name: &str, bytes: &[u8]) -> bool {
    match folder.file(name) {
        Some(held) => held == bytes,
        None => false,
    }
}

/// Whether a read gave exactly these bytes.
fn gave(answer: Result<Bytes, ReadFault>, bytes: &[u8]) -> bool {
    match answer {
        Ok(given) => given.as_slice() == bytes,
        Err(_) => false,
    }
}

#[test]
fn bytes_grow(rt: HostRuntime) -> Result<(), Fail> {
    let mut bytes = Bytes::new(rt.alloc());
    assert_eq!(rt; bytes.len(), 0);
    bytes.push(7)?;
    bytes.append(&[8, 9])?;
    assert_eq!(rt; bytes.len(), 3);
    assert_eq!(rt; bytes.as_slice(), [7u8, 8, 9].as_slice());
    Ok(())
}

#[test]
fn folder_reads_what_was_added(rt: HostRuntime) -> Result<(), Fail> {
    let alloc = rt.alloc();
    let mut folder = MemoryFolder::new(alloc);
    folder.add("a", b"one")?;
    folder.add("b", b"")?;
    folder.add("a", b"three")?;
    assert!(rt; holds(&folder, "a", b"three"));
    assert!(rt; holds(&folder, "b", b""));
    assert!(rt; folder.file("c").is_none());
    assert!(rt; gave(folder.read(alloc, "a", 5), b"three"));
    assert_eq!(rt; folder.read(alloc, "a", 4).err(), Some(ReadFault::TooLarge));
    assert!(rt; gave(folder.read(alloc, "b", 0), b""));
    assert_eq!(rt; folder.read(alloc, "c", 9).err(), Some(ReadFault::Failed));
    Ok(())
}

#[test]
fn folder_writes_within_its_room(rt: HostRuntime) -> Result<(), Fail> {
    let mut folder = MemoryFolder::new(rt.alloc());
    folder.add("a", b"old")?;
    assert_eq!(rt; folder.write("a", b""), Err(Failed), "no room was given");
    folder.room("a", 4)?;
    assert!(rt; holds(&folder, "a", b"old"));
    assert_eq!(rt; folder.write("a", b"long!"), Err(Failed));
    assert!(rt; holds(&folder, "a", b"old"));
    assert_eq!(rt; folder.write("a", b"four"), Ok(()));
    folder.add("a", b"much longer")?;
    assert_eq!(rt; folder.write("a", b"next"), Ok(()), "the room stays");
    assert!(rt; holds(&folder, "a", b"next"));
    folder.room("a", 2)?;
    assert_eq!(rt;
        folder.write("a", b"new"),
        Err(Failed),
        "the room was replaced"
    );
    folder.room("b", 3)?;
    assert!(rt; folder.file("b").is_none());
    assert_eq!(rt; folder.write("b", b"new"), Ok(()));
    assert!(rt; holds(&folder, "b", b"new"));
    Ok(())
}

#[test]
fn folder_calls_fail_in_turn(rt: HostRuntime) -> Result<(), Fail> {
    for failing in 0..4 {
        let alloc = rt.alloc();
        let mut folder = MemoryFolder::new(alloc);
        folder.add("a", b"old")?;
        folder.room("a", 3)?;
        folder.fail(failing)?;
        let first = folder.read(alloc, "a", 3).err();
        let second = folder.write("a", b"new");
        let third = folder.read(alloc, "a", 3).err();
        assert_eq!(rt; first.is_some(), failing == 0, "call 0 of {failing}");
        assert_eq!(rt; second.is_err(), failing == 1, "call 1 of {failing}");
        assert_eq!(rt; third.is_some(), failing == 2, "call 2 of {failing}");
        assert_eq!(rt; holds(&folder, "a", b"old"), failing == 1);
    }
    Ok(())
}

#[test]
fn sink_puts_within_its_room(rt: HostRuntime) -> Result<(), Fail> {
    let mut sink = MemorySink::new(rt.alloc(), 5)?;
    sink.fail(1)?;
    assert_eq!(rt; sink.put(b"one"), Ok(()));
    assert_eq!(rt; sink.put(b"1"), Err(Failed), "call 1 is to fail");
    assert_eq!(rt; sink.put(b"two"), Err(Failed), "there is room for two more");
    assert_eq!(rt; sink.put(b"to"), Ok(()));
    assert_eq!(rt; sink.put(b""), Ok(()));
    assert_eq!(rt; sink.bytes(), b"oneto".as_slice());
    Ok(())
}

#[test]
fn real_folder_reads_what_it_wrote(rt: HostRuntime) -> Result<(), Fail> {
    let alloc = rt.alloc();
    let mut folder = RealFolder::new(&rt);
    let long = vec![in alloc; 5u8; 200_000]?;
    assert_eq!(rt; folder.write("written", long.as_slice()), Ok(()));
    assert!(rt; gave(folder.read(alloc, "written", 200_000), long.as_slice()));
    assert_eq!(rt;
        folder.read(alloc, "written", 199_999).err(),
        Some(ReadFault::TooLarge)
    );
    assert_eq!(rt; folder.write("written", b"short"), Ok(()));
    assert!(rt; gave(folder.read(alloc, "written", 5), b"short"));
    assert_eq!(rt;
        folder.read(alloc, "missing", 5).err(),
        Some(ReadFault::Failed)
    );
    assert_eq!(rt; folder.write("missing/written", b""), Err(Failed));
    Ok(())
}

/// A writer that takes one byte a call, is interrupted at every second call, and takes nothing once
/// it is full.
#[derive(Drop)]
struct Narrow {
    bytes: Vec<u8>,
    room: usize,
    is_interrupted: bool,
}

impl Write for Narrow {
    fn write(&mut self, buf: &[u8]) -> io::Result<usize> {
        self.is_interrupted = !self.is_interrupted;
        if self.is_interrupted {
            return Err(io::Error::from(ErrorKind::Interrupted));
        }
        if buf.is_empty() || self.bytes.len() >= self.room {
            return Ok(0);
        }
        self.bytes.push(buf[0])?;
        Ok(1)
    }

    fn flush(&mut self) -> io::Result<()> {
        Ok(())
    }
}

#[test]
fn real_sink_writes_whole_pieces(rt: HostRuntime) -> Result<(), Fail> {
    let mut narrow = Narrow {
        bytes: Vec::new(rt.alloc()),
        room: 5,
        is_interrupted: false,
    };
    let mut sink = RealSink::new(&mut narrow);
    assert_eq!(rt; sink.put(b"one"), Ok(()));
    assert_eq!(rt; sink.put(b""), Ok(()));
    assert_eq!(rt; sink.put(b"two"), Err(Failed), "it takes nothing more");
    let Narrow { bytes, .. } = narrow;
    assert_eq!(rt; bytes.as_slice(), b"onetw".as_slice());
    Ok(())
}
