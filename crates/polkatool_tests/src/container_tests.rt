use blob_codec::{
    BlobFault, Container, Parts, containers_are_read, programs_are_read, write_container,
    write_program,
};
use std::test::*;

#[test]
fn what_is_written_is_read_and_nothing_else(rt: HostRuntime) -> Result<(), Fail> {
    programs_are_read();
    containers_are_read();
    let program = write_program(rt.alloc(), &[0x0102, 0x0a0b], 2, &[0x00], &[0x01])?;
    assert_eq!(rt; program.len(), 9);
    let parts = Parts {
        read_only: b"hello",
        writable: &[7, 8],
        zero_pages: 0x0304,
        stack: 0x05_0607,
        program: program.as_slice(),
    };
    let bytes = write_container(rt.alloc(), &parts)?;
    let container = Container::read(bytes.as_slice())?;
    assert_eq!(rt; container.read_only(), parts.read_only);
    assert_eq!(rt; container.writable(), parts.writable);
    let sizes = (container.zero_pages(), container.stack());
    assert_eq!(rt; sizes, (parts.zero_pages, parts.stack));
    let program = container.program();
    assert_eq!(rt; (program.table_len(), program.width()), (2, 2));
    assert_eq!(rt; program.code().bytes(), [0x00].as_slice());
    assert!(rt; program.borrowed_again().code().marked(0));
    let mut longer = bytes.as_slice().to_vec(rt.alloc())?;
    for len in 0..longer.len() {
        let front = Container::read(&longer[..len]).err();
        assert_eq!(rt; front, Some(BlobFault::Truncated), "at {len}");
    }
    longer.push(0)?;
    assert_eq!(rt; Container::read(&longer).err(), Some(BlobFault::LeftOver));
    Ok(())
}
