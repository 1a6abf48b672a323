use super::*;
use crate::fields::read_natural;
use crate::naturals_out::put_natural;
use pvm_ops::Bytes8;
use std::test::*;

#[test]
fn spells_and_reads_naturals(rt: HostRuntime) -> Result<(), Fail> {
    let spellings: [(u64, &[u8]); 18] = [
        (0, b"\x00"),
        (0x7f, b"\x7f"),
        (0x80, b"\x80\x80"),
        (0x3fff, b"\xbf\xff"),
        (0x4000, b"\xc0\x00\x40"),
        (0x1f_ffff, b"\xdf\xff\xff"),
        (0x20_0000, b"\xe0\x00\x00\x20"),
        (0xfff_ffff, b"\xef\xff\xff\xff"),
        (0x1000_0000, b"\xf0\x00\x00\x00\x10"),
        (0x7_ffff_ffff, b"\xf7\xff\xff\xff\xff"),
        (0x8_0000_0000, b"\xf8\x00\x00\x00\x00\x08"),
        (0x3ff_ffff_ffff, b"\xfb\xff\xff\xff\xff\xff"),
        (0x400_0000_0000, b"\xfc\x00\x00\x00\x00\x00\x04"),
        (0x1_ffff_ffff_ffff, b"\xfd\xff\xff\xff\xff\xff\xff"),
        (0x2_0000_0000_0000, b"\xfe\x00\x00\x00\x00\x00\x00\x02"),
        (0xff_ffff_ffff_ffff, b"\xfe\xff\xff\xff\xff\xff\xff\xff"),
        (
            0x100_0000_0000_0000,
            b"\xff\x00\x00\x00\x00\x00\x00\x00\x01",
        ),
        (u64::MAX, b"\xff\xff\xff\xff\xff\xff\xff\xff\xff"),
    ];
    for (x, want) in spellings {
        let mut out = Bytes8::new(rt.alloc());
        put_natural(x, &mut out)?;
        assert_eq!(rt; out.as_slice(), want, "at {x:x}");
        let (read, rest) = read_natural(want)?;
        assert_eq!(rt; read, x);
        assert!(rt; rest.is_empty());
    }
    Ok(())
}

#[test]
fn spells_the_container_of_a_program(rt: HostRuntime) -> Result<(), Fail> {
    let code = [0x28, 0x05, 0x00, 0x00, 0x00, 0x33, 0x07, 0x05, 0x32, 0x00];
    let program = write_program(rt.alloc(), &[], 1, &code, &[0x21, 0x01])?;
    assert_eq!(rt; program.len(), 15);
    let parts = Parts {
        read_only: &[],
        writable: &[],
        zero_pages: 0,
        stack: 0x1_0000,
        program: program.as_slice(),
    };
    let container = write_container(rt.alloc(), &parts)?;
    let want = [
        0x00, 0x00, 0x00, 0x00, 0x00, 0x00, 0x00, 0x00, 0x00, 0x00, 0x01, 0x0f, 0x00, 0x00, 0x00,
        0x00, 0x01, 0x0a, 0x28, 0x05, 0x00, 0x00, 0x00, 0x33, 0x07, 0x05, 0x32, 0x00, 0x21, 0x01,
    ];
    assert_eq!(rt; container.as_slice(), want.as_slice());
    Ok(())
}

#[test]
fn spells_a_table_and_data(rt: HostRuntime) -> Result<(), Fail> {
    let program = write_program(rt.alloc(), &[0x0102, 0x0a0b], 2, &[0x00], &[0x01])?;
    let spelled = [0x02, 0x02, 0x01, 0x02, 0x01, 0x0b, 0x0a, 0x00, 0x01];
    assert_eq!(rt; program.as_slice(), spelled.as_slice());
    let parts = Parts {
        read_only: b"hello",
        writable: &[7, 8],
        zero_pages: 0x0304,
        stack: 0x05_0607,
        program: program.as_slice(),
    };
    let container = write_container(rt.alloc(), &parts)?;
    let want = [
        0x05, 0x00, 0x00, 0x02, 0x00, 0x00, 0x04, 0x03, 0x07, 0x06, 0x05, 0x68, 0x65, 0x6c, 0x6c,
        0x6f, 0x07, 0x08, 0x09, 0x00, 0x00, 0x00, 0x02, 0x02, 0x01, 0x02, 0x01, 0x0b, 0x0a, 0x00,
        0x01,
    ];
    assert_eq!(rt; container.as_slice(), want.as_slice());
    Ok(())
}

#[test]
fn takes_no_natural_that_is_cut_or_overlong(rt: HostRuntime) -> Result<(), Fail> {
    let faulty: [(&[u8], BlobFault); 7] = [
        (b"", BlobFault::Truncated),
        (b"\x80", BlobFault::Truncated),
        (b"\xff\x00\x00\x00\x00\x00\x00\x01", BlobFault::Truncated),
        (b"\x80\x7f", BlobFault::Overlong),
        (b"\xc0\xff\x3f", BlobFault::Overlong),
        (b"\xfe\xff\xff\xff\xff\xff\xff\x01", BlobFault::Overlong),
        (b"\xff\xff\xff\xff\xff\xff\xff\xff\x00", BlobFault::Overlong),
    ];
    for (bytes, want) in faulty {
        assert_eq!(rt; read_natural(bytes).err(), Some(want), "at {bytes:?}");
    }
    Ok(())
}

#[test]
fn reports_the_first_fault_of_a_program(rt: HostRuntime) -> Result<(), Fail> {
    let faulty: [(&[u8], BlobFault); 14] = [
        (b"", BlobFault::Truncated),
        (b"\x00", BlobFault::Truncated),
        (b"\x00\x01", BlobFault::Truncated),
        (b"\x01\x02\x00\x05", BlobFault::Truncated),
        (b"\x00\x01\x02\x00", BlobFault::Truncated),
        (b"\x00\x01\x01\x00", BlobFault::Truncated),
        (
            b"\xff\xff\xff\xff\xff\xff\xff\xff\xff\x08\x00",
            BlobFault::Truncated,
        ),
        (
            b"\x00\x01\xff\xff\xff\xff\xff\xff\xff\xff\xff",
            BlobFault::Truncated,
        ),
        (b"\x80\x01\x09", BlobFault::Overlong),
        (b"\x00\x01\x80\x00", BlobFault::Overlong),
        (b"\x00\x09\x80\x00", BlobFault::BadWidth),
        (b"\x01\x00", BlobFault::BadWidth),
        (b"\x00\x01\x01\x00\x02\x00", BlobFault::BadPadding),
        (b"\x00\x01\x01\x00\x01\x00", BlobFault::LeftOver),
    ];
    for (bytes, want) in faulty {
        assert_eq!(rt; Program::read(bytes).err(), Some(want), "at {bytes:?}");
        assert!(rt; !spelled_by_its_ends(bytes), "at {bytes:?}");
    }
    let whole: [&[u8]; 3] = [
        b"\x00\x00\x00",
        b"\x00\x08\x00",
        b"\x00\x01\x0801234567\xff",
    ];
    for bytes in whole {
        assert_eq!(rt; Program::read(bytes).err(), None, "at {bytes:?}");
        assert!(rt; spelled_by_its_ends(bytes), "at {bytes:?}");
    }
    Ok(())
}

/// Whether bytes spell a program, seen at their ends.
fn spelled_by_its_ends(bytes: &[u8]) -> bool {
    let few = bytes.len().min(MOST_COUNTS);
    let last = bytes.last().copied().unwrap_or(0);
    spells_program(&bytes[..few], bytes.len() as u64, last)
}

/// The container of ten bytes of code, with the bytes of its program from its length on.
const FIRST: [u8; 30] = [
    0x00, 0x00, 0x00, 0x00, 0x00, 0x00, 0x00, 0x00, 0x00, 0x00, 0x01, 0x0f, 0x00, 0x00, 0x00, 0x00,
    0x01, 0x0a, 0x28, 0x05, 0x00, 0x00, 0x00, 0x33, 0x07, 0x05, 0x32, 0x00, 0x21, 0x01,
];

#[test]
fn reads_a_container(rt: HostRuntime) -> Result<(), Fail> {
    let container = Container::read(&FIRST)?;
    assert!(rt; container.read_only().is_empty());
    assert!(rt; container.writable().is_empty());
    assert_eq!(rt; container.zero_pages(), 0);
    assert_eq!(rt; container.stack(), 0x1_0000);
    let program = container.program();
    assert_eq!(rt; program.table_len(), 0);
    assert_eq!(rt; program.width(), 1);
    let code = program.code();
    assert_eq!(rt; code.bytes(), &FIRST[18..28]);
    assert!(rt; code.marked(0) && code.marked(5) && code.marked(8));
    assert!(rt; !code.marked(1) && !code.marked(9));
    Ok(())
}

#[test]
fn reads_a_table_and_data(rt: HostRuntime) -> Result<(), Fail> {
    let bytes = [
        0x05, 0x00, 0x00, 0x02, 0x00, 0x00, 0x04, 0x03, 0x07, 0x06, 0x05, 0x68, 0x65, 0x6c, 0x6c,
        0x6f, 0x07, 0x08, 0x09, 0x00, 0x00, 0x00, 0x02, 0x02, 0x01, 0x02, 0x01, 0x0b, 0x0a, 0x00,
        0x01,
    ];
    let container = Container::read(&bytes)?;
    assert_eq!(rt; container.read_only(), b"hello".as_slice());
    assert_eq!(rt; container.writable(), [7, 8].as_slice());
    assert_eq!(rt; container.zero_pages(), 0x0304);
    assert_eq!(rt; container.stack(), 0x05_0607);
    let program = container.program();
    assert_eq!(rt; program.width(), 2);
    assert_eq!(rt; program.table_len(), 2);
    assert_eq!(rt; program.table_entry(0), 0x0102);
    assert_eq!(rt; program.table_entry(1), 0x0a0b);
    assert_eq!(rt; program.code().bytes(), [0].as_slice());
    Ok(())
}

#[test]
fn reports_the_first_fault_of_a_container(rt: HostRuntime) -> Result<(), Fail> {
    let mut padded = FIRST;
    padded[29] = 0x05;
    assert_eq!(rt; Container::read(&padded).err(), Some(BlobFault::BadPadding));
    assert_eq!(rt;
        Container::read(&FIRST[..29]).err(),
        Some(BlobFault::Truncated)
    );
    let mut longer = FIRST.to_vec(rt.alloc())?;
    longer.push(0)?;
    assert_eq!(rt; Container::read(&longer).err(), Some(BlobFault::LeftOver));
    let overlong = [
        0x00, 0x00, 0x00, 0x00, 0x00, 0x00, 0x00, 0x00, 0x00, 0x00, 0x01, 0x10, 0x00, 0x00, 0x00,
        0x00, 0x01, 0x80, 0x0a, 0x28, 0x05, 0x00, 0x00, 0x00, 0x33, 0x07, 0x05, 0x32, 0x00, 0x21,
        0x01, 0x00,
    ];
    assert_eq!(rt;
        Container::read(&overlong[..31]).err(),
        Some(BlobFault::Overlong)
    );
    assert_eq!(rt; Container::read(&overlong).err(), Some(BlobFault::LeftOver));
    for len in 0..10 {
        assert_eq!(rt;
            Container::read(&FIRST[..len]).err(),
            Some(BlobFault::Truncated)
        );
    }
    Ok(())
}
