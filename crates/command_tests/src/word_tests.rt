//! The arguments of a link: which are accepted, and what they ask for. Each link names an object that isn't there, so that
//! accepted arguments give a file fault.

use crate::fixtures::*;
use polkatool_cmd::{Status, Words, polkatool};
use std::alloc::{AllocError, Global};
use std::test::Fail;

/// Whether words are taken as a link.
fn is_taken(alloc: Global, words: &Words) -> Result<bool, AllocError> {
    let Outside {
        mut files,
        mut out,
        mut err,
    } = outside_with(alloc, b"")?;
    let answer = polkatool(alloc, words, &mut files, &mut out, &mut err);
    Ok(answer == Status::FileFault && err.bytes() == FILE_FAULT.as_slice())
}

fn push_all(words: &mut Words, line: &[&[u8]]) -> Result<(), AllocError> {
    for word in line {
        words.push(word)?;
    }
    Ok(())
}

/// The arguments of a link, followed by `count` pairs of an option and its value.
fn plain_and(alloc: Global, count: u16, option: &[u8]) -> Result<Words, AllocError> {
    let mut words = Words::new(alloc);
    push_all(&mut words, &[b"link", b"-o", b"b", b"p"])?;
    for number in 0..count {
        words.push(option)?;
        words.push(format!(in alloc; "{number}=0")?.as_bytes())?;
    }
    Ok(words)
}

/// The arguments of a link of `count` objects.
fn of_objects(alloc: Global, count: u16) -> Result<Words, AllocError> {
    let mut words = Words::new(alloc);
    push_all(&mut words, &[b"link", b"-o", b"b"])?;
    for _ in 0..count {
        words.push(b"p")?;
    }
    Ok(words)
}

#[test]
fn takes_options_and_objects_in_any_order(rt: HostRuntime) -> Result<(), Fail> {
    let lines: [&[&[u8]]; 5] = [
        &[
            b"link",
            b"p",
            b"-e",
            b"run",
            b"-i",
            b"put=7",
            b"-o",
            b"-b",
            b"-e",
            b"\xff",
            b"o",
            b"-i",
            b"grow=sbrk",
            b"--stack",
            b"0",
            b"-i",
            b"a=b=2147483647",
            b"o",
        ],
        &[b"link", b"-o", b"b", b"p"],
        &[b"link", b"p", b"-o", b"b"],
        &[
            b"link", b"-e", b"--stack", b"-o", b"b", b"-e", b"-e", b"p", b"-e", b"main",
        ],
        &[b"link", b"-o", b"b", b"p", b"--stack", b"16777215"],
    ];
    for line in lines {
        let mut words = Words::new(rt.alloc());
        push_all(&mut words, line)?;
        assert!(rt; is_taken(rt.alloc(), &words)?);
    }
    Ok(())
}

#[test]
fn refuses_other_names(rt: HostRuntime) -> Result<(), Fail> {
    let lines: [&[&[u8]]; 14] = [
        &[b"link", b"p"],
        &[b"link", b"-o", b"b", b"p", b"-o", b"b"],
        &[b"link", b"-o", b"", b"p"],
        &[b"link", b"-o", b"\xff", b"p"],
        &[b"link", b"-o", b"b", b""],
        &[b"link", b"-o", b"b", b"\xff"],
        &[b"link", b"-o", b"b", b"p", b""],
        &[b"link", b"-o", b"b", b"p", b"-o"],
        &[b"link", b"-o", b"b", b"p", b"--help"],
        &[b"link", b"-o", b"b", b"p", b"--gas", b"5"],
        &[
            b"link", b"--stack", b"5", b"-o", b"b", b"p", b"--stack", b"5",
        ],
        &[
            b"link", b"-i", b"x=5", b"-o", b"b", b"-i", b"y=5", b"p", b"-i", b"x=5",
        ],
        &[b"link", b"-o", b"b", b"p", b"-i", b"x=5", b"-i", b"x=sbrk"],
        &[b"link", b"-o", b"b", b"p", b"-e"],
    ];
    for line in lines {
        assert!(rt; is_faulty(rt.alloc(), line)?);
    }
    Ok(())
}

/// After the arguments of a link.
#[test]
fn refuses_other_values(rt: HostRuntime) -> Result<(), Fail> {
    let pairs: [(&[u8], &[u8]); 17] = [
        (b"-e", b""),
        (b"-i", b""),
        (b"-i", b"x"),
        (b"-i", b"x="),
        (b"-i", b"=5"),
        (b"-i", b"=sbrk"),
        (b"-i", b"x=sbrk="),
        (b"-i", b"x=5=a"),
        (b"-i", b"x=05"),
        (b"-i", b"x=-5"),
        (b"-i", b"x=2147483648"),
        (b"-i", b"x=18446744073709551616"),
        (b"--stack", b""),
        (b"--stack", b"016"),
        (b"--stack", b"0x10"),
        (b"--stack", b"16777216"),
        (b"-x", b"5"),
    ];
    for (option, value) in pairs {
        assert!(rt; is_faulty(rt.alloc(), &[b"link", b"-o", b"b", b"p", option, value])?);
    }
    Ok(())
}

/// Many words take no more of the stack than few.
#[test]
fn counts_objects_entries_and_imports(rt: HostRuntime) -> Result<(), Fail> {
    for (count, taken) in [(1024, true), (1025, false), (65_535, false)] {
        let words = of_objects(rt.alloc(), count)?;
        assert_eq!(rt; is_taken(rt.alloc(), &words)?, taken, "{count}");
    }
    let options: [&[u8]; 2] = [b"-e", b"-i"];
    for option in options {
        for (count, taken) in [(1000, true), (1001, false)] {
            let words = plain_and(rt.alloc(), count, option)?;
            assert_eq!(rt; is_taken(rt.alloc(), &words)?, taken, "{count}");
        }
    }
    Ok(())
}

/// The stack size is in bytes 8 to 10 of the container.
#[test]
fn passes_the_stack_on(rt: HostRuntime) -> Result<(), Fail> {
    let rows: [(&[u8], &[u8]); 2] = [(b"0", &[0, 0, 0]), (b"16777215", &[0xff, 0xff, 0xff])];
    for (stack, want) in rows {
        let mut outside = outside_with(rt.alloc(), &object(rt.alloc())?)?;
        let line: [&[u8]; 6] = [b"link", b"-o", b"b", b"o", b"--stack", stack];
        assert_eq!(rt; run(rt.alloc(), &mut outside, &line)?, Status::Done);
        let container = outside.files.file("b").unwrap_or(b"");
        assert_eq!(rt; container.get(8..11), Some(want));
    }
    Ok(())
}

/// The first entry that isn't defined is reported by its number.
#[test]
fn passes_entries_on_in_order(rt: HostRuntime) -> Result<(), Fail> {
    let object = object(rt.alloc())?;
    let rows: [(&[&[u8]], &[u8]); 2] = [
        (
            &[
                b"link", b"-o", b"b", b"o", b"-e", b"main", b"-e", b"--stack",
            ],
            b"refused 12 EntryMissing object=1 section=0 offset=0\n",
        ),
        (
            &[b"link", b"-e", b"\xff", b"-o", b"b", b"-e", b"main", b"o"],
            b"refused 12 EntryMissing object=0 section=0 offset=0\n",
        ),
    ];
    for (line, refusal) in rows {
        assert!(rt;
            results_in(
                rt.alloc(),
                &object,
                line,
                Status::Refused,
                b"",
                b"",
                refusal
            )?
        );
    }
    Ok(())
}
