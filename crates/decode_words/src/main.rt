//! Prints what each word of RV64EM does: for each line of the standard input, which is a word in hexadecimal digits, a
//! line with its operation or its fault.
//!
//! `bench/decode.py` holds these lines against a disassembler of another house.
#![tactic(auto)]

use rv_decode::decode;
use std::io;
use std::io::{BufRead, BufReader, BufWriter, Write};

fn main(rt: HostRuntime) -> io::Result<()> {
    let words = BufReader::new(rt.alloc(), rt.reader())?;
    let mut out = BufWriter::new(rt.alloc(), io::writer(&rt))?;
    for line in words.lines(rt.alloc()) {
        match u32::from_str_radix(line?.as_str(), 16) {
            Ok(word) => writeln!(out, "{:?}", decode(word))?,
            Err(_) => writeln!(out, "no word of 32 bits")?,
        }
    }
    out.flush()
}
