//! Links RISC-V objects into programs of the Polkadot Virtual Machine.
#![tactic(auto)]

use outside::{RealFolder, RealSink};
use polkatool_cmd::{Words, out_of_memory, polkatool};
use std::alloc::AllocError;
use std::env;
use std::env::Env;
use std::io::ErrorKind;
use std::process::ExitCode;

fn main(rt: HostRuntime) -> ExitCode {
    let mut files = RealFolder::new(&rt);
    let mut out = RealSink::new(rt.stdout());
    let mut err = RealSink::new(rt.stderr());
    let status = match words_of(&rt) {
        Ok(words) => polkatool(rt.alloc(), &words, &mut files, &mut out, &mut err),
        Err(_) => out_of_memory(&mut err),
    };
    ExitCode::from(status.number())
}

/// The arguments of the command line. If one of them isn't UTF-8 there are none at all, which is a usage error too.
fn words_of(rt: &(impl Env + AllocGlobal)) -> Result<Words, AllocError> {
    let mut words = Words::new(rt.alloc());
    match env::args(rt) {
        Ok(args) => {
            for arg in args.skip(1) {
                words.push(arg.as_str().as_bytes())?;
            }
        }
        Err(error) if error.kind() == ErrorKind::OutOfMemory => return Err(AllocError),
        Err(_) => {}
    }
    Ok(words)
}
