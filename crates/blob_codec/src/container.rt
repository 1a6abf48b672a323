ghost use Rattle.std.specs.Prelude.{◌≡◌, ◌^◌, ◌<◌, length, IfOk};
ghost use Rattle.blob_codec.specs.Grammar.{IsContainer, container_bytes};
ghost use Rattle.blob_codec.specs.Reading as reading;

use crate::fault::BlobFault;
use crate::fields::{read_bytes, read_number};
use crate::program::Program;
use std::marker::Model;

/// A container, borrowed from its bytes: data, the sizes of the memory, and a program (JAM Gray Paper 0.7.0, appendix
/// A.7).
#[derive(Debug, Drop)]
pub struct Container<'a> {
    read_only: &'a [u8],
    writable: &'a [u8],
    zero_pages: u32,
    stack: u32,
    program: Program<'a>,
}

impl<'a> Model for Container<'a> {
    ghost use Rattle.blob_codec.specs.Grammar.{Container as Content};

    ghost Value = { Content };

    ghost use Rattle.blob_codec.specs.Borrowed.{held_by, IsContainerBorrowed};

    ghost view = { held_by };

    ghost invariant = { IsContainerBorrowed };
}

/// What a container begins with.
#[derive(Clone, Copy, Debug)]
pub struct Sizes {
    /// How many bytes of read-only data there are.
    pub read_only: u32,
    /// How many bytes the writable data begin with.
    pub writable: u32,
    /// How many zero pages follow the writable data.
    pub zero_pages: u32,
    /// The size of the stack in bytes.
    pub stack: u32,
}

impl<'a> Container<'a> {
    /// The container that all of the bytes spell. It takes no memory and borrows the bytes.
    ///
    /// # Errors
    /// `Truncated` at the first field that isn't whole, then `LeftOver` for bytes after the program, then the program's
    /// faults.
    #[tactic(auto, unfolding(crate::specs::Reading::container_of))]
    pub fn read(bytes: &'a [u8]) -> Result<Container<'a>, BlobFault>
        ensures exact { result ≡ reading.container_of bytes.now }
        ensures spelled { IfOk result (λ c. IsContainer c × (bytes.now ≡ container_bytes c)) }
    {
        let (sizes, rest) = read_sizes(bytes)?;
        let (read_only, rest) = read_bytes(rest, u64::from(sizes.read_only))?;
        let (writable, rest) = read_bytes(rest, u64::from(sizes.writable))?;
        let program = last_program(rest)?;
        Ok(Container {
            read_only,
            writable,
            zero_pages: sizes.zero_pages,
            stack: sizes.stack,
            program,
        })
    }

    /// The bytes of read-only data, fewer than 2^24.
    pub fn read_only(&self) -> &'a [u8]
        ensures value { result.now ≡ self.now.read_only }
        ensures bound { length result.now < 2 ^ 24 }
    {
        self.read_only
    }

    /// The bytes that the writable data begin with, fewer than 2^24.
    pub fn writable(&self) -> &'a [u8]
        ensures value { result.now ≡ self.now.writable }
        ensures bound { length result.now < 2 ^ 24 }
    {
        self.writable
    }

    /// How many zero pages of 4096 bytes follow the writable data, below 2^16.
    pub fn zero_pages(&self) -> u32
        ensures value { result ≡ self.now.zero_pages }
        ensures bound { result < 2 ^ 16 }
    {
        self.zero_pages
    }

    /// The size of the stack in bytes, below 2^24.
    pub fn stack(&self) -> u32
        ensures value { result ≡ self.now.stack }
        ensures bound { result < 2 ^ 24 }
    {
        self.stack
    }

    /// The program.
    pub fn program(&self) -> Program<'a>
        ensures { result ≡ self.now.program }
    {
        self.program.borrowed_again()
    }
}

/// The four numbers off the front.
#[tactic(auto, unfolding(crate::specs::Reading::read_sizes))]
fn read_sizes(bytes: &[u8]) -> Result<(Sizes, &[u8]), BlobFault>
    ensures value { reading.Gives (λ x. (x.0, x.1.now)) result (reading.read_sizes bytes.now) }
    ensures read_only { IfOk result (λ x. x.0.read_only < 2 ^ 24) }
    ensures writable { IfOk result (λ x. x.0.writable < 2 ^ 24) }
    ensures zero_pages { IfOk result (λ x. x.0.zero_pages < 2 ^ 16) }
    ensures stack { IfOk result (λ x. x.0.stack < 2 ^ 24) }
{
    let (read_only, rest) = read_number(bytes, 3)?;
    let (writable, rest) = read_number(rest, 3)?;
    let (zero_pages, rest) = read_number(rest, 2)?;
    let (stack, rest) = read_number(rest, 3)?;
    let sizes = Sizes {
        read_only: read_only as u32,
        writable: writable as u32,
        zero_pages: zero_pages as u32,
        stack: stack as u32,
    };
    Ok((sizes, rest))
}

/// The program after its length, if nothing is left after it.
#[tactic(auto, unfolding(crate::specs::Reading::last_program))]
fn last_program(bytes: &[u8]) -> Result<Program<'_>, BlobFault>
    ensures { result ≡ reading.last_program bytes.now }
{
    let (len, rest) = read_number(bytes, 4)?;
    let (program, rest) = read_bytes(rest, len)?;
    if !rest.is_empty() {
        return Err(BlobFault::LeftOver);
    }
    Program::read(program)
}
