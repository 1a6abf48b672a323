ghost use Rattle.std.specs.Prelude.{◌≡◌, ◌≤◌, ◌<◌, ◌+◌, ◌*◌, ◌^◌, length, IfOk};
ghost use Rattle.std.specs.Result.{result_err};
ghost use Rattle.elf_objects.specs.Headers.{header_of, HasTable, name_section, section_count, table_at};
ghost use Rattle.elf_objects.specs.Rules.{is_not_elf, is_wrong_kind, has_wrong_flags, is_table_missing, are_names_missing};
ghost use Rattle.elf_objects.specs.FileObject.{is_compressed};
ghost use Rattle.elf_objects.specs.Faults.{refusal};
ghost use Rattle.elf_objects.specs.FirstFaults.{header_refusal};

use crate::fault::{BAD_TABLE, NOT_ELF, Refusal, WRONG_FLAGS, WRONG_KIND};
use crate::little_endian::{read_16, read_32, read_64};
use crate::section_header::{HEADER_LEN, STRTAB, SectionHeader, read_header};

/// A file whose section headers lie in it.
#[derive(Clone, Copy, Debug)]
pub struct File<'a> {
    pub bytes: &'a [u8],
    /// Where the section headers begin, in bytes.
    pub table: usize,
    /// How many sections there are.
    pub count: u32,
    pub ghost has_table: { HasTable bytes.now table count },
}

/// What a file begins with: the magic number, then the class of 64 bits, the lowest byte first, and the version 1.
const IDENTIFICATION: &[u8; 7] = b"\x7fELF\x02\x01\x01";

/// The length of a file header in bytes.
const FILE_HEADER_LEN: usize = 64;

// The offsets of fields in a file header, in bytes.
const TYPE_AT: usize = 16;

const MACHINE_AT: usize = 18;

const VERSION_AT: usize = 20;

const TABLE_AT: usize = 40;

const FLAGS_AT: usize = 48;

const HEADER_SIZE_AT: usize = 58;

const COUNT_AT: usize = 60;

const NAMES_AT: usize = 62;

/// The type of a relocatable file.
const RELOCATABLE: u16 = 1;

/// The machine RISC-V.
const RISCV: u16 = 243;

/// The version of the format.
const CURRENT: u32 = 1;

/// The flag of objects that may have instructions of 2 bytes.
const RVC: u32 = 1;

/// The flag of objects for the registers of RV64E.
const RVE: u32 = 8;

impl<'a> File<'a> {
    /// Reads the file header.
    ///
    /// # Errors
    /// The first fault of the header, of code 1 to 4.
    #[tactic(auto, unfolding(crate::specs::FirstFaults::header_refusal))]
    pub fn open(bytes: &'a [u8]) -> Result<File<'a>, Refusal>
        requires { length bytes.now ≤ 2 ^ 24 }
        ensures refusal { result_err result ≡ header_refusal bytes.now }
        ensures lends { IfOk result (λ file. file.bytes.now ≡ bytes.now) }
    {
        if is_not_elf(bytes) {
            return Err(of_file(NOT_ELF));
        }
        if is_wrong_kind(bytes) {
            return Err(of_file(WRONG_KIND));
        }
        if has_wrong_flags(bytes) {
            return Err(of_file(WRONG_FLAGS));
        }
        if is_table_missing(bytes) {
            return Err(of_file(BAD_TABLE));
        }
        if are_names_missing(bytes) {
            return Err(of_file(BAD_TABLE));
        }
        Ok(File {
            bytes,
            table: read_64(bytes, TABLE_AT) as usize,
            count: u32::from(read_16(bytes, COUNT_AT)),
        })
    }

    /// Whether the file may have instructions of 2 bytes: its flags have RVC.
    pub fn is_compressed(&self) -> bool
        ensures { result ≡ is_compressed self.now.bytes.now }
    {
        read_32(self.bytes, FLAGS_AT) & RVC != 0
    }

    /// The number of the section with the names of sections.
    pub fn name_section(&self) -> u32
        ensures { result ≡ name_section self.now.bytes.now }
    {
        u32::from(read_16(self.bytes, NAMES_AT))
    }

    /// The header of a section.
    #[tactic(auto, unfolding(crate::specs::Headers::header_of))]
    pub fn header(&self, section: u32) -> SectionHeader
        requires { section < section_count self.now.bytes.now }
        ensures { result ≡ header_of self.now.bytes.now section }
    {
        read_header(self.bytes, self.table + HEADER_LEN * section as usize)
    }
}

/// A fault of the file as a whole.
fn of_file(code: u8) -> Refusal
    ensures { result ≡ refusal code 0 0 }
{
    Refusal {
        code,
        section: 0,
        offset: 0,
    }
}

fn is_not_elf(bytes: &[u8]) -> bool
    ensures { result ≡ is_not_elf bytes.now }
{
    bytes.len() < FILE_HEADER_LEN || !bytes.starts_with(IDENTIFICATION)
}

fn is_wrong_kind(bytes: &[u8]) -> bool
    requires { 64 ≤ length bytes.now }
    ensures { result ≡ is_wrong_kind bytes.now }
{
    read_16(bytes, TYPE_AT) != RELOCATABLE
        || read_16(bytes, MACHINE_AT) != RISCV
        || read_32(bytes, VERSION_AT) != CURRENT
}

fn has_wrong_flags(bytes: &[u8]) -> bool
    requires { 64 ≤ length bytes.now }
    ensures { result ≡ has_wrong_flags bytes.now }
{
    read_32(bytes, FLAGS_AT) != RVE
}

fn is_table_missing(bytes: &[u8]) -> bool
    requires { 64 ≤ length bytes.now }
    ensures { result ≡ is_table_missing bytes.now }
{
    let count = u64::from(read_16(bytes, COUNT_AT));
    let size = HEADER_LEN as u64 * count;
    let len = bytes.len() as u64;
    usize::from(read_16(bytes, HEADER_SIZE_AT)) != HEADER_LEN
        || count == 0
        || len < size
        || len - size < read_64(bytes, TABLE_AT)
}

#[tactic(auto, unfolding(crate::specs::Headers::header_of))]
fn are_names_missing(bytes: &[u8]) -> bool
    requires len { 64 ≤ length bytes.now }
    requires lies_in { table_at bytes.now + 64 * section_count bytes.now ≤ length bytes.now }
    ensures { result ≡ are_names_missing bytes.now }
{
    let names = read_16(bytes, NAMES_AT);
    if read_16(bytes, COUNT_AT) <= names {
        return true;
    }
    let table = read_64(bytes, TABLE_AT) as usize;
    read_header(bytes, table + HEADER_LEN * usize::from(names)).kind != STRTAB
}
