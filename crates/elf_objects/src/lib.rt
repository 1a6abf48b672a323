//! Relocatable objects of ELF64 (System V gABI, "Object Files"; RISC-V ELF psABI).
//!
//! `specs/Objects.antt` says what an object is, and `specs/FileObject.antt` which object the bytes of a file are. A file
//! that breaks a rule of `specs/Rules.antt` is refused with the first of its faults in the order of `specs/Faults.antt`.
#![tactic(auto)]

mod checked_file;
mod fault;
mod file;
mod little_endian;
mod name_index;
mod name_rules;
mod object;
mod objects;
mod parts;
mod relocation_entry;
mod relocation_index;
mod relocation_rules;
mod section_header;
mod section_rules;
mod string_table;
mod symbol_entry;
mod symbol_rules;
mod tables;

pub use fault::{
    BAD_NAME, BAD_RELOCATION, BAD_SYMBOL, BAD_TABLE, Fault, NOT_ELF, ObjectFault,
    UNSUPPORTED_SECTION, WRONG_FLAGS, WRONG_KIND,
};
pub use object::Object;
pub use objects::Objects;
pub use parts::{Binding, Relocation, Section, SectionKind, Symbol, SymbolIndex};
