//! The names of faults by their codes.

ghost use Rattle.std.specs.Prelude.{◌≡◌, ◌≤◌, length};
ghost use Rattle.polkatool_cmd.specs.FaultNames.{fault_name, name_among, object_names, code_names, blob_names};

use crate::fault_codes::*;
use elf_objects::{
    BAD_NAME, BAD_RELOCATION, BAD_SYMBOL, BAD_TABLE, NOT_ELF, UNSUPPORTED_SECTION, WRONG_FLAGS,
    WRONG_KIND,
};
use layout::{CODE_TOO_LARGE, READ_ONLY_TOO_LARGE, WRITABLE_TOO_LARGE, ZERO_TOO_LARGE};
use link_core::CODE_BYTES_TOO_LARGE;
use relocs::{
    AUIPC_UNRELOCATED, BAD_REGISTER, BAD_TARGET as BAD_BRANCH_TARGET, BAD_WORD, ECALL, INTO_PAIR,
    LOAD_TO_ZERO, MISSING_HIGH, NOT_A_PLACE, VALUE_OUT_OF_RANGE, WRONG_DATA_RELOCATION,
    WRONG_RELOCATION,
};
use symbols::{COMMON, DUPLICATE, ENTRY_MISSING, ENTRY_NOT_CODE, UNDEFINED};

/// The name of a fault's code. A code without a fault has the empty name.
#[tactic(auto, unfolding(crate::specs::FaultNames::fault_name))]
pub(crate) fn fault_name(code: u8) -> &'static str
    ensures name { result.now ≡ fault_name code }
    ensures short { length result.now ≤ 19 }
{
    match code {
        0..=19 => object_fault_name(code),
        20..=39 => code_fault_name(code),
        _ => blob_fault_name(code),
    }
}

/// The name of a fault of objects, symbols, entries or sizes.
fn object_fault_name(code: u8) -> &'static str
    ensures name { result.now ≡ name_among object_names code }
    ensures short { length result.now ≤ 19 }
{
    match code {
        NOT_ELF => "NotElf",
        WRONG_KIND => "WrongKind",
        WRONG_FLAGS => "WrongFlags",
        BAD_TABLE => "BadTable",
        BAD_NAME => "BadName",
        BAD_SYMBOL => "BadSymbol",
        BAD_RELOCATION => "BadRelocation",
        UNSUPPORTED_SECTION => "UnsupportedSection",
        COMMON => "Common",
        DUPLICATE => "Duplicate",
        UNDEFINED => "Undefined",
        ENTRY_MISSING => "EntryMissing",
        ENTRY_NOT_CODE => "EntryNotCode",
        READ_ONLY_TOO_LARGE => "RoTooLarge",
        WRITABLE_TOO_LARGE => "RwTooLarge",
        ZERO_TOO_LARGE => "ZeroTooLarge",
        CODE_TOO_LARGE => "CodeTooLarge",
        _ => "",
    }
}

/// The name of a fault of code, of a relocation or of the program's size.
fn code_fault_name(code: u8) -> &'static str
    ensures name { result.now ≡ name_among code_names code }
    ensures short { length result.now ≤ 19 }
{
    match code {
        BAD_WORD => "BadWord",
        BAD_REGISTER => "BadRegister",
        ECALL => "Ecall",
        LOAD_TO_ZERO => "LoadToZero",
        AUIPC_UNRELOCATED => "AuipcUnrelocated",
        WRONG_RELOCATION => "WrongRelocation",
        MISSING_HIGH => "MissingHigh",
        VALUE_OUT_OF_RANGE => "ValueOutOfRange",
        NOT_A_PLACE => "NotAPlace",
        WRONG_DATA_RELOCATION => "WrongDataRelocation",
        BAD_BRANCH_TARGET => "BadTarget",
        INTO_PAIR => "IntoPair",
        CODE_BYTES_TOO_LARGE => "CodeBytesTooLarge",
        _ => "",
    }
}

/// The name of a fault of a container, of a run, of a program or of a file.
fn blob_fault_name(code: u8) -> &'static str
    ensures name { result.now ≡ name_among blob_names code }
    ensures short { length result.now ≤ 19 }
{
    match code {
        TRUNCATED => "Truncated",
        OVERLONG => "Overlong",
        BAD_WIDTH => "BadWidth",
        BAD_PADDING => "BadPadding",
        LEFT_OVER => "LeftOver",
        ARGUMENT_TOO_LARGE => "ArgumentTooLarge",
        BAD_ENTRY => "BadEntry",
        NO_FIRST => "NoFirst",
        UNKNOWN_OPCODE => "UnknownOpcode",
        BAD_TARGET => "BadTarget",
        BAD_TABLE_ENTRY => "BadEntry",
        OPEN_END => "OpenEnd",
        BAD_REPLY_LINE => "BadReplyLine",
        FILE_TOO_LARGE => "FileTooLarge",
        _ => "",
    }
}
