//! The command `link`: the objects' files are read in order, linked, and the container and the map are written.

ghost use Rattle.std.specs.Prelude.{◌≡◌, ◌≤◌, length, map, Some, OnOk, MatchResult};
ghost use Rattle.outside.specs.Outside.{KeepsOthers};
ghost use Rattle.polkatool_cmd.specs.Commands.{Link};
ghost use Rattle.polkatool_cmd.specs.LinkRead.{input_in, link_in};
ghost use Rattle.polkatool_cmd.specs.Faults.{file_too_large, limit_of};
ghost use Rattle.polkatool_cmd.specs.Snapshot.{Holds};
ghost use Rattle.polkatool_cmd.specs.Answers.{ResultsIn};
ghost use Rattle.polkatool_cmd.specs.LinkAnswers.{HasObjects, LinksFiles};
ghost use Rattle.link_core.specs.Faults.{input_of, HasNoFault, HasFirstFault, Refuses};
ghost use Rattle.link_core.specs.Linked.{HoldsLinked};
ghost use Rattle.polkatool_cmd.specs.Linking.{HasRead, FailsToReadOne, FailsToReadAll, LinksOrFails};

use crate::answer::Answer;
use crate::commands::LinkCommand;
use crate::fault_codes::FILE_TOO_LARGE;
use crate::link_input::LinkInput;
use elf_objects::Fault;
use link_core::{Bundle, LinkFault, Linked};
use outside::{Bytes, Folder, ReadFault, Sink};
use std::alloc::Global;

/// The most bytes of an object's file, 2^24.
const OBJECT_LIMIT: u32 = 1 << 24;

/// The most bytes of all objects' files together, 2^26.
const OBJECTS_LIMIT: u32 = 1 << 26;

/// Links objects, and writes the container and the map.
pub(crate) fn link<F: Folder, O: Sink>(
    alloc: Global,
    command: &LinkCommand<'_>,
    files: &mut F,
    out: &mut O,
) -> Answer
    ensures results { ResultsIn (Some (Link (link_in command.now))) result
        (record {
          files = F.files files.old;
          reads = F.read_faults files.old;
          writes = F.write_faults files.old;
          out = O.bytes out.old;
          puts = O.faults out.old;
        })
        (record {
          files = F.files files.new;
          reads = F.read_faults files.new;
          writes = F.write_faults files.new;
          out = O.bytes out.new;
          puts = O.faults out.new;
        }) }
    ensures others { KeepsOthers command.now.output.now (F.files files.old) (F.files files.new) }
{
    let linked = match link_files(alloc, &command.input, files) {
        Ok(linked) => linked,
        Err(answer) => return answer,
    };
    if files.write(command.output, linked.container()).is_err() {
        return Answer::FileFault;
    }
    match linked.map_text(out) {
        Ok(()) => Answer::Done,
        Err(_) => Answer::FileFault,
    }
}

/// Reads the objects' files and links them.
///
/// # Errors
/// The answer of the command.
fn link_files<F: Folder>(
    alloc: Global,
    input: &LinkInput<'_>,
    files: &mut F,
) -> Result<Linked, Answer>
    ensures links { MatchResult result
        (LinksFiles (F.files files.old) (input_in input.now))
        (LinksOrFails (F.files files.old) (input_in input.now) (F.read_faults files.old) (F.read_faults files.new)) }
    ensures reads { OnOk result (F.read_faults files.new ≡ F.read_faults files.old) }
    ensures files { F.files files.new ≡ F.files files.old }
    ensures writes { F.write_faults files.new ≡ F.write_faults files.old }
{
    let bundle = read_objects(alloc, input, files)?;
    match link_bundle(alloc, input, &bundle) {
        Ok(linked) => Ok(linked),
        Err(LinkFault::Bad(fault)) => Err(Answer::Refused(fault)),
        Err(LinkFault::Memory) => Err(Answer::Memory),
    }
}

/// Reads the objects' files.
///
/// # Errors
/// The answer of the command.
pub(crate) fn read_objects<F: Folder>(
    alloc: Global,
    input: &LinkInput<'_>,
    files: &mut F,
) -> Result<Bundle, Answer>
    ensures read { MatchResult result
        (HasObjects (F.files files.old) (input_in input.now))
        (FailsToReadAll (F.files files.old) (input_in input.now).objects (F.read_faults files.old) (F.read_faults files.new)) }
    ensures reads { OnOk result (F.read_faults files.new ≡ F.read_faults files.old) }
    ensures files { F.files files.new ≡ F.files files.old }
    ensures writes { F.write_faults files.new ≡ F.write_faults files.old }
{
    let Ok(names) = input.objects(alloc) else {
        return Err(Answer::Memory);
    };
    read_files(alloc, &names, files)
}

/// Links the objects of a bundle into what is wanted.
pub(crate) fn link_bundle(
    alloc: Global,
    input: &LinkInput<'_>,
    bundle: &Bundle,
) -> Result<Linked, LinkFault>
    ensures { MatchResult result
        (λ linked. HasNoFault bundle.now (input_in input.now).wanted × HoldsLinked (input_of bundle.now (input_in input.now).wanted) linked)
        (Refuses (HasFirstFault bundle.now (input_in input.now).wanted)) }
{
    let Ok(wanted) = input.wanted(alloc) else {
        return Err(LinkFault::Memory);
    };
    link_core::link(alloc, bundle, &wanted)
}

/// Reads files in order, each of at most 2^24 bytes and within what is left of 2^26.
///
/// # Errors
/// The answer of the command: a file fault, a refusal of too many bytes, or out of memory.
fn read_files<F: Folder>(alloc: Global, names: &[&str], files: &mut F) -> Result<Bundle, Answer>
    requires { length names.now ≤ 1024 }
    ensures read { MatchResult result
        (HasRead (F.files files.old) (map (λ name. name.now) names.now))
        (FailsToReadAll (F.files files.old) (map (λ name. name.now) names.now) (F.read_faults files.old) (F.read_faults files.new)) }
    ensures reads { OnOk result (F.read_faults files.new ≡ F.read_faults files.old) }
    ensures files { F.files files.new ≡ F.files files.old }
    ensures writes { F.write_faults files.new ≡ F.write_faults files.old }
{
    let mut bundle = Bundle::new(alloc);
    let mut left = OBJECTS_LIMIT;
    for at in 0..names.len() {
        let file = match read_file(alloc, names[at], at as u32, left, files) {
            Ok(file) => file,
            Err(answer) => return Err(answer),
        };
        let Ok(()) = bundle.add(file.as_slice()) else {
            return Err(Answer::Memory);
        };
        left -= file.len() as u32;
    }
    Ok(bundle)
}

/// Reads the file with a number in the order of reading, of at most the bytes that are left.
pub(crate) fn read_file<F: Folder>(
    alloc: Global,
    name: &str,
    number: u32,
    left: u32,
    files: &mut F,
) -> Result<Bytes, Answer>
    ensures read { MatchResult result
        (λ file. Holds (F.files files.old) name.now file × (length file ≤ limit_of left))
        (FailsToReadOne (F.files files.old) name.now number left (F.read_faults files.old) (F.read_faults files.new)) }
    ensures reads { OnOk result (F.read_faults files.new ≡ F.read_faults files.old) }
    ensures files { F.files files.new ≡ F.files files.old }
    ensures writes { F.write_faults files.new ≡ F.write_faults files.old }
{
    match files.read(alloc, name, left.min(OBJECT_LIMIT)) {
        Ok(file) => Ok(file),
        Err(ReadFault::Failed) => Err(Answer::FileFault),
        Err(ReadFault::TooLarge) => Err(Answer::Refused(file_too_large(number))),
        Err(ReadFault::Memory) => Err(Answer::Memory),
    }
}

/// The fault of a file that is too large, by its number in the order of reading.
fn file_too_large(number: u32) -> Fault
    ensures { result ≡ file_too_large number }
{
    Fault {
        code: FILE_TOO_LARGE,
        object: number,
        section: 0,
        offset: 0,
    }
}
