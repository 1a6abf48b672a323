//! The operations in code order, from the operations at all places.

ghost use Rattle.std.specs.Prelude.{◌≡◌, ◌<◌, ◌≤◌, ◌^◌, ◌||◌, ◌++◌, [], not, true, length, map, map as each, Some, IfOk};
ghost use Rattle.std.specs.List.{cons_option, filter_map};
ghost use Rattle.std.specs.Option.{option_map};
ghost use Rattle.symbols.specs.Wanted.{Given};
ghost use Rattle.relocs.specs.AddressMap.{named_places, needed_places};
ghost use Rattle.relocs.specs.ByOffset.{AreTables};
ghost use Rattle.relocs.specs.Places.{has};
ghost use Rattle.relocs.specs.Pairs.{all_places};
ghost use Rattle.lift_blocks.specs.Kept.{site_of, operation_of};
ghost use Rattle.lift_blocks.specs.Known.{AreAll, IsKnown};
ghost use Rattle.lift_blocks.specs.Listed.{targeted_places, successor_places, entry_places, can_go_on as may_go_on, ends_block as does_end, target_of as the_target, is_emitted, is_end as is_the_end, IsLifted, successor_of, place as place_in};
ghost use Rattle.lift_blocks.specs.Listing.{AreOperations, HaveTargetsIn, at_places, begins_from};
ghost use Rattle.lift_blocks.specs.Marks.{with_marks};
ghost use Rattle.lift_blocks.specs.Rank.{Ascends};
ghost use Rattle.lift_blocks.specs.Operations.{operation_at};

use crate::lifted::Lifted;
use crate::marks::{chosen, mark, mark_number, marked, no_marks};
use crate::numbering::Numbers;
use crate::reader::Reader;
use crate::renumbering::listed_operations;
use crate::site::Site;
use crate::source_op::SourceOp;
use relocs::CodeMap;
use rv_decode::RvOp;
use std::alloc::{AllocError, Global};

/// All places with their operations, which of them are needed, and the places of the entries.
#[derive(Drop)]
pub(crate) struct Survey {
    pub places: Vec<Site>,
    /// The targets are numbers of places.
    pub ops: Vec<SourceOp>,
    /// Whether a register can lead to each place.
    pub needed: Vec<bool>,
    pub entries: Vec<Site>,
}

/// The operations in code order, with the beginnings of blocks, by their numbers.
///
/// # Errors
/// Where an allocation fails.
pub(crate) fn list(
    alloc: Global,
    reader: &Reader<'_, '_>,
    survey: Survey,
    address_map: CodeMap,
    imports: u32,
) -> Result<Lifted, AllocError>
    ghost given: { Given }
    requires tables { AreTables given reader.now.objects.now reader.now.tables.now }
    requires places { AreAll given (map site_of survey.places.items) }
    requires ops { AreOperations given (all_places given) (all_places given) survey.ops.items }
    requires needed { survey.needed.items ≡ map (has (named_places given)) (all_places given) }
    requires entries { map site_of survey.entries.items ≡ entry_places given }
    requires few { length survey.places.items ≤ 2 ^ 28 }
    requires few_entries { length survey.entries.items ≤ 1000 }
    requires map { address_map ≡ needed_places given }
    requires imports { imports ≡ length given.wanted.imports }
    ensures { IfOk result (IsLifted given) }
{
    let Survey {
        places,
        ops,
        needed: named,
        entries,
    } = survey;
    let needed = chosen(alloc, &places, &named)?;
    let targeted = targeted_marks(alloc, &places, &ops, &entries, &needed)?;
    let emitted = emitted_marks(alloc, reader, &places, &ops, &targeted)?;
    let ops = listed_operations(alloc, ops, &emitted)?;
    let places = marked(places, &emitted);
    let targeted = marked(targeted, &emitted);
    let begins = begins(alloc, &ops, &targeted)?;
    let numbers = Numbers { places: &places };
    let entries = numbers.numbers_of(alloc, &entries)?;
    let needed = numbers.numbers_of(alloc, &needed)?;
    Ok(lifted(places, ops, begins, entries, needed, address_map, imports))
}

/// The operations in code order, of these parts.
fn lifted(
    places: Vec<Site>,
    ops: Vec<SourceOp>,
    begins: Vec<bool>,
    entries: Vec<u32>,
    needed: Vec<u32>,
    map: CodeMap,
    imports: u32,
) -> Lifted
    ghost given: { Given }
    requires lifted { IsLifted given (record { places = each site_of places.items; ops = each operation_of ops.items; begins = begins.items; entries = entries.items; needed = needed.items; map = map; imports = imports }) }
    requires few { length places.items ≤ 2 ^ 28 }
    requires few_needed { length map ≤ 2 ^ 28 }
    requires few_entries { length entries.items ≤ 1000 }
    ensures { IsLifted given result }
{
    Lifted {
        places,
        ops,
        begins,
        entries,
        needed,
        map,
        imports,
    }
}

/// Whether each place begins a block wherever it is: as an entry, as a target or as a needed place.
fn targeted_marks(
    alloc: Global,
    places: &[Site],
    ops: &[SourceOp],
    entries: &[Site],
    needed: &[Site],
) -> Result<Vec<bool>, AllocError>
    ghost given: { Given }
    requires places { AreAll given (map site_of places.now) }
    requires ops { AreOperations given (all_places given) (all_places given) ops.now }
    requires needed { map site_of needed.now ≡ needed_places given }
    requires entries { map site_of entries.now ≡ entry_places given }
    ensures { IfOk result (λ marks. marks.items ≡ map (has (targeted_places given)) (all_places given)) }
{
    let mut marks = no_marks(alloc, places)?;
    mark_targeted(places, &mut marks, entries, ops, needed);
    Ok(marks)
}

/// Marks entries, the targets of operations and needed places.
#[tactic(auto, using(crate::proofs::Uses::fold_append))]
fn mark_targeted(
    places: &[Site],
    marks: &mut [bool],
    entries: &[Site],
    ops: &[SourceOp],
    needed: &[Site],
)
    requires ascends { Ascends (map site_of places.now) }
    requires count { length marks.old ≡ length places.now }
    requires targets { HaveTargetsIn (length places.now) ops.now }
    ensures { marks.new ≡ with_marks (map site_of places.now) marks.old (map site_of entries.now ++ filter_map the_target (at_places (map site_of places.now) ops.now) ++ map site_of needed.now) }
{
    mark_all(places, marks, entries);
    mark_targets(places, marks, ops);
    mark_all(places, marks, needed);
}

/// Marks places, where they are among these.
fn mark_all(places: &[Site], marks: &mut [bool], these: &[Site])
    requires ascends { Ascends (map site_of places.now) }
    requires count { length marks.old ≡ length places.now }
    ensures { marks.new ≡ with_marks (map site_of places.now) marks.old (map site_of these.now) }
{
    for at in 0..these.len() {
        mark(places, marks, these[at], at);
    }
}

/// Marks the targets of operations.
fn mark_targets(places: &[Site], marks: &mut [bool], ops: &[SourceOp])
    requires ascends { Ascends (map site_of places.now) }
    requires count { length marks.old ≡ length places.now }
    requires targets { HaveTargetsIn (length places.now) ops.now }
    ensures { marks.new ≡ with_marks (map site_of places.now) marks.old (filter_map the_target (at_places (map site_of places.now) ops.now)) }
{
    for at in 0..ops.len() {
        mark_number(places, marks, target_of(ops[at]));
    }
}

/// The target of an operation, where it names one.
fn target_of(op: SourceOp) -> Option<u32>
    ensures { result ≡ the_target (operation_of op) }
{
    match op {
        SourceOp::Branch { target, .. }
        | SourceOp::Jal { target, .. }
        | SourceOp::Pair { target, .. } => Some(target),
        SourceOp::Plain(_) | SourceOp::Jalr { .. } | SourceOp::Host(_) | SourceOp::Sbrk => None,
    }
}

/// Which places are listed: all but the ends of sections to which nothing leads.
fn emitted_marks(
    alloc: Global,
    reader: &Reader<'_, '_>,
    places: &[Site],
    ops: &[SourceOp],
    targeted: &[bool],
) -> Result<Vec<bool>, AllocError>
    ghost given: { Given }
    requires tables { AreTables given reader.now.objects.now reader.now.tables.now }
    requires places { AreAll given (map site_of places.now) }
    requires ops { AreOperations given (all_places given) (all_places given) ops.now }
    requires targeted { targeted.now ≡ map (has (targeted_places given)) (all_places given) }
    ensures { IfOk result (λ marks. marks.items ≡ map (is_emitted given) (all_places given)) }
{
    let mut reached = Vec::new(alloc);
    reached.extend_from_slice(targeted)?;
    mark_successor(places, &mut reached, ops);
    kept_marks(alloc, reader, places, &reached)
}

/// Which places are listed, by which are reached.
fn kept_marks(
    alloc: Global,
    reader: &Reader<'_, '_>,
    places: &[Site],
    reached: &[bool],
) -> Result<Vec<bool>, AllocError>
    ghost given: { Given }
    requires tables { AreTables given reader.now.objects.now reader.now.tables.now }
    requires places { AreAll given (map site_of places.now) }
    requires reached { reached.now ≡ map (has (targeted_places given ++ successor_places given)) (all_places given) }
    ensures { IfOk result (λ marks. marks.items ≡ map (is_emitted given) (all_places given)) }
{
    let mut emitted = Vec::with_capacity(alloc, places.len())?;
    for at in 0..places.len() {
        emitted.push(is_kept(reader, places[at], reached[at]))?;
    }
    Ok(emitted)
}

/// Whether a place is listed. Of a place that is reached, as most are, it isn't asked whether it is an end.
fn is_kept(reader: &Reader<'_, '_>, place: Site, reached: bool) -> bool
    ghost given: { Given }
    requires tables { AreTables given reader.now.objects.now reader.now.tables.now }
    requires known { IsKnown given (site_of place) }
    ensures { result ≡ (reached || not (is_the_end given (site_of place))) }
{
    reached || !is_end(reader, place)
}

/// Marks the places that the operation before can go on to.
fn mark_successor(places: &[Site], marks: &mut [bool], ops: &[SourceOp])
    ghost given: { Given }
    requires places { AreAll given (map site_of places.now) }
    requires ops { AreOperations given (all_places given) (all_places given) ops.now }
    requires count { length marks.old ≡ length places.now }
    ensures { marks.new ≡ with_marks (all_places given) marks.old (successor_places given) }
{
    for at in 0..places.len() {
        mark_next(places, marks, ops[at], at);
    }
}

/// Marks the place after the operation at an index, where the machine can go on to it: in code order it is the next.
#[inline(always)]
fn mark_next(_places: &[Site], marks: &mut [bool], op: SourceOp, at: usize)
    ghost given: { Given }
    requires places { AreAll given (map site_of _places.now) }
    requires count { length marks.old ≡ length _places.now }
    requires within { at < length (all_places given) }
    requires op { option_map may_go_on (operation_at given (place_in (all_places given) at)) ≡ Some (may_go_on (operation_of op)) }
    ensures { marks.new ≡ with_marks (all_places given) marks.old (cons_option (successor_of given (place_in (all_places given) at)) []) }
{
    if can_go_on(op) {
        marks[at + 1] = true;
    }
}

/// Whether the machine can go on to the place after an operation.
fn can_go_on(op: SourceOp) -> bool
    ensures { result ≡ may_go_on (operation_of op) }
{
    match op {
        SourceOp::Plain(op) => !matches!(op, RvOp::Trap),
        SourceOp::Branch { .. } | SourceOp::Host(_) | SourceOp::Sbrk => true,
        SourceOp::Jal { .. } | SourceOp::Jalr { .. } | SourceOp::Pair { .. } => false,
    }
}

/// Whether a place is the end of a section.
fn is_end(reader: &Reader<'_, '_>, place: Site) -> bool
    ghost given: { Given }
    requires tables { AreTables given reader.now.objects.now reader.now.tables.now }
    requires known { IsKnown given (site_of place) }
    ensures { result ≡ is_the_end given (site_of place) }
{
    match place {
        Site::Code {
            object,
            section,
            offset,
        } => offset == reader.size(object, section) as u64,
        Site::Stub { .. } => false,
    }
}

/// Which of the listed operations begin a block.
fn begins(alloc: Global, ops: &[SourceOp], targeted: &[bool]) -> Result<Vec<bool>, AllocError>
    requires { length targeted.now ≡ length ops.now }
    ensures { IfOk result (λ begins. begins.items ≡ begins_from true targeted.now (map operation_of ops.now)) }
{
    let mut begins = Vec::with_capacity(alloc, ops.len())?;
    let mut ended = true;
    for at in 0..ops.len() {
        begins.push(either(ended, targeted[at]))?;
        ended = ends_block(ops[at]);
    }
    Ok(begins)
}

/// Whether a block ends with an operation.
fn ends_block(op: SourceOp) -> bool
    ensures { result ≡ does_end (operation_of op) }
{
    match op {
        SourceOp::Plain(op) => matches!(op, RvOp::Trap),
        SourceOp::Branch { .. }
        | SourceOp::Jal { .. }
        | SourceOp::Jalr { .. }
        | SourceOp::Pair { .. } => true,
        SourceOp::Host(_) | SourceOp::Sbrk => false,
    }
}

fn either(ended: bool, targeted: bool) -> bool
    ensures { result ≡ (ended || targeted) }
{
    ended || targeted
}
