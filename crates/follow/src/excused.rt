//! What moves show and skip of a record, and which calls that they skip are excused.

ghost use Rattle.std.specs.Prelude.{◌≡◌, ◌++◌, ◌∷◌, [], IfOk, OnOk, map, nat_eq, length};
ghost use Rattle.std.specs.List.{list_any};
ghost use Rattle.call_facts.specs.FactViews.{table_seen};
ghost use Rattle.records.specs.EntryViews.{calls_seen, event_seen, made_seen, outcome_seen, record_entry_seen};
ghost use Rattle.records.specs.OperandViews.{operand_seen};
ghost use Rattle.follow.specs.Excused.{after_move, any_excused, are_excused, counted_in, first_tally, if_excused, if_made, is_past, is_within, numbers_by, numbers_of, only_if};
ghost use Rattle.follow.specs.Excused.{shown_in, skipped_in, tallied};
ghost use Rattle.follow.specs.TallyViews.{tally_of};
ghost use Rattle.follow.specs.Views.{entries_after, move_of, moves_of, mappings_seen, placings_of};

use crate::numbers::{FdMapping, add_child, named};
use crate::outcomes::{add, add_freed, second_end};
use crate::places::{Placing, in_task};
use crate::progress::{counted, take_out};
use crate::witnesses::Move;
use call_facts::{TableChange, descriptor_count, table_change};
use file_tree::is_valid_target;
use instruction_set::is_valid_path;
use records::{Entry, Event, MadeCall, Operand, Outcome};
use rights::Memory;
use std::alloc::Global;

/// What moves have made of a record.
#[derive(Drop)]
pub struct Tally<'c> {
    /// The calls and ends that are left, and the numbers that excused calls made: such a number stands for itself, and any other for none.
    left: Vec<&'c Entry>,
    numbers: Vec<FdMapping>,
    /// The calls that were shown, and those that were skipped.
    pub shown: Vec<&'c Entry>,
    pub skipped: Vec<&'c Entry>,
    /// Of those that were skipped: those of a path past a limit, those by a number that an excused call made, and those that aren't excused.
    pub past: Vec<&'c Entry>,
    pub behind: Vec<&'c Entry>,
    pub others: Vec<&'c Entry>,
}

/// Whether a task can have a path: its bytes stand in assembly, it is no longer than a path may be, and no name of it than a name.
fn is_within(path: &[u8]) -> bool
    ensures { result ≡ is_within path.now }
{
    is_valid_path(path) && (path.is_empty() || is_valid_target(path))
}

/// Whether a path is past a limit, as it is recorded and as it is placed.
fn is_past(alloc: Global, placings: &[Placing], operand: &Operand) -> Result<bool, Memory>
    ensures { IfOk result (λ is. is ≡ is_past (placings_of placings.now) (operand_seen operand.now)) }
{
    match operand {
        Operand::Path(path) => {
            let text = in_task(placings, path).text(alloc)?;
            Ok(!is_within(path) && !is_within(&text))
        }
        _ => Ok(false),
    }
}

/// Whether some path among these is.
fn any_past(alloc: Global, placings: &[Placing], operands: &[Operand]) -> Result<bool, Memory>
    ensures { IfOk result (λ is. is ≡ list_any (is_past (placings_of placings.now)) (map operand_seen operands.now)) }
{
    for operand in operands {
        if is_past(alloc, placings, operand)? {
            return Ok(true);
        }
    }
    Ok(false)
}

/// Whether one of so many numbers, those that stand first, was made by an excused call.
fn any_excused(numbers: &[FdMapping], process: usize, count: usize, operands: &[Operand]) -> bool
    ensures { result ≡ any_excused (mappings_seen numbers.now) process count (map operand_seen operands.now) }
{
    if count == 0 {
        return false;
    }
    match operands {
        [] => false,
        [Operand::Number(number), operands @ ..] => {
            named(numbers, process, *number).is_some()
                || any_excused(numbers, process, count - 1, operands)
        }
        [_, operands @ ..] => any_excused(numbers, process, count, operands),
    }
}

/// What is kept of a number that a call made.
fn if_excused(is_excused: bool, number: u32) -> Option<u32>
    ensures { result ≡ if_excused is_excused number }
{
    if is_excused { Some(number) } else { None }
}

/// Adds what is kept of a number that a call made, if there is one.
fn add_if_made(
    numbers: &mut Vec<FdMapping>,
    process: usize,
    number: Option<u32>,
    is_excused: bool,
) -> Result<(), Memory>
    ensures { OnOk result (mappings_seen numbers.new.items ≡ mappings_seen numbers.old.items ++ if_made process number is_excused) }
{
    match number {
        None => Ok(()),
        Some(number) => add(numbers, process, number, if_excused(is_excused, number)),
    }
}

/// Adds what a call makes or frees that came to this number.
fn add_by(
    alloc: Global,
    numbers: &mut Vec<FdMapping>,
    process: usize,
    made: &MadeCall,
    change: TableChange,
    number: u32,
    is_excused: bool,
) -> Result<(), Memory>
    ensures { OnOk result (mappings_seen numbers.new.items ≡ mappings_seen numbers.old.items
        ++ numbers_by (mappings_seen numbers.old.items) process (made_seen made.now) (table_seen change) number is_excused) }
{
    match change {
        TableChange::Opened
        | TableChange::Inherited
        | TableChange::Copied
        | TableChange::Received => add_if_made(numbers, process, Some(number), is_excused),
        TableChange::Pair => {
            add_if_made(numbers, process, Some(number), is_excused)?;
            add_if_made(numbers, process, second_end(&made.bindings), is_excused)
        }
        TableChange::Freed => add_freed(numbers, process, &made.operands),
        TableChange::Child => add_child(alloc, numbers, process, number as usize),
        TableChange::Limited | TableChange::Unchanged => Ok(()),
    }
}

/// Adds what a call makes or frees.
fn add_numbers(
    alloc: Global,
    numbers: &mut Vec<FdMapping>,
    process: usize,
    made: &MadeCall,
    is_excused: bool,
) -> Result<(), Memory>
    ensures { OnOk result (mappings_seen numbers.new.items ≡ mappings_seen numbers.old.items
        ++ numbers_of (mappings_seen numbers.old.items) process (made_seen made.now) (outcome_seen made.now.outcome) is_excused) }
{
    match made.outcome {
        Outcome::Success(number) => {
            let change = table_change(made.call);
            add_by(alloc, numbers, process, made, change, number, is_excused)
        }
        Outcome::Failure(_) => Ok(()),
    }
}

/// Adds an entry to some, if it is one of them.
fn add_only_if<'c>(entries: &mut Vec<&'c Entry>, is: bool, entry: &'c Entry) -> Result<(), Memory>
    ensures { OnOk result (entries_after entries.new.items ≡ entries_after entries.old.items ++ only_if is (record_entry_seen entry.now)) }
{
    if is {
        entries.push(entry)?;
    }
    Ok(())
}

/// Adds an entry to some.
fn add_entry<'c>(entries: &mut Vec<&'c Entry>, entry: &'c Entry) -> Result<(), Memory>
    ensures { OnOk result (entries_after entries.new.items ≡ entries_after entries.old.items ++ record_entry_seen entry.now ∷ []) }
{
    entries.push(entry)?;
    Ok(())
}

impl<'c> Tally<'c> {
    /// All is left.
    fn first(alloc: Global, entries: &'c [Entry]) -> Result<Tally<'c>, Memory>
        ensures { IfOk result (λ t. tally_of t ≡ first_tally (calls_seen entries.now)) }
    {
        let left = counted(alloc, entries)?;
        Ok(Tally {
            left,
            numbers: Vec::new(alloc),
            shown: Vec::new(alloc),
            skipped: Vec::new(alloc),
            past: Vec::new(alloc),
            behind: Vec::new(alloc),
            others: Vec::new(alloc),
        })
    }

    /// Notes a call that is shown.
    fn show(&mut self, alloc: Global, entry: &'c Entry, made: &MadeCall) -> Result<(), Memory>
        ensures { OnOk result (tally_of self.new ≡ shown_in (tally_of self.old) (record_entry_seen entry.now) (made_seen made.now)) }
    {
        add_numbers(
            alloc,
            &mut self.numbers,
            entry.process as usize,
            made,
            false,
        )?;
        add_entry(&mut self.shown, entry)
    }

    /// Notes a call that is skipped, of a path past a limit or not, and by a number that an excused call made or not.
    fn skip(
        &mut self,
        alloc: Global,
        entry: &'c Entry,
        made: &MadeCall,
        past: bool,
        behind: bool,
    ) -> Result<(), Memory>
        ensures { OnOk result (tally_of self.new ≡ skipped_in (tally_of self.old) (record_entry_seen entry.now) (made_seen made.now) past behind) }
    {
        add_numbers(
            alloc,
            &mut self.numbers,
            entry.process as usize,
            made,
            past || behind,
        )?;
        add_entry(&mut self.skipped, entry)?;
        add_only_if(&mut self.past, past, entry)?;
        add_only_if(&mut self.behind, !past && behind, entry)?;
        add_only_if(&mut self.others, !(past || behind), entry)
    }

    /// Notes an entry that is shown, or skipped.
    fn count(
        &mut self,
        alloc: Global,
        placings: &[Placing],
        is_shown: bool,
        entry: &'c Entry,
    ) -> Result<(), Memory>
        ensures { OnOk result (tally_of self.new
            ≡ counted_in (placings_of placings.now) (tally_of self.old) is_shown (record_entry_seen entry.now) (event_seen entry.now.event)) }
    {
        let Event::Called(made) = &entry.event else {
            return Ok(());
        };
        if is_shown {
            return self.show(alloc, entry, made);
        }
        let past = any_past(alloc, placings, &made.operands)?;
        let count = descriptor_count(made.call);
        let behind = any_excused(&self.numbers, entry.process as usize, count, &made.operands);
        self.skip(alloc, entry, made, past, behind)
    }

    /// Notes what a move shows or skips.
    fn go_on(&mut self, alloc: Global, placings: &[Placing], step: Move) -> Result<(), Memory>
        ensures { OnOk result (tally_of self.new ≡ after_move (placings_of placings.now) (tally_of self.old) (move_of step)) }
    {
        let (at, is_shown) = match step {
            Move::Step { shows: None, .. } => return Ok(()),
            Move::Step {
                shows: Some(at),
                ..
            } => (at, true),
            Move::Skip { entry } => (entry, false),
        };
        let Some(entry) = self.left.get(at) else {
            return Ok(());
        };
        let entry = *entry;
        take_out(&mut self.left, at);
        self.count(alloc, placings, is_shown, entry)
    }

    /// Whether each call that was skipped is excused.
    pub fn is_excused(&self) -> bool
        ensures { result ≡ are_excused (tally_of self.now) }
    {
        self.others.is_empty()
    }
}

/// What moves make of a record whose places are these in the task. Want of memory is the only error.
pub fn tallied<'c>(
    alloc: Global,
    placings: &[Placing],
    entries: &'c [Entry],
    moves: &[Move],
) -> Result<Tally<'c>, Memory>
    ensures { IfOk result (λ t. tally_of t ≡ tallied (placings_of placings.now) (calls_seen entries.now) (moves_of moves.now)) }
{
    let mut tally = Tally::first(alloc, entries)?;
    for step in moves {
        tally.go_on(alloc, placings, *step)?;
    }
    Ok(tally)
}
