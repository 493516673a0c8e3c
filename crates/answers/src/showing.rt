//! What a task that was learnt shows of the records, and how that is told.

ghost use Rattle.std.specs.Prelude.{◌≡◌, ◌++◌, ◌∷◌, [], IfOk, IfSome, OnOk, map, true};
ghost use Rattle.std.specs.List.{flat_map, list_all};
ghost use Rattle.answers.specs.Learnt.{AreShown, StandsIn, calls_in, counts_of, counts_text, has_excuses, placing_text, placings_text, reason_text};
ghost use Rattle.answers.specs.Learnt.{reasons_text, run_text, tally_text};
ghost use Rattle.answers.specs.FoundViews.{AreFor};
ghost use Rattle.answers.specs.RunViews.{run_of, runs_of};
ghost use Rattle.follow.specs.Shows.{IsShown};
ghost use Rattle.follow.specs.TallyViews.{tally_of};
ghost use Rattle.follow.specs.Views.{entries_after, placing_of, placings_of, witness_of};
ghost use Rattle.records.specs.EntryViews.{calls_seen};
ghost use Rattle.texts.specs.PageViews.{Adds};

use crate::following::most_states;
use follow::{Followed, Placing, Tally, Witness, follow, shows, tallied};
use records::Entry;
use rights::Memory;
use std::alloc::Global;
use task::Task;
use texts::{Page, Say, parts_of, say};

/// A record's calls, and a run of a task for them.
#[derive(Drop)]
pub(crate) struct Run<'c> {
    pub entries: &'c [Entry],
    pub witness: Witness,
}

/// What was found of some records.
#[derive(Drop)]
pub(crate) enum Found<'c> {
    /// A run for each.
    Runs(Vec<Run<'c>>),
    /// None for the record of this place.
    Lost(usize),
}

/// Adds that a call and others were skipped for one reason: how many, and the line of the first.
#[tactic(auto, using(crate::proofs::ShownLaws::skipped_words))]
fn add_skipped(page: &mut Page, words: &'static str, first: &&Entry, rest: &[&Entry])
    ensures { Adds page.old page.new (reason_text words.now (entries_after (first.now ∷ rest.now))) }
{
    let count = rest.len() + 1;
    say!(page; "#  ", count, words, ", from line ", first.span.first, " on\n")
}

/// Adds how many calls were skipped for one reason, and the line of the first.
fn add_reason(page: &mut Page, words: &'static str, entries: &[&Entry])
    ensures { Adds page.old page.new (reason_text words.now (entries_after entries.now)) }
{
    match entries {
        [] => {}
        [first, rest @ ..] => add_skipped(page, words, first, rest),
    }
}

/// Adds that so many calls were shown, and so many skipped.
#[tactic(auto, unfolding(crate::specs::Learnt::counts_of))]
fn add_numbers(page: &mut Page, shown: usize, skipped: usize)
    ensures { Adds page.old page.new (counts_of shown skipped) }
{
    say!(page; "# shown: ", shown, " calls, skipped: ", skipped, "\n");
}

/// Adds how many calls were shown and skipped.
#[tactic(auto, using(crate::proofs::ShownLaws::counted))]
fn add_counts(page: &mut Page, tally: &Tally<'_>)
    ensures { Adds page.old page.new (counts_text (tally_of tally.now)) }
{
    add_numbers(page, tally.shown.len(), tally.skipped.len())
}

/// Adds for which reasons calls were skipped.
#[tactic(auto, using(crate::proofs::ShownLaws::three_added))]
fn add_reasons(page: &mut Page, tally: &Tally<'_>)
    ensures { Adds page.old page.new (reasons_text (tally_of tally.now)) }
{
    add_reason(page, " of a path that is past a limit", &tally.past);
    add_reason(page, " by a number that such a call made", &tally.behind);
    add_reason(page, " for neither reason", &tally.others)
}

/// Adds both.
#[tactic(auto, using(crate::proofs::ShownLaws::two_added))]
fn add_tally(page: &mut Page, tally: &Tally<'_>)
    ensures { Adds page.old page.new (tally_text (tally_of tally.now)) }
{
    add_counts(page, tally);
    add_reasons(page, tally)
}

/// Adds what a run shows and skips.
#[tactic(auto, unfolding(crate::specs::Learnt::run_text))]
fn add_run(
    alloc: Global,
    page: &mut Page,
    placings: &[Placing],
    run: &Run<'_>,
) -> Result<(), Memory>
    ensures { OnOk result (Adds page.old page.new (run_text (placings_of placings.now) (run_of run.now))) }
{
    let tally = tallied(alloc, placings, run.entries, &run.witness.moves)?;
    add_tally(page, &tally);
    Ok(())
}

/// Adds what runs show and skip.
pub(crate) fn add_runs(
    alloc: Global,
    page: &mut Page,
    placings: &[Placing],
    runs: &[Run<'_>],
) -> Result<(), Memory>
    ensures { OnOk result (Adds page.old page.new (flat_map (run_text (placings_of placings.now)) (runs_of runs.now))) }
{
    for run in runs {
        add_run(alloc, page, placings, run)?;
    }
    Ok(())
}

/// Whether each call that a run skips is excused.
fn is_excused(alloc: Global, placings: &[Placing], run: &Run<'_>) -> Result<bool, Memory>
    ensures { IfOk result (λ is. is ≡ has_excuses (placings_of placings.now) (run_of run.now)) }
{
    let tally = tallied(alloc, placings, run.entries, &run.witness.moves)?;
    Ok(tally.is_excused())
}

/// Whether each call that runs skip is excused.
pub(crate) fn are_excused(
    alloc: Global,
    placings: &[Placing],
    runs: &[Run<'_>],
) -> Result<bool, Memory>
    ensures { IfOk result (λ are. are ≡ true → list_all (has_excuses (placings_of placings.now)) (runs_of runs.now) ≡ true) }
{
    for run in runs {
        if !is_excused(alloc, placings, run)? {
            return Ok(false);
        }
    }
    Ok(true)
}

/// Whether a run of a task shows its record.
fn is_shown(alloc: Global, task: &Task, placings: &[Placing], run: &Run<'_>) -> Result<bool, Memory>
    ensures { IfOk result (λ is. is ≡ true → IsShown task.now (placings_of placings.now) (calls_seen run.now.entries.now) (witness_of run.now.witness)) }
{
    match shows(alloc, task, placings, run.entries, &run.witness) {
        Ok(is) => Ok(is),
        Err(_) => Err(Memory),
    }
}

/// Whether each run shows its record.
pub(crate) fn are_shown(
    alloc: Global,
    task: &Task,
    placings: &[Placing],
    runs: &[Run<'_>],
) -> Result<bool, Memory>
    ensures { IfOk result (λ are. are ≡ true → AreShown task.now (placings_of placings.now) (runs_of runs.now)) }
{
    for run in runs {
        if !is_shown(alloc, task, placings, run)? {
            return Ok(false);
        }
    }
    Ok(true)
}

/// Adds names that are one in a task, as its head says them.
fn add_placing(page: &mut Page, placing: &Placing)
    ensures { Adds page.old page.new (placing_text (placing_of placing.now)) }
{
    say!(page; "#  ", placing.real.as_slice(), "=", placing.model.as_slice(), "\n")
}

/// Adds all of them.
fn add_each(page: &mut Page, placings: &[Placing])
    ensures { Adds page.old page.new (flat_map placing_text (placings_of placings.now)) }
{
    for placing in placings {
        add_placing(page, placing);
    }
}

/// Adds one and others behind their heading.
#[tactic(auto, using(crate::proofs::ShownLaws::three_added))]
fn add_headed(page: &mut Page, first: &Placing, rest: &[Placing])
    ensures { Adds page.old page.new (placings_text (placings_of (first.now ∷ rest.now))) }
{
    page.bytes(b"# Names that are one here, as words for `capwhy follow`:\n");
    add_placing(page, first);
    add_each(page, rest)
}

/// Adds all of them behind their heading, if there are any.
fn add_placings(page: &mut Page, placings: &[Placing])
    ensures { Adds page.old page.new (placings_text (placings_of placings.now)) }
{
    match placings {
        [] => {}
        [first, rest @ ..] => add_headed(page, first, rest),
    }
}

/// What stands behind words that a text begins with.
fn behind<'t>(text: &'t [u8], words: &[u8]) -> Option<&'t [u8]>
    ensures { IfSome result (λ back. text.entry.now ≡ words.now ++ back.now) }
{
    text.strip_prefix(words)
}

/// Whether words stand in a text.
fn stands_in(words: &[u8], text: &[u8]) -> bool
    ensures { result ≡ true → StandsIn words.now text.now }
{
    for at in 0..text.len() {
        if let Some(_back) = behind(&text[at..], words) {
            return true;
        }
    }
    false
}

/// Whether a task's text says where the records' places lie in it.
pub(crate) fn says_placings(
    alloc: Global,
    placings: &[Placing],
    text: &[u8],
) -> Result<bool, Memory>
    ensures { IfOk result (λ says. says ≡ true → StandsIn (placings_text (placings_of placings.now)) text.now) }
{
    let mut page = Page::new(alloc);
    add_placings(&mut page, placings);
    let words = page.into_bytes()?;
    Ok(stands_in(&words, text))
}

/// Adds a record with a run for it.
fn add_found<'c>(
    runs: &mut Vec<Run<'c>>,
    entries: &'c [Entry],
    witness: Witness,
) -> Result<(), Memory>
    ensures { OnOk result (map calls_in (runs_of runs.new.items) ≡ map calls_in (runs_of runs.old.items) ++ calls_seen entries.now ∷ []) }
{
    runs.push(Run { entries, witness })?;
    Ok(())
}

/// A run of a task for each record, with the places of the records so, or the first record for which none is found.
pub(crate) fn runs_found<'c>(
    alloc: Global,
    task: &Task,
    placings: &[Placing],
    records: &'c [Vec<Entry>],
) -> Result<Found<'c>, Memory>
    ensures { IfOk result (AreFor (map (λ entries. calls_seen entries.items) records.now)) }
{
    let mut runs = Vec::new(alloc);
    for (at, entries) in records.iter().enumerate() {
        match follow(alloc, task, placings, entries, most_states(entries))? {
            Followed::Follows(witness) => add_found(&mut runs, entries, witness)?,
            Followed::Parts(_) => return Ok(Found::Lost(at)),
        }
    }
    Ok(Found::Runs(runs))
}
