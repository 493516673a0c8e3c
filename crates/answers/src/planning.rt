//! A plan, of recorded calls.

ghost use Rattle.std.specs.Prelude.{◌≡◌, ◌⊎◌, ◌++◌, ◌≤◌, IfOk, IfSome, map, string_bytes, true};
ghost use Rattle.answers.specs.Planned.{HearsCalls, IsAcceptable, IsHonest, IsMarkedAcceptable, IsUnmarkedTask, SaysPlanned, WritesPlan};
ghost use Rattle.answers.specs.Planned.{check_words, heading, last_words, left_after, left_words, mark, marked_ending, plan_text};
ghost use Rattle.answers.specs.ClaimViews.{claim_seen};
ghost use Rattle.answers.specs.Learnt.{WritesNothing};
ghost use Rattle.records.specs.EntryViews.{calls_seen};
ghost use Rattle.texts.specs.PageViews.{Adds};

use crate::answers::Answer;
use crate::learning::{calls_of_files, nothing, why_nothing};
use crate::leaving::left_after;
use crate::refusals::Refusal;
use console::Source;
use console::statuses::{BROKEN, DONE};
use explain::add_unfound;
use learner::{LearnFault, Planned, add_names_left, plan};
use records::Entry;
use rights::Memory;
use searcher::propose;
use std::alloc::Global;
use task::is_marked;
use task_reader::{TaskFault, read_task};
use task_text::texts_of_file;
use texts::{Lines, Page, Say, is_name, parts_of, say};

/// What marks the program behind whose heading it stands.
const MARK: &str = "untrusted = true\n";

/// What is claimed of a plan's task: that a certificate of it is accepted, and one of it with the program marked; and how many calls in the mode it hasn't
/// that are refused there, or of which it isn't known.
#[derive(Clone, Copy)]
struct Claim {
    trusted: bool,
    left: u32,
    untrusted: bool,
}

/// The claims of certificates, the strongest first.
const CLAIMS: [(bool, bool); 4] = [(true, true), (true, false), (false, true), (false, false)];

/// What is said of a certificate of a plan's task.
fn check_words(trusted: bool) -> &'static str
    ensures { result.now ≡ check_words trusted }
{
    if trusted {
        "# check: yes, of the calls that this task has\n"
    } else {
        "# check: no certificate was found\n"
    }
}

/// What is said of one of the task with a program marked, behind whose name it stands.
fn marked_ending(untrusted: bool) -> &'static str
    ensures { result.now ≡ marked_ending untrusted }
{
    if untrusted {
        " untrusted: yes\n"
    } else {
        " untrusted: no certificate was found\n"
    }
}

/// A text of two parts.
fn joined(alloc: Global, first: &[u8], second: &[u8]) -> Result<Vec<u8>, Memory>
    ensures { IfOk result (λ text. text.items ≡ first.now ++ second.now) }
{
    let mut text = Vec::from_slice(alloc, first)?;
    text.extend_from_slice(second)?;
    Ok(text)
}

/// Adds how many calls are left, if any are.
fn add_left(page: &mut Page, left: u32)
    ensures { Adds page.old page.new (left_words left) }
{
    if left > 0 {
        say!(page; "# left: ", left, " calls, see above\n");
    }
}

/// The last lines of a plan of which this is claimed.
fn last_words(alloc: Global, claim: Claim, name: &[u8]) -> Result<Vec<u8>, Memory>
    ensures { IfOk result (λ text. text.items ≡ last_words (claim_seen claim) name.now) }
{
    let mut page = Page::new(alloc);
    say!(&mut page; check_words(claim.trusted));
    add_left(&mut page, claim.left);
    say!(&mut page; "# with ", name, marked_ending(claim.untrusted));
    Ok(page.into_bytes()?)
}

/// The line above which a program stands, with its name.
fn heading(alloc: Global, name: &[u8]) -> Result<Vec<u8>, Memory>
    ensures { IfOk result (λ text. text.items ≡ heading name.now) }
{
    let named = joined(alloc, name, b"\"\n")?;
    joined(alloc, b"\n[[program]]\nname = \"", &named)
}

/// Whether a text is that of a task in which the program of a name isn't marked.
fn is_unmarked_task(alloc: Global, text: &[u8], name: &[u8]) -> Result<bool, Memory>
    ensures { IfOk result (λ is. is ≡ true → IsUnmarkedTask text.now name.now) }
{
    match read_task(alloc, text) {
        Ok(task) => Ok(!is_marked(task.programs(), name)),
        Err(TaskFault::Memory) => Err(Memory),
        Err(_) => Ok(false),
    }
}

/// Whether a certificate of a task's text is found.
#[tactic(auto, using(crate::proofs::PlannedLaws::acceptable))]
fn is_acceptable(alloc: Global, text: &[u8]) -> Result<bool, Memory>
    ensures { IfOk result (λ is. is ≡ true → IsAcceptable text.now) }
{
    match read_task(alloc, text) {
        Ok(task) => match propose(alloc, &task)? {
            Some(_) => Ok(true),
            None => Ok(false),
        },
        Err(TaskFault::Memory) => Err(Memory),
        Err(_) => Ok(false),
    }
}

/// A text of three parts.
fn in_parts(alloc: Global, first: &[u8], second: &[u8], third: &[u8]) -> Result<Vec<u8>, Memory>
    ensures { IfOk result (λ text. text.items ≡ first.now ++ (second.now ++ third.now)) }
{
    let rest = joined(alloc, second, third)?;
    joined(alloc, first, &rest)
}

/// Whether a certificate of a task's text is found, in which the program of a name is marked.
#[tactic(auto, using(crate::proofs::PlannedLaws::marked_acceptable))]
fn is_acceptable_marked(alloc: Global, text: &[u8], name: &[u8]) -> Result<bool, Memory>
    ensures { IfOk result (λ is. is ≡ true → IsMarkedAcceptable text.now name.now) }
{
    match read_task(alloc, text) {
        Ok(task) => {
            if !is_marked(task.programs(), name) {
                return Ok(false);
            }
            match propose(alloc, &task)? {
                Some(_) => Ok(true),
                None => Ok(false),
            }
        }
        Err(TaskFault::Memory) => Err(Memory),
        Err(_) => Ok(false),
    }
}

/// The same of a text in three parts, with the line that marks the program behind the second, which is its heading.
fn is_marked_acceptable(
    alloc: Global,
    front: &[u8],
    heading: &[u8],
    back: &[u8],
    name: &[u8],
) -> Result<bool, Memory>
    ensures { IfOk result (λ is. is ≡ true → IsMarkedAcceptable (front.now ++ (heading.now ++ (mark ++ back.now))) name.now) }
{
    let rest = joined(alloc, MARK.as_bytes(), back)?;
    let text = in_parts(alloc, front, heading, &rest)?;
    is_acceptable_marked(alloc, &text, name)
}

/// The text of a plan that claims this, if it is so.
#[tactic(auto, using(crate::proofs::PlannedLaws::honest))]
fn stated(alloc: Global, planned: &Planned, claim: Claim) -> Result<Option<Vec<u8>>, Memory>
    ensures text { IfOk result (λ said. IfSome said (λ text.
        text.items ≡ plan_text planned.now.front.items planned.now.name.items planned.now.back.items (claim_seen claim))) }
    ensures honest { IfOk result (λ said. IfSome said (λ text.
        IsHonest planned.now.front.items planned.now.name.items planned.now.back.items (claim_seen claim))) }
{
    let name = planned.name.as_slice();
    if !is_name(name) {
        return Ok(None);
    }
    let words = last_words(alloc, claim, name)?;
    let back = joined(alloc, &planned.back, &words)?;
    let heading = heading(alloc, name)?;
    let text = in_parts(alloc, &planned.front, &heading, &back)?;
    if !is_unmarked_task(alloc, &text, name)? {
        return Ok(None);
    }
    if claim.trusted && !is_acceptable(alloc, &text)? {
        return Ok(None);
    }
    if claim.untrusted && !is_marked_acceptable(alloc, &planned.front, &heading, &back, name)? {
        return Ok(None);
    }
    Ok(Some(text))
}

/// A plan with what is claimed of it, if that is so. No fewer calls are left than the process of the line surely leaves behind it.
#[tactic(auto, using(crate::proofs::PlannedLaws::whole, crate::proofs::PlannedLaws::not_whole))]
fn claimed(
    alloc: Global,
    planned: &Planned,
    claim: Claim,
    line: u32,
    records: &[Vec<Entry>],
) -> Result<Option<Answer>, Memory>
    requires { left_after line (map (λ entries. calls_seen entries.items) records.now) ≤ claim.left }
    ensures { IfOk result (λ said. IfSome said (λ answer.
        WritesPlan line (map (λ entries. calls_seen entries.items) records.now) answer.status answer.text.items)) }
{
    let Some(text) = stated(alloc, planned, claim)? else {
        return Ok(None);
    };
    if claim.trusted && claim.left == 0 {
        Ok(Some(Answer::new(alloc, text, DONE)))
    } else {
        Ok(Some(Answer::new(alloc, text, BROKEN)))
    }
}

/// How many calls a plan leaves: as many as it tells of, and no fewer than the process of the line surely leaves behind it.
fn left_of(planned: &Planned, line: u32, records: &[Vec<Entry>]) -> u32
    ensures { left_after line (map (λ entries. calls_seen entries.items) records.now) ≤ result }
{
    let surely = match records {
        [] => 0,
        [first, ..] => left_after(line, first),
    };
    planned.left.max(surely)
}

/// A plan with the strongest claim that is so; where its text isn't a task's, that is told.
fn strongest(
    alloc: Global,
    planned: &Planned,
    line: u32,
    records: &[Vec<Entry>],
) -> Result<Answer, Memory>
    ensures { IfOk result (λ answer. WritesPlan line (map (λ entries. calls_seen entries.items) records.now) answer.status answer.text.items
        ⊎ WritesNothing answer.status answer.text.items) }
{
    let left = left_of(planned, line, records);
    for (trusted, untrusted) in CLAIMS {
        let claim = Claim {
            trusted,
            left,
            untrusted,
        };
        if let Some(answer) = claimed(alloc, planned, claim, line, records)? {
            return Ok(answer);
        }
    }
    nothing(alloc, "what comes of it isn't a task")
}

/// Adds each line of a text, up to the first empty one, as a comment.
fn add_comments(page: &mut Page, text: &[u8]) {
    for line in Lines::new(text) {
        if line.text.is_empty() {
            return;
        }
        say!(page; "#  ", line.text, "\n");
    }
}

/// Why no certificate of a task's text is found, as comments; nothing where one is found.
fn reason_of(alloc: Global, text: &[u8]) -> Result<Page, Memory> {
    let mut page = Page::new(alloc);
    let task = match read_task(alloc, text) {
        Ok(task) => task,
        Err(TaskFault::Memory) => return Err(Memory),
        Err(_) => return Ok(page),
    };
    let texts = texts_of_file(alloc, text, &task)?;
    let mut why = Page::new(alloc);
    if !add_unfound(alloc, &mut why, text, &texts, &task)? {
        page.bytes(b"# Why no certificate was found, by the lines of this text:\n");
        add_comments(&mut page, why.finish()?);
    }
    Ok(page)
}

/// The same plan, with the reason behind it why no certificate of its task is found, if none is.
fn with_reason(alloc: Global, planned: Planned) -> Result<Planned, Memory> {
    let heading = heading(alloc, &planned.name)?;
    let text = in_parts(alloc, &planned.front, &heading, &planned.back)?;
    let reason = reason_of(alloc, &text)?;
    Ok(Planned {
        back: joined(alloc, &planned.back, reason.finish()?)?,
        ..planned
    })
}

/// A plan of recorded calls, with the mode behind a line of the first file, or why there is none; the status is 0 where it says that a
/// certificate of its task is accepted, and that no call in the mode is left that is refused there or isn't known.
#[tactic(auto, using(crate::proofs::PlannedLaws::planned, crate::proofs::PlannedLaws::nothing_planned))]
pub(crate) fn answer_plan<'a, S: Source>(
    alloc: Global,
    files: &mut S,
    line: u32,
    names: &'a [String],
) -> Result<Answer, Refusal<'a>>
    ensures { IfOk result (λ answer. SaysPlanned (S.files files.old) line (map string_bytes names.now) answer.status answer.text.items) }
{
    let records = calls_of_files(alloc, files, names)?;
    match plan(alloc, &records, line) {
        Ok(planned) => {
            let planned = with_reason(alloc, planned)?;
            Ok(strongest(alloc, &planned, line, &records)?)
        }
        Err(LearnFault::Memory) => Err(Refusal::from(Memory)),
        Err(fault) => Ok(nothing(alloc, why_nothing(fault))?),
    }
}

/// Behind which lines of the first file fewer names are left that the mode refuses.
#[tactic(auto, using(crate::proofs::PlannedLaws::heard))]
pub(crate) fn answer_names_left<'a, S: Source>(
    alloc: Global,
    files: &mut S,
    names: &'a [String],
) -> Result<Answer, Refusal<'a>>
    ensures { IfOk result (λ answer. HearsCalls (S.files files.old) (map string_bytes names.now) answer.status) }
{
    let records = calls_of_files(alloc, files, names)?;
    let mut page = Page::new(alloc);
    add_names_left(alloc, &records, &mut page)?;
    Ok(Answer::done(page)?)
}
