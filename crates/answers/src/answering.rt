//! What is answered to a question, and how.

ghost use Rattle.std.specs.Prelude.{◌≡◌, ◌<◌, ◌-◌, ◌^◌, [], IfOk, IfSome, IsTrue, Ok, OnOk, Some, false, map, option_map, string_bytes, true};
ghost use Rattle.certificate.specs.Bounds.{Certificate};
ghost use Rattle.certificate_text.specs.Texts.{certificate_text};
ghost use Rattle.checker.specs.Verdicts.{IsAccepted};
ghost use Rattle.console.specs.Statuses.{is_done_status, is_status};
ghost use Rattle.task.specs.Plans.{Plan};
ghost use Rattle.task_reader.specs.Reading.{task_of};
ghost use Rattle.explain.specs.Listing.{Lists};
ghost use Rattle.explain.specs.ListingViews.{AddsSome};
ghost use Rattle.explain.specs.TaskTexts.{IsTaskText};
ghost use Rattle.answers.specs.Answered.{Answers, AnswersWords, SaysBroken, SaysFound, SaysOffered, SaysWhether};
ghost use Rattle.answers.specs.Answered.{SaysOfFile, SaysOfFiles, SaysOfFollowing, SaysOfRecord, SaysOfRuns, SaysOfSearch, SaysOfTask};
ghost use Rattle.answers.specs.Listed.{SaysListed, SaysListedWith};
ghost use Rattle.answers.specs.QuestionViews.{question_of};
ghost use Rattle.answers.specs.Questions as asked;
ghost use Rattle.rights.specs.Output.{Took};

use crate::answers::{Answer, Gathered};
use crate::breaching::answer_breach;
use crate::following::answer_follow;
use crate::learning::answer_learn;
use crate::paging::{answer_checked_page, answer_page};
use crate::planning::{answer_names_left, answer_plan};
use crate::questions::{Question, read_question};
use crate::recording::answer_calls;
use crate::refusals::{Refusal, tell_refusal};
use crate::scanning::{answer_checked_log, answer_log};
use crate::usage::USAGE;
use certificate::{Cert, Version};
use certificate_text::{read_cert, write_cert};
use checker::{all_findings, expand};
use console::statuses::{BROKEN, DONE};
use console::{Fault, Source, status_of_verdict};
use explain::{Scene, add_listing, add_task_faults, add_unfound, findings_text, renewed};
use explore::Watcher;
use rights::{Memory, Out, write_all};
use searcher::{propose, reached};
use std::alloc::Global;
use task::Task;
use task_reader::read_task;
use task_text::texts_of_file;
use text_checker::{check_texts, read_texts};
use texts::{Page, say};

/// What there is to ask.
fn answer_usage<'a>(alloc: Global) -> Result<Answer, Refusal<'a>>
    ensures { IfOk result (λ answer. answer.status ≡ 0) }
{
    let mut page = Page::new(alloc);
    say!(&mut page; USAGE);
    Ok(Answer::done(page)?)
}

/// Adds the listing of a task without bounds, with warnings by those that the search reaches.
fn add_unbounded(alloc: Global, page: &mut Page, scene: &Scene<'_>) -> Result<(), Memory>
    ensures { OnOk result ((bounds : Certificate) × AddsSome (Lists scene.now.task.now scene.now.cert.now bounds false) page.old page.new) }
{
    match reached(alloc, scene.task)? {
        None => add_listing(page, scene, scene.cert, false),
        Some(reached) => {
            let expanded = expand(alloc, scene.task, &reached)?;
            add_listing(page, scene, &expanded, false)
        }
    }
    Ok(())
}

/// The listing of a task, without bounds; what is warned of goes by those that the search reaches.
#[tactic(auto, using(crate::proofs::ListedLaws::listed_alone))]
fn listing_alone<'a>(alloc: Global, file: &[u8]) -> Result<Answer, Refusal<'a>>
    ensures status { IfOk result (λ answer. answer.status ≡ 0) }
    ensures says { IfOk result (λ answer. SaysListed file.now answer.text.items) }
{
    let task = read_task(alloc, file)?;
    let texts = texts_of_file(alloc, file, &task)?;
    let cert = Cert::new(alloc, Version::One);
    let scene = Scene::new(file, &texts, &task, &cert);
    let mut page = Page::new(alloc);
    add_unbounded(alloc, &mut page, &scene)?;
    Ok(Answer::done(page)?)
}

/// The listing of a task with the bounds of a certificate.
#[tactic(auto, using(crate::proofs::ListedLaws::listed_with))]
fn listing_with<'a>(alloc: Global, file: &[u8], cert: &[u8]) -> Result<Answer, Refusal<'a>>
    ensures status { IfOk result (λ answer. answer.status ≡ 0) }
    ensures says { IfOk result (λ answer. SaysListedWith file.now cert.now answer.text.items) }
{
    let claim = read_texts(alloc, file, cert)?;
    let texts = texts_of_file(alloc, file, &claim.task)?;
    let expanded = expand(alloc, &claim.task, &claim.cert)?;
    let scene = Scene::new(file, &texts, &claim.task, &expanded);
    let mut page = Page::new(alloc);
    add_listing(&mut page, &scene, scene.cert, true);
    Ok(Answer::done(page)?)
}

/// All rules that a certificate breaks.
#[tactic(auto, using(crate::proofs::Refused::says_verdict, crate::proofs::Refused::verdict_done))]
fn broken<'a>(alloc: Global, file: &[u8], cert: &[u8]) -> Result<Answer, Refusal<'a>>
    ensures { IfOk result (λ answer. SaysBroken answer.status file.now cert.now answer.text.items) }
{
    let checked = check_texts(alloc, file, cert)?;
    let claim = &checked.claim;
    let texts = texts_of_file(alloc, file, &claim.task)?;
    let expanded = expand(alloc, &claim.task, &claim.cert)?;
    let scene = Scene::new(file, &texts, &claim.task, &expanded);
    let found = all_findings(alloc, &claim.task, &claim.cert)?;
    let text = findings_text(alloc, &scene, &claim.cert, &found)?;
    let status = status_of_verdict(checked.verdict);
    Ok(Answer::new(alloc, text, status))
}

/// What the search comes to.
fn unfound<'a>(alloc: Global, file: &[u8]) -> Result<Answer, Refusal<'a>>
    ensures { IfOk result (λ answer. SaysFound answer.status file.now) }
{
    let task = read_task(alloc, file)?;
    let texts = texts_of_file(alloc, file, &task)?;
    let mut page = Page::new(alloc);
    if add_unfound(alloc, &mut page, file, &texts, &task)? {
        Ok(Answer::done(page)?)
    } else {
        Ok(Answer::broken(page)?)
    }
}

/// The certificate of an older text, if there is one.
fn read_older<'a>(alloc: Global, text: Option<&[u8]>) -> Result<Option<Cert>, Refusal<'a>> {
    match text {
        None => Ok(None),
        Some(text) => match read_cert(alloc, text) {
            Ok(cert) => Ok(Some(cert)),
            Err(fault) => Err(Refusal::Common(Fault::Cert(fault))),
        },
    }
}

/// A certificate of a task: one that is proposed, or an older one with its points where the programs have them now.
fn offered(alloc: Global, task: &Task, older: &Option<Cert>) -> Result<Option<Cert>, Memory>
    ensures { IfOk result (λ found. IfSome found (λ cert. IsAccepted task.now cert)) }
{
    match older {
        None => propose(alloc, task),
        Some(cert) => renewed(alloc, task, cert),
    }
}

/// The text of a certificate.
fn text_of_cert(alloc: Global, cert: &Cert) -> Result<Vec<u8>, Memory>
    ensures { IfOk result (λ text. text.items ≡ certificate_text cert.now) }
{
    let mut out = Gathered::new(alloc);
    match write_cert(cert, &mut out) {
        Ok(()) => Ok(out.bytes),
        Err(_) => Err(Memory),
    }
}

/// A certificate of a task, or `none`.
fn offer<'a>(alloc: Global, file: &[u8], older: Option<&[u8]>) -> Result<Answer, Refusal<'a>>
    ensures { IfOk result (λ answer. (plan : Plan) × (task_of file.now ≡ Ok plan) × SaysOffered plan answer.status answer.text.items) }
{
    let task = read_task(alloc, file)?;
    let older = read_older(alloc, older)?;
    match offered(alloc, &task, &older)? {
        Some(cert) => Ok(Answer::new(alloc, text_of_cert(alloc, &cert)?, DONE)),
        None => Ok(Answer::new(alloc, Vec::from_slice(alloc, b"none\n")?, BROKEN)),
    }
}

/// The faults of a task's text.
fn faulty<'a>(alloc: Global, file: &[u8]) -> Result<Answer, Refusal<'a>>
    ensures { IfOk result (λ answer. SaysWhether answer.status (IsTaskText file.now)) }
{
    let mut page = Page::new(alloc);
    if add_task_faults(alloc, &mut page, file)? {
        Ok(Answer::done(page)?)
    } else {
        Ok(Answer::broken(page)?)
    }
}

/// The listing of a task, with the bounds of a certificate or without.
fn answer_listing<'a, S: Source>(
    alloc: Global,
    files: &mut S,
    task: &'a str,
    cert: Option<&'a str>,
) -> Result<Answer, Refusal<'a>>
    ensures { IfOk result (λ answer. Answers (S.files files.old) (asked.Listing task.now (option_map (λ name. name.now) cert.entry))
        answer.status answer.text.items) }
{
    let task_text = files.fetch(task)?;
    match cert {
        None => listing_alone(alloc, &task_text),
        Some(cert) => listing_with(alloc, &task_text, &files.fetch(cert)?),
    }
}

/// All rules that a certificate breaks.
fn answer_broken<'a, S: Source>(
    alloc: Global,
    files: &mut S,
    task: &'a str,
    cert: &'a str,
) -> Result<Answer, Refusal<'a>>
    ensures { IfOk result (λ answer. SaysOfFiles (S.files files.old) task.now cert.now answer.status answer.text.items) }
{
    let task_text = files.fetch(task)?;
    let cert_text = files.fetch(cert)?;
    broken(alloc, &task_text, &cert_text)
}

/// What the search comes to.
fn answer_unfound<'a, S: Source>(
    alloc: Global,
    files: &mut S,
    task: &'a str,
) -> Result<Answer, Refusal<'a>>
    ensures { IfOk result (λ answer. SaysOfSearch (S.files files.old) task.now answer.status) }
{
    let task_text = files.fetch(task)?;
    unfound(alloc, &task_text)
}

/// A run that breaks the sandbox, or that none is found.
fn answer_run<'a, S: Source, P: Watcher>(
    alloc: Global,
    files: &mut S,
    task: &'a str,
    states: Option<u32>,
    watcher: &mut P,
) -> Result<Answer, Refusal<'a>>
    ensures { IfOk result (λ answer. SaysOfRuns (S.files files.old) task.now answer.status answer.text.items) }
{
    let task_text = files.fetch(task)?;
    answer_breach(alloc, &task_text, states, watcher)
}

/// A certificate of a task, new or of an older text.
fn answer_offer<'a, S: Source>(
    alloc: Global,
    files: &mut S,
    task: &'a str,
    cert: Option<&'a str>,
) -> Result<Answer, Refusal<'a>>
    ensures { IfOk result (λ answer. SaysOfTask (S.files files.old) task.now answer.status answer.text.items) }
{
    let task_text = files.fetch(task)?;
    match cert {
        None => offer(alloc, &task_text, None),
        Some(cert) => {
            let cert_text = files.fetch(cert)?;
            offer(alloc, &task_text, Some(&cert_text))
        }
    }
}

/// The page of a task, with a certificate or without.
fn answer_paged<'a, S: Source, P: Watcher>(
    alloc: Global,
    files: &mut S,
    task: &'a str,
    cert: Option<&'a str>,
    watcher: &mut P,
) -> Result<Answer, Refusal<'a>>
    ensures { IfOk result (λ answer. Answers (S.files files.old) (asked.Page task.now (option_map (λ name. name.now) cert.entry))
        answer.status answer.text.items) }
{
    match cert {
        None => answer_page(alloc, files, task, watcher),
        Some(cert) => answer_checked_page(alloc, files, task, cert),
    }
}

/// The log of a task, with a certificate or without.
fn answer_logged<'a, S: Source>(
    alloc: Global,
    files: &mut S,
    task: &'a str,
    cert: Option<&'a str>,
) -> Result<Answer, Refusal<'a>>
    ensures { IfOk result (λ answer. Answers (S.files files.old) (asked.Log task.now (option_map (λ name. name.now) cert.entry))
        answer.status answer.text.items) }
{
    match cert {
        None => answer_log(alloc, files, task),
        Some(cert) => answer_checked_log(alloc, files, task, cert),
    }
}

/// The faults of a task's text.
fn answer_faults<'a, S: Source>(
    alloc: Global,
    files: &mut S,
    task: &'a str,
) -> Result<Answer, Refusal<'a>>
    ensures { IfOk result (λ answer. SaysOfFile (S.files files.old) task.now answer.status) }
{
    let task_text = files.fetch(task)?;
    faulty(alloc, &task_text)
}

/// The calls of a record.
fn answer_record<'a, S: Source>(
    alloc: Global,
    files: &mut S,
    file: &'a str,
) -> Result<Answer, Refusal<'a>>
    ensures { IfOk result (λ answer. SaysOfRecord (S.files files.old) file.now answer.status answer.text.items) }
{
    let text = files.fetch(file)?;
    Ok(answer_calls(alloc, &text)?)
}

/// Whether recorded calls follow a task.
fn answer_followed<'a, S: Source>(
    alloc: Global,
    files: &mut S,
    task: &'a str,
    calls: &'a str,
    places: &[String],
) -> Result<Answer, Refusal<'a>>
    ensures { IfOk result (λ answer. SaysOfFollowing (S.files files.old) task.now calls.now (map string_bytes places.now)
        answer.status answer.text.items) }
{
    let task_text = files.fetch(task)?;
    let calls_text = files.fetch(calls)?;
    answer_follow(alloc, &task_text, &calls_text, places)
}

/// The answer to a question.
fn answer_to<'a, S: Source, P: Watcher>(
    alloc: Global,
    question: Question<'a>,
    files: &mut S,
    watcher: &mut P,
) -> Result<Answer, Refusal<'a>>
    ensures { IfOk result (λ answer. Answers (S.files files.old) (question_of question.entry) answer.status answer.text.items) }
{
    match question {
        Question::Usage => answer_usage(alloc),
        Question::Listing { task, cert } => answer_listing(alloc, files, task, cert),
        Question::Broken { task, cert } => answer_broken(alloc, files, task, cert),
        Question::Unfound { task } => answer_unfound(alloc, files, task),
        Question::Breach { task, states } => answer_run(alloc, files, task, states, watcher),
        Question::Proposed { task, cert } => answer_offer(alloc, files, task, cert),
        Question::Page { task, cert } => answer_paged(alloc, files, task, cert, watcher),
        Question::Log { task, cert } => answer_logged(alloc, files, task, cert),
        Question::Faulty { task } => answer_faults(alloc, files, task),
        Question::Calls { file } => answer_record(alloc, files, file),
        Question::Followed {
            task,
            calls,
            places,
        } => answer_followed(alloc, files, task, calls, places),
        Question::Learnt { calls } => answer_learn(alloc, files, calls),
        Question::Planned { line, calls } => answer_plan(alloc, files, line, calls),
        Question::NamesLeft { calls } => answer_names_left(alloc, files, calls),
    }
}

/// Writes an answer, tells what is told beside it, and gives its status; where the output fails, that is told in its place.
fn written<W: Out, V: Out>(alloc: Global, answer: &Answer, out: &mut W, err: &mut V) -> u8
    requires out { W.faults out.old < 2 ^ 64 - 1 }
    requires err { V.faults err.old < 2 ^ 64 - 1 }
    ensures status { IsTrue (is_done_status result) → result ≡ answer.now.status }
    ensures text { IsTrue (is_done_status result) → Took (W.taken out.old) (W.taken out.new) answer.now.text.items }
    ensures known { IsTrue (is_status result) }
{
    match write_all(out, &answer.text) {
        Ok(()) => {
            let _ = write_all(err, &answer.told);
            answer.status
        }
        Err(stop) => tell_refusal(alloc, &Refusal::from(stop), err),
    }
}

/// The program: answers what its words ask, or tells the fault on the error stream, and gives the status: 0; or 1 where the
/// answer is a no: a certificate isn't accepted or none is found, a text is no task's, a run breaks something, lines of a record aren't
/// understood, its calls aren't shown, or what is learnt or planned is no yes; or 2 for a fault in words or files, or 3 for want of memory or
/// a failed output. Faults are told as `capcheck` tells them. The watcher is told how many states a search for a run has met. (own)
#[tactic(auto, using(crate::proofs::Refused::no_answer))]
pub fn serve<S: Source, W: Out, V: Out, P: Watcher>(
    alloc: Global,
    words: &[String],
    files: &mut S,
    out: &mut W,
    err: &mut V,
    watcher: &mut P,
) -> u8
    requires out { W.faults out.old < 2 ^ 64 - 1 }
    requires err { V.faults err.old < 2 ^ 64 - 1 }
    ensures done { IsTrue (is_done_status result) → AnswersWords (S.files files.old) (map string_bytes words.now) result
        (W.taken out.old) (W.taken out.new) }
    ensures known { IsTrue (is_status result) }
{
    let Some(question) = read_question(words) else {
        return tell_refusal(alloc, &Refusal::Common(Fault::Words), err);
    };
    match answer_to(alloc, question, files, watcher) {
        Ok(answer) => written(alloc, &answer, out, err),
        Err(refusal) => tell_refusal(alloc, &refusal, err),
    }
}
