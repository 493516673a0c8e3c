//! What the program does with its words, and with the files that they name.

ghost use Rattle.std.specs.Prelude.{◌≡◌, ◌<◌, ◌⊎◌, ◌-◌, ◌^◌, ℕ, IfErr, IfOk, IsTrue, List, None, map, string_bytes};
ghost use Rattle.commands.specs.Begun.{HasBegun};
ghost use Rattle.commands.specs.Fails.{Fails, RefusesWords, WordsFail};
ghost use Rattle.commands.specs.Served.{AsksForVerdict, DoesOrder, Serves, StaysInside};
ghost use Rattle.console.specs.FaultViews.{fault_of};
ghost use Rattle.console.specs.Statuses.{is_done_status, is_fault_status, is_status};
ghost use Rattle.command_line.specs.Orders.{Check, Example, Expand, Report, Run, Search};
ghost use Rattle.command_line.specs.OrderViews.{order_of};

use crate::example::example_task;
use crate::expanding::write_expansion;
use crate::judging::write_verdict;
use crate::proposing::propose;
use crate::reporting::write_answer;
use command_line::{Order, WordsFault, read_order};
use console::statuses::DONE;
use console::{Fault, Source, status_of_verdict, tell};
use rights::Out;
use simulator::{read_schedule, simulate};
use std::alloc::Global;
use syscalls::Event;
use task_reader::read_task;
use text_checker::{check_texts, read_texts};

/// The name by which the program tells its faults.
pub const NAME: &str = "capcheck";

/// Two events of the first process.
const EXAMPLE: [Event; 2] = [Event {
    process: 0,
    input: 0,
    refuse: false,
}; 2];

/// Writes the trace of the example's task on two events, and gives the status.
fn example<'a, W: Out>(alloc: Global, out: &mut W) -> Result<u8, Fault<'a>>
    requires { W.faults out.old < 2 ^ 64 - 1 }
    ensures done { IfOk result (λ status. DoesOrder None Example status (W.taken out.old) (W.taken out.new)) }
    ensures fails { IfErr result (λ fault. Fails None Example
        (W.taken out.old) (W.taken out.new) (W.faults out.old) (W.faults out.new) (fault_of fault)) }
{
    let task = example_task(alloc)?;
    simulate(alloc, &task, &EXAMPLE, out)?;
    Ok(DONE)
}

/// Runs the task of a file over the events of another, and gives the status. Both are fetched before either is read.
fn run<'a, S: Source, W: Out>(
    alloc: Global,
    task: &'a str,
    schedule: &'a str,
    files: &mut S,
    out: &mut W,
) -> Result<u8, Fault<'a>>
    requires { W.faults out.old < 2 ^ 64 - 1 }
    ensures done { IfOk result (λ status. DoesOrder (S.files files.old) (Run task.now schedule.now) status (W.taken out.old) (W.taken out.new)) }
    ensures fails { IfErr result (λ fault. Fails (S.files files.old) (Run task.now schedule.now)
        (W.taken out.old) (W.taken out.new) (W.faults out.old) (W.faults out.new) (fault_of fault)) }
{
    let task_text = files.fetch(task)?;
    let schedule_text = files.fetch(schedule)?;
    let plan = read_task(alloc, &task_text)?;
    let events = read_schedule(alloc, &schedule_text)?;
    simulate(alloc, &plan, &events, out)?;
    Ok(DONE)
}

/// Checks the certificate of a file against the task of another, writes the verdict and gives its status. Both files are
/// fetched before either is read.
fn check_files<'a, S: Source, W: Out>(
    alloc: Global,
    task: &'a str,
    cert: &'a str,
    files: &mut S,
    out: &mut W,
) -> Result<u8, Fault<'a>>
    requires { W.faults out.old < 2 ^ 64 - 1 }
    ensures done { IfOk result (λ status. DoesOrder (S.files files.old) (Check task.now cert.now) status (W.taken out.old) (W.taken out.new)) }
    ensures fails { IfErr result (λ fault. Fails (S.files files.old) (Check task.now cert.now)
        (W.taken out.old) (W.taken out.new) (W.faults out.old) (W.faults out.new) (fault_of fault)) }
{
    let task_bytes = files.fetch(task)?;
    let cert_bytes = files.fetch(cert)?;
    let checked = check_texts(alloc, &task_bytes, &cert_bytes)?;
    write_verdict(alloc, &checked.claim.task, checked.verdict, out)?;
    Ok(status_of_verdict(checked.verdict))
}

/// Checks the certificate of a file against the task of another, and writes the report or the line of a no, with the status.
/// Both files are fetched before either is read.
fn report_files<'a, S: Source, W: Out>(
    alloc: Global,
    task: &'a str,
    cert: &'a str,
    files: &mut S,
    out: &mut W,
) -> Result<u8, Fault<'a>>
    requires { W.faults out.old < 2 ^ 64 - 1 }
    ensures done { IfOk result (λ status. DoesOrder (S.files files.old) (Report task.now cert.now) status (W.taken out.old) (W.taken out.new)) }
    ensures fails { IfErr result (λ fault. Fails (S.files files.old) (Report task.now cert.now)
        (W.taken out.old) (W.taken out.new) (W.faults out.old) (W.faults out.new) (fault_of fault)) }
{
    let task_file = files.fetch(task)?;
    let cert_file = files.fetch(cert)?;
    let checked = check_texts(alloc, &task_file, &cert_file)?;
    write_answer(alloc, &checked, out)?;
    Ok(status_of_verdict(checked.verdict))
}

/// Searches for a certificate of the task of a file, writes it, or `none`, and gives the status.
fn search_file<'a, S: Source, W: Out>(
    alloc: Global,
    task: &'a str,
    files: &mut S,
    out: &mut W,
) -> Result<u8, Fault<'a>>
    requires { W.faults out.old < 2 ^ 64 - 1 }
    ensures done { IfOk result (λ status. DoesOrder (S.files files.old) (Search task.now) status (W.taken out.old) (W.taken out.new)) }
    ensures fails { IfErr result (λ fault. Fails (S.files files.old) (Search task.now)
        (W.taken out.old) (W.taken out.new) (W.faults out.old) (W.faults out.new) (fault_of fault)) }
{
    let text = files.fetch(task)?;
    let plan = read_task(alloc, &text)?;
    Ok(propose(alloc, &plan, out)?)
}

/// Writes the expansion of the certificate of a file, by the task of another, and gives the status. Both files are fetched
/// before either is read.
fn expand_files<'a, S: Source, W: Out>(
    alloc: Global,
    task: &'a str,
    cert: &'a str,
    files: &mut S,
    out: &mut W,
) -> Result<u8, Fault<'a>>
    requires { W.faults out.old < 2 ^ 64 - 1 }
    ensures done { IfOk result (λ status. DoesOrder (S.files files.old) (Expand task.now cert.now) status (W.taken out.old) (W.taken out.new)) }
    ensures fails { IfErr result (λ fault. Fails (S.files files.old) (Expand task.now cert.now)
        (W.taken out.old) (W.taken out.new) (W.faults out.old) (W.faults out.new) (fault_of fault)) }
{
    let task_source = files.fetch(task)?;
    let cert_source = files.fetch(cert)?;
    let claim = read_texts(alloc, &task_source, &cert_source)?;
    write_expansion(alloc, &claim.task, &claim.cert, out)?;
    Ok(DONE)
}

/// Does what is asked for, and gives the status.
fn perform<'a, S: Source, W: Out>(
    alloc: Global,
    order: Order<'a>,
    files: &mut S,
    out: &mut W,
) -> Result<u8, Fault<'a>>
    requires { W.faults out.old < 2 ^ 64 - 1 }
    ensures done { IfOk result (λ status. DoesOrder (S.files files.old) (order_of order.entry) status (W.taken out.old) (W.taken out.new)) }
    ensures fails { IfErr result (λ fault. Fails (S.files files.old) (order_of order.entry)
        (W.taken out.old) (W.taken out.new) (W.faults out.old) (W.faults out.new) (fault_of fault)) }
{
    match order {
        Order::Example => example(alloc, out),
        Order::Run { task, schedule } => run(alloc, task, schedule, files, out),
        Order::Check { task, cert } => check_files(alloc, task, cert, files, out),
        Order::Report { task, cert } => report_files(alloc, task, cert, files, out),
        Order::Search { task } => search_file(alloc, task, files, out),
        Order::Expand { task, cert } => expand_files(alloc, task, cert, files, out),
    }
}

/// Does what the words say, and gives the status.
fn serve_words<'a, S: Source, W: Out>(
    alloc: Global,
    words: &'a [String],
    files: &mut S,
    out: &mut W,
) -> Result<u8, Fault<'a>>
    requires { W.faults out.old < 2 ^ 64 - 1 }
    ensures done { IfOk result (λ status. Serves (S.files files.old) (map string_bytes words.now) status (W.taken out.old) (W.taken out.new)) }
    ensures fails { IfErr result (λ fault. WordsFail (S.files files.old) (map string_bytes words.now)
        (W.taken out.old) (W.taken out.new) (W.faults out.old) (W.faults out.new) (fault_of fault)) }
{
    match read_order(alloc, words) {
        Ok(order) => perform(alloc, order, files, out),
        Err(WordsFault::Words) => Err(Fault::Words),
        Err(WordsFault::Memory) => Err(Fault::Memory),
    }
}

/// The program: does what its words say, or tells the fault on the error stream, and gives the status: 0, or 1 where it answers
/// `no` or `none`, or 2 for a fault in words or files, or 3 for want of memory or a failed output.
///
/// A file that can't be read is told before either text is parsed, in the order of the words; the task is parsed first.
/// With status 2 nothing is written to the output. With 3 a beginning of what is written with 0 or 1 is, where the output failed;
/// and for want of memory nothing, or of a trace a beginning. Want of memory may be told in place of any fault. `err` takes the
/// line of a fault and nothing else, and its failures change neither the status nor the output.
///
/// Where `check` or `report` ends with 0, the task of its file is confined, and sandboxed if no program of it is untrusted.
pub fn serve<S: Source, W: Out, V: Out>(
    alloc: Global,
    words: &[String],
    files: &mut S,
    out: &mut W,
    err: &mut V,
) -> u8
    requires out { W.faults out.old < 2 ^ 64 - 1 }
    requires err { V.faults err.old < 2 ^ 64 - 1 }
    ensures done { IsTrue (is_done_status result) → Serves (S.files files.old) (map string_bytes words.now) result (W.taken out.old) (W.taken out.new)
        × (V.taken err.new ≡ V.taken err.old) }
    ensures refused { IsTrue (is_fault_status result) → RefusesWords (S.files files.old) (map string_bytes words.now) result
        (W.taken out.old) (W.taken out.new) (W.faults out.old) (W.faults out.new)
        (V.taken err.old) (V.taken err.new) (V.faults err.old) (V.faults err.new) }
    ensures stopped { result ≡ 3 → (W.taken out.new ≡ W.taken out.old)
        ⊎ HasBegun (Serves (S.files files.old) (map string_bytes words.now)) (W.taken out.old) (W.taken out.new) }
    ensures known { IsTrue (is_status result) }
    ensures inside { result ≡ 0 → (task certificate : List ℕ) → AsksForVerdict (map string_bytes words.now) task certificate
        → StaysInside (S.files files.old) task }
{
    match serve_words(alloc, words, files, out) {
        Ok(status) => status,
        Err(fault) => tell(alloc, NAME, &fault, err),
    }
}
