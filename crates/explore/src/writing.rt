//! The text of a run that breaks something.

ghost use Rattle.std.specs.Prelude.{◌<◌, ◌-◌, ◌^◌, ◌≡◌, IsErrOf, OnErr, OnOk, map};
ghost use Rattle.rights.specs.Output.{Took, TookFront};
ghost use Rattle.syscalls.specs.Views.{event_of};
ghost use Rattle.rights.specs.Views.{operation_of};
ghost use Rattle.explore.specs.Breaches.{Outside};
ghost use Rattle.explore.specs.BreachViews.{breach_of};
ghost use Rattle.texts.specs.PageViews.{Adds};
ghost use Rattle.explore.specs.Texts.{WritesDetailed, WritesFrontDetailed, breach_text, breach_words, event_text, schedule_part, schedule_text};

use crate::breaches::Breach;
use rights::{Op, Out, Stop, write_all};
use simulator::simulate;
use std::alloc::Global;
use syscalls::Event;
use task::Task;
use texts::{Page, Say, parts_of, say};

/// Adds a line of a schedule.
fn add_event(page: &mut Page, event: Event)
    ensures { Adds page.old page.new (event_text (event_of event)) }
{
    say!(page; event.process, " ", event.input);
    if event.refuse {
        " refuse".say(page);
    }
    "\n".say(page)
}

/// Adds the lines of a schedule, as `read_schedule` reads them.
pub fn add_schedule(page: &mut Page, events: &[Event])
    ensures { Adds page.old page.new (schedule_text (map event_of events.now)) }
{
    for event in events {
        add_event(page, *event);
    }
}

/// Adds the effect that no grant allows.
fn add_outside(page: &mut Page, op: Op, place: &[u8])
    ensures { Adds page.old page.new (breach_words (Outside (operation_of op) place.now)) }
{
    say!(page; "outside: ", op, " ", place)
}

/// Adds what is broken.
fn add_words(page: &mut Page, breach: &Breach)
    ensures { Adds page.old page.new (breach_words (breach_of breach.now)) }
{
    match breach {
        Breach::Outside(op, place) => add_outside(page, *op, place),
        Breach::MissingRight => "missing right".say(page),
        Breach::CapMode => "capability mode".say(page),
    }
}

/// Adds the line of what is broken: its words, with a detail behind them.
pub fn add_breach(page: &mut Page, breach: &Breach, detail: &[u8])
    ensures { Adds page.old page.new (breach_text (breach_of breach.now) detail.now) }
{
    add_words(page, breach);
    say!(page; detail, "\n")
}

/// Writes a schedule, and a blank line.
fn write_schedule<W: Out>(alloc: Global, events: &[Event], out: &mut W) -> Result<(), Stop>
    requires { W.faults out.old < 2 ^ 64 - 1 }
    ensures ok { OnOk result (Took (W.taken out.old) (W.taken out.new) (schedule_part (map event_of events.now))) }
    ensures err { OnErr result (TookFront (W.taken out.old) (W.taken out.new) (schedule_part (map event_of events.now))) }
    ensures steady { OnOk result (W.faults out.new ≡ W.faults out.old) }
    ensures device { IsErrOf result Stop.Device → W.faults out.old < W.faults out.new }
    ensures not_spent { IsErrOf result Stop.Spent → ⊥ }
{
    let mut page = Page::new(alloc);
    add_schedule(&mut page, events);
    "\n".say(&mut page);
    write_all(out, page.finish()?)
}

/// Writes the line of what is broken.
fn write_line<W: Out>(
    alloc: Global,
    breach: &Breach,
    detail: &[u8],
    out: &mut W,
) -> Result<(), Stop>
    requires { W.faults out.old < 2 ^ 64 - 1 }
    ensures ok { OnOk result (Took (W.taken out.old) (W.taken out.new) (breach_text (breach_of breach.now) detail.now)) }
    ensures err { OnErr result (TookFront (W.taken out.old) (W.taken out.new) (breach_text (breach_of breach.now) detail.now)) }
    ensures steady { OnOk result (W.faults out.new ≡ W.faults out.old) }
    ensures device { IsErrOf result Stop.Device → W.faults out.old < W.faults out.new }
    ensures not_spent { IsErrOf result Stop.Spent → ⊥ }
{
    let mut page = Page::new(alloc);
    add_breach(&mut page, breach, detail);
    write_all(out, page.finish()?)
}

/// Writes a run that breaks something: its schedule, as `read_schedule` reads it, a blank line, its trace, as `simulate` writes it, and
/// behind the last line of the trace the breach that it is given, with a detail as that of `FoundRun`. `Device` is answered only after a failure
/// of the writer, and `Memory` after a refused growth; what was written then is a beginning of the text.
pub fn write_breach<W: Out>(
    alloc: Global,
    task: &Task,
    events: &[Event],
    breach: &Breach,
    detail: &[u8],
    out: &mut W,
) -> Result<(), Stop>
    requires { W.faults out.old < 2 ^ 64 - 1 }
    ensures ok { OnOk result
        (WritesDetailed task.now (map event_of events.now) (breach_of breach.now) detail.now (W.taken out.old) (W.taken out.new)) }
    ensures err { OnErr result
        (WritesFrontDetailed task.now (map event_of events.now) (breach_of breach.now) detail.now (W.taken out.old) (W.taken out.new)) }
    ensures steady { OnOk result (W.faults out.new ≡ W.faults out.old) }
    ensures device { IsErrOf result Stop.Device → W.faults out.old < W.faults out.new }
    ensures not_spent { IsErrOf result Stop.Spent → ⊥ }
{
    write_schedule(alloc, events, out)?;
    simulate(alloc, task, events, out)?;
    write_line(alloc, breach, detail, out)
}
