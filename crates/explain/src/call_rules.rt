//! What the rules K4 to K15 compare at a call that breaks them.

ghost use Rattle.std.specs.Prelude.{Some, option_map};
ghost use Rattle.certificate.specs.Order.{sends_within};
ghost use Rattle.certificate.specs.Views.{held_of};

use crate::scenes::Scene;
use certificate::{Bound, Domain, Held, Slot, Target, ToldHeld};
use checker::uses::{SameGrant, target_lists};
use checker::{CallRule, KeepsRule, SlotRule};
use instruction_set::{Operand, Syscall};
use rights::Rights;
use texts::{Page, Say, ToldRights, say};
use transfer::{
    Need, OpenSlot, Passed, SlotTest, Through, channel_at, demanded, failing_slots,
    failing_through, is_single, may_be_on, needed, operand_interval,
};

/// A call at a point with a bound.
#[derive(Clone, Copy)]
pub(crate) struct Told<'a> {
    pub scene: &'a Scene<'a>,
    pub bound: &'a Bound,
    pub call: &'a Syscall,
}

/// Adds which numbers an operand may be, if they are several.
fn add_several(page: &mut Page, bound: &Bound, operand: Operand) {
    let interval = operand_interval(bound, operand);
    if !is_single(interval) {
        say!(page; "; the call changes the slot of its number, which may be ", interval);
        say!(page; ": it has to be one")
    }
}

/// Adds which slot leaves it open what the lowest free number is.
fn add_undetermined(page: &mut Page, bound: &Bound) {
    for (number, slot) in bound.slots().iter().enumerate() {
        if let Slot::Maybe(_) = slot {
            say!(page; "; the call takes the lowest free number, and descriptor ", number);
            return say!(page; " may be open or closed, so that number isn't determined");
        }
    }
}

/// Adds what a limit keeps that may not be there.
fn add_grown_limit(page: &mut Page, wide: bool, held: &Held, need: &Need) {
    let (rights, commands) = (held.rights().least(), held.fcntls().least());
    let kept = need.kept_rights;
    if !rights.contains(kept) {
        say!(page; " has ", ToldRights { wide, rights }, " at least; the limit keeps ");
        return ToldRights { wide, rights: kept }.say(page);
    }
    say!(page; " has the commands ", commands);
    say!(page; " at least; the limit keeps ", need.kept_commands)
}

/// Adds the operations of a call that a grant doesn't list.
fn add_unlisted(page: &mut Page, told: &Told<'_>, held: &Held, need: &Need) {
    let target = held.target();
    say!(page; " is in ", target);
    let mut separator = ", which doesn't list ";
    for operation in [need.operation, need.other_operation].iter() {
        if let Some(name) = operation {
            if !target_lists(told.scene.task, &target, *operation) {
                say!(page; separator, *name);
                separator = " and ";
            }
        }
    }
    say!(page; "; ", told.call.call().name(), " does that there")
}

/// Adds what is moved from one grant into another.
fn add_moves(page: &mut Page, told: &Told<'_>, slot: &OpenSlot, targets: Operand) {
    let source = &slot.held.target();
    let failing = failing_slots(page.alloc(), told.bound, targets, &SameGrant { source });
    if let Some(other) = page.gathered(failing).first() {
        say!(page; " is in ", *source, ", ", *other, " in ", other.held.target());
    }
}

/// The test whether a channel's line lets a slot through. An empty one lets nothing be sent.
#[derive(Clone, Copy)]
struct LetsThrough<'a> {
    line: &'a Option<Held>,
}

impl<'a> SlotTest for LetsThrough<'a> {
    ghost passes = { λ t slot. sends_within (Some slot.held) (option_map held_of t.line.now) };

    fn asks(&self, _number: u8, held: &Held) -> bool {
        Some(*held).within(self.line)
    }
}

/// Adds what is sent into a channel that its line doesn't let through.
fn add_sent(page: &mut Page, told: &Told<'_>, target: &Target, passed: Passed) {
    let (Passed::Sent(sent), Target::Socket(class, side)) = (passed, target) else {
        return;
    };
    let Some(channel) = channel_at(told.scene.cert, class, *side) else {
        return;
    };
    let (line, wide) = (channel.sends(), told.scene.task.further_rights());
    say!(page; "the channel ", *class, " ", *side);
    match line {
        Some(held) => say!(page; " has ", ToldHeld { wide, held }),
        None => say!(page; " has none"),
    }
    let kept_back = failing_slots(page.alloc(), told.bound, sent, &LetsThrough { line: &line });
    for slot in &page.gathered(kept_back) {
        let held = slot.held;
        say!(page; "; sent is ", *slot, ", ", ToldHeld { wide, held });
    }
}

/// Adds which channel has no line.
fn add_no_channel(page: &mut Page, slot: &OpenSlot, passed: Passed) {
    let Target::Socket(class, side) = slot.held.target() else {
        say!(page; *slot, " may be the end of any pair");
        return say!(page; ", so no line says what may be sent by it");
    };
    let (does, side) = match passed {
        Passed::Received => ("what comes by ", side.other()),
        Passed::Sent(_) | Passed::Nothing => ("what is sent by ", side),
    };
    say!(page; does, *slot, " has no line: the certificate has none of the channel ");
    say!(page; class, " ", side)
}

/// Adds that a slot may hold what lies in no grant, or what an untrusted program sends.
fn add_unknown(page: &mut Page, slot: &OpenSlot, target: &Target) {
    if let Target::Unknown = target {
        return say!(page; *slot, " may hold anything, as what an untrusted program sends");
    }
    say!(page; *slot, " may hold what lies in no grant (", *target, ")")
}

/// Adds which rights a slot surely has, and which a call needs.
fn add_lacking(page: &mut Page, wide: bool, slot: &OpenSlot, call: &'static str, needed: Rights) {
    let rights = slot.held.rights().least();
    say!(page; *slot, " has ", ToldRights { wide, rights }, " at least; ");
    say!(page; call, " needs ", ToldRights { wide, rights: needed })
}

/// Adds what a rule compares at a slot that breaks it.
fn add_slot(page: &mut Page, told: &Told<'_>, slot: &OpenSlot, need: &Need, rule: SlotRule) {
    let (held, wide) = (&slot.held, told.scene.task.further_rights());
    let (call, target) = (told.call.call().name(), held.target());
    match rule {
        SlotRule::Rights => add_lacking(page, wide, slot, call, need.rights),
        SlotRule::Commands if need.further == Rights::empty() => {
            say!(page; *slot, " has the commands ", held.fcntls().least(), " at least; ");
            say!(page; call, " needs ", need.commands)
        }
        SlotRule::Commands => add_lacking(page, wide, slot, call, need.further),
        SlotRule::Limit => {
            say!(page; *slot);
            add_grown_limit(page, wide, held, need)
        }
        SlotRule::KnownObject | SlotRule::KnownNames => {
            add_unknown(page, slot, &target);
            if rule == SlotRule::KnownNames && !may_be_on(told.bound.mode()) {
                say!(page; "; if it is meant so outside the mode, give its directory a grant with ops=[]")
            }
        }
        SlotRule::Policy => {
            say!(page; *slot);
            add_unlisted(page, told, held, need)
        }
        SlotRule::Moves => {
            if let Some(targets) = need.targets {
                say!(page; *slot);
                add_moves(page, told, slot, targets);
            }
        }
        SlotRule::Sent => add_sent(page, told, &target, need.passed),
        SlotRule::Channel => add_no_channel(page, slot, need.passed),
    }
}

/// Adds what a rule compares at each slot that breaks it, of those that the call goes through by an operand, if it does.
fn add_slots(page: &mut Page, told: &Told<'_>, through: &Option<Through>, rule: SlotRule) {
    let Some(Through { need, .. }) = through else {
        return;
    };
    let (task, cert) = (told.scene.task, told.scene.cert);
    let test = KeepsRule { rule, task, cert };
    let slots = failing_through(page.alloc(), told.bound, through, &test);
    for slot in &page.gathered(slots) {
        say!(page; "; ");
        add_slot(page, told, slot, need, rule);
    }
}

/// Adds what one of the rules K4 to K15 compares at a call that breaks it.
pub(crate) fn add_call_rule(page: &mut Page, told: &Told<'_>, rule: CallRule) {
    let (demands, name) = (demanded(told.call), told.call.call().name());
    match rule {
        CallRule::OneNumber => {
            if let Some(operand) = demands.single {
                add_several(page, told.bound, operand)
            }
        }
        CallRule::FreeNumbers => add_undetermined(page, told.bound),
        CallRule::NoGlobalPath => {
            say!(page; "; ", name, " goes by a global path, and the mode is ", told.bound.mode())
        }
        CallRule::OfSlot(rule) => {
            if rule == SlotRule::KnownNames && demands.changes_global_names {
                say!(page; "; ", name, " makes or removes a name by a global path");
            }
            let needs = needed(told.call);
            add_slots(page, told, &needs.first, rule);
            add_slots(page, told, &needs.second, rule)
        }
    }
}
