//! What the rules K17 to K22 compare of an untrusted program and its authority.

use crate::breaking::{
    PartTest, moved_into, narrow_ends, received_beyond, started_beyond, unlisted_ceilings,
};
use crate::scenes::Scene;
use crate::starting::Object;
use certificate::{Bound, Class, Held, Side, Target, ToldHeld, ToldSlot};
use checker::{Allowance, AuthorityRule, allowance_at, ceiling_at};
use task::grant_named;
use texts::{Name, Page, ToldRights, say};
use transfer::channel_at;

/// Adds the ceiling of a descriptor's grant, or that it is an end that isn't listed, or that nothing can be said of it.
fn add_ceiling(page: &mut Page, scene: &Scene<'_>, allowed: &Allowance<'_>, target: &Target) {
    match target {
        Target::InGrant(name) => {
            let name = name.as_bytes();
            let rights = ceiling_at(scene.cert, allowed.program.as_bytes(), name);
            let most = ToldRights {
                wide: allowed.wide,
                rights,
            };
            say!(page; ", the ceiling on ", name, " has ", most)
        }
        Target::Socket(..) => say!(page; ", which isn't listed"),
        Target::AnyNode | Target::Unknown => say!(page; ", which no authority has"),
    }
}

/// Adds what a process may take into the mode that its authority hasn't, where it enters the mode with this bound.
pub(crate) fn add_taken(page: &mut Page, scene: &Scene<'_>, name: &Name, bound: &Bound) {
    let allowed = &allowance_at(scene.cert, name, scene.task.further_rights());
    let numbers = PartTest::SlotAllowed { allowed, bound }.failing(page.alloc());
    for number in &page.gathered(numbers) {
        let number = u32::from(*number);
        let slot = bound.slot(number);
        if let Some(held) = slot.held() {
            let wide = allowed.wide;
            say!(page; "; descriptor ", number, " is ", ToldSlot { wide, slot });
            add_ceiling(page, scene, allowed, &held.target());
        }
    }
}

/// Adds with what processes of a program start in the mode that its authority hasn't.
pub(crate) fn add_started(page: &mut Page, scene: &Scene<'_>, name: &Name, program: u8) {
    let allowed = allowance_at(scene.cert, name, scene.task.further_rights());
    for (process, start) in scene.task.starts().iter().enumerate() {
        if !start.mode || start.program != program {
            continue;
        }
        let descriptors = started_beyond(page.alloc(), scene.task, &allowed, start);
        for first in &page.gathered(descriptors) {
            let of = first.object;
            let told = ToldRights {
                wide: allowed.wide,
                rights: first.rights,
            };
            say!(page; "; process ", process, " starts in the mode with descriptor ", first.number);
            say!(page; " of ", Object { scene: &*scene, of }, " with ", told);
        }
    }
}

/// Adds the ceilings whose grant doesn't list what their rights are for, and what it lists.
fn add_ceilings(page: &mut Page, scene: &Scene<'_>, allowed: &Allowance<'_>) {
    let ceilings = unlisted_ceilings(page.alloc(), scene.task, allowed);
    for ceiling in &page.gathered(ceilings) {
        let (name, grants) = (ceiling.grant().as_bytes(), scene.task.grants());
        let told = ToldRights {
            wide: allowed.wide,
            rights: ceiling.rights(),
        };
        say!(page; "; the ceiling on ", name, " has ", told);
        match grant_named(grants, name) {
            Some(grant) => {
                let mut separator = ", and the grant lists ";
                for operation in &grant.operations {
                    say!(page; separator, *operation);
                    separator = ",";
                }
            }
            None => say!(page; ", and the task has no such grant"),
        }
    }
}

/// Adds which ceilings let a name be moved.
fn add_moves(page: &mut Page, allowed: &Allowance<'_>) {
    for source in allowed.ceilings {
        let targets = moved_into(page.alloc(), source, allowed);
        for target in &page.gathered(targets) {
            say!(page; "; the ceiling on ", source.grant().as_bytes(), " has RENAMEAT_SOURCE");
            say!(page; ", the one on ", target.grant().as_bytes(), " has RENAMEAT_TARGET");
        }
    }
}

/// Adds the line of a side's channel, or that it is missing. What it lets through is given.
fn add_line(page: &mut Page, scene: &Scene<'_>, class: &Class, side: Side) -> Option<Held> {
    say!(page; "; the channel ", *class, " ", side);
    match channel_at(scene.cert, class, side) {
        None => {
            say!(page; " has no line");
            None
        }
        Some(channel) => {
            let sent = channel.sends();
            match sent {
                None => say!(page; " has the line none"),
                Some(held) => {
                    let wide = scene.task.further_rights();
                    say!(page; " has ", ToldHeld { wide, held })
                }
            }
            sent
        }
    }
}

/// Adds what may come by the listed ends that isn't within.
fn add_received(page: &mut Page, scene: &Scene<'_>, allowed: &Allowance<'_>) {
    let ends = received_beyond(page.alloc(), scene.cert, allowed);
    for end in &page.gathered(ends) {
        if let Some(held) = add_line(page, scene, &end.class(), end.side().other()) {
            add_ceiling(page, scene, allowed, &held.target());
        }
    }
}

/// Adds which channels of the listed ends don't let everything through.
fn add_sent(page: &mut Page, scene: &Scene<'_>, allowed: &Allowance<'_>) {
    let ends = narrow_ends(page.alloc(), scene.cert, allowed);
    for end in &page.gathered(ends) {
        add_line(page, scene, &end.class(), end.side());
        say!(page; ", and has to have unknown 0000 3fff 0 3");
        if scene.cert.version().tells_further() {
            say!(page; " 00000000 ffffffff");
        }
    }
}

/// Adds what one of the rules K19 to K22 compares of a program's authority.
pub(crate) fn add_authority(page: &mut Page, scene: &Scene<'_>, name: &Name, rule: AuthorityRule) {
    let allowed = allowance_at(scene.cert, name, scene.task.further_rights());
    match rule {
        AuthorityRule::Ceilings => add_ceilings(page, scene, &allowed),
        AuthorityRule::Moves => add_moves(page, &allowed),
        AuthorityRule::Received => add_received(page, scene, &allowed),
        AuthorityRule::Sent => add_sent(page, scene, &allowed),
    }
}
