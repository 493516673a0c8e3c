//! Which rights calls use in a grant, and which grants a broken rule is about.

use crate::views::{Side, Viewed};
use certificate::Target;
use checker::{BrokenRule, Rule};
use remarks::uses_of;
use rights::Rights;

/// The rights that the call at a point may use of what a target may be.
fn used_at(viewed: &Viewed<'_>, side: Side, target: &Target, point: usize) -> Rights {
    let (Some(bound), Some(instruction)) = (
        viewed.bound_in(side, point),
        viewed.named.program.code().get(point),
    ) else {
        return Rights::empty();
    };
    uses_of(instruction, &Some(*bound), target).rights
}

/// The rights that calls of a half may use, or pass on. An untrusted program may use all in the mode.
pub(crate) fn used_on_side(viewed: &Viewed<'_>, side: Side, target: &Target) -> Rights {
    if viewed.named.untrusted && side == Side::Inside {
        return Rights::all();
    }
    let mut used = Rights::empty();
    for point in 0..viewed.bounds.len() {
        used = used.union(used_at(viewed, side, target, point));
    }
    used
}

/// Whether a rule is broken by a call of a half that goes through what a target may be.
pub(crate) fn is_broken_in(
    findings: &[BrokenRule],
    viewed: &Viewed<'_>,
    side: Side,
    target: &Target,
) -> bool {
    for found in findings {
        if found.program == viewed.number
            && matches!(found.rule, Rule::OfCall(_))
            && used_at(viewed, side, target, usize::from(found.point)) != Rights::empty()
        {
            return true;
        }
    }
    false
}

/// How many rules are broken at points of a half.
pub(crate) fn broken_on_side(findings: &[BrokenRule], viewed: &Viewed<'_>, side: Side) -> u32 {
    let mut count: u32 = 0;
    for found in findings {
        if found.program == viewed.number
            && viewed.bound_in(side, usize::from(found.point)).is_some()
        {
            count = count.saturating_add(1);
        }
    }
    count
}
