//! What an instruction carries on to the next point: the join of its outcomes that go there.

ghost use Rattle.std.specs.Prelude.{◌≡◌, Some, true, option_map};
ghost use Rattle.certificate.specs.Views.{bound_of};
ghost use Rattle.instruction_set.specs.Views.{instruction_of};
ghost use Rattle.transfer.specs.CallViews.{carried_at, met_at};
ghost use Rattle.transfer.specs.Limits.{leaves_known};

use crate::instructions::{failure, successes_pass};
use crate::outcomes::Outcome;
use crate::successes::{OutcomeVisitor, Site};
use certificate::{Bound, Domain};
use instruction_set::Instruction;

/// A test that all outcomes pass, and that joins those that go to its point.
#[derive(Clone, Copy)]
struct Meeting {
    point: usize,
    bound: Option<Bound>,
}

impl OutcomeVisitor for Meeting {
    ghost passes = { λ meeting outcome. true };

    ghost joins = { λ meeting. Some meeting.point };

    ghost kept = { λ meeting. option_map bound_of meeting.bound };

    /// Joins the outcome, if it goes to the point.
    fn visit(&mut self, outcome: &Outcome<'_>) -> bool {
        if outcome.point == self.point {
            let there = outcome.bound_there();
            let joined = match &self.bound {
                None => there,
                Some(before) => before.join(&there),
            };
            self.bound = Some(joined);
        }
        true
    }
}

/// The join of the outcomes of an instruction that go to the next point, an error's too; `None` if none goes there.
fn met_next(site: &Site<'_>, instruction: &Instruction) -> Option<Bound>
    requires { leaves_known (instruction_of instruction.now) ≡ true }
    ensures { option_map bound_of result ≡ met_at site.now (instruction_of instruction.now) }
{
    let mut meeting = Meeting {
        point: site.point as usize + 1,
        bound: None,
    };
    successes_pass(site, instruction, &mut meeting);
    if let Some(outcome) = failure(site.bound, instruction) {
        meeting.visit(&outcome);
    }
    meeting.bound
}

/// The join of the outcomes of an instruction that go to the next point, an error's too, as the certificate says it; `None` if
/// none goes there. Takes no memory. (own)
pub fn carried_on(site: &Site<'_>, instruction: &Instruction) -> Option<Bound>
    requires { leaves_known (instruction_of instruction.now) ≡ true }
    ensures { option_map bound_of result ≡ carried_at site.now (instruction_of instruction.now) }
{
    let mut met = met_next(site, instruction);
    if let Some(bound) = &mut met {
        bound.tell_in(site.cert.version());
    }
    met
}
