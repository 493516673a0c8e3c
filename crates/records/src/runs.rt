//! A record as it is gone through: the entries so far, and what is known.

ghost use Rattle.std.specs.Prelude.{◌≡◌, [], ◌∷◌, IfOk, map, true};
ghost use Rattle.rights.specs.Views.{call_of};
ghost use Rattle.records.specs.Calls.{A_number, are_calls, is_event, operand_kinds};
ghost use Rattle.records.specs.EntryViews.{calls_seen, event_seen};
ghost use Rattle.records.specs.GivenViews.{given_kind};

use crate::argument_values::Mention;
use crate::entries::{Entry, Event, MadeCall, Outcome, Reason};
use crate::known::{About, Known};
use crate::logs::{CallName, Log, When, left_out};
use crate::other_rights::OtherRight;
use crate::real_calls::{Given, operands_of};
use crate::seen_calls::{SeenCall, Through};
use crate::wants::omit_unknown;
use call_facts::{Passed, passed_by};
use rights::Call;
use std::alloc::AllocError;

/// A record as it is gone through.
#[derive(Drop)]
pub(crate) struct Run {
    pub log: Log,
    pub known: Known,
}

impl Run {
    /// Leaves a call of this name out, and tells the right of a descriptor that it wants.
    pub(crate) fn omit_at(
        &mut self,
        when: When,
        reason: Reason,
        name: CallName<'_>,
        wanted: Option<(OtherRight, u32)>,
    ) {
        let event = left_out(self.known.alloc, reason, name, wanted);
        self.log.add(when, event);
    }

    /// Leaves a call out.
    pub(crate) fn omit(&mut self, seen: &SeenCall<'_>, reason: Reason) {
        self.omit_at(seen.when, reason, seen.name, None);
    }

    /// Leaves a call out for a reason that wants a right of a descriptor.
    pub(crate) fn want(
        &mut self,
        seen: &SeenCall<'_>,
        reason: Reason,
        right: OtherRight,
        mention: Mention<'_>,
    ) {
        self.omit_at(seen.when, reason, seen.name, Some((right, mention.number)));
    }

    /// How many bytes of a stream went through a call: as many as a read or a write through an end of a pair answers.
    fn bytes_through(
        &self,
        call: Call,
        outcome: Outcome,
        stream: Option<Mention<'_>>,
    ) -> Option<u32> {
        match (passed_by(call), outcome, stream) {
            (Passed::ByteIn | Passed::ByteOut, Outcome::Success(bytes), Some(stream))
                if self.known.is_end(stream) => { Some(bytes) }
            _ => None,
        }
    }

    /// A call that came to this, with what these descriptors are.
    fn called(
        &self,
        call: Call,
        given: &[Given<'_>],
        outcome: Outcome,
        about: About<'_>,
    ) -> Result<Event, AllocError>
        requires { operand_kinds (call_of call) ≡ map given_kind given.now }
        ensures { IfOk result (λ event. is_event (event_seen event) ≡ true) }
    {
        let operands = operands_of(self.known.alloc, given)?;
        let bindings = self.known.bindings_of(about)?;
        let bytes = self.bytes_through(call, outcome, about[0]);
        Ok(Event::Called(MadeCall {
            call,
            operands,
            outcome,
            bindings,
            bytes,
        }))
    }

    /// Adds a call with what these descriptors are, or leaves it out where what became of it has no counterpart.
    pub(crate) fn add(
        &mut self,
        seen: &SeenCall<'_>,
        call: Call,
        given: &[Given<'_>],
        outcome: Option<Outcome>,
        about: About<'_>,
    )
        requires { operand_kinds (call_of call) ≡ map given_kind given.now }
    {
        let Some(outcome) = outcome else {
            return omit_unknown(self, seen);
        };
        let event = self.called(call, given, outcome, about);
        self.log.add(seen.when, event);
    }

    /// Adds a call that is given nothing.
    pub(crate) fn add_alone(&mut self, seen: &SeenCall<'_>, call: Call, outcome: Option<Outcome>)
        requires { operand_kinds (call_of call) ≡ [] }
    {
        self.add(seen, call, &[], outcome, [None, None]);
    }

    /// Adds a call that is given a descriptor, and perhaps makes another one.
    pub(crate) fn add_on(
        &mut self,
        through: &Through<'_>,
        call: Call,
        made: Option<Mention<'_>>,
        outcome: Option<Outcome>,
    )
        requires { operand_kinds (call_of call) ≡ A_number ∷ [] }
    {
        let given = [Given::Number(through.mention.number)];
        let about = [Some(through.mention), made];
        self.add(through.seen, call, &given, outcome, about);
    }

    /// Adds a call that is given a descriptor alone, and makes none.
    pub(crate) fn add_lone(&mut self, through: &Through<'_>, call: Call)
        requires { operand_kinds (call_of call) ≡ A_number ∷ [] }
    {
        self.add_on(through, call, None, through.seen.outcome);
    }

    /// Adds a call that is given a descriptor and a number.
    pub(crate) fn add_with(
        &mut self,
        through: &Through<'_>,
        call: Call,
        value: u32,
        outcome: Option<Outcome>,
    )
        requires { operand_kinds (call_of call) ≡ A_number ∷ A_number ∷ [] }
    {
        let mention = through.mention;
        let given = [Given::Number(mention.number), Given::Number(value)];
        let about = [Some(mention), None];
        self.add(through.seen, call, &given, outcome, about);
    }

    /// Adds the end of the process, if it went on before. Whether it did is told.
    pub(crate) fn end(&mut self, when: When) -> bool {
        let goes_on = self.known.process.end();
        if goes_on {
            self.log.add(when, Ok(Event::Ended));
        }
        goes_on
    }
}
