//! The rules on where an instruction leads.

ghost use Rattle.std.specs.Prelude.{◌≡◌, None, option_map};
ghost use Rattle.certificate.specs.Views.{bound_of};
ghost use Rattle.checker.specs.ArrivalViews.{all_arrive, arrives_as};
ghost use Rattle.checker.specs.PointViews.{expansion_of, instruction_of_point, met_from, name_of_point, successes_from};
ghost use Rattle.rules.specs.Outcomes.{error_outcomes};
ghost use Rattle.transfer.specs.OutcomeViews.{outcome_of};

use crate::asked::AskedPoint;
use certificate::Bound;
use transfer::{Outcome, OutcomeVisitor, Site, failure, successes_pass};

/// What is asked of an outcome, by the bound of the point that it goes to.
#[derive(Clone, Copy)]
pub(crate) enum Arrival {
    /// It is within the bound, if there is one.
    Within,
    /// There is one.
    There,
    /// There is one, which it is within.
    WithinThere,
}

impl Arrival {
    /// Whether an outcome is so where its point has this bound.
    fn holds(self, outcome: &Outcome<'_>, there: &Option<Bound>) -> bool
        ensures { result ≡ arrives_as self (outcome_of outcome.now).bound (option_map bound_of there.now) }
    {
        match (self, there) {
            (Arrival::Within, None) | (Arrival::There, Some(_)) => true,
            (Arrival::There | Arrival::WithinThere, None) => false,
            (Arrival::Within | Arrival::WithinThere, Some(bound)) => outcome.is_within(bound),
        }
    }
}

/// The visitor that asks whether the outcomes of a point arrive so.
#[derive(Clone, Copy)]
struct Arrives<'a> {
    arrival: Arrival,
    at: &'a AskedPoint<'a>,
}

impl<'a> OutcomeVisitor for Arrives<'a> {
    ghost passes = { λ t o. arrives_as t.arrival o.bound (met_from t.at.now o.point) };

    ghost joins = { λ t. None };

    ghost kept = { λ t. None };

    fn visit(&mut self, outcome: &Outcome<'_>) -> bool {
        let at = self.at;
        if outcome.point == at.point as usize + 1 {
            return self.arrival.holds(outcome, &at.there);
        }
        let given = at.of.cert.bound_at(at.of.name.as_bytes(), outcome.point);
        self.arrival.holds(outcome, &given)
    }
}

/// Whether each success arrives so, of a point with this bound.
pub(crate) fn successes_arrive(at: &AskedPoint<'_>, bound: &Bound, arrival: Arrival) -> bool
    ensures { result ≡ all_arrive arrival (expansion_of at.now.of.now) (name_of_point at.now) (successes_from at.now (bound_of bound.now)) }
{
    let site = &Site {
        task: at.of.task,
        cert: at.of.cert,
        name: &at.of.name,
        point: at.point,
        bound,
    };
    successes_pass(site, at.instruction, &mut Arrives { arrival, at })
}

/// Whether its error does, if it may fail.
pub(crate) fn error_arrives(at: &AskedPoint<'_>, bound: &Bound, arrival: Arrival) -> bool
    ensures { result ≡ all_arrive arrival (expansion_of at.now.of.now) (name_of_point at.now) (error_outcomes (bound_of bound.now) (instruction_of_point at.now)) }
{
    match failure(bound, at.instruction) {
        None => true,
        Some(outcome) => Arrives { arrival, at }.visit(&outcome),
    }
}
