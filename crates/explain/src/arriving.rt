//! What arrives at a point, and in which part a bound there is too narrow for it.

ghost use Rattle.std.specs.Prelude.{None, true};

use crate::breaking::{PartTest, error_fits, successes_fit};
use crate::scenes::{BoundedPoint, Scene};
use certificate::{Bound, Domain, ToldSlot};
use texts::{Page, say};
use transfer::{Outcome, OutcomeVisitor, failure, successes_pass};

/// By what an instruction leads to other points.
#[derive(Clone, Copy)]
pub(crate) enum Leads {
    BySuccess,
    ByError,
}

/// The telling of the outcomes that go to a point and aren't within the bound there.
#[derive(Drop)]
struct Narrow<'a> {
    words: Page,
    scene: &'a Scene<'a>,
    program: u8,
    point: u8,
    there: &'a Bound,
    /// How many are told, with those at other points.
    told: u32,
}

/// How many arrivals of one rule are told.
const MOST_TOLD: u32 = 3;

impl<'a> OutcomeVisitor for Narrow<'a> {
    ghost passes = { λ t o. true };

    ghost joins = { λ t. None };

    ghost kept = { λ t. None };

    /// Tells of the outcome.
    fn visit(&mut self, outcome: &Outcome<'_>) -> bool {
        let goes_there = outcome.point == usize::from(self.point);
        if goes_there && self.told < MOST_TOLD && !outcome.is_within(self.there) {
            self.told += 1;
            say!(&mut self.words; "; it leads to ", self.scene.place(self.program, self.point));
            let wide = self.scene.task.further_rights();
            add_parts(&mut self.words, wide, &outcome.bound_there(), self.there);
        }
        true
    }
}

/// Adds where an instruction leads that a bound there is too narrow for, and in which parts.
pub(crate) fn add_narrow(
    page: &mut Page,
    scene: &Scene<'_>,
    from: &BoundedPoint<'_>,
    leads: Leads,
) {
    let (site, instruction) = (&from.site, from.instruction);
    let mut told = 0;
    for (point, _instruction) in scene.code(from.program).iter().enumerate() {
        let there = scene.cert.bound_at(site.name.as_bytes(), point);
        let Some(bound) = &there else {
            continue;
        };
        let mut narrow = Narrow {
            words: Page::new(page.alloc()),
            scene: &*scene,
            program: from.program,
            point: point as u8,
            there: bound,
            told,
        };
        match leads {
            Leads::BySuccess => {
                if !successes_fit(site, instruction, point, &there) {
                    successes_pass(site, instruction, &mut narrow);
                }
            }
            Leads::ByError => {
                if let Some(outcome) = failure(site.bound, instruction) {
                    narrow.visit(&outcome);
                }
            }
        }
        told = narrow.told;
        say!(page; &narrow.words);
    }
}

/// Adds where it leads that has no bound.
pub(crate) fn add_unbound(page: &mut Page, scene: &Scene<'_>, from: &BoundedPoint<'_>) {
    let (site, instruction) = (&from.site, from.instruction);
    for (point, _instruction) in scene.code(from.program).iter().enumerate() {
        let there = scene.cert.bound_at(site.name.as_bytes(), point);
        if there.is_none()
            && !(successes_fit(site, instruction, point, &there)
                && error_fits(site.bound, instruction, point, &there))
        {
            let place = scene.place(from.program, point as u8);
            say!(page; "; it leads to ", place, ", which has none");
        }
    }
}

/// Adds in which parts a bound is too narrow for one that arrives.
fn add_parts(page: &mut Page, wide: bool, arriving: &Bound, there: &Bound) {
    let (mode, most) = (arriving.mode(), there.mode());
    if !mode.within(&most) {
        say!(page; "; the mode arrives as ", mode, ", the bound has ", most);
    }
    let registers = PartTest::RegisterWithin { arriving, there }.failing(page.alloc());
    for register in &page.gathered(registers) {
        let (value, most) = (arriving.interval(*register), there.interval(*register));
        say!(page; "; r", *register, " arrives as ", value, ", the bound has ", most);
    }
    let numbers = PartTest::SlotWithin { arriving, there }.failing(page.alloc());
    for number in &page.gathered(numbers) {
        let number = u32::from(*number);
        let slot = arriving.slot(number);
        say!(page; "; descriptor ", number, " arrives as ", ToldSlot { wide, slot });
        let slot = there.slot(number);
        say!(page; ", the bound has ", ToldSlot { wide, slot });
    }
}
