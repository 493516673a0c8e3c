//! When one bound is within another: what it describes the other describes too. And the join of two. (own)

ghost use Rattle.std.specs.Prelude.{⊤, ◌≡◌, ◌&&◌, bit_and, bit_or, length, map, option_map};
ghost use Rattle.rights.specs.Sets.{is_within};
ghost use Rattle.certificate.specs.Order.{bound_within, each_within, held_within, interval_within, mode_within, sends_within, slot_within, target_within};
ghost use Rattle.certificate.specs.Joins.{bound_join, each_join, held_join, interval_join, mode_join, sends_join, slot_join, target_join};
ghost use Rattle.certificate.specs.OrderLaws.{bound-refl, bound-trans, each-refl, each-trans, held-refl, held-trans, interval-refl, interval-trans, mode-refl, mode-trans};
ghost use Rattle.certificate.specs.OrderLaws.{range-refl, range-trans, sends-refl, sends-trans, slot-refl, slot-trans, target-refl, target-trans};
ghost use Rattle.certificate.specs.JoinLaws.{join_above, bound-left, bound-right, each-left, each-right, held-left, held-right, interval-left, interval-right, mode-left};
ghost use Rattle.certificate.specs.JoinLaws.{mode-right, range-left, range-right, sends-left, sends-right, slot-left, slot-right, target-left, target-right};
ghost use Rattle.certificate.specs.Views.{bound_of, held_of, interval_of, mode_of, slot_of, target_of};

use crate::bounds::{Bound, FcntlsRange, Held, Interval, ModeBound, RightsRange, Slot, Target};
use crate::domain::Domain;
use rights::limits::{MAX_DESCRIPTORS, REGISTERS};

impl Domain for ModeBound {
    ghost is_within = { λ a b. mode_within (mode_of a) (mode_of b) };

    ghost IsJoin = { λ a b join. mode_of join ≡ mode_join (mode_of a) (mode_of b) };

    ghost Fit = { λ a b. ⊤ };

    ghost reflexive = { λ a. mode-refl (mode_of a) };

    ghost transitive = { λ a b c. mode-trans (mode_of a) (mode_of b) (mode_of c) };

    ghost above = { λ a b join fit is. join_above mode_within (mode_of a) (mode_of b) _ (mode_of join) is
        (mode-left (mode_of a) (mode_of b)) (mode-right (mode_of a) (mode_of b)) };

    /// Whether this is the other, or the other is either.
    fn within(&self, other: &ModeBound) -> bool {
        match (self, other) {
            (_, ModeBound::Either)
            | (ModeBound::Off, ModeBound::Off)
            | (ModeBound::On, ModeBound::On) => true,
            (ModeBound::Off, ModeBound::On)
            | (ModeBound::On, ModeBound::Off)
            | (ModeBound::Either, ModeBound::Off | ModeBound::On) => false,
        }
    }

    /// Equal modes stay, others become either.
    fn join(&self, other: &ModeBound) -> ModeBound {
        match (self, other) {
            (ModeBound::Off, ModeBound::Off) => ModeBound::Off,
            (ModeBound::On, ModeBound::On) => ModeBound::On,
            (ModeBound::Either, _)
            | (_, ModeBound::Either)
            | (ModeBound::Off, ModeBound::On)
            | (ModeBound::On, ModeBound::Off) => ModeBound::Either,
        }
    }
}

impl Domain for Interval {
    ghost is_within = { λ a b. interval_within (interval_of a) (interval_of b) };

    ghost IsJoin = { λ a b join. interval_of join ≡ interval_join (interval_of a) (interval_of b) };

    ghost Fit = { λ a b. ⊤ };

    ghost reflexive = { λ a. interval-refl (interval_of a) };

    ghost transitive = { λ a b c. interval-trans (interval_of a) (interval_of b) (interval_of c) };

    ghost above = { λ a b join fit is. join_above interval_within (interval_of a) (interval_of b) _ (interval_of join) is
        (interval-left (interval_of a) (interval_of b)) (interval-right (interval_of a) (interval_of b)) };

    /// Whether each number of this interval is in the other.
    fn within(&self, other: &Interval) -> bool {
        other.low <= self.low && self.high <= other.high
    }

    /// From the lower low end to the higher high end.
    fn join(&self, other: &Interval) -> Interval {
        Interval {
            low: self.low.min(other.low),
            high: self.high.max(other.high),
        }
    }
}

impl Domain for Target {
    ghost is_within = { λ a b. target_within (target_of a) (target_of b) };

    ghost IsJoin = { λ a b join. target_of join ≡ target_join (target_of a) (target_of b) };

    ghost Fit = { λ a b. ⊤ };

    ghost reflexive = { λ a. target-refl (target_of a) };

    ghost transitive = { λ a b c. target-trans (target_of a) (target_of b) (target_of c) };

    ghost above = { λ a b join fit is. join_above target_within (target_of a) (target_of b) _ (target_of join) is
        (target-left (target_of a) (target_of b)) (target-right (target_of a) (target_of b)) };

    /// Whether what a descriptor of this is of the other may be of too: a grant's nodes are among all nodes, an end
    /// is within itself, and all is within unknown.
    fn within(&self, other: &Target) -> bool {
        match other {
            Target::InGrant(name) => self.is_grant(name),
            Target::AnyNode => self.is_node(),
            Target::Socket(class, side) => self.is_end(class, *side),
            Target::Unknown => true,
        }
    }

    /// Equal targets stay, two different ones that are nodes become any node, and all others unknown.
    fn join(&self, other: &Target) -> Target {
        if self.within(other) {
            *other
        } else if self.is_node() && other.is_node() {
            Target::AnyNode
        } else {
            Target::Unknown
        }
    }
}

impl Domain for RightsRange {
    ghost is_within = { λ a b. is_within b.least.0 a.least.0 && is_within a.greatest.0 b.greatest.0 };

    ghost IsJoin = { λ a b join. (join.least.0 ≡ bit_and a.least.0 b.least.0)
        × (join.greatest.0 ≡ bit_or a.greatest.0 b.greatest.0) };

    ghost Fit = { λ a b. ⊤ };

    ghost reflexive = { λ a. range-refl a.least.0 a.greatest.0 };

    ghost transitive = { λ a b c. range-trans a.least.0 a.greatest.0 b.least.0 b.greatest.0 c.least.0 c.greatest.0 };

    ghost above = { λ a b join fit is. (
      range-left a.least.0 a.greatest.0 b.least.0 b.greatest.0 _ _ is.0 is.1,
      range-right a.least.0 a.greatest.0 b.least.0 b.greatest.0 _ _ is.0 is.1,
    ) };

    /// Whether each set of this range is in the other.
    fn within(&self, other: &RightsRange) -> bool {
        self.least.contains(other.least) && other.greatest.contains(self.greatest)
    }

    /// The least sets are intersected, the greatest united.
    fn join(&self, other: &RightsRange) -> RightsRange {
        RightsRange {
            least: self.least.intersection(other.least),
            greatest: self.greatest.union(other.greatest),
        }
    }
}

impl Domain for FcntlsRange {
    ghost is_within = { λ a b. is_within b.least.0 a.least.0 && is_within a.greatest.0 b.greatest.0 };

    ghost IsJoin = { λ a b join. (join.least.0 ≡ bit_and a.least.0 b.least.0)
        × (join.greatest.0 ≡ bit_or a.greatest.0 b.greatest.0) };

    ghost Fit = { λ a b. ⊤ };

    ghost reflexive = { λ a. range-refl a.least.0 a.greatest.0 };

    ghost transitive = { λ a b c. range-trans a.least.0 a.greatest.0 b.least.0 b.greatest.0 c.least.0 c.greatest.0 };

    ghost above = { λ a b join fit is. (
      range-left a.least.0 a.greatest.0 b.least.0 b.greatest.0 _ _ is.0 is.1,
      range-right a.least.0 a.greatest.0 b.least.0 b.greatest.0 _ _ is.0 is.1,
    ) };

    /// Whether each set of this range is in the other.
    fn within(&self, other: &FcntlsRange) -> bool {
        self.least.contains(other.least) && other.greatest.contains(self.greatest)
    }

    /// The least sets are intersected, the greatest united.
    fn join(&self, other: &FcntlsRange) -> FcntlsRange {
        FcntlsRange {
            least: self.least.intersection(other.least),
            greatest: self.greatest.union(other.greatest),
        }
    }
}

impl Domain for Held {
    ghost is_within = { λ a b. held_within (held_of a) (held_of b) };

    ghost IsJoin = { λ a b join. held_of join ≡ held_join (held_of a) (held_of b) };

    ghost Fit = { λ a b. ⊤ };

    ghost reflexive = { λ a. held-refl (held_of a) };

    ghost transitive = { λ a b c. held-trans (held_of a) (held_of b) (held_of c) };

    ghost above = { λ a b join fit is. join_above held_within (held_of a) (held_of b) _ (held_of join) is
        (held-left (held_of a) (held_of b)) (held-right (held_of a) (held_of b)) };

    /// Whether the target is within the other's, and the sets lie between the other's.
    fn within(&self, other: &Held) -> bool {
        self.target.within(&other.target)
            && self.rights.within(&other.rights)
            && self.fcntls.within(&other.fcntls)
    }

    /// Part by part.
    fn join(&self, other: &Held) -> Held {
        Held {
            target: self.target.join(&other.target),
            rights: self.rights.join(&other.rights),
            fcntls: self.fcntls.join(&other.fcntls),
        }
    }
}

impl Domain for Slot {
    ghost is_within = { λ a b. slot_within (slot_of a) (slot_of b) };

    ghost IsJoin = { λ a b join. slot_of join ≡ slot_join (slot_of a) (slot_of b) };

    ghost Fit = { λ a b. ⊤ };

    ghost reflexive = { λ a. slot-refl (slot_of a) };

    ghost transitive = { λ a b c. slot-trans (slot_of a) (slot_of b) (slot_of c) };

    ghost above = { λ a b join fit is. join_above slot_within (slot_of a) (slot_of b) _ (slot_of join) is
        (slot-left (slot_of a) (slot_of b)) (slot-right (slot_of a) (slot_of b)) };

    /// Whether this is the other, with what it holds within what the other holds; and what is closed or
    /// open may be open or closed.
    fn within(&self, other: &Slot) -> bool {
        match (self, other) {
            (Slot::Closed, Slot::Closed | Slot::Maybe(_)) => true,
            (Slot::Open(held), Slot::Open(most) | Slot::Maybe(most))
            | (Slot::Maybe(held), Slot::Maybe(most)) => held.within(most),
            (Slot::Closed, Slot::Open(_))
            | (Slot::Open(_), Slot::Closed)
            | (Slot::Maybe(_), Slot::Closed | Slot::Open(_)) => false,
        }
    }

    /// Equal presences stay, others become maybe; beside a closed slot the other's content counts.
    fn join(&self, other: &Slot) -> Slot {
        match (self, other) {
            (Slot::Closed, Slot::Closed) => Slot::Closed,
            (Slot::Closed, Slot::Open(held) | Slot::Maybe(held))
            | (Slot::Open(held) | Slot::Maybe(held), Slot::Closed) => Slot::Maybe(*held),
            (Slot::Open(held), Slot::Open(also)) => Slot::Open(held.join(also)),
            (Slot::Open(held), Slot::Maybe(also))
            | (Slot::Maybe(held), Slot::Open(also) | Slot::Maybe(also)) => {
                Slot::Maybe(held.join(also))
            }
        }
    }
}

/// What one side sends, if it sends descriptors at all.
impl Domain for Option<Held> {
    ghost is_within = { λ a b. sends_within (option_map held_of a) (option_map held_of b) };

    ghost IsJoin = { λ a b join. option_map held_of join
        ≡ sends_join (option_map held_of a) (option_map held_of b) };

    ghost Fit = { λ a b. ⊤ };

    ghost reflexive = { λ a. sends-refl (option_map held_of a) };

    ghost transitive = { λ a b c. sends-trans (option_map held_of a) (option_map held_of b) (option_map held_of c) };

    ghost above = { λ a b join fit is. join_above sends_within (option_map held_of a) (option_map held_of b) _ (option_map held_of join) is
        (sends-left (option_map held_of a) (option_map held_of b)) (sends-right (option_map held_of a) (option_map held_of b)) };

    /// Whether no descriptor is sent here, or only such as are within those that are sent there.
    fn within(&self, other: &Option<Held>) -> bool {
        match (self, other) {
            (None, _) => true,
            (Some(_), None) => false,
            (Some(held), Some(most)) => held.within(most),
        }
    }

    /// Beside no descriptor the other's count.
    fn join(&self, other: &Option<Held>) -> Option<Held> {
        match (self, other) {
            (None, _) => *other,
            (Some(_), None) => *self,
            (Some(held), Some(also)) => Some(held.join(also)),
        }
    }
}

/// Whether each interval is within the one at its place.
fn intervals_within(left: &[Interval], right: &[Interval]) -> bool
    ensures { result ≡ each_within interval_within (map interval_of left.now) (map interval_of right.now) }
{
    match left {
        [] => right.is_empty(),
        [x, lefts @ ..] => match right {
            [] => false,
            [y, rights @ ..] => x.within(y) && intervals_within(lefts, rights),
        },
    }
}

/// Whether each slot is within the one at its place.
pub fn slots_within(left: &[Slot], right: &[Slot]) -> bool
    ensures { result ≡ each_within slot_within (map slot_of left.now) (map slot_of right.now) }
{
    match left {
        [] => right.is_empty(),
        [x, lefts @ ..] => match right {
            [] => false,
            [y, rights @ ..] => x.within(y) && slots_within(lefts, rights),
        },
    }
}

/// Joins to each interval the one at its place.
fn join_intervals(intervals: &mut [Interval], others: &[Interval])
    requires { length intervals.old ≡ length others.now }
    ensures { map interval_of intervals.new
        ≡ each_join interval_join (map interval_of intervals.old) (map interval_of others.now) }
{
    let mut at = 0;
    while at < others.len() {
        intervals[at] = intervals[at].join(&others[at]);
        at += 1;
    }
}

/// Joins to each slot the one at its place.
fn join_slots(slots: &mut [Slot], others: &[Slot])
    requires { length slots.old ≡ length others.now }
    ensures { map slot_of slots.new
        ≡ each_join slot_join (map slot_of slots.old) (map slot_of others.now) }
{
    let mut at = 0;
    while at < others.len() {
        slots[at] = slots[at].join(&others[at]);
        at += 1;
    }
}

impl Domain for [Interval; REGISTERS] {
    ghost is_within = { λ a b. each_within interval_within (map interval_of a) (map interval_of b) };

    ghost IsJoin = { λ a b join. map interval_of join
        ≡ each_join interval_join (map interval_of a) (map interval_of b) };

    ghost Fit = { λ a b. length (map interval_of a) ≡ length (map interval_of b) };

    ghost reflexive = { λ a. each-refl interval_within interval-refl (map interval_of a) };

    ghost transitive = { λ a b c. each-trans interval_within interval-trans (map interval_of a) (map interval_of b)
        (map interval_of c) };

    ghost above = { λ a b join fit is. join_above (each_within interval_within) (map interval_of a) (map interval_of b) _
        (map interval_of join) is
        (each-left interval_within interval_join interval-left (map interval_of a) (map interval_of b) fit)
        (each-right interval_within interval_join interval-right (map interval_of a) (map interval_of b) fit) };

    /// Whether each register's interval is within the other's.
    fn within(&self, other: &[Interval; REGISTERS]) -> bool {
        intervals_within(self, other)
    }

    /// Register by register.
    fn join(&self, other: &[Interval; REGISTERS]) -> [Interval; REGISTERS] {
        let mut joined = *self;
        join_intervals(&mut joined, other);
        joined
    }
}

impl Domain for [Slot; MAX_DESCRIPTORS] {
    ghost is_within = { λ a b. each_within slot_within (map slot_of a) (map slot_of b) };

    ghost IsJoin = { λ a b join. map slot_of join ≡ each_join slot_join (map slot_of a) (map slot_of b) };

    ghost Fit = { λ a b. length (map slot_of a) ≡ length (map slot_of b) };

    ghost reflexive = { λ a. each-refl slot_within slot-refl (map slot_of a) };

    ghost transitive = { λ a b c. each-trans slot_within slot-trans (map slot_of a) (map slot_of b) (map slot_of c) };

    ghost above = { λ a b join fit is. join_above (each_within slot_within) (map slot_of a) (map slot_of b) _
        (map slot_of join) is
        (each-left slot_within slot_join slot-left (map slot_of a) (map slot_of b) fit)
        (each-right slot_within slot_join slot-right (map slot_of a) (map slot_of b) fit) };

    /// Whether each slot is within the other's.
    fn within(&self, other: &[Slot; MAX_DESCRIPTORS]) -> bool {
        slots_within(self, other)
    }

    /// Slot by slot.
    fn join(&self, other: &[Slot; MAX_DESCRIPTORS]) -> [Slot; MAX_DESCRIPTORS] {
        let mut joined = *self;
        join_slots(&mut joined, other);
        joined
    }
}

impl Domain for Bound {
    ghost is_within = { λ a b. bound_within (bound_of a) (bound_of b) };

    ghost IsJoin = { λ a b join. bound_of join ≡ bound_join (bound_of a) (bound_of b) };

    ghost Fit = { λ a b. (length (bound_of a).registers ≡ length (bound_of b).registers)
        × (length (bound_of a).slots ≡ length (bound_of b).slots) };

    ghost reflexive = { λ a. bound-refl (bound_of a) };

    ghost transitive = { λ a b c. bound-trans (bound_of a) (bound_of b) (bound_of c) };

    ghost above = { λ a b join fit is. join_above bound_within (bound_of a) (bound_of b) _ (bound_of join) is
        (bound-left (bound_of a) (bound_of b) fit.0 fit.1) (bound-right (bound_of a) (bound_of b) fit.0 fit.1) };

    /// Whether the mode, each register and each slot is within the other's.
    fn within(&self, other: &Bound) -> bool {
        self.mode.within(&other.mode)
            && self.registers.within(&other.registers)
            && self.slots.within(&other.slots)
    }

    /// Mode, registers and slots, each joined.
    fn join(&self, other: &Bound) -> Bound {
        let mut joined = *self;
        joined.mode = self.mode.join(&other.mode);
        join_intervals(&mut joined.registers, &other.registers);
        join_slots(&mut joined.slots, &other.slots);
        joined
    }
}

impl Bound {
    ghost use Rattle.certificate.specs.Bounds.{with_interval};

    /// Whether the bound with a register in another interval is within the other. Copies no slot.
    pub fn within_with_interval(&self, register: u8, interval: Interval, other: &Bound) -> bool
        ensures { result ≡ bound_within
            (with_interval (bound_of self.now) register (interval_of interval)) (bound_of other.now) }
    {
        self.mode.within(&other.mode)
            && self.registers_within(register, interval, other)
            && self.slots.within(&other.slots)
    }

    /// Whether each register is within the other's, one of them in another interval.
    pub fn registers_within(&self, register: u8, interval: Interval, other: &Bound) -> bool
        ensures { result ≡ each_within interval_within
            (with_interval (bound_of self.now) register (interval_of interval)).registers (bound_of other.now).registers }
    {
        self.registers_with(register, interval)
            .within(&other.registers)
    }
}
