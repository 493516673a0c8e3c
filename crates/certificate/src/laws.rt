//! Laws of bounds and certificates. Each is the contract of a function that does nothing.

ghost use Rattle.std.specs.Prelude.{◌≡◌, true, length, Bool, ℕ, List, Ok, Option};
ghost use Rattle.certificate.specs.Bounds.{Bound, Certificate, Held, Interval, Slot};
ghost use Rattle.certificate.specs.Growth.{IsCertificate, taken};
ghost use Rattle.certificate.specs.Growths.{IsGrown};
ghost use Rattle.certificate.specs.Joins.{bound_join};
ghost use Rattle.certificate.specs.Lines.{Line};
ghost use Rattle.certificate.specs.Order.{bound_within, interval_within, sends_within, slot_within};
ghost use Rattle.certificate.specs.Describes.{Holds, Seen, describes, interval_describes, sends_describes, slot_describes};

/// What a bound within another describes, the other describes too, whatever the policy.
pub fn within_describes_no_more()
    ensures { (holds : Holds) (a b : Bound) (on : Bool) (values : List ℕ) (table : ℕ → Option Seen)
        → bound_within a b ≡ true → describes holds a on values table ≡ true
        → describes holds b on values table ≡ true }
{}

/// So it is with intervals, with slots, and with what channels send.
pub fn parts_within_describe_no_more()
    ensures intervals { (a b : Interval) (value : ℕ) → interval_within a b ≡ true
        → interval_describes a value ≡ true → interval_describes b value ≡ true }
    ensures slots { (holds : Holds) (a b : Slot) (seen : Option Seen) → slot_within a b ≡ true
        → slot_describes holds a seen ≡ true → slot_describes holds b seen ≡ true }
    ensures channels { (holds : Holds) (a b : Option Held) (seen : Seen) → sends_within a b ≡ true
        → sends_describes holds a seen ≡ true → sends_describes holds b seen ≡ true }
{}

/// What a line makes of a certificate has its version.
pub fn lines_keep_the_version()
    ensures { (c d : Certificate) (line : Line) → taken c line ≡ Ok d → d.version ≡ c.version }
{}

/// A certificate is what its own lines make of nothing.
pub fn its_lines_make_a_certificate()
    ensures { (c : Certificate) → IsCertificate c → IsGrown c }
{}

/// The order of bounds is reflexive and transitive, and the join of two with rows of one length is above both.
pub fn bounds_are_a_domain()
    ensures reflexive { (a : Bound) → bound_within a a ≡ true }
    ensures transitive { (a b c : Bound) → bound_within a b ≡ true → bound_within b c ≡ true
        → bound_within a c ≡ true }
    ensures above { (a b : Bound) → length a.registers ≡ length b.registers → length a.slots ≡ length b.slots
        → (bound_within a (bound_join a b) ≡ true) × (bound_within b (bound_join a b) ≡ true) }
{}
