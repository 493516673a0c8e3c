//! What instructions make of the intervals of registers.

ghost use Rattle.std.specs.Prelude.{◌≡◌, option_map};
ghost use Rattle.certificate.specs.Views.{interval_of};
ghost use Rattle.rules.specs.Intervals.{equal_part, lower_part, only, other_part, sums, upper_part};

use certificate::Interval;

/// One value alone.
pub fn only(value: u32) -> Interval
    ensures { interval_of result ≡ only value }
{
    Interval::new(value, value)
}

/// The sums of two values; all values, if a register can't hold the ends.
pub fn sums(left: Interval, right: Interval) -> Interval
    ensures { interval_of result ≡ sums (interval_of left) (interval_of right) }
{
    match (
        left.low().checked_add(right.low()),
        left.high().checked_add(right.high()),
    ) {
        (Some(low), Some(high)) => Interval::new(low, high),
        _ => Interval::FULL,
    }
}

/// The value, if the interval has it.
pub fn equal_part(interval: Interval, value: u32) -> Option<Interval>
    ensures { option_map interval_of result ≡ equal_part (interval_of interval) value }
{
    if interval.low() <= value && value <= interval.high() {
        return Some(only(value));
    }
    None
}

/// The interval without the value at one of its ends, if it has another.
pub fn other_part(interval: Interval, value: u32) -> Option<Interval>
    ensures { option_map interval_of result ≡ other_part (interval_of interval) value }
{
    let (low, high) = (interval.low(), interval.high());
    if low < value || value < high {
        if low == value {
            return Some(Interval::new(low + 1, high));
        }
        if high == value {
            return Some(Interval::new(low, high - 1));
        }
        return Some(interval);
    }
    None
}

/// What is less than the value, if the interval has such a value.
pub fn lower_part(interval: Interval, value: u32) -> Option<Interval>
    ensures { option_map interval_of result ≡ lower_part (interval_of interval) value }
{
    if interval.low() < value {
        return Some(Interval::new(interval.low(), interval.high().min(value - 1)));
    }
    None
}

/// What isn't less than the value, if the interval has such a value.
pub fn upper_part(interval: Interval, value: u32) -> Option<Interval>
    ensures { option_map interval_of result ≡ upper_part (interval_of interval) value }
{
    if value <= interval.high() {
        return Some(Interval::new(interval.low().max(value), interval.high()));
    }
    None
}
