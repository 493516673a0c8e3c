//! Classes of socket pairs, as a certificate names them.

ghost use Rattle.std.specs.Prelude.{◌≡◌, ◌==◌, ◌<◌};
ghost use Rattle.certificate.specs.Growth.{point_order};
ghost use Rattle.texts.specs.Views.{name_of};

use std::cmp::Ordering;
use texts::Name;

/// The number of an initial pair, of which a task may have 32. (own)
#[derive(Clone, Copy)]
pub struct Pair {
    pub(crate) number: u8,
    pub ghost few: { number < 32 },
}

/// Where a socket pair was made. (own)
#[derive(Clone, Copy)]
pub enum Class {
    /// An initial pair, by its number.
    Initial(Pair),
    /// A point of the program of this name.
    MadeAt(Name, u8),
}

/// How a point of the program of a name stands to a point of another: by name and then by point.
pub(crate) fn compare_point(program: &Name, point: u8, than: &[u8], at: usize) -> Ordering
    ensures { result ≡ point_order (name_of program.now) point than.now at }
{
    program.as_bytes().cmp(than).then((point as usize).cmp(&at))
}

impl Pair {
    /// The initial pair of this number.
    pub fn new(number: u8) -> Pair
        requires { number < 32 }
        ensures { result.number ≡ number }
    {
        Pair { number }
    }

    /// Its number, below 32.
    pub fn number(self) -> u8
        ensures { result ≡ self.number }
    {
        self.number
    }
}

impl Class {
    ghost use Rattle.certificate.specs.Growth.{class_order};
    ghost use Rattle.certificate.specs.Order.{same_class};
    ghost use Rattle.certificate.specs.Views.{class_of};

    /// Whether it is the same class.
    pub fn is(&self, other: &Class) -> bool
        ensures { result ≡ same_class (class_of self.now) (class_of other.now) }
    {
        match (self, other) {
            (Class::Initial(pair), Class::Initial(same)) => pair.number == same.number,
            (Class::MadeAt(program, point), Class::MadeAt(same, at)) => {
                program.as_bytes() == same.as_bytes() && point == at
            }
            (Class::Initial(_), Class::MadeAt(..)) | (Class::MadeAt(..), Class::Initial(_)) => {
                false
            }
        }
    }

    /// How it stands to another: initial pairs by number, and then the points of programs.
    pub(crate) fn compare(&self, other: &Class) -> Ordering
        ensures { result ≡ class_order (class_of self.now) (class_of other.now) }
    {
        match (self, other) {
            (Class::Initial(pair), Class::Initial(than)) => pair.number.cmp(&than.number),
            (Class::Initial(_), Class::MadeAt(..)) => Ordering::Less,
            (Class::MadeAt(..), Class::Initial(_)) => Ordering::Greater,
            (Class::MadeAt(program, point), Class::MadeAt(than, at)) => {
                compare_point(program, *point, than.as_bytes(), *at as usize)
            }
        }
    }
}
