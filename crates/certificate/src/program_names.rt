//! The programs that a certificate names.

ghost use Rattle.std.specs.Prelude.{◌≡◌, ◌∷◌, [], ◌≤◌, length, option_map, take};
ghost use Rattle.std.specs.List.{list_any};
ghost use Rattle.std.specs.Str.{bytes_eq};
ghost use Rattle.rights.specs.Limits.{most_programs};
ghost use Rattle.certificate.specs.Room.{listed_with};
ghost use Rattle.certificate.specs.GrowthViews.{names_there};
ghost use Rattle.texts.specs.Views.{name_of};

use rights::limits::MAX_PROGRAMS;
use texts::Name;

/// Up to eight different names of programs, without memory of their own. (own)
#[derive(Clone, Copy)]
pub(crate) struct ProgramNames {
    count: usize,
    names: [Option<Name>; MAX_PROGRAMS],
    pub ghost few: { count ≤ 8 },
    pub ghost filled: { length (names_there (take count names)) ≡ count },
}

/// Whether this name is there.
fn is_there(place: &Option<Name>, name: &[u8]) -> bool
    ensures { result ≡ list_any (λ y. bytes_eq y name.now) (names_there (place.now ∷ [])) }
{
    match place {
        Some(known) => known.as_bytes() == name,
        None => false,
    }
}

/// Whether this name is among those.
fn is_among(names: &[Option<Name>], name: &[u8]) -> bool
    ensures { result ≡ list_any (λ y. bytes_eq y name.now) (names_there names.now) }
{
    match names {
        [] => false,
        [first, rest @ ..] => is_there(first, name) || is_among(rest, name),
    }
}

impl ProgramNames {
    ghost use Rattle.certificate.specs.CountViews.{programs_listed};

    /// No names.
    pub(crate) fn new() -> ProgramNames
        ensures { programs_listed result ≡ [] }
    {
        ProgramNames {
            count: 0,
            names: [None; MAX_PROGRAMS],
        }
    }

    /// The same names and this one, if they are no more than eight.
    pub(crate) fn with(&self, name: &Name) -> Option<ProgramNames>
        ensures { option_map programs_listed result
            ≡ listed_with bytes_eq most_programs (programs_listed self.now) (name_of name.now ∷ []) }
    {
        if is_among(&self.names[..self.count], name.as_bytes()) {
            return Some(*self);
        }
        if self.count == MAX_PROGRAMS {
            return None;
        }
        let mut names = self.names;
        names[self.count] = Some(*name);
        Some(ProgramNames {
            count: self.count + 1,
            names,
        })
    }
}
