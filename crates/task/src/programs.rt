//! The programs of a task.

ghost use Rattle.std.specs.Prelude.{◌≡◌, not};
ghost use Rattle.std.specs.List.{list_all};
ghost use Rattle.task.specs.Plans.{NamedProgram as NamedProgramSeen, is_marked};
ghost use Rattle.task.specs.Views.{programs_of};

use instruction_set::Program;
use texts::Name;

/// A program, and its name.
#[derive(Drop)]
pub struct NamedProgram {
    pub name: Name,
    pub program: Program,
    /// Whether it is marked: an attacker may have it execute anything once it is in capability mode. (own)
    pub untrusted: bool,
}

/// Whether the program of this name is marked. (own)
pub fn is_marked(programs: &[NamedProgram], name: &[u8]) -> bool
    ensures { result ≡ is_marked (programs_of programs.now) name.now }
{
    match programs {
        [] => false,
        [first, rest @ ..] => {
            (first.untrusted && first.name.as_bytes() == name) || is_marked(rest, name)
        }
    }
}

/// Whether none of these is marked. (own)
pub fn none_marked(programs: &[NamedProgram]) -> bool
    ensures { result ≡ list_all (λ (p : NamedProgramSeen). not p.marked) (programs_of programs.now) }
{
    match programs {
        [] => true,
        [first, rest @ ..] => !first.untrusted && none_marked(rest),
    }
}
