//! What programs may hold whatever they do.

ghost use Rattle.std.specs.Prelude.{◌≡◌, map, true};
ghost use Rattle.certificate.specs.Lines.{is_ceiling};

use crate::classes::Class;
use crate::lines::{Refusal, add};
use rights::{Rights, Side};
use std::alloc::Global;
use std::cmp::Ordering;
use texts::Name;

/// The most rights that a program's descriptors of nodes in a grant may have; there are some. (own)
#[derive(Clone, Copy)]
pub struct Ceiling {
    pub(crate) grant: Name,
    pub(crate) rights: Rights,
    pub ghost some: { is_ceiling rights.0 ≡ true },
}

/// One side of the socket pairs of a class. (own)
#[derive(Clone, Copy)]
pub struct End {
    pub(crate) class: Class,
    pub(crate) side: Side,
}

/// What the program of a name may hold whatever it does: nodes in some grants, with rights up to their ceilings, and some ends of
/// socket pairs. (own)
#[derive(Drop)]
pub struct Authority {
    pub(crate) program: Name,
    pub(crate) ceilings: Vec<Ceiling>,
    pub(crate) holds: Vec<End>,
}

impl Ceiling {
    ghost use Rattle.certificate.specs.Views.{ceiling_of};
    ghost use Rattle.texts.specs.Views.{name_of};

    /// These rights as the ceiling of the grant of this name.
    pub fn new(grant: Name, rights: Rights) -> Ceiling
        requires { is_ceiling rights.0 ≡ true }
        ensures { ceiling_of result ≡ record { grant = name_of grant; rights = rights.0 } }
    {
        Ceiling { grant, rights }
    }

    /// The name of its grant.
    pub fn grant(&self) -> &Name
        ensures { name_of result.now ≡ (ceiling_of self.now).grant }
    {
        &self.grant
    }

    /// The most rights.
    pub fn rights(&self) -> Rights
        ensures { result.0 ≡ (ceiling_of self.now).rights }
    {
        self.rights
    }
}

impl End {
    ghost use Rattle.certificate.specs.Growth.{end_order};
    ghost use Rattle.rights.specs.Sides.{other_side};
    ghost use Rattle.rights.specs.Views.{side_seen};
    ghost use Rattle.certificate.specs.Views.{class_of, held_end_of};

    /// This side of the pairs of this class.
    pub fn new(class: Class, side: Side) -> End
        ensures { held_end_of result ≡ record { class = class_of class; side = side_seen side } }
    {
        End { class, side }
    }

    /// The class of its pairs.
    pub fn class(&self) -> Class
        ensures { class_of result ≡ (held_end_of self.now).class }
    {
        self.class
    }

    /// The side of them.
    pub fn side(&self) -> Side
        ensures { side_seen result ≡ (held_end_of self.now).side }
    {
        self.side
    }

    /// The other end of its pairs.
    pub fn other(&self) -> End
        ensures { held_end_of result ≡ record (held_end_of self.now) { side = other_side (held_end_of self.now).side } }
    {
        End {
            class: self.class,
            side: self.side.other(),
        }
    }

    /// How it stands to another: by class and then by side.
    pub fn compare(&self, other: &End) -> Ordering
        ensures { result ≡ end_order (held_end_of self.now) (held_end_of other.now) }
    {
        self.class
            .compare(&other.class)
            .then(self.side.compare(other.side))
    }
}

impl Authority {
    ghost use Rattle.std.specs.Prelude.{IfErr, OnErr, OnOk};
    ghost use Rattle.certificate.specs.Growth.{open_authority, with_ceiling, with_held_end};
    ghost use Rattle.certificate.specs.Views.{authority_of, ceiling_of, held_end_of};
    ghost use Rattle.texts.specs.Views.{name_of};
    ghost use Rattle.certificate.specs.declared.lines.Refusal.TheVariants as refusal;

    /// The authority with which a program's lines begin: it holds nothing. Takes no memory.
    pub(crate) fn begins(alloc: Global, program: Name) -> Authority
        ensures { authority_of result ≡ open_authority (name_of program) }
    {
        Authority {
            program,
            ceilings: Vec::new(alloc),
            holds: Vec::new(alloc),
        }
    }

    /// Adds a ceiling. A refused growth changes nothing.
    pub(crate) fn bound_grant(&mut self, ceiling: Ceiling) -> Result<(), Refusal>
        ensures ok { OnOk result (authority_of self.new ≡ with_ceiling (ceiling_of ceiling) (authority_of self.old)) }
        ensures err { OnErr result (authority_of self.new ≡ authority_of self.old) }
        ensures memory { IfErr result (λ reason. reason ≡ refusal.Memory) }
    {
        add(&mut self.ceilings, ceiling)
    }

    /// Adds an end. A refused growth changes nothing.
    pub(crate) fn hold_end(&mut self, held: End) -> Result<(), Refusal>
        ensures ok { OnOk result (authority_of self.new ≡ with_held_end (held_end_of held) (authority_of self.old)) }
        ensures err { OnErr result (authority_of self.new ≡ authority_of self.old) }
        ensures memory { IfErr result (λ reason. reason ≡ refusal.Memory) }
    {
        add(&mut self.holds, held)
    }

    /// The name of its program.
    pub fn program(&self) -> &Name
        ensures { name_of result.now ≡ (authority_of self.now).program }
    {
        &self.program
    }

    /// The most rights in each grant in which it may hold nodes, rising by the grants' names.
    pub fn ceilings(&self) -> &[Ceiling]
        ensures { map ceiling_of result.now ≡ (authority_of self.now).ceilings }
    {
        &self.ceilings
    }

    /// The ends that it may hold, rising.
    pub fn holds(&self) -> &[End]
        ensures { map held_end_of result.now ≡ (authority_of self.now).holds }
    {
        &self.holds
    }
}
