//! Certificates.

ghost use Rattle.std.specs.Prelude.{◌≡◌, option_map, true};
ghost use Rattle.certificate.specs.Bounds.{bound_in};
ghost use Rattle.certificate.specs.Rising.{places_of, rises};
ghost use Rattle.certificate.specs.Views.{point_of, points_of};

use crate::authorities::Authority;
use crate::bounds::Bound;
use crate::classes::compare_point;
use crate::growth::{add_programs, classes_with, extend, has_room, stands};
use crate::lines::{Channel, Line, Refusal};
use crate::points::Point;
use crate::program_names::ProgramNames;
use std::alloc::Global;
use std::cmp::Ordering;
use std::marker::Model;

/// What a certificate leaves to be carried along, whether programs have authorities, and whether it says of further rights which
/// of them a descriptor has. (own)
#[derive(Clone, Copy, PartialEq, Eq)]
pub enum Version {
    /// Nothing: each bound is written.
    One,
    /// Bounds between points where ways meet.
    Two,
    /// The same; and programs have authorities.
    Three,
    /// The same; and of further rights it says which of them a descriptor has. In the versions before it nothing is said of them: a
    /// descriptor may have any of them or none.
    Four,
}

impl Version {
    ghost use Rattle.certificate.specs.Bounds.{has_authorities, tells_further};
    ghost use Rattle.certificate.specs.Views.{version_of};

    /// Whether programs have authorities in it.
    pub fn has_authorities(self) -> bool
        ensures { result ≡ has_authorities (version_of self) }
    {
        match self {
            Version::One | Version::Two => false,
            Version::Three | Version::Four => true,
        }
    }

    /// Whether it says of further rights which of them a descriptor has.
    pub fn tells_further(self) -> bool
        ensures { result ≡ tells_further (version_of self) }
    {
        match self {
            Version::One | Version::Two | Version::Three => false,
            Version::Four => true,
        }
    }
}

/// A certificate, valid by construction: it is what lines make of nothing, each taken in its place and within the limits. A
/// point that is not listed is claimed not to be reached. (own)
#[derive(Drop)]
pub struct Cert {
    version: Version,
    points: Vec<Point>,
    channels: Vec<Channel>,
    authorities: Vec<Authority>,
    programs: ProgramNames,
    classes: usize,
}

impl Model for Cert {
    ghost use Rattle.certificate.specs.Bounds.{Certificate};

    ghost Value = { Certificate };

    ghost use Rattle.std.specs.Prelude.{◌≡◌, length};
    ghost use Rattle.std.specs.Str.{bytes_eq};
    ghost use Rattle.certificate.specs.Order.{same_class};
    ghost use Rattle.certificate.specs.Growth.{IsCertificate, classes_of, distinct, programs_named};
    ghost use Rattle.certificate.specs.Views.{certificate_with, version_of};
    ghost use Rattle.certificate.specs.CountViews.{programs_listed};

    ghost view = { λ c. certificate_with (version_of c.version) c.points.items c.channels.items c.authorities.items };

    ghost invariant = { λ c.
        let certificate = certificate_with (version_of c.version) c.points.items c.channels.items c.authorities.items in
        IsCertificate certificate × (programs_listed c.programs ≡ distinct bytes_eq (programs_named certificate))
        × (c.classes ≡ length (distinct same_class (classes_of certificate))) };
}

/// The point of this number in the program of this name, among some that rise, by halving them.
fn point_among<'a>(points: &'a [Point], program: &[u8], point: usize) -> Option<&'a Point>
    requires { rises (places_of (points_of points.now)) ≡ true }
    ensures { option_map (λ found. (point_of found.now).bound) result ≡ bound_in (points_of points.now) program.now point }
{
    if points.is_empty() {
        return None;
    }
    let middle = points.len() / 2;
    let found = &points[middle];
    match compare_point(&found.program, found.point, program, point) {
        Ordering::Less => point_among(&points[middle + 1..], program, point),
        Ordering::Equal => Some(found),
        Ordering::Greater => point_among(&points[..middle], program, point),
    }
}

impl Cert {
    ghost use Rattle.std.specs.Prelude.{◌≡◌, is_some, option_map, true};
    ghost use Rattle.certificate.specs.Bounds.{bound_at};
    ghost use Rattle.certificate.specs.Lines.{is_line, is_of_version};
    ghost use Rattle.certificate.specs.Growth.{IsCertificate, empty, taken};
    ghost use Rattle.certificate.specs.GrowthViews.{LineTaken};
    ghost use Rattle.certificate.specs.Views.{authorities_of, bound_of, channels_of, line_of, point_of, points_of, version_of};

    /// The certificate of this version without lines. Takes no memory.
    pub fn new(alloc: Global, version: Version) -> Cert
        ensures { result ≡ empty (version_of version) }
    {
        Cert {
            version,
            points: Vec::new(alloc),
            channels: Vec::new(alloc),
            authorities: Vec::new(alloc),
            programs: ProgramNames::new(),
            classes: 0,
        }
    }

    /// Takes a line; the version stays. Where the line is refused the certificate stays as it was: `Limit` comes before `Order`,
    /// and `Memory` last.
    pub fn push(&mut self, line: &Line) -> Result<(), Refusal>
        requires line { is_line (line_of line.now) ≡ true }
        requires version { is_of_version self.old.version (line_of line.now) ≡ true }
        ensures taken { LineTaken result self.old self.new (taken self.old (line_of line.now)) }
        ensures version { self.new.version ≡ self.old.version }
    {
        if !has_room(&self.programs, line) {
            return Err(Refusal::Limit);
        }
        let channels: &[Channel] = &self.channels;
        let authorities: &[Authority] = &self.authorities;
        let Some(classes) = classes_with(self.classes, channels, authorities, line) else {
            return Err(Refusal::Limit);
        };
        if !stands(&self.points, channels, authorities, line) {
            return Err(Refusal::Order);
        }
        match extend(
            &mut self.points,
            &mut self.channels,
            &mut self.authorities,
            line,
        ) {
            Ok(()) => {
                add_programs(&mut self.programs, line);
                self.classes = classes;
                Ok(())
            }
            Err(refusal) => Err(refusal),
        }
    }

    /// Its version.
    pub fn version(&self) -> Version
        ensures { version_of result ≡ self.now.version }
    {
        self.version
    }

    /// Its points, rising. Who asks for them learns that it is a certificate.
    pub fn points(&self) -> &[Point]
        ensures points { points_of result.now ≡ self.now.points }
        ensures valid { IsCertificate self.now }
    {
        &self.points
    }

    /// Its channels, rising. Who asks for them learns that it is a certificate.
    pub fn channels(&self) -> &[Channel]
        ensures channels { channels_of result.now ≡ self.now.channels }
        ensures valid { IsCertificate self.now }
    {
        &self.channels
    }

    /// Its authorities, rising; there are none in versions 1 and 2. Who asks for them learns that it is a certificate.
    pub fn authorities(&self) -> &[Authority]
        ensures authorities { authorities_of result.now ≡ self.now.authorities }
        ensures valid { IsCertificate self.now }
    {
        &self.authorities
    }

    /// The point of this number in the program of this name, if it is listed.
    pub fn point_at(&self, program: &[u8], point: usize) -> Option<&Point>
        ensures { option_map (λ found. (point_of found.now).bound) result ≡ bound_at self.now program.now point }
    {
        point_among(&self.points, program, point)
    }

    /// The bound of a point of the program of this name, if it has one.
    pub fn bound_at(&self, program: &[u8], point: usize) -> Option<Bound>
        ensures { option_map bound_of result ≡ bound_at self.now program.now point }
    {
        match self.point_at(program, point) {
            None => None,
            Some(found) => Some(found.bound()),
        }
    }

    /// Whether a point of the program of this name has a bound.
    pub fn has_bound(&self, program: &[u8], point: usize) -> bool
        ensures { result ≡ is_some (bound_at self.now program.now point) }
    {
        self.point_at(program, point).is_some()
    }
}
