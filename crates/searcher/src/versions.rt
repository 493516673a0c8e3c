//! The versions of the certificates that the search gives.

ghost use Rattle.std.specs.Prelude.{◌≡◌, true};
ghost use Rattle.certificate.specs.Bounds.{has_authorities};
ghost use Rattle.certificate.specs.Views.{version_of};
ghost use Rattle.searcher.specs.Versions.{flat_version, marked_version};

use certificate::Version;
use task::Task;

/// The version for a task in which no program is marked: 4 where it asks for further rights, else 2.
pub(crate) fn flat_version(task: &Task) -> Version
    ensures { version_of result ≡ flat_version task.now }
{
    if task.further_rights() {
        Version::Four
    } else {
        Version::Two
    }
}

/// The version for a task in which some program is: it has authorities, in 4 where it asks for further rights, else in 3.
#[tactic(auto, using(crate::proofs::VersionLaws::marked_has))]
pub(crate) fn marked_version(task: &Task) -> Version
    ensures version { version_of result ≡ marked_version task.now }
    ensures authorities { has_authorities (version_of result) ≡ true }
{
    if task.further_rights() {
        Version::Four
    } else {
        Version::Three
    }
}
