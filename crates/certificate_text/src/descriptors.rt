//! What the words of a line say of a descriptor.

ghost use Rattle.std.specs.Prelude.{◌≡◌, ◌∷◌, option_map};
ghost use Rattle.std.specs.Result.{result_map_both};
ghost use Rattle.certificate.specs.Views.{held_of, slot_of, target_of, version_of};
ghost use Rattle.certificate_text.specs.Views.{fault_of};
ghost use Rattle.certificate_text.specs.Words.{class_of_word, grant_behind, held_behind, held_of_words, sends_of_words, side_of_word, slot_of_words, socket_behind};
ghost use Rattle.certificate.specs.Bounds.{Socket};
ghost use Rattle.certificate_text.specs.Faults.{both, formed};

use crate::faults::LineFault;
use crate::keywords::Keyword;
use crate::taking::{is_word, next_four, next_two, next_word};
use crate::words::{read_class, read_fcntls, read_further, read_name, read_rights, read_side};
use certificate::{Held, Slot, Target, Version};
use texts::Words;

/// The sets behind what a descriptor is of, and nothing more.
fn read_sets(
    version: Version,
    target: Result<Target, LineFault>,
    mut words: Words<'_>,
) -> Result<Held, LineFault>
    ensures { result_map_both held_of fault_of result
        ≡ held_behind (version_of version) (result_map_both target_of fault_of target) words.entry }
{
    let Some((rights, fcntls)) = next_four(&mut words) else {
        return Err(LineFault::Syntax);
    };
    let rights = read_rights(rights.0, rights.1, read_further(version, words))?;
    let fcntls = read_fcntls(fcntls.0, fcntls.1)?;
    Ok(Held::new(target?, rights, fcntls))
}

/// What is said of a descriptor of a grant's node.
fn read_grant(version: Version, mut words: Words<'_>) -> Result<Held, LineFault>
    ensures { result_map_both held_of fault_of result ≡ grant_behind (version_of version) words.entry }
{
    let name = next_word(&mut words)?;
    let target = match read_name(name) {
        Ok(name) => Ok(Target::InGrant(name)),
        Err(fault) => Err(fault),
    };
    read_sets(version, target, words)
}

/// The end of a pair that two words name.
fn read_end(class: &[u8], side: &[u8]) -> Result<Target, LineFault>
    ensures { result_map_both target_of fault_of result
        ≡ both Socket (class_of_word class.now) (formed (side_of_word side.now)) }
{
    let Some(side) = read_side(side) else {
        return Err(LineFault::Syntax);
    };
    let class = read_class(class)?;
    Ok(Target::Socket(class, side))
}

/// What is said of a descriptor of a socket.
fn read_socket(version: Version, mut words: Words<'_>) -> Result<Held, LineFault>
    ensures { result_map_both held_of fault_of result ≡ socket_behind (version_of version) words.entry }
{
    let Some((class, side)) = next_two(&mut words) else {
        return Err(LineFault::Syntax);
    };
    read_sets(version, read_end(class, side), words)
}

/// What is said of a descriptor: what it is of, and behind that word its rights and its fcntl commands.
fn read_held_of(version: Version, what: &[u8], words: Words<'_>) -> Result<Held, LineFault>
    ensures { result_map_both held_of fault_of result ≡ held_of_words (version_of version) (what.now ∷ words.entry) }
{
    if is_word(what, Keyword::Grant) {
        read_grant(version, words)
    } else if is_word(what, Keyword::Any) {
        read_sets(version, Ok(Target::AnyNode), words)
    } else if is_word(what, Keyword::Sock) {
        read_socket(version, words)
    } else if is_word(what, Keyword::Unknown) {
        read_sets(version, Ok(Target::Unknown), words)
    } else {
        Err(LineFault::Syntax)
    }
}

/// What is said of a descriptor.
fn read_held(version: Version, mut words: Words<'_>) -> Result<Held, LineFault>
    ensures { result_map_both held_of fault_of result ≡ held_of_words (version_of version) words.entry }
{
    let what = next_word(&mut words)?;
    read_held_of(version, what, words)
}

/// What a number of the table may be, which isn't closed.
pub(crate) fn read_slot(version: Version, mut words: Words<'_>) -> Result<Slot, LineFault>
    ensures { result_map_both slot_of fault_of result ≡ slot_of_words (version_of version) words.entry }
{
    let presence = next_word(&mut words)?;
    if is_word(presence, Keyword::Open) {
        Ok(Slot::Open(read_held(version, words)?))
    } else if is_word(presence, Keyword::Maybe) {
        Ok(Slot::Maybe(read_held(version, words)?))
    } else {
        Err(LineFault::Syntax)
    }
}

/// What a channel sends: `none` alone, or descriptors.
pub(crate) fn read_sends(version: Version, mut words: Words<'_>) -> Result<Option<Held>, LineFault>
    ensures { result_map_both (option_map held_of) fault_of result ≡ sends_of_words (version_of version) words.entry }
{
    let what = next_word(&mut words)?;
    if is_word(what, Keyword::None) && words.is_done() {
        return Ok(None);
    }
    Ok(Some(read_held_of(version, what, words)?))
}
