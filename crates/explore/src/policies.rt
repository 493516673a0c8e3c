//! Whether a policy allows an effect, by the text of its place.

ghost use Rattle.std.specs.Prelude.{◌≡◌};
ghost use Rattle.std.specs.List.{list_any};
ghost use Rattle.syscalls.specs.Views.{effect_of};
ghost use Rattle.task.specs.Views.{grants_of};
ghost use Rattle.explore.specs.Breaches.{allows_shown, is_beneath};

use file_tree::{Place, lies_at};
use syscalls::Effect;
use task::Grant;

/// Whether a text is that of a place, or of one beneath it.
fn is_beneath(place: &Place, text: &[u8]) -> bool
    ensures { result ≡ is_beneath place.now text.now }
{
    lies_at(place.names_text(), text)
}

/// The place in a policy of the first grant that holds the place of a text.
pub(crate) fn grant_holding(grants: &[Grant], text: &[u8]) -> Option<usize> {
    grants
        .iter()
        .position(|grant| is_beneath(&grant.path, text))
}

/// Whether some grant allows an effect.
pub(crate) fn is_allowed(grants: &[Grant], effect: &Effect) -> bool
    ensures { result ≡ list_any (allows_shown (effect_of effect.now)) (grants_of grants.now) }
{
    match grants {
        [] => false,
        [grant, grants @ ..] => {
            is_beneath(&grant.path, &effect.place) && effect.op.is_listed(&grant.operations)
                || is_allowed(grants, effect)
        }
    }
}
