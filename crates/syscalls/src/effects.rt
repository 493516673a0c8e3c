//! What a call did, and how that is written.

ghost use Rattle.std.specs.Prelude.{◌≡◌, ◌<◌, ◌∷◌, [], IfOk, length};
ghost use Rattle.rights.specs.Views.{operation_of};
ghost use Rattle.file_tree.specs.Nodes.{node};
ghost use Rattle.file_tree.specs.Places.{place_text};
ghost use Rattle.syscalls.specs.Shows.{shown_at};
ghost use Rattle.syscalls.specs.Views.{AreThere, effect_of, effects_in, effects_of};

use crate::outcomes::Effect;
use file_tree::{NodeId, Tree};
use rights::{Memory, Op};
use std::alloc::Global;

/// So many bytes hold the text of most places.
const USUAL_PLACE: usize = 64;

/// What a call did, in the tree that it left: places are those of nodes there, and aren't written yet.
#[derive(Drop)]
pub enum Effects {
    Nothing,
    /// An operation on a node.
    One(Op, NodeId),
    /// A node has its place, and had the one of this text.
    Renamed(NodeId, Vec<u8>),
    /// The same, and another node was removed from the place that it has.
    Replaced(NodeId, Vec<u8>),
}

/// A node's place as text.
pub(crate) fn place_of<T: Tree>(alloc: Global, tree: &T, n: NodeId) -> Result<Vec<u8>, Memory>
    requires { n < length (T.nodes tree.now) }
    ensures { IfOk result (λ place. place.items ≡ place_text (node (T.nodes tree.now) n).place) }
{
    let mut place = Vec::with_capacity(alloc, USUAL_PLACE)?;
    if tree.place_text(n, &mut place).is_err() {
        return Err(Memory);
    }
    Ok(place)
}

/// The effect of an operation on a node, at the place that it has.
fn effect_at<T: Tree>(alloc: Global, tree: &T, op: Op, n: NodeId) -> Result<Effect, Memory>
    requires { n < length (T.nodes tree.now) }
    ensures { IfOk result (λ effect. effect_of effect ≡ shown_at (operation_of op) (node (T.nodes tree.now) n).place) }
{
    let place = place_of(alloc, tree, n)?;
    Ok(Effect { op, place })
}

/// A list of this effect, with room for so many.
fn first_effect(alloc: Global, room: usize, effect: Effect) -> Result<Vec<Effect>, Memory>
    ensures { IfOk result (λ effects. effects_of effects.items ≡ effect_of effect ∷ []) }
{
    let mut effects = Vec::with_capacity(alloc, room)?;
    effects.push(effect)?;
    Ok(effects)
}

impl Effects {
    /// The effects with their places written, in order.
    pub fn written<T: Tree>(self, alloc: Global, tree: &T) -> Result<Vec<Effect>, Memory>
        requires { AreThere (T.nodes tree.now) self }
        ensures { IfOk result (λ effects. effects_of effects.items ≡ effects_in (T.nodes tree.now) self) }
    {
        match self {
            Effects::Nothing => Ok(Vec::new(alloc)),
            Effects::One(op, n) => first_effect(alloc, 1, effect_at(alloc, tree, op, n)?),
            Effects::Renamed(n, place) => {
                let from = Effect {
                    op: Op::Remove,
                    place,
                };
                let mut effects = first_effect(alloc, 2, from)?;
                effects.push(effect_at(alloc, tree, Op::Create, n)?)?;
                Ok(effects)
            }
            Effects::Replaced(n, place) => {
                let from = Effect {
                    op: Op::Remove,
                    place,
                };
                let over = effect_at(alloc, tree, Op::Remove, n)?;
                let mut effects = first_effect(alloc, 3, over)?;
                effects.push(from)?;
                effects.push(effect_at(alloc, tree, Op::Create, n)?)?;
                Ok(effects)
            }
        }
    }
}
