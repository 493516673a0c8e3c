//! Open descriptions by number, and how many entries and messages name each.

ghost use Rattle.std.specs.Prelude.{◌≡◌, ◌+◌, ◌<◌, ◌^◌, Some, false, option_map};
ghost use Rattle.std.specs.Option.{IsSome};
ghost use Rattle.slab.specs.Slab.{HasRoomFor, slab_len};
ghost use Rattle.fd_table.specs.Descriptions.{At_end, At_node};
ghost use Rattle.fd_table.specs.Kept.{object_in, item_at, state_in};
ghost use Rattle.fd_table.specs.Holders.{IsFew, IsDescriptionThere, count_in};
ghost use Rattle.fd_table.specs.Changes.{Changed, IsHeld, described_as, ended_in, lowered, raised};
ghost use Rattle.rights.specs.Views.{side_seen};
ghost use Rattle.fd_table.specs.Views.{access_asked, class_seen, object_seen, state_seen};
ghost use Rattle.fd_table.specs.EntryViews.{entry_kept};
ghost use Rattle.fd_table.specs.StoredViews.{description_kept, descriptions_kept, new_description};

use crate::descriptors::{Access, Class, Description, Descriptor, Object};
use crate::ends::End;
use crate::status::Status;
use file_tree::NodeId;
use rights::OpenFlags;
use slab::Slab;

/// An open description, and how many entries and queued messages name it: one at least.
#[derive(Clone, Copy)]
pub(crate) struct Held {
    pub(crate) description: Description,
    pub(crate) count: u128,
}

/// The description of a number that is in use.
pub(crate) fn description_of(descriptions: &Slab<Held>, n: usize) -> Description
    requires { IsSome (item_at (descriptions_kept descriptions.now.slots) n) }
    ensures object { object_seen result.object ≡ object_in (item_at (descriptions_kept descriptions.now.slots) n) }
    ensures state { state_seen result ≡ state_in (item_at (descriptions_kept descriptions.now.slots) n) }
{
    descriptions[n].description
}

/// Puts another description at a number that is in use. Its holders stay.
pub(crate) fn set_description(descriptions: &mut Slab<Held>, n: usize, description: Description)
    requires { IsSome (item_at (descriptions_kept descriptions.old.slots) n) }
    ensures { Changed (descriptions_kept descriptions.old.slots) (descriptions_kept descriptions.new.slots) n
        (described_as (description_kept description) (item_at (descriptions_kept descriptions.old.slots) n)) }
{
    descriptions[n].description = description;
}

/// Counts one holder more of a number that is in use.
pub(crate) fn hold_one(descriptions: &mut Slab<Held>, n: usize)
    requires there { IsSome (item_at (descriptions_kept descriptions.old.slots) n) }
    requires few { count_in (item_at (descriptions_kept descriptions.old.slots) n) < 2 ^ 127 }
    ensures { Changed (descriptions_kept descriptions.old.slots) (descriptions_kept descriptions.new.slots) n (raised (item_at (descriptions_kept descriptions.old.slots) n)) }
{
    descriptions[n].count += 1;
}

/// Counts one holder more of what a descriptor names, if there is one.
pub(crate) fn hold_named(descriptions: &mut Slab<Held>, held: &Option<Descriptor>)
    requires there { IsDescriptionThere (item_at (descriptions_kept descriptions.old.slots)) (entry_kept held.now) }
    requires few { IsFew (item_at (descriptions_kept descriptions.old.slots)) (entry_kept held.now) }
    ensures { IsHeld (descriptions_kept descriptions.old.slots) (descriptions_kept descriptions.new.slots) (entry_kept held.now) }
{
    if let Some(descriptor) = held {
        hold_one(descriptions, descriptor.description.number());
    }
}

/// Counts one holder less of a number. A description without holders is taken out and given back.
pub(crate) fn release_one(descriptions: &mut Slab<Held>, n: usize) -> Option<Description>
    ensures change { Changed (descriptions_kept descriptions.old.slots) (descriptions_kept descriptions.new.slots) n (lowered (item_at (descriptions_kept descriptions.old.slots) n)) }
    ensures ended { option_map description_kept result ≡ ended_in (item_at (descriptions_kept descriptions.old.slots) n) }
{
    let held = *descriptions.get(n)?;
    if held.count > 1 {
        descriptions[n] = Held {
            description: held.description,
            count: held.count - 1,
        };
        return None;
    }
    Some(descriptions.remove(n).description)
}

/// Makes a description with one holder, in room that is there.
pub(crate) fn describe(descriptions: &mut Slab<Held>, description: Description) -> usize
    requires { HasRoomFor descriptions.old 1 }
    ensures vacant { item_at (descriptions_kept descriptions.old.slots) result ≡ None }
    ensures change { Changed (descriptions_kept descriptions.old.slots) (descriptions_kept descriptions.new.slots) result (Some (record { description = description_kept description; count = 1 })) }
    ensures len { slab_len descriptions.new ≡ slab_len descriptions.old + 1 }
    ensures capacity { descriptions.new.capacity ≡ descriptions.old.capacity }
{
    descriptions.insert_reserved(Held {
        description,
        count: 1,
    })
}

/// What opening a file or directory makes: a description at its beginning.
pub(crate) fn opened_node(node: NodeId, flags: OpenFlags) -> Description
    ensures { description_kept result ≡ new_description (At_node node (access_asked flags)) flags.append }
{
    Description {
        object: Object::Node {
            node,
            access: Access {
                readable: flags.read(),
                writable: flags.write(),
            },
        },
        offset: 0,
        status: Status {
            append: flags.append(),
            nonblock: false,
        },
    }
}

/// What making a socket pair makes: a description of an end.
pub(crate) fn opened_end(end: End, class: Class) -> Description
    ensures { description_kept result ≡ new_description (At_end end.pair (side_seen end.side) (class_seen class)) false }
{
    Description {
        object: Object::End { end, class },
        offset: 0,
        status: Status {
            append: false,
            nonblock: false,
        },
    }
}
