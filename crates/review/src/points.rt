//! What is held point by point.

use crate::holdings::grant_place;
use crate::room::{Room, short};
use crate::views::Viewed;
use certificate::{Bound, ModeBound, Target};
use page::{Piece, Place, PointGroup};
use task::{Grant, Task};
use texts::{Name, Page, ToldRights, parts_of, say};

/// Where a process is to the mode, in words.
fn mode_words(mode: ModeBound) -> &'static str {
    match mode {
        ModeBound::Off => "outside the mode",
        ModeBound::On => "in the mode",
        ModeBound::Either => "in the mode or outside it",
    }
}

/// A grant's name, if the task has the grant.
fn known_grant(grants: &[Grant], name: Name) -> Option<Name> {
    match grant_place(grants, &name) {
        None => None,
        Some(_) => Some(name),
    }
}

/// What a bound says of nodes: each number that may be open on what lies in a grant, or in none.
fn bound_text(room: &mut Room, wide: bool, grants: &[Grant], bound: &Bound) -> Vec<u8> {
    let mut page = Page::new(room.alloc());
    say!(&mut page; mode_words(bound.mode()), ": ");
    let mut separator = "";
    for slot in bound.slots() {
        let Some(held) = slot.held() else {
            continue;
        };
        let rights = ToldRights {
            wide,
            rights: held.rights().greatest(),
        };
        let grant = match held.target() {
            Target::Socket(..) => continue,
            Target::InGrant(name) => known_grant(grants, name),
            Target::AnyNode | Target::Unknown => None,
        };
        match grant {
            Some(name) => say!(&mut page; separator, name.as_bytes(), " ", rights),
            None => say!(&mut page; separator, "in no grant ", rights),
        }
        separator = "; ";
    }
    if separator.is_empty() {
        say!(&mut page; "no grant");
    }
    room.bytes(page)
}

/// Points beside each other of which the same is said.
#[derive(Drop)]
struct Stretch {
    first: usize,
    last: usize,
    text: Vec<u8>,
}

/// A stretch in a sentence.
fn stretch_sentence(room: &mut Room, program: Name, stretch: &Stretch) -> Vec<Piece> {
    let mut sentence = room.list();
    let place = Place {
        program,
        point: short(stretch.first),
    };
    if stretch.first == stretch.last {
        room.link(&mut sentence, place, stretch.first);
    } else {
        room.link(
            &mut sentence,
            place,
            parts_of!(stretch.first, " to ", stretch.last),
        );
    }
    room.plain(&mut sentence, parts_of!(", ", stretch.text.as_slice()));
    sentence
}

/// Adds a point to the last stretch, if the same is said of it, or as a new one.
fn add_point(room: &mut Room, stretches: &mut Vec<Stretch>, point: usize, text: Vec<u8>) {
    if let Some(last) = stretches.last_mut() {
        if last.last.saturating_add(1) == point && last.text == text {
            last.last = point;
            return;
        }
    }
    room.push(
        stretches,
        Stretch {
            first: point,
            last: point,
            text,
        },
    );
}

/// What is held point by point in a program.
fn point_group(room: &mut Room, task: &Task, viewed: &Viewed<'_>) -> PointGroup {
    let (wide, grants) = (task.further_rights(), task.grants());
    let mut stretches = room.list();
    for (point, bound) in viewed.bounds.iter().enumerate() {
        if let Some(bound) = bound {
            let text = bound_text(room, wide, grants, bound);
            add_point(room, &mut stretches, point, text);
        }
    }
    let mut items = room.list();
    for stretch in &stretches {
        let sentence = stretch_sentence(room, viewed.named.name, stretch);
        room.push(&mut items, sentence);
    }
    PointGroup {
        program: viewed.named.name,
        items,
    }
}

/// What is held point by point.
pub(crate) fn point_groups(room: &mut Room, task: &Task, views: &[Viewed<'_>]) -> Vec<PointGroup> {
    let mut groups = room.list();
    for viewed in views {
        let group = point_group(room, task, viewed);
        if !group.items.is_empty() {
            room.push(&mut groups, group);
        }
    }
    groups
}
