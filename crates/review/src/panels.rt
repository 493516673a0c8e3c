//! The panels of the file tree, and the picture in words.

use crate::room::Room;
use page::{Half, Panel, Piece, Program};
use task::{Grant, Task, TaskNode};
use texts::{Page, parts_of, say};

/// Whether a node lies in a grant.
fn is_granted(grants: &[Grant], node: &TaskNode) -> bool {
    for grant in grants {
        if node.place.begins_with(&grant.path) {
            return true;
        }
    }
    false
}

/// What a grant allows, in words.
fn allowed(room: &mut Room, grant: &Grant) -> Vec<u8> {
    let mut allows = Page::new(room.alloc());
    say!(&mut allows; if grant.operations.is_empty() { "allows nothing" } else { "allows" });
    for operation in &grant.operations {
        say!(&mut allows; " ", *operation);
    }
    room.bytes(allows)
}

/// The place of a node from a grant's path on: nothing where it is that of the path, or doesn't lie there.
fn place_beneath<'a>(grant: &Grant, node: &'a TaskNode) -> &'a [u8] {
    if !node.place.begins_with(&grant.path) {
        return b"";
    }
    let front = grant.path.names_text().len();
    let rest = node.place.names_text().get(front..).unwrap_or(b"");
    rest.strip_prefix(b"/".as_slice()).unwrap_or(rest)
}

/// The nodes beneath a grant's path, by their places from there on.
fn nodes_beneath(room: &mut Room, nodes: &[TaskNode], grant: &Grant) -> Vec<u8> {
    let mut beneath = Page::new(room.alloc());
    let mut separator = "";
    for node in nodes {
        let place = place_beneath(grant, node);
        if !place.is_empty() {
            say!(&mut beneath; separator, place);
            separator = " ";
        }
    }
    room.bytes(beneath)
}

/// The panel of a grant: what it allows, and the nodes beneath it.
pub(crate) fn grant_panel(room: &mut Room, nodes: &[TaskNode], grant: &Grant) -> Panel {
    Panel {
        is_grant: true,
        name: room.text(grant.name.as_bytes()),
        path: room.text(grant.path.text()),
        allows: allowed(room, grant),
        nodes: nodes_beneath(room, nodes, grant),
    }
}

/// The panel of what lies in no grant.
pub(crate) fn other_panel(room: &mut Room, task: &Task) -> Panel {
    let mut nodes = Page::new(room.alloc());
    let mut separator = "";
    for node in task.nodes() {
        if !is_granted(task.grants(), node) {
            say!(&mut nodes; separator, node.place.text());
            separator = " ";
        }
    }
    Panel {
        is_grant: false,
        name: room.text("in no grant"),
        path: room.list(),
        allows: room.list(),
        nodes: room.bytes(nodes),
    }
}

/// What a half holds, in a sentence.
fn half_words(room: &mut Room, program: &Program, half: &Half) -> Vec<Piece> {
    let mut page = Page::new(room.alloc());
    say!(&mut page; program.name.as_bytes(), " ", half.title.as_slice());
    if half.rows.is_empty() {
        say!(&mut page; " holds nothing that isn't told elsewhere");
    } else {
        say!(&mut page; " holds at most: ");
    }
    let mut separator = "";
    for row in &half.rows {
        say!(&mut page; separator, row.name.as_slice(), " with ", row.held.as_slice());
        for note in &row.notes {
            say!(&mut page; ", ", note.text.as_slice());
        }
        separator = "; ";
    }
    say!(&mut page; ".");
    room.sentence(&page)
}

/// The picture in words: each half, and each grant.
pub(crate) fn picture_words(
    room: &mut Room,
    programs: &[Program],
    panels: &[Panel],
) -> Vec<Vec<Piece>> {
    let mut words = room.list();
    for program in programs {
        for half in &program.halves {
            let sentence = half_words(room, program, half);
            room.push(&mut words, sentence);
        }
    }
    for panel in panels {
        if panel.is_grant {
            let (name, path) = (panel.name.as_slice(), panel.path.as_slice());
            let sentence = room.sentence(parts_of!(
                "The grant ",
                name,
                " is ",
                path,
                ", and ",
                panel.allows.as_slice(),
                "."
            ));
            room.push(&mut words, sentence);
        }
    }
    words
}
