//! The rights in the mode, by program and grant.

use crate::holdings::{Holdings, held_inside};
use crate::points::point_groups;
use crate::room::Room;
use crate::uses::{is_broken_in, used_on_side};
use crate::views::{Reviewed, Side, Viewed};
use certificate::Target;
use page::{Cell, Mark, Matrix, MatrixGroup, MatrixRow, RIGHTS, Tone};
use remarks::unlisted_rights;
use rights::Rights;
use task::Grant;
use texts::{Page, parts_of, say};

/// The rights in the order of the columns.
const COLUMNS: [Rights; RIGHTS] = [
    Rights::FSTAT,
    Rights::FSTATAT,
    Rights::READ,
    Rights::WRITE,
    Rights::FTRUNCATE,
    Rights::CREATE,
    Rights::MKDIRAT,
    Rights::RENAMEAT_TARGET,
    Rights::UNLINKAT,
    Rights::RENAMEAT_SOURCE,
    Rights::LOOKUP,
    Rights::SEEK,
    Rights::FSYNC,
    Rights::FCNTL,
];

/// What a program holds in a grant, and how.
#[derive(Clone, Copy)]
struct Share {
    held: Rights,
    /// Those that calls may use or pass on.
    used: Rights,
    /// Those that are for what the grant doesn't list.
    beyond: Rights,
    /// Those of all rights that are.
    unlisted: Rights,
    is_broken: bool,
}

impl Share {
    /// How a right is held.
    fn mark(&self, right: Rights) -> Mark {
        if !self.held.contains(right) {
            return Mark::None;
        }
        if self.beyond.contains(right) {
            return if self.is_broken && self.used.contains(right) {
                Mark::Broken
            } else {
                Mark::Beyond
            };
        }
        if self.used.contains(right) {
            Mark::Used
        } else {
            Mark::Idle
        }
    }

    /// The cell of a right.
    fn cell(&self, right: Rights) -> Cell {
        Cell {
            mark: self.mark(right),
            is_allowed: !self.unlisted.contains(right),
        }
    }

    /// The cells of all columns.
    fn cells(&self) -> [Cell; RIGHTS] {
        let mut cells = [Cell {
            mark: Mark::None,
            is_allowed: false,
        }; RIGHTS];
        for column in 0..RIGHTS {
            cells[column] = self.cell(COLUMNS[column]);
        }
        cells
    }
}

/// How many rights are held, used and beyond the grant, in words.
fn count_text(room: &mut Room, cells: &[Cell]) -> Vec<u8> {
    let (mut held, mut used, mut beyond): (u32, u32, u32) = (0, 0, 0);
    for cell in cells {
        let (is_held, is_used, is_beyond) = match cell.mark {
            Mark::None => (0, 0, 0),
            Mark::Used => (1, 1, 0),
            Mark::Idle => (1, 0, 0),
            Mark::Beyond => (1, 0, 1),
            Mark::Broken => (1, 1, 1),
        };
        held = held.saturating_add(is_held);
        used = used.saturating_add(is_used);
        beyond = beyond.saturating_add(is_beyond);
    }
    let mut page = Page::new(room.alloc());
    say!(&mut page; used, " of ", held, " used");
    if beyond > 0 {
        say!(&mut page; ", ", beyond, " beyond the grant");
    }
    room.bytes(page)
}

/// Which further rights are held, and which of them beyond the grant; nothing of a task that asks for none.
fn further_text(room: &mut Room, wide: bool, share: &Share) -> Vec<u8> {
    let further = Rights::further();
    let (held, beyond) = (
        share.held.intersection(further),
        share.beyond.intersection(further),
    );
    if !wide || held == Rights::empty() {
        return room.list();
    }
    let mut page = Page::new(room.alloc());
    if held == further {
        say!(&mut page; "all");
    } else {
        say!(&mut page; held);
    }
    if beyond == held {
        say!(&mut page; ", all beyond the grant");
    } else if beyond != Rights::empty() {
        say!(&mut page; ", of which beyond the grant ", beyond);
    }
    room.bytes(page)
}

/// The row of a grant.
fn grant_row(
    room: &mut Room,
    reviewed: &Reviewed<'_>,
    viewed: &Viewed<'_>,
    grant: &Grant,
    held: Rights,
) -> MatrixRow {
    let task = reviewed.scene.task;
    let (wide, grants) = (task.further_rights(), task.grants());
    let target = Target::InGrant(grant.name);
    let share = Share {
        held,
        used: used_on_side(viewed, Side::Inside, &target),
        beyond: unlisted_rights(wide, grants, &grant.name, held),
        unlisted: unlisted_rights(wide, grants, &grant.name, Rights::all()),
        is_broken: is_broken_in(reviewed.findings, viewed, Side::Inside, &target),
    };
    let cells = share.cells();
    MatrixRow {
        grant: room.text(grant.name.as_bytes()),
        path: room.text(grant.path.text()),
        cells,
        count: count_text(room, &cells),
        further: further_text(room, wide, &share),
        tone: if share.beyond == Rights::empty() {
            Tone::Plain
        } else {
            Tone::Beyond
        },
    }
}

/// The row of what lies in no grant.
fn nowhere_row(room: &mut Room, wide: bool, held: Rights) -> MatrixRow {
    let share = Share {
        held,
        used: held,
        beyond: held,
        unlisted: Rights::all(),
        is_broken: true,
    };
    MatrixRow {
        grant: room.text("in no grant"),
        path: room.list(),
        cells: share.cells(),
        count: room.text("in no grant"),
        further: further_text(room, wide, &share),
        tone: Tone::Broken,
    }
}

/// The rows of a program.
fn rows_of(
    room: &mut Room,
    reviewed: &Reviewed<'_>,
    viewed: &Viewed<'_>,
    holdings: &Holdings,
) -> Vec<MatrixRow> {
    let mut rows = room.list();
    for (place, grant) in reviewed.scene.task.grants().iter().enumerate() {
        if let Some(Some(held)) = holdings.grants.get(place) {
            let row = grant_row(room, reviewed, viewed, grant, *held);
            room.push(&mut rows, row);
        }
    }
    if let Some(held) = holdings.nowhere {
        let row = nowhere_row(room, reviewed.scene.task.further_rights(), held);
        room.push(&mut rows, row);
    }
    rows
}

/// The rights in the mode, if some process may be in it.
pub(crate) fn matrix_of(
    room: &mut Room,
    reviewed: &Reviewed<'_>,
    views: &[Viewed<'_>],
) -> Option<Matrix> {
    let mut groups = room.list();
    for viewed in views {
        if viewed.is_ever_inside() {
            let holdings = held_inside(room, reviewed, viewed);
            let group = MatrixGroup {
                title: room.text(parts_of!(viewed.named.name.as_bytes(), " in the mode")),
                rows: rows_of(room, reviewed, viewed, &holdings),
            };
            room.push(&mut groups, group);
        }
    }
    if groups.is_empty() || !reviewed.has_bounds {
        return None;
    }
    let points = point_groups(room, reviewed.scene.task, views);
    Some(Matrix { groups, points })
}
