//! Who reaches what: the boxes of the programs and the panels of the file tree.

ghost use Rattle.std.specs.Prelude.{None};

use crate::holdings::{HeldEnd, Holdings, held_at_start, held_inside, held_on_side};
use crate::panels::{grant_panel, other_panel, picture_words};
use crate::room::{Room, short};
use crate::uses::{broken_on_side, is_broken_in};
use crate::views::{Reviewed, Side, Viewed};
use bitflags::Flags;
use certificate::{Cert, Class, Target as Kind};
use checker::BrokenRule;
use explain::add_points;
use instruction_set::{Instruction, enters_mode};
use page::{Half, HalfKind, Note, Picture, Program, Row, Target, Tone};
use remarks::unlisted_rights;
use rights::Rights;
use task::{Grant, Task};
use texts::{Page, Say, parts_of, say};
use transfer::channel_at;

/// The classes of pairs, by their numbers: as they come first.
#[derive(Drop)]
struct Classes {
    list: Vec<Class>,
}

/// A half of a program, and what it may hold.
#[derive(Clone, Copy)]
struct HalfView<'v> {
    viewed: &'v Viewed<'v>,
    side: Side,
    holdings: &'v Holdings,
}

/// How many rights a set has.
fn count_rights(rights: Rights) -> u32 {
    Flags::bits(&rights).count_ones()
}

/// Rights with blanks between them, of a task that asks for further rights or of another.
#[derive(Clone, Copy)]
struct Spaced {
    wide: bool,
    rights: Rights,
}

impl Say for Spaced {
    ghost said = { λ rights. None };

    fn say(self, page: &mut Page) {
        let (told, all) = if self.wide {
            (self.rights, Rights::all())
        } else {
            (self.rights.noted(), Rights::plain())
        };
        if told == all {
            return "all rights".say(page);
        }
        let mut separator: &[u8] = b"";
        for (name, _right) in Flags::iter_names(&told) {
            say!(page; separator, name);
            separator = b" ";
        }
    }
}

/// What is said of a grant's row: how many rights are beyond the grant, and whether a rule is broken there.
fn grant_notes(room: &mut Room, beyond: Rights, is_broken: bool) -> Vec<Note> {
    let mut notes = room.list();
    if beyond != Rights::empty() {
        let text = room.text(parts_of!(count_rights(beyond), " beyond what the grant lists"));
        let tone = Tone::Beyond;
        room.push(&mut notes, Note { tone, text });
    }
    if is_broken {
        let text = room.text("a rule is broken here");
        let tone = Tone::Broken;
        room.push(&mut notes, Note { tone, text });
    }
    notes
}

/// The tone of a grant's row.
fn grant_tone(beyond: Rights, is_broken: bool) -> Tone {
    if is_broken {
        Tone::Broken
    } else if beyond != Rights::empty() {
        Tone::Beyond
    } else {
        Tone::Plain
    }
}

/// The number of a class of pairs.
fn class_number(room: &mut Room, classes: &mut Classes, class: Class) -> usize {
    for (number, known) in classes.list.iter().enumerate() {
        if known.is(&class) {
            return number;
        }
    }
    let number = classes.list.len();
    room.push(&mut classes.list, class);
    number
}

/// The row of a grant.
fn grant_row(
    room: &mut Room,
    reviewed: &Reviewed<'_>,
    of: HalfView<'_>,
    place: usize,
    grant: &Grant,
    rights: Rights,
) -> Row {
    let task = reviewed.scene.task;
    let target = Kind::InGrant(grant.name);
    let wide = task.further_rights();
    let beyond = unlisted_rights(wide, task.grants(), &grant.name, rights);
    let is_broken = is_broken_in(reviewed.findings, of.viewed, of.side, &target);
    let tone = grant_tone(beyond, is_broken);
    Row {
        name: room.text(grant.name.as_bytes()),
        held: room.text(Spaced { wide, rights }),
        notes: grant_notes(room, beyond, is_broken),
        target: Target::Panel(place),
        tone,
        wire: tone,
        takes: false,
    }
}

/// The row of what lies in no grant.
fn nowhere_row(room: &mut Room, task: &Task, rights: Rights) -> Row {
    let (wide, place) = (task.further_rights(), task.grants().len());
    Row {
        name: room.text("in no grant"),
        held: room.text(Spaced { wide, rights }),
        notes: room.list(),
        target: Target::Panel(place),
        tone: Tone::Broken,
        wire: Tone::Broken,
        takes: false,
    }
}

/// What an end sends, by the line of its channel: a descriptor, if it sends one.
fn end_note(room: &mut Room, wide: bool, cert: &Cert, end: &HeldEnd) -> Vec<Note> {
    let mut notes = room.list();
    let Some(channel) = channel_at(cert, &end.class, end.side) else {
        return notes;
    };
    let note = match channel.sends() {
        None => Note {
            tone: Tone::Faint,
            text: room.text("sends bytes alone"),
        },
        Some(held) => {
            let rights = Spaced {
                wide,
                rights: held.rights().greatest(),
            };
            Note {
                tone: Tone::InMode,
                text: room.text(parts_of!("sends ", held.target(), " ", rights)),
            }
        }
    };
    room.push(&mut notes, note);
    notes
}

/// Whether an end sends descriptors.
fn sends_descriptors(cert: &Cert, class: &Class, side: certificate::Side) -> bool {
    match channel_at(cert, class, side) {
        Some(channel) => channel.sends().is_some(),
        None => false,
    }
}

/// The row of an end of a pair.
fn end_row(room: &mut Room, wide: bool, cert: &Cert, classes: &mut Classes, end: &HeldEnd) -> Row {
    let takes = sends_descriptors(cert, &end.class, end.side.other());
    let passes = takes || sends_descriptors(cert, &end.class, end.side);
    let number = class_number(room, classes, end.class);
    Row {
        name: room.text(parts_of!("pair ", end.class, " ", end.side)),
        held: room.text(Spaced {
            wide,
            rights: end.rights,
        }),
        notes: end_note(room, wide, cert, end),
        target: Target::Pair(number),
        tone: Tone::Plain,
        wire: if passes { Tone::InMode } else { Tone::Faint },
        takes,
    }
}

/// The rows of a half in the mode: grants, what lies in none, and ends.
fn rows_inside(
    room: &mut Room,
    reviewed: &Reviewed<'_>,
    classes: &mut Classes,
    of: HalfView<'_>,
) -> Vec<Row> {
    let wide = reviewed.scene.task.further_rights();
    let mut rows = room.list();
    for (place, grant) in reviewed.scene.task.grants().iter().enumerate() {
        if let Some(Some(rights)) = of.holdings.grants.get(place) {
            let row = grant_row(room, reviewed, of, place, grant, *rights);
            room.push(&mut rows, row);
        }
    }
    if let Some(rights) = of.holdings.nowhere {
        let row = nowhere_row(room, reviewed.scene.task, rights);
        room.push(&mut rows, row);
    }
    for end in &of.holdings.ends {
        let row = end_row(room, wide, reviewed.scene.cert, classes, end);
        room.push(&mut rows, row);
    }
    rows
}

/// The rows of a half outside the mode: the ends that the half in the mode hasn't.
fn rows_outside(
    room: &mut Room,
    reviewed: &Reviewed<'_>,
    classes: &mut Classes,
    outside: &Holdings,
    inside: &Holdings,
) -> Vec<Row> {
    let (wide, cert) = (reviewed.scene.task.further_rights(), reviewed.scene.cert);
    let mut rows = room.list();
    for end in &outside.ends {
        if !inside.has_end(end) {
            let row = end_row(room, wide, cert, classes, end);
            room.push(&mut rows, row);
        }
    }
    rows
}

/// How many rules a half breaks, in words.
fn breaks(
    room: &mut Room,
    findings: &[BrokenRule],
    viewed: &Viewed<'_>,
    side: Side,
) -> Option<Vec<u8>> {
    match broken_on_side(findings, viewed, side) {
        0 => None,
        1 => Some(room.text("breaks 1 rule")),
        count => Some(room.text(parts_of!("breaks rules at ", count, " places"))),
    }
}

/// The half outside the mode.
fn outside_half(
    room: &mut Room,
    reviewed: &Reviewed<'_>,
    classes: &mut Classes,
    viewed: &Viewed<'_>,
    points: &[usize],
    inside: &Holdings,
) -> Half {
    let task = reviewed.scene.task;
    let holdings = held_on_side(room, task, viewed, Side::Outside);
    Half {
        kind: HalfKind::Outside,
        title: room.text("outside the mode"),
        points: points_text(room, points),
        breaks: breaks(room, reviewed.findings, viewed, Side::Outside),
        rows: rows_outside(room, reviewed, classes, &holdings, inside),
    }
}

/// The half in the mode.
fn inside_half(
    room: &mut Room,
    reviewed: &Reviewed<'_>,
    classes: &mut Classes,
    viewed: &Viewed<'_>,
    points: &[usize],
    holdings: &Holdings,
) -> Half {
    let of = HalfView {
        viewed,
        side: Side::Inside,
        holdings,
    };
    let is_marked = viewed.named.untrusted;
    Half {
        kind: if is_marked {
            HalfKind::Authority
        } else {
            HalfKind::Inside
        },
        title: room.text("in the mode"),
        points: if is_marked {
            room.text(", whatever it executes")
        } else {
            points_text(room, points)
        },
        breaks: breaks(room, reviewed.findings, viewed, Side::Inside),
        rows: rows_inside(room, reviewed, classes, of),
    }
}

/// The one half of a program of which no bounds are known: what its processes start with.
fn half_at_start(
    room: &mut Room,
    reviewed: &Reviewed<'_>,
    classes: &mut Classes,
    viewed: &Viewed<'_>,
) -> Half {
    let holdings = held_at_start(room, reviewed.scene.task, viewed);
    let of = HalfView {
        viewed,
        side: Side::Outside,
        holdings: &holdings,
    };
    Half {
        kind: HalfKind::Outside,
        title: room.text("at the start"),
        points: room.list(),
        breaks: None,
        rows: rows_inside(room, reviewed, classes, of),
    }
}

/// The half of a program that is never reached.
fn unreached_half(room: &mut Room) -> Half {
    Half {
        kind: HalfKind::Unreached,
        title: room.text("never reached"),
        points: room.list(),
        breaks: None,
        rows: room.list(),
    }
}

/// The halves of a program.
fn halves_of(
    room: &mut Room,
    reviewed: &Reviewed<'_>,
    classes: &mut Classes,
    viewed: &Viewed<'_>,
) -> Vec<Half> {
    let mut halves = room.list();
    if !reviewed.has_bounds {
        let half = half_at_start(room, reviewed, classes, viewed);
        room.push(&mut halves, half);
        return halves;
    }
    let holdings = held_inside(room, reviewed, viewed);
    let outside = viewed.points_in(room, Side::Outside);
    let inside = viewed.points_in(room, Side::Inside);
    if !outside.is_empty() {
        let half = outside_half(room, reviewed, classes, viewed, &outside, &holdings);
        room.push(&mut halves, half);
    }
    if !inside.is_empty() || viewed.named.untrusted {
        let half = inside_half(room, reviewed, classes, viewed, &inside, &holdings);
        room.push(&mut halves, half);
    }
    if halves.is_empty() {
        let half = unreached_half(room);
        room.push(&mut halves, half);
    }
    halves
}

/// A program with its halves.
fn program_of(
    room: &mut Room,
    reviewed: &Reviewed<'_>,
    classes: &mut Classes,
    viewed: &Viewed<'_>,
) -> Program {
    Program {
        name: viewed.named.name,
        is_untrusted: viewed.named.untrusted,
        processes: processes_text(room, reviewed, viewed),
        halves: halves_of(room, reviewed, classes, viewed),
        enters: entering_text(room, reviewed, viewed),
    }
}

/// The points of a half, behind its title.
fn points_text(room: &mut Room, points: &[usize]) -> Vec<u8> {
    let mut page = Page::new(room.alloc());
    say!(&mut page; if points.len() == 1 { ", point " } else { ", points " });
    add_points(&mut page, points);
    room.bytes(page)
}

/// Whether a program makes processes.
fn forks(viewed: &Viewed<'_>) -> bool {
    for instruction in viewed.named.program.code() {
        if let Instruction::Invoke { call, .. } = instruction {
            if call_facts::forks(call.call()) {
                return true;
            }
        }
    }
    false
}

/// The first processes of a program.
fn processes_text(room: &mut Room, reviewed: &Reviewed<'_>, viewed: &Viewed<'_>) -> Vec<u8> {
    let mut page = Page::new(room.alloc());
    let mut separator = "process ";
    for (number, start) in reviewed.scene.task.starts().iter().enumerate() {
        if start.program == viewed.number {
            say!(&mut page; separator, number);
            separator = ", ";
        }
    }
    if forks(viewed) {
        say!(&mut page; " and what it forks");
    }
    room.bytes(page)
}

/// Where a program enters the mode.
fn entering_text(room: &mut Room, reviewed: &Reviewed<'_>, viewed: &Viewed<'_>) -> Vec<u8> {
    let mut page = Page::new(room.alloc());
    let mut separator = "cap_enter, line ";
    for (point, instruction) in viewed.named.program.code().iter().enumerate() {
        if enters_mode(instruction) {
            let line = reviewed.scene.written(viewed.number, short(point)).line;
            say!(&mut page; separator, line);
            separator = ", ";
        }
    }
    room.bytes(page)
}

/// Who reaches what.
pub(crate) fn picture_of(
    room: &mut Room,
    reviewed: &Reviewed<'_>,
    views: &[Viewed<'_>],
) -> Picture {
    let mut classes = Classes { list: room.list() };
    let mut programs = room.list();
    for viewed in views {
        let program = program_of(room, reviewed, &mut classes, viewed);
        room.push(&mut programs, program);
    }
    let mut panels = room.list();
    for grant in reviewed.scene.task.grants() {
        let panel = grant_panel(room, reviewed.scene.task.nodes(), grant);
        room.push(&mut panels, panel);
    }
    let panel = other_panel(room, reviewed.scene.task);
    room.push(&mut panels, panel);
    let words = picture_words(room, &programs, &panels);
    Picture {
        programs,
        panels,
        words,
    }
}
