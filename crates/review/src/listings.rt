//! The programs, line by line.

ghost use Rattle.std.specs.Prelude.{◌≤◌, length};

use crate::changes::{changes_at, numbers_of, states_at};
use crate::room::{Room, short};
use crate::views::{Reviewed, Viewed};
use certificate::{Bound, ModeBound};
use checker::{BrokenRule, allowance_at};
use explain::{Observation, Topic, finding_words, line_of};
use page::{Line, Listing, Mode, Piece, Remark, RemarkKind};
use task_text::SourceLine;
use texts::{ToldRights, parts_of};

/// What stands in front of where an error leads.
const ELSE: &[u8] = b" else ";

/// The place at which the last ` else ` of an instruction begins, or the instruction's end.
pub(crate) fn tail_begin(instruction: &[u8]) -> usize
    ensures { result ≤ length instruction.now }
{
    for begin in (0..instruction.len()).rev() {
        if let Some(rest) = instruction.get(begin..) {
            if rest.starts_with(ELSE) {
                return begin;
            }
        }
    }
    instruction.len()
}

/// Where a point stands to the mode.
fn mode_of(has_bounds: bool, bounds: &[Option<Bound>], point: usize) -> Mode {
    match bounds.get(point) {
        Some(Some(bound)) => match bound.mode() {
            ModeBound::Off => Mode::Outside,
            ModeBound::On => Mode::Inside,
            ModeBound::Either => Mode::Either,
        },
        _ => {
            if has_bounds {
                Mode::Unreached
            } else {
                Mode::Outside
            }
        }
    }
}

/// A mode in a word.
fn mode_word(has_bounds: bool, mode: Mode) -> &'static str {
    match mode {
        Mode::Outside => { if has_bounds { "off" } else { "" } }
        Mode::Inside => "on",
        Mode::Either => "maybe",
        Mode::Unreached => "not reached",
    }
}

/// Adds a remark of one paragraph.
fn add_remark(room: &mut Room, remarks: &mut Vec<Remark>, kind: RemarkKind, paragraph: Vec<Piece>) {
    let mut paragraphs = room.list();
    room.push(&mut paragraphs, paragraph);
    room.push(remarks, Remark { kind, paragraphs });
}

/// Adds the rules that are broken at a point.
fn add_findings(
    room: &mut Room,
    remarks: &mut Vec<Remark>,
    reviewed: &Reviewed<'_>,
    program: u8,
    point: usize,
) {
    for found in reviewed.findings {
        if found.program == program && usize::from(found.point) == point {
            let mut paragraph = room.list();
            room.push(&mut paragraph, Piece::Rule(found.rule.number()));
            let words = finding_words(room.alloc(), &reviewed.scene, *found);
            room.plain(&mut paragraph, parts_of!(" ", &words));
            add_remark(room, remarks, RemarkKind::Finding, paragraph);
        }
    }
}

/// Whether an observation stands at a point's line: at the first point that it is said of. What is said of most of a program stands in the head alone.
fn stands_at(observation: &Observation, point: usize) -> bool {
    match observation.topic {
        Topic::NeverEnters | Topic::Unreached | Topic::Untrusted => false,
        _ => observation.points.first() == Some(&point),
    }
}

/// Adds what is observed at a point.
fn add_observations(
    room: &mut Room,
    remarks: &mut Vec<Remark>,
    observations: &[Observation],
    point: usize,
) {
    for observation in observations {
        if stands_at(observation, point) {
            let mut paragraph = room.list();
            if let Topic::FreeBsd(_) = observation.topic {
                room.plain(&mut paragraph, parts_of!("FreeBSD: ", &observation.words));
            } else {
                room.plain(&mut paragraph, &line_of(observation));
            }
            add_remark(room, remarks, RemarkKind::Warning, paragraph);
        }
    }
}

/// Adds what an untrusted program may hold in the mode.
fn add_authority(
    room: &mut Room,
    remarks: &mut Vec<Remark>,
    reviewed: &Reviewed<'_>,
    viewed: &Viewed<'_>,
) {
    let allowed = allowance_at(
        reviewed.scene.cert,
        &viewed.named.name,
        reviewed.scene.task.further_rights(),
    );
    for ceiling in allowed.ceilings {
        let grant = ceiling.grant().as_bytes();
        let told = ToldRights {
            wide: allowed.wide,
            rights: ceiling.rights(),
        };
        let paragraph = room.sentence(parts_of!("in the mode: grant ", grant, " ", told));
        add_remark(room, remarks, RemarkKind::Authority, paragraph);
    }
    for end in allowed.ends {
        let paragraph = room.sentence(parts_of!(
            "in the mode: sock ",
            end.class(),
            " ",
            end.side()
        ));
        add_remark(room, remarks, RemarkKind::Authority, paragraph);
    }
}

/// What is told below the line of a point.
fn remarks_at(
    room: &mut Room,
    reviewed: &Reviewed<'_>,
    viewed: &Viewed<'_>,
    point: usize,
) -> Vec<Remark> {
    let mut remarks = room.list();
    if point == 0 && viewed.named.untrusted && reviewed.has_bounds {
        add_authority(room, &mut remarks, reviewed, viewed);
    }
    add_findings(room, &mut remarks, reviewed, viewed.number, point);
    add_observations(room, &mut remarks, &viewed.remarks, point);
    add_observations(room, &mut remarks, &viewed.warnings, point);
    remarks
}

/// Whether a rule is broken at a point.
fn is_broken_at(findings: &[BrokenRule], program: u8, point: usize) -> bool {
    for found in findings {
        if found.program == program && usize::from(found.point) == point {
            return true;
        }
    }
    false
}

/// The line of a source line without a point.
fn other_line(room: &mut Room, source: &SourceLine<'_>) -> Line {
    Line {
        number: source.number,
        point: None,
        mode: Mode::Outside,
        mode_word: "",
        states: room.list(),
        indent: room.text(source.before),
        text: room.list(),
        tail: room.list(),
        comment: room.text(source.behind),
        is_broken: false,
        changes: room.list(),
        remarks: room.list(),
    }
}

/// The line of a point. Its mode is told in words where the point before has another.
fn point_line(
    room: &mut Room,
    reviewed: &Reviewed<'_>,
    viewed: &Viewed<'_>,
    numbers: &[u8],
    source: &SourceLine<'_>,
    point: usize,
) -> Line {
    let (has_bounds, bounds) = (reviewed.has_bounds, viewed.bounds.as_slice());
    let mode = mode_of(has_bounds, bounds, point);
    let is_new = match point.checked_sub(1) {
        None => true,
        Some(before) => mode_of(has_bounds, bounds, before) != mode,
    };
    let (text, tail) = source.instruction.split_at(tail_begin(source.instruction));
    let task = reviewed.scene.task;
    let (wide, grants) = (task.further_rights(), task.grants());
    Line {
        number: source.number,
        point: Some(short(point)),
        mode,
        mode_word: if is_new {
            mode_word(has_bounds, mode)
        } else {
            ""
        },
        states: states_at(room, wide, grants, bounds, numbers, point),
        indent: room.text(source.before),
        text: room.text(text),
        tail: room.text(tail),
        comment: room.text(source.behind),
        is_broken: is_broken_at(reviewed.findings, viewed.number, point),
        changes: changes_at(room, wide, grants, bounds, numbers, point),
        remarks: remarks_at(room, reviewed, viewed, point),
    }
}

/// The lines of a program's source.
fn lines_of(
    room: &mut Room,
    reviewed: &Reviewed<'_>,
    viewed: &Viewed<'_>,
    numbers: &[u8],
) -> Vec<Line> {
    let mut lines = room.list();
    let Some(text) = reviewed.scene.texts.get(usize::from(viewed.number)) else {
        return lines;
    };
    let sources = text.source_lines(room.alloc(), reviewed.scene.file);
    for source in &room.made(sources) {
        let line = match source.point {
            None => other_line(room, source),
            Some(point) => point_line(room, reviewed, viewed, numbers, source, point),
        };
        room.push(&mut lines, line);
    }
    lines
}

/// A program's source, line by line.
fn listing_of(room: &mut Room, reviewed: &Reviewed<'_>, viewed: &Viewed<'_>) -> Listing {
    let numbers = numbers_of(room, &viewed.bounds);
    Listing {
        program: viewed.named.name,
        is_untrusted: viewed.named.untrusted,
        lines: lines_of(room, reviewed, viewed, &numbers),
        numbers,
    }
}

/// The programs, line by line.
pub(crate) fn listings_of(
    room: &mut Room,
    reviewed: &Reviewed<'_>,
    views: &[Viewed<'_>],
) -> Vec<Listing> {
    let mut listings = room.list();
    for viewed in views {
        let listing = listing_of(room, reviewed, viewed);
        room.push(&mut listings, listing);
    }
    listings
}
