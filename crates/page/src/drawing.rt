//! The picture, drawn.

use crate::board::{Frame, FrameKind, NARROW, Size, WIDE};
use crate::frames::TextLine;
use crate::html::Html;
use crate::html::Part::{Markup, Number, Shown};
use crate::lanes::ClassLane;
use crate::layouts::{Layout, Plan, lay_out, plan_of, wires_in};
use crate::pictures::{HalfKind, Picture, Row, Target};
use crate::sentences::{Tone, add_sentences};
use crate::wires::{Lanes, Wire};
use crate::wiring::class_of;
use std::alloc::AllocError;

/// The radius of a corner.
const RADIUS: u32 = 6;

/// Where a way of a length begins, if it ends at a number and grows or not.
fn before(end: u32, length: u32, grows: bool) -> u32 {
    if grows {
        end.saturating_sub(length)
    } else {
        end.saturating_add(length)
    }
}

/// The sign of a way that grows or not.
fn sign(grows: bool) -> &'static str {
    if grows { "" } else { "-" }
}

/// Adds a wire: along, a corner, up or down, a corner, along.
fn add_wire(html: &mut Html, wire: &Wire) {
    let (from, to, lane) = (wire.from, wire.to, wire.lane);
    let class = Markup(wire.tone.line_class());
    let (x, y, end) = (Number(from.x), Number(from.y), Number(to.x));
    if from.y == to.y {
        return html.fill(
            "<path class=\"w @\" d=\"M@ @H@H@\"/>\n",
            &[class, x, y, Number(lane), end],
        );
    }
    let length = (from.y.abs_diff(to.y) / 2).min(RADIUS);
    let (leaves, falls, arrives) = (from.x < lane, from.y < to.y, lane < to.x);
    let (corner, below) = (before(lane, length, leaves), before(to.y, length, falls));
    let (along, down, on) = (
        Markup(sign(leaves)),
        Markup(sign(falls)),
        Markup(sign(arrives)),
    );
    let radius = Number(length);
    html.fill(
        "<path class=\"w @\" d=\"M@ @H@q@@ 0 @@ @@V@q0 @@ @@ @@H@\"/>\n",
        &[
            class,
            x,
            y,
            Number(corner),
            along,
            radius,
            along,
            radius,
            down,
            radius,
            Number(below),
            down,
            radius,
            on,
            radius,
            down,
            radius,
            end,
        ],
    )
}

/// The classes of a head's letters.
fn head_class(kind: FrameKind) -> &'static str {
    match kind {
        FrameKind::Title => "t ",
        FrameKind::Half(HalfKind::Outside) | FrameKind::Half(HalfKind::Unreached) => "",
        FrameKind::Gate => "",
        FrameKind::Half(_) | FrameKind::Grant | FrameKind::NoGrant => "b ",
    }
}

/// Adds the letters of a line's head or tail, if it has some.
fn add_letters(html: &mut Html, class: &'static str, tone: Tone, letters: &[u8]) {
    if !letters.is_empty() {
        let parts = [Markup(class), Markup(tone.class()), Shown(letters)];
        html.fill("<tspan class=\"@@\">@</tspan>", &parts)
    }
}

/// Adds a line of letters.
fn add_line(html: &mut Html, frame: &Frame, line: &TextLine) {
    let (head, tail) = line.letters.split_at(line.head.min(line.letters.len()));
    let (x, y) = (
        frame.left.saturating_add(frame.indent),
        frame.top.saturating_add(line.baseline),
    );
    html.fill("<text x=\"@\" y=\"@\">", &[Number(x), Number(y)]);
    add_letters(html, head_class(frame.kind), line.head_tone, head);
    add_letters(html, "", line.tail_tone, tail);
    html.markup("</text>\n")
}

/// Adds an arrow down, from the box outside the mode to the one inside.
fn add_arrow(html: &mut Html, frame: &Frame) {
    let x = frame.left.saturating_add(16);
    let (head, low) = (x.saturating_sub(5), frame.top.saturating_add(20));
    html.fill(
        "<path class=\"w mode\" d=\"M@ @v23\"/><path class=\"d mode\" d=\"M@ @h10l-5 9z\"/>\n",
        &[Number(x), Number(frame.top), Number(head), Number(low)],
    )
}

/// Adds a rectangle, so much inside a frame.
fn add_rectangle(html: &mut Html, frame: &Frame, class: &'static str, inset: u32) {
    let twice = inset.saturating_mul(2);
    let (left, top) = (
        frame.left.saturating_add(inset),
        frame.top.saturating_add(inset),
    );
    let (width, height) = (
        frame.width.saturating_sub(twice),
        frame.block.height.saturating_sub(twice),
    );
    html.fill(
        "<rect class=\"@\" x=\"@\" y=\"@\" width=\"@\" height=\"@\" rx=\"3\"/>\n",
        &[
            Markup(class),
            Number(left),
            Number(top),
            Number(width),
            Number(height),
        ],
    )
}

/// Adds what is drawn around the letters of a frame.
fn add_outline(html: &mut Html, frame: &Frame) {
    let class = match frame.kind {
        FrameKind::Title => return,
        FrameKind::Gate => return add_arrow(html, frame),
        FrameKind::Half(HalfKind::Outside) | FrameKind::Half(HalfKind::Unreached) => "off",
        FrameKind::Half(_) => "on",
        FrameKind::Grant => "g",
        FrameKind::NoGrant => "n",
    };
    add_rectangle(html, frame, class, 0);
    if let FrameKind::Half(HalfKind::Authority) = frame.kind {
        add_rectangle(html, frame, "rim", 4)
    }
}

/// Adds frames with their letters.
fn add_frames(html: &mut Html, frames: &[Frame]) {
    for frame in frames {
        add_outline(html, frame);
        for line in &frame.block.lines {
            add_line(html, frame, line);
        }
    }
}

/// Whether no other row is of a row's class.
fn is_alone(classes: &[ClassLane], class: usize) -> bool {
    match class_of(classes, class) {
        Some(found) => found.first == found.last,
        None => false,
    }
}

/// Adds what a row draws at the edge of its box: a dot, a stub, the head of an arrow.
fn add_port(html: &mut Html, plan: &Plan<'_>, lanes: &Lanes, row: &Row, y: u32) {
    match row.target {
        Target::Panel(_) => {
            let parts = [
                Markup(row.wire.line_class()),
                Number(lanes.right),
                Number(y),
            ];
            html.fill(
                "<circle class=\"d @\" cx=\"@\" cy=\"@\" r=\"3\"/>\n",
                &parts,
            )
        }
        Target::Pair(class) => {
            if is_alone(&plan.classes.items, class) {
                let parts = [Number(lanes.left), Number(y)];
                html.fill("<path class=\"w thin\" d=\"M@ @h-7m0 -4v8\"/>\n", &parts)
            }
        }
        Target::Nowhere => {}
    }
    if row.takes {
        let parts = [
            Number(lanes.left.saturating_sub(8)),
            Number(y.saturating_sub(5)),
        ];
        html.fill("<path class=\"d mode\" d=\"M@ @l8 5l-8 5z\"/>\n", &parts)
    }
}

/// Adds a picture that is laid out, with its wires.
fn add_layout(html: &mut Html, plan: &Plan<'_>, layout: &Layout, wires: &[Wire]) {
    let below = layout.boxes.below.max(layout.panels.below);
    let (width, height) = (Number(layout.width), Number(below.saturating_add(2)));
    html.fill(
        "<svg width=\"@\" height=\"@\" viewBox=\"0 0 @ @\" role=\"img\" \
        aria-label=\"Programs, what they may hold in capability mode, and what passes between them\" aria-describedby=\"words\">\n",
        &[width, height, width, height],
    );
    for wire in wires {
        add_wire(html, wire);
    }
    add_frames(html, &layout.boxes.frames);
    add_frames(html, &layout.panels.frames);
    for (at, row) in plan.rows.iter().enumerate() {
        if let Some(y) = layout.boxes.ports.items.get(at) {
            add_port(html, plan, &layout.lanes, row, *y);
        }
    }
    html.markup("</svg>")
}

/// Lays a picture out in a size, and adds it.
fn add_size(html: &mut Html, picture: &Picture, plan: &Plan<'_>, size: &Size) {
    let class = if size.is_wide { "wide" } else { "narrow" };
    html.fill(
        "<div class=\"x @\" tabindex=\"0\" role=\"group\" aria-label=\"The picture; it scrolls sideways\">",
        &[Markup(class)],
    );
    let layout = lay_out(html.alloc(), picture, plan, size);
    match wires_in(html.alloc(), plan, &layout) {
        Ok(wires) => add_layout(html, plan, &layout, &wires),
        Err(AllocError) => html.fail(),
    }
    html.markup("</div>\n")
}

/// Adds who reaches what: the picture, wide and narrow, and the same in words.
pub(crate) fn add_picture(html: &mut Html, picture: &Picture) {
    html.markup(
        "<section id=\"picture\"><h2>Who reaches what</h2><p class=\"h\">Boxes are programs, outside capability mode and in it, with what each may hold there at most. \
        Grey panels are the file tree by grants; lines on the left are pairs of sockets, blue where descriptors pass.</p>\n",
    );
    match plan_of(html.alloc(), picture) {
        Ok(plan) => {
            add_size(html, picture, &plan, &WIDE);
            add_size(html, picture, &plan, &NARROW)
        }
        Err(AllocError) => html.fail(),
    }
    html.markup("<details><summary>The picture in words</summary><ul id=\"words\">");
    add_sentences(html, "<li>", &picture.words, "</li>\n");
    html.markup("</ul></details></section>\n")
}
