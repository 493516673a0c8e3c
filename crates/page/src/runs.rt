//! The run of a breach: its steps as a list, and beside them a lane for each process.

use crate::html::Html;
use crate::html::Part::{Markup, Number, Shown};
use crate::sentences::add_sentence;
use crate::sheets::{Lane, Run, Step};
use crate::wires::Point;

/// How many steps are shown at most: the last ones.
pub const MAX_STEPS: usize = 256;

/// How many letters of an instruction are shown at most.
const MAX_LETTERS: usize = 56;

/// The height of a row.
const ROW: u32 = 22;

/// A number that is drawn or told.
fn drawn(number: usize) -> u32 {
    u32::try_from(number).unwrap_or(u32::MAX)
}

/// Where a lane stands.
fn lane_x(lane: usize) -> u32 {
    drawn(lane).saturating_mul(26).saturating_add(14)
}

/// Where a step stands: the middle of its row.
fn step_y(step: usize) -> u32 {
    drawn(step).saturating_mul(ROW).saturating_add(ROW / 2)
}

/// Where a lane is at a step.
fn point_at(lane: usize, step: usize) -> Point {
    Point {
        x: lane_x(lane),
        y: step_y(step),
    }
}

/// The class of a line of what is done in the mode or outside it.
fn line_class(is_inside: bool) -> &'static str {
    if is_inside { "mode" } else { "thin" }
}

/// Adds a stretch of a lane.
fn add_stretch(html: &mut Html, x: u32, from: u32, to: u32, is_inside: bool) {
    if from < to {
        let class = Markup(line_class(is_inside));
        html.fill(
            "<path class=\"w @\" d=\"M@ @V@\"/>",
            &[class, Number(x), Number(from), Number(to)],
        )
    }
}

/// Adds a lane: thin outside the mode, thick inside.
fn add_lane(html: &mut Html, number: usize, lane: Lane, height: u32) {
    let x = lane_x(number);
    let top = match lane.forked_at {
        Some(step) => step_y(step),
        None => 0,
    };
    match lane.enters_at {
        Some(step) => {
            let middle = step_y(step);
            add_stretch(html, x, top, middle, lane.is_inside);
            add_stretch(html, x, middle, height, true)
        }
        None => add_stretch(html, x, top, height, lane.is_inside),
    }
}

/// Adds the curve of a message, with its head.
fn add_message(html: &mut Html, from: Point, to: Point, is_descriptor: bool) {
    let (tip, end, head) = if from.x < to.x {
        (
            to.x.saturating_sub(4),
            to.x.saturating_sub(9),
            "l-7 -4v8z\"/>",
        )
    } else {
        (
            to.x.saturating_add(4),
            to.x.saturating_add(9),
            "l7 -4v8z\"/>",
        )
    };
    let class = Markup(line_class(is_descriptor));
    let middle = Number(from.x / 2 + to.x / 2);
    let (begin, above, below) = (Number(from.x), Number(from.y), Number(to.y));
    html.fill(
        "<path class=\"w @\" d=\"M@ @C@ @ @ @ @ @\"/><path class=\"d @\" d=\"M@ @@",
        &[
            class,
            begin,
            above,
            middle,
            above,
            middle,
            below,
            Number(end),
            below,
            class,
            Number(tip),
            below,
            Markup(head),
        ],
    )
}

/// Adds what a step draws beside its lanes: the process that it makes, and the message that it takes.
fn add_links(html: &mut Html, run: &Run, at: usize, step: &Step) {
    let own = point_at(step.lane, at);
    if let Some(child) = step.forks {
        let (class, end) = (Markup(line_class(step.is_inside)), Number(lane_x(child)));
        html.fill(
            "<path class=\"w @\" d=\"M@ @H@\"/>",
            &[class, Number(own.x), Number(own.y), end],
        )
    }
    let Some(message) = step.takes else {
        return;
    };
    if let Some(sender) = run.steps.get(message.sent_at) {
        if sender.lane != step.lane {
            let from = point_at(sender.lane, message.sent_at);
            add_message(html, from, own, message.is_descriptor)
        }
    }
}

/// Adds the dot of a step: the last one is red.
fn add_dot(html: &mut Html, at: usize, step: &Step, is_last: bool) {
    let (class, radius) = if is_last {
        ("bad", "5")
    } else {
        (line_class(step.is_inside), "3")
    };
    html.fill(
        "<circle class=\"d @\" cx=\"@\" cy=\"@\" r=\"@\"/>",
        &[
            Markup(class),
            Number(lane_x(step.lane)),
            Number(step_y(at)),
            Markup(radius),
        ],
    )
}

/// Adds the lanes of a run, which are hidden from readers: the list says the same.
fn add_lanes(html: &mut Html, run: &Run, width: u32) {
    let height = drawn(run.steps.len()).saturating_mul(ROW);
    html.fill(
        "<svg width=\"@\" height=\"@\" aria-hidden=\"true\">",
        &[Number(width), Number(height)],
    );
    for (number, lane) in run.lanes.iter().enumerate() {
        add_lane(html, number, *lane, height);
    }
    for (at, step) in run.steps.iter().enumerate() {
        add_links(html, run, at, step);
    }
    for (at, step) in run.steps.iter().enumerate() {
        add_dot(html, at, step, at.saturating_add(1) == run.steps.len());
    }
    html.markup("</svg>")
}

/// How many letters of a text are shown.
fn letters(text: &[u8]) -> u32 {
    drawn(text.len().min(MAX_LETTERS))
}

/// How many letters the columns of a run have at most.
#[derive(Clone, Copy)]
struct Widths {
    who: u32,
    text: u32,
    whole: u32,
    result: u32,
    /// The greatest line.
    line: u32,
}

/// The widths of a run's columns.
fn measure(run: &Run) -> Widths {
    let mut widths = Widths {
        who: 0,
        text: 0,
        whole: 0,
        result: 0,
        line: 0,
    };
    for step in &run.steps {
        let text = letters(&step.text);
        widths.who = widths.who.max(letters(&step.who));
        widths.text = widths.text.max(text);
        widths.whole = widths.whole.max(letters(&step.tail).saturating_add(text));
        widths.result = widths.result.max(letters(&step.result));
        widths.line = widths.line.max(step.line);
    }
    widths
}

/// How many digits a number has.
fn digits(number: u32) -> u32 {
    match number {
        0..=9 => 1,
        10..=99 => 2,
        100..=999 => 3,
        1000..=9999 => 4,
        _ => 10,
    }
}

/// Adds a step as an item of the list.
fn add_step(html: &mut Html, run: &Run, at: usize, step: &Step) {
    let number = drawn(at).saturating_add(run.left_out).saturating_add(1);
    html.markup(if at.saturating_add(1) == run.steps.len() {
        "<li class=\"f\">"
    } else {
        "<li>"
    });
    let (program, point) = (step.place.program.as_bytes(), u32::from(step.place.point));
    html.fill(
        "<span class=\"n\">@</span><span>@</span><a class=\"n\" href=\"#@-@\">@</a><span>@",
        &[
            Number(number),
            Shown(&step.who),
            Shown(program),
            Number(point),
            Number(step.line),
            Shown(&step.text),
        ],
    );
    html.show_some("<s>@</s>", &step.tail);
    html.show("</span><span class=\"n\">@</span>", &step.result);
    html.show_some("<span>@</span>", &step.deed);
    html.markup("</li>\n")
}

/// Adds the steps as a list.
fn add_steps(html: &mut Html, run: &Run, width: u32) {
    let widths = measure(run);
    let last = digits(drawn(run.steps.len()).saturating_add(run.left_out));
    let (whole, lines) = (
        Number(widths.whole.saturating_add(1)),
        Number(digits(widths.line)),
    );
    html.fill(
        "<ol style=\"--p:@px;--t:@ch;--s:@ch;--g:@ch @ch @ch;--e:@ch\">\n",
        &[
            Number(width),
            whole,
            Number(widths.text),
            Number(last),
            Number(widths.who),
            lines,
            Number(widths.result),
        ],
    );
    for (at, step) in run.steps.iter().enumerate() {
        add_step(html, run, at, step);
    }
    html.markup("</ol>")
}

/// Adds a run.
pub(crate) fn add_run(html: &mut Html, run: &Run) {
    html.markup(
        "<section id=\"run\"><h2>The run</h2><p class=\"h\">Time goes down, and each process has a lane: thin outside the mode, blue in it. \
        A blue curve is a descriptor that is passed, a thin one a byte.</p>\n",
    );
    if run.left_out > 0 {
        html.fill(
            "<p class=\"h\">@ steps came before these.</p>\n",
            &[Number(run.left_out)],
        )
    }
    html.markup(
        "<div class=\"x\" tabindex=\"0\" role=\"group\" aria-label=\"The run, step by step\"><div class=\"run\">",
    );
    let width = lane_x(run.lanes.len()).saturating_sub(2);
    add_lanes(html, run, width);
    add_steps(html, run, width);
    html.markup("</div></div>\n<p class=\"end\">");
    add_sentence(html, &run.end);
    html.markup("</p></section>\n")
}
