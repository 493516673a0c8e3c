//! The programs, line by line, with what is open at each point and what there is to say of it.

ghost use Rattle.std.specs.Prelude.{◌≡◌, ◌≤◌, length, take};
ghost use Rattle.std.specs.List.{count_by};
ghost use Rattle.page.specs.Letters.{begins_letter};

use crate::html::Html;
use crate::html::Part::{Markup, Number, Shown};
use crate::sentences::add_sentences;
use crate::sheets::{Change, Line, Listing, Mode, OpenKind, OpenState, Remark, RemarkKind};

/// How many letters of a line are shown at most, of its instruction and its comment each.
const MAX_LETTERS: usize = 200;

/// How many bytes of the page a program takes before its last line.
const MAX_TEXT: usize = 300_000;

/// How many bytes all programs take before the last lines.
const MAX_LISTINGS: usize = 640_000;

/// Whether a byte begins a letter, and doesn't go on with one.
fn begins_letter(byte: u8) -> bool
    ensures { result ≡ begins_letter byte }
{
    byte < 128 || 192 <= byte
}

/// The first letters of a text, up to a limit.
pub fn first_letters(text: &[u8], limit: usize) -> &[u8]
    ensures front { result.now ≡ take (length result.now) text.now }
    ensures few { count_by begins_letter result.now ≤ limit }
    ensures whole { count_by begins_letter text.now ≤ limit → result.now ≡ text.now }
{
    let mut letters = 0;
    for (at, byte) in text.iter().enumerate() {
        if begins_letter(*byte) {
            if letters >= limit {
                return &text[..at];
            }
            letters += 1;
        }
    }
    text
}

/// Adds the first letters of a text in a template, behind which it says by dots if there are more.
fn add_letters(html: &mut Html, template: &'static str, text: &[u8]) {
    let front = first_letters(text, MAX_LETTERS);
    let dots = if front.len() < text.len() { "…" } else { "" };
    html.fill(template, &[Shown(front), Markup(dots)])
}

/// Adds the cell of a number.
fn add_state(html: &mut Html, state: OpenState) {
    html.markup(match state.kind {
        OpenKind::Closed => "<td class=\"l",
        OpenKind::Granted => "<td class=\"l G",
        OpenKind::Beyond => "<td class=\"l W",
        OpenKind::End => "<td class=\"l S",
        OpenKind::Nowhere => "<td class=\"l N",
    });
    html.markup(if state.maybe {
        " e\"></td>"
    } else {
        "\"></td>"
    })
}

/// Adds the text of a line: the instruction, where an error leads, and the comment.
fn add_source(html: &mut Html, line: &Line) {
    add_letters(html, "@@", &line.indent);
    add_letters(
        html,
        if line.is_broken { "<u>@@</u>" } else { "@@" },
        &line.text,
    );
    if !line.tail.is_empty() {
        add_letters(html, "<s>@@</s>", &line.tail)
    }
    if !line.comment.is_empty() {
        add_letters(html, "<i>@@</i>", &line.comment)
    }
}

/// Adds what has changed before a point.
fn add_changes(html: &mut Html, changes: &[Change]) {
    html.markup("<ul>");
    for change in changes {
        html.fill(
            "<li class=\"@\">@</li>",
            &[Markup(change.tone.class()), Shown(&change.text)],
        )
    }
    html.markup("</ul>")
}

/// Adds what is told below a line.
fn add_remark(html: &mut Html, remark: &Remark, numbers: &[u8]) {
    let columns = u32::try_from(numbers.len())
        .unwrap_or(u32::MAX)
        .saturating_add(4);
    let class = match remark.kind {
        RemarkKind::Finding => "E",
        RemarkKind::Warning => "E W",
        RemarkKind::Authority => "E M",
    };
    html.fill(
        "<tr class=\"@\"><td colspan=\"@\">",
        &[Markup(class), Number(columns)],
    );
    add_sentences(html, "<p>", &remark.paragraphs, "</p>");
    html.markup("</td></tr>\n")
}

/// The classes of a line's row.
fn row_class(line: &Line) -> &'static str {
    match (line.mode, line.is_broken) {
        (Mode::Outside, false) => "",
        (Mode::Outside, true) => " B",
        (Mode::Inside, false) => "on",
        (Mode::Inside, true) => "on B",
        (Mode::Either, false) => "may",
        (Mode::Either, true) => "may B",
        (Mode::Unreached, _) => "non",
    }
}

/// Adds the cells of a line before its text.
fn add_cells(html: &mut Html, listing: &Listing, line: &Line) {
    match line.point {
        Some(point) => {
            let (number, point) = (Number(line.number), Number(u32::from(point)));
            let (program, class) = (Shown(listing.program.as_bytes()), Markup(row_class(line)));
            html.fill(
                "<tr id=\"@-@\" class=\"@\"><td class=\"k\">@</td><td class=\"q\">@</td><td class=\"o\">@</td>",
                &[program, point, class, number, point, Markup(line.mode_word)],
            )
        }
        None => html.fill(
            "<tr><td class=\"k\">@</td><td class=\"q\"></td><td class=\"o\"></td>",
            &[Number(line.number)],
        ),
    }
    for at in 0..listing.numbers.len() {
        match line.states.get(at) {
            Some(state) => add_state(html, *state),
            None => html.markup("<td class=\"l\"></td>"),
        }
    }
}

/// Adds a line, with what is told below it.
fn add_line(html: &mut Html, listing: &Listing, line: &Line) {
    add_cells(html, listing, line);
    if line.changes.is_empty() {
        html.markup("<td class=\"c\">");
        add_source(html, line)
    } else {
        html.markup("<td class=\"c\"><div class=\"g\"><div>");
        add_source(html, line);
        html.markup("</div>");
        add_changes(html, &line.changes);
        html.markup("</div>")
    }
    html.markup("</td></tr>\n");
    for remark in &line.remarks {
        add_remark(html, remark, &listing.numbers)
    }
}

/// Adds the heads of the columns.
fn add_heads(html: &mut Html, listing: &Listing) {
    html.markup(
        "<thead><tr><th class=\"k\" scope=\"col\">line</th><th class=\"q\" scope=\"col\">point</th><th class=\"o\" scope=\"col\">mode</th>",
    );
    for number in &listing.numbers {
        html.fill(
            "<th class=\"l\" scope=\"col\">@</th>",
            &[Number(u32::from(*number))],
        )
    }
    html.markup(
        "<th class=\"c\" scope=\"col\"><div class=\"g\"><div>program</div><div>changes of what may be open</div></div></th></tr></thead><tbody>\n",
    )
}

/// Adds the lines of a program, as far as they fit the program's share and what is left of that of all. Says how many were left out.
fn add_lines(html: &mut Html, listing: &Listing, room: usize) {
    let start = html.len();
    let mut left_out: u32 = 0;
    for line in &listing.lines {
        if html.len().saturating_sub(start) <= room {
            add_line(html, listing, line)
        } else {
            left_out = left_out.saturating_add(1)
        }
    }
    html.markup("</tbody></table></div>\n");
    if left_out > 0 {
        html.fill(
            "<p class=\"h\">@ more lines aren’t shown: the page would be too long.</p>\n",
            &[Number(left_out)],
        )
    }
}

/// Adds a program.
fn add_listing(html: &mut Html, listing: &Listing, room: usize) {
    let marked = if listing.is_untrusted {
        " <span class=\"mode\">untrusted</span>"
    } else {
        ""
    };
    let program = Shown(listing.program.as_bytes());
    html.fill(
        "<h3>@@</h3>\n<div class=\"x\" tabindex=\"0\" role=\"group\" aria-label=\"The program @\"><table class=\"ls\">",
        &[program, Markup(marked), program],
    );
    add_heads(html, listing);
    add_lines(html, listing, room)
}

/// Adds the programs.
pub(crate) fn add_listings(html: &mut Html, listings: &[Listing]) {
    html.markup(
        "<section id=\"programs\"><h2>Programs</h2>\n<p class=\"h\">Blue rows are in the mode, and a dotted edge is in it or not. \
        Each column behind the mode is a descriptor: black of a grant, blue an end of a pair, red of no grant in the mode, dotted where it may be closed.</p>\n",
    );
    let start = html.len();
    for listing in listings {
        let left = MAX_LISTINGS.saturating_sub(html.len().saturating_sub(start));
        add_listing(html, listing, left.min(MAX_TEXT));
    }
    html.markup("</section>\n")
}
