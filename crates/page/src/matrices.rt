//! The rights in the mode, a row for each program and grant, a column for each right.

use crate::html::Html;
use crate::html::Part::{Markup, Shown};
use crate::sentences::{Tone, add_sentences};
use crate::sheets::PointGroup;

/// How many rights there are.
pub const RIGHTS: usize = 14;

/// The heads of the columns: the rights by what they are for, and below that each in the order of a row's cells.
const HEADS: &str = "\
    <thead><tr><td></td>\
    <th class=\"o\" colspan=\"2\" scope=\"colgroup\"><b>look</b></th><th class=\"o\" colspan=\"1\" scope=\"colgroup\"><b>read</b></th>\
    <th class=\"o\" colspan=\"2\" scope=\"colgroup\"><b>write</b></th><th class=\"o\" colspan=\"3\" scope=\"colgroup\"><b>create</b></th>\
    <th class=\"o\" colspan=\"2\" scope=\"colgroup\"><b>remove</b></th><th class=\"o\" colspan=\"4\" scope=\"colgroup\"><b>other</b></th>\
    <td></td></tr><tr><td></td>\
    <th scope=\"col\"><span>FSTAT</span></th><th scope=\"col\"><span>FSTATAT</span></th><th scope=\"col\"><span>READ</span></th>\
    <th scope=\"col\"><span>WRITE</span></th><th scope=\"col\"><span>FTRUNCATE</span></th><th scope=\"col\"><span>CREATE</span></th>\
    <th scope=\"col\"><span>MKDIRAT</span></th><th scope=\"col\"><span>RENAMEAT_TARGET</span></th><th scope=\"col\"><span>UNLINKAT</span></th>\
    <th scope=\"col\"><span>RENAMEAT_SOURCE</span></th><th scope=\"col\"><span>LOOKUP</span></th><th scope=\"col\"><span>SEEK</span></th>\
    <th scope=\"col\"><span>FSYNC</span></th><th scope=\"col\"><span>FCNTL</span></th>\
    <td></td></tr></thead>\
    ";

/// Whether a right is held, and how.
#[derive(Clone, Copy, PartialEq, Eq)]
pub enum Mark {
    /// It isn't held.
    None,
    /// It is held, and may be used or passed on.
    Used,
    /// It is held, and no call there needs it.
    Idle,
    /// It is held beyond what the grant allows.
    Beyond,
    /// It is used beyond what the grant allows, or held in no grant.
    Broken,
}

/// A right of a program in a grant.
#[derive(Clone, Copy)]
pub struct Cell {
    pub mark: Mark,
    /// Whether the grant allows what the right is for.
    pub is_allowed: bool,
}

/// What a program holds of a grant.
#[derive(Drop)]
pub struct MatrixRow {
    pub grant: Vec<u8>,
    pub path: Vec<u8>,
    /// The rights in the order of the columns.
    pub cells: [Cell; RIGHTS],
    /// How many are used, in words.
    pub count: Vec<u8>,
    /// The further rights, in words; empty where there is nothing to tell of them.
    pub further: Vec<u8>,
    pub tone: Tone,
}

/// What a program holds.
#[derive(Drop)]
pub struct MatrixGroup {
    pub title: Vec<u8>,
    pub rows: Vec<MatrixRow>,
}

/// The rights in the mode.
#[derive(Drop)]
pub struct Matrix {
    pub groups: Vec<MatrixGroup>,
    /// What is held point by point.
    pub points: Vec<PointGroup>,
}

/// Adds a right of a row.
fn add_cell(html: &mut Html, cell: Cell) {
    html.markup(if cell.is_allowed {
        "<td class=\"a\">"
    } else {
        "<td>"
    });
    html.markup(match cell.mark {
        Mark::None => "</td>",
        Mark::Used => "<i class=\"u\">may be used</i></td>",
        Mark::Idle => "<i>held</i></td>",
        Mark::Beyond => "<i class=\"y\">held beyond the grant</i></td>",
        Mark::Broken => "<i class=\"z\">used beyond the grant</i></td>",
    })
}

/// How many letters of a path are shown at each end of a long one.
const PATH_ENDS: usize = 16;

/// Adds the path of a grant, if it has one: of a long one the middle is left out.
fn add_path(html: &mut Html, path: &[u8]) {
    if path.len() <= 2 * PATH_ENDS {
        return html.show_some(" <small>@</small>", path);
    }
    let (front, back) = (&path[..PATH_ENDS], &path[path.len() - PATH_ENDS..]);
    html.fill(" <small>@…@</small>", &[Shown(front), Shown(back)])
}

/// Adds a row.
fn add_row(html: &mut Html, row: &MatrixRow) {
    html.show("<tr class=\"r\"><th scope=\"row\"><b>@</b>", &row.grant);
    add_path(html, &row.path);
    html.markup("</th>");
    for cell in &row.cells {
        add_cell(html, *cell);
    }
    let parts = [Markup(row.tone.class()), Shown(&row.count)];
    html.fill(
        "<td class=\"v\"><span class=\"@\">@</span></td></tr>\n",
        &parts,
    );
    html.show_some(
        "<tr class=\"r\"><td></td><td class=\"v\" colspan=\"15\">further rights: @</td></tr>\n",
        &row.further,
    )
}

/// Adds the rows of a program.
fn add_group(html: &mut Html, group: &MatrixGroup) {
    html.show(
        "<tbody><tr class=\"p\"><th colspan=\"16\" scope=\"rowgroup\">@</th></tr>\n",
        &group.title,
    );
    for row in &group.rows {
        add_row(html, row);
    }
    html.markup("</tbody>")
}

/// Whether some right has this mark.
fn has_mark(matrix: &Matrix, mark: Mark) -> bool {
    for group in &matrix.groups {
        for row in &group.rows {
            for cell in &row.cells {
                if cell.mark == mark {
                    return true;
                }
            }
        }
    }
    false
}

/// Adds what a mark stands for, if it occurs.
fn add_meaning(html: &mut Html, matrix: &Matrix, mark: Mark, meaning: &'static str) {
    if has_mark(matrix, mark) {
        html.markup(meaning)
    }
}

/// Adds the key.
fn add_key(html: &mut Html, matrix: &Matrix) {
    html.markup("<p class=\"key\">");
    add_meaning(
        html,
        matrix,
        Mark::Used,
        "<span><i class=\"u\">&nbsp;</i>held, and may be used or passed on</span>",
    );
    add_meaning(
        html,
        matrix,
        Mark::Idle,
        "<span><i>&nbsp;</i>held, and no call there needs it</span>",
    );
    add_meaning(
        html,
        matrix,
        Mark::Beyond,
        "<span><i class=\"y\">&nbsp;</i>held beyond what the grant allows</span>",
    );
    add_meaning(
        html,
        matrix,
        Mark::Broken,
        "<span><i class=\"z\">&nbsp;</i>used beyond what the grant allows, or in no grant</span>",
    );
    html.markup("<span><span class=\"a\">&nbsp;</span>the grant allows what it is for</span></p>")
}

/// Adds what is held point by point.
fn add_points(html: &mut Html, points: &[PointGroup]) {
    html.markup("<details><summary>By point, outside the mode too</summary>");
    for group in points {
        html.show("<h3>@</h3><ul>", group.program.as_bytes());
        add_sentences(html, "<li>", &group.items, "</li>");
        html.markup("</ul>\n")
    }
    html.markup("</details>")
}

/// Adds the rights in the mode.
pub(crate) fn add_matrix(html: &mut Html, matrix: &Matrix) {
    html.markup(
        "<section id=\"rights\"><h2>Rights in the mode</h2><p class=\"h\">All rights that some descriptor of a program may have in a grant, \
        at any point in the mode, sorted by what they are for.</p>\n\
        <div class=\"x\" tabindex=\"0\" role=\"group\" aria-label=\"Rights by program and grant\"><table class=\"mx\">",
    );
    html.markup(HEADS);
    for group in &matrix.groups {
        add_group(html, group);
    }
    html.markup("</table></div>");
    add_key(html, matrix);
    add_points(html, &matrix.points);
    html.markup("</section>\n")
}
