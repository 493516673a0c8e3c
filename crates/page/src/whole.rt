//! The whole page.

use crate::drawing::add_picture;
use crate::headers::{add_head, add_header};
use crate::html::Html;
use crate::html::Part::{Number, Shown};
use crate::listings::add_listings;
use crate::matrices::add_matrix;
use crate::runs::add_run;
use crate::sheets::{RuleText, Sheet};

/// Adds the rules that are broken, a paragraph each.
fn add_rules(html: &mut Html, rules: &[RuleText]) {
    if rules.is_empty() {
        return;
    }
    html.markup("<section id=\"rules\"><h2>Rules that are broken</h2>\n");
    for rule in rules {
        let number = Number(u32::from(rule.number));
        let parts = [number, number, Shown(&rule.name), Shown(&rule.text)];
        html.fill("<p class=\"rule\" id=\"K@\"><b>K@: @</b> @</p>\n", &parts)
    }
    html.markup("</section>\n")
}

/// Adds the whole page of an answer.
pub fn add_sheet(html: &mut Html, sheet: &Sheet) {
    add_head(html, &sheet.header);
    add_header(html, sheet);
    html.markup("<main>\n");
    if let Some(run) = &sheet.run {
        add_run(html, run)
    }
    add_picture(html, &sheet.picture);
    if let Some(rights) = &sheet.rights {
        add_matrix(html, rights)
    }
    add_listings(html, &sheet.programs);
    add_rules(html, &sheet.rules);
    html.show(
        "</main>\n<footer>Written by <code>capwhy page</code>, which nobody has to believe: <code>@</code> answers the same.</footer>\n\
        </body></html>\n",
        &sheet.command,
    )
}
