//! The head of a page: what was asked, the verdict, what to do with it, and what it doesn't say.

use crate::html::Html;
use crate::html::Part::{Markup, Shown};
use crate::sentences::{add_sentence, add_sentences};
use crate::sheets::{Column, Header, Item, Sheet, Verdict};
use crate::styles::{LISTING_STYLE, NARROW_STYLE, PICTURE_STYLE, WORDS_STYLE};

impl Verdict {
    /// The class of its word.
    fn class(self) -> &'static str {
        match self {
            Verdict::Yes => "yes",
            Verdict::Open => "open",
            Verdict::No => "no",
        }
    }
}

/// Adds what no reader sees: the title, the style, and that nothing is fetched and nothing runs.
pub(crate) fn add_head(html: &mut Html, header: &Header) {
    let parts = [Shown(&header.title), Shown(&header.task)];
    html.fill(
        "<!DOCTYPE html>\n<html lang=\"en\"><head><meta charset=\"utf-8\"><meta name=\"viewport\" content=\"width=device-width,initial-scale=1\">\
        <meta http-equiv=\"Content-Security-Policy\" content=\"default-src 'none'; style-src 'unsafe-inline'\"><title>Capcheck: @, @</title>\n<style>\n",
        &parts,
    );
    html.markup(WORDS_STYLE);
    html.markup(PICTURE_STYLE);
    html.markup(LISTING_STYLE);
    html.markup(NARROW_STYLE);
    html.markup("</style></head><body>\n")
}

/// Adds links to the parts that the page has.
fn add_links(html: &mut Html, sheet: &Sheet) {
    let parts = [
        Markup(if sheet.run.is_some() {
            "<a href=\"#run\">Run</a>"
        } else {
            ""
        }),
        Markup(if sheet.rights.is_some() {
            "<a href=\"#rights\">Rights</a>"
        } else {
            ""
        }),
        Markup(if sheet.rules.is_empty() {
            ""
        } else {
            "<a href=\"#rules\">Rules</a>"
        }),
    ];
    html.fill(
        "<nav aria-label=\"Parts\">@<a href=\"#picture\">Picture</a>@<a href=\"#programs\">Programs</a>@</nav>",
        &parts,
    )
}

/// Adds an item, with the places below it.
fn add_item(html: &mut Html, item: &Item) {
    html.markup("<li>");
    add_sentence(html, &item.words);
    if !item.below.is_empty() {
        html.markup("<ul>");
        add_sentences(html, "<li>", &item.below, "</li>");
        html.markup("</ul>")
    }
    html.markup("</li>\n")
}

/// Adds a column.
fn add_column(html: &mut Html, column: &Column) {
    html.show("<div><h3>@</h3>", &column.heading);
    if !column.items.is_empty() {
        html.markup("<ul>\n");
        for item in &column.items {
            add_item(html, item);
        }
        html.markup("</ul>")
    }
    html.markup("</div>")
}

/// Adds the header: the files, the verdict, and two columns.
pub(crate) fn add_header(html: &mut Html, sheet: &Sheet) {
    let header = &sheet.header;
    html.show(
        "<header><div class=\"file\"><span>Capcheck of <b>@</b>",
        &header.task,
    );
    if let Some(certificate) = &header.certificate {
        html.show(" with <b>@</b>", certificate)
    }
    html.markup("</span>");
    add_links(html, sheet);
    let parts = [
        Markup(header.verdict.class()),
        Shown(&header.word),
        Shown(&header.heading),
    ];
    html.fill(
        "</div>\n<h1><b class=\"@\">@</b> @</h1>\n<p class=\"lead\">",
        &parts,
    );
    add_sentence(html, &header.lead);
    html.markup("</p>\n<div class=\"two\">");
    add_column(html, &header.left);
    add_column(html, &header.right);
    html.markup("</div></header>\n")
}
