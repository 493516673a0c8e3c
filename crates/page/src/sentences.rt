//! Sentences with links in them.

use crate::html::Html;
use crate::html::Part::{Number, Shown};
use texts::Name;

/// How something is meant: shown by a colour, and always said by words too.
#[derive(Clone, Copy)]
pub enum Tone {
    /// As it should be.
    Plain,
    /// Beside the point.
    Faint,
    /// Of the mode, or of descriptors that pass.
    InMode,
    /// Beyond what the policy allows.
    Beyond,
    /// Broken.
    Broken,
}

impl Tone {
    /// The class of its letters.
    pub(crate) fn class(self) -> &'static str {
        match self {
            Tone::Plain => "",
            Tone::Faint => "mute",
            Tone::InMode => "mode",
            Tone::Beyond => "warn",
            Tone::Broken => "bad",
        }
    }

    /// The class of its lines and points.
    pub(crate) fn line_class(self) -> &'static str {
        match self {
            Tone::Plain => "p",
            Tone::Faint => "thin",
            Tone::InMode => "mode",
            Tone::Beyond => "warn",
            Tone::Broken => "bad",
        }
    }
}

/// A point of a program.
#[derive(Clone, Copy)]
pub struct Place {
    pub program: Name,
    pub point: u8,
}

/// A part of a sentence.
#[derive(Drop)]
pub enum Piece {
    /// Words.
    Plain(Vec<u8>),
    /// Words of a program or a command.
    Code(Vec<u8>),
    /// Words that stand out.
    Strong(Vec<u8>),
    /// What kind of thing is told, at the head of an item.
    Tag(Vec<u8>),
    /// A link to a point's row, with its words.
    Link(Place, Vec<u8>),
    /// The name of a rule, which leads to its words.
    Rule(u8),
    /// The name of a rule at the head of an item.
    RuleTag(u8),
}

/// Adds a part of a sentence.
fn add_piece(html: &mut Html, piece: &Piece) {
    let (template, words) = match piece {
        Piece::Plain(words) => ("@", words),
        Piece::Code(words) => ("<code>@</code>", words),
        Piece::Strong(words) => ("<b>@</b>", words),
        Piece::Tag(words) => ("<span class=\"tag warn\">@</span>", words),
        Piece::Link(place, words) => {
            let (program, point) = (Shown(place.program.as_bytes()), u32::from(place.point));
            return html.fill(
                "<a href=\"#@-@\">@</a>",
                &[program, Number(point), Shown(words)],
            );
        }
        Piece::Rule(rule) => return add_rule(html, "<a href=\"#K@\"><b>K@</b></a>", *rule),
        Piece::RuleTag(rule) => {
            return add_rule(html, "<a class=\"tag bad\" href=\"#K@\">K@</a>", *rule);
        }
    };
    html.show(template, words)
}

/// Adds a link to the words of a rule.
fn add_rule(html: &mut Html, template: &'static str, rule: u8) {
    let number = Number(u32::from(rule));
    html.fill(template, &[number, number])
}

/// Adds a sentence, part by part.
pub(crate) fn add_sentence(html: &mut Html, sentence: &[Piece]) {
    for piece in sentence {
        add_piece(html, piece);
    }
}

/// Adds sentences, each in an element.
pub(crate) fn add_sentences(
    html: &mut Html,
    begin: &'static str,
    sentences: &[Vec<Piece>],
    end: &'static str,
) {
    for sentence in sentences {
        html.markup(begin);
        add_sentence(html, sentence);
        html.markup(end)
    }
}
