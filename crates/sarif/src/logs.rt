//! What a log has.

ghost use Rattle.std.specs.Prelude.{◌≡◌, IfOk, string_bytes};
ghost use Rattle.sarif.specs.Documents.{level_name};
ghost use Rattle.sarif.specs.Logs.{id_text, is_same_id};
ghost use Rattle.sarif.specs.LogViews.{id_seen, level_seen};

use std::alloc::{AllocError, Global};

/// How much a finding weighs. (SARIF 3.27.10)
#[derive(Clone, Copy)]
pub enum Level {
    Error,
    Warning,
    Note,
}

impl Level {
    /// Its name in a log.
    pub fn name(self) -> &'static str
        ensures { result.now ≡ level_name (level_seen self) }
    {
        match self {
            Level::Error => "error",
            Level::Warning => "warning",
            Level::Note => "note",
        }
    }
}

/// What a rule is called in a log.
#[derive(Clone, Copy)]
pub enum RuleId<'a> {
    /// A rule of the checker, by its number: `K7`.
    Numbered(u8),
    /// Anything else, by its name.
    Named(&'a str),
}

impl<'a> RuleId<'a> {
    /// Whether both are the same.
    pub fn is(&self, other: &RuleId<'_>) -> bool
        ensures { result ≡ is_same_id (id_seen self.now) (id_seen other.now) }
    {
        match (*self, *other) {
            (RuleId::Numbered(number), RuleId::Numbered(one)) => number == one,
            (RuleId::Named(name), RuleId::Named(one)) => name == one,
            (RuleId::Numbered(_), RuleId::Named(_)) | (RuleId::Named(_), RuleId::Numbered(_)) => {
                false
            }
        }
    }

    /// Its text.
    pub fn text(&self, alloc: Global) -> Result<String, AllocError>
        ensures { IfOk result (λ text. string_bytes text ≡ id_text (id_seen self.now)) }
    {
        match *self {
            RuleId::Numbered(number) => format!(in alloc; "K{number}"),
            RuleId::Named(name) => String::from_str(alloc, name),
        }
    }
}

/// What a finding may be of. (SARIF 3.49)
#[derive(Clone, Copy)]
pub struct Rule<'a> {
    /// What findings call it by.
    pub id: RuleId<'a>,
    /// How much its findings weigh.
    pub level: Level,
    /// What it is called.
    pub title: &'a str,
    /// What it says.
    pub says: &'a str,
    /// What to do where it is broken.
    pub help: &'a str,
}

/// A place in the file. (SARIF 3.30)
#[derive(Clone, Copy)]
pub struct Place {
    /// A line, counted from 1.
    pub line: u32,
    /// A column of it, counted from 1, where it is known.
    pub column: Option<u32>,
}

/// A finding. (SARIF 3.27)
#[derive(Drop)]
pub struct Finding<'a> {
    /// The id of its rule.
    pub rule: RuleId<'a>,
    /// How much it weighs.
    pub level: Level,
    /// What is told of it. What of it is no UTF-8 is written as U+FFFD.
    pub message: Vec<u8>,
    /// Where in the file it is, if that is known.
    pub place: Option<Place>,
    /// Further places that it tells of, each once.
    pub related: Vec<Place>,
}

/// A log of what was found in one file. (SARIF 3.13, 3.14)
#[derive(Drop)]
pub struct Log<'a> {
    /// The file's name, as it was given.
    pub file: &'a [u8],
    /// The rules that findings may be of, each id once.
    pub rules: Vec<Rule<'a>>,
    /// What was found, in the order in which it is told.
    pub findings: Vec<Finding<'a>>,
}
