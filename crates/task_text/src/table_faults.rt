//! Faults in which keys a table has beside each other, and in what lies past a limit.

use crate::decoded::decode;
use crate::faults::Faults;
use crate::fields::{Fields, Table, TableKind};
use crate::places::part;
use crate::tokens::{Token, TokenKind};
use rights::limits::{
    MAX_BYTES, MAX_GRANTS, MAX_NODES, MAX_PAIRS, MAX_PATH, MAX_PROCESSES, MAX_PROGRAMS,
};
use std::alloc::AllocError;
use texts::{is_number, number_up_to, parts_of};

/// A table by its place among all, whose keys are looked at.
#[derive(Clone, Copy)]
struct Keys<'a> {
    fields: &'a Fields,
    table: usize,
    start: usize,
}

impl<'a> Keys<'a> {
    /// Where a key stands, if the table has it.
    fn place(&self, file: &[u8], key: &str) -> Option<usize> {
        let entry = self.fields.entry_at(file, self.table, key.as_bytes())?;
        Some(entry.key.start)
    }

    /// Whether the table has a key.
    fn has(&self, file: &[u8], key: &str) -> bool {
        self.place(file, key).is_some()
    }

    /// The value of a key, if the table has it.
    fn value(&self, file: &[u8], key: &str) -> Option<Token> {
        self.fields.value_at(file, self.table, key.as_bytes())
    }

    /// Tells that a key doesn't belong here, if it is there.
    fn refuse(&self, faults: &mut Faults<'_>, key: &str, text: &str) {
        if let Some(place) = self.place(faults.file, key) {
            faults.add_of(place, key.as_bytes(), text);
        }
    }

    /// Tells that a key is missing, if it is.
    fn want(&self, faults: &mut Faults<'_>, what: &str, key: &str) {
        if !self.has(faults.file, key) {
            faults.add(self.start, parts_of!(what, " without `", key, "`"));
        }
    }
}

/// Tells of the number of a pair that no pair has.
fn add_pair(faults: &mut Faults<'_>, pair: Token) {
    let digits = pair.written(faults.file);
    let is_word = matches!(pair.kind, TokenKind::Word);
    if is_word && is_number(digits) && number_up_to(digits, u32::from(MAX_PAIRS) - 1).is_err() {
        faults.add_of(pair.start, digits, "is no number from 0 to 31");
    }
}

/// Tells of a list without a word.
fn add_empty_list(faults: &mut Faults<'_>, list: Token, text: &str) {
    let behind = part(faults.file, list.end, faults.file.len());
    let next = behind.iter().find(|byte| !byte.is_ascii_whitespace());
    if matches!(list.kind, TokenKind::OpenBracket) && next == Some(&b']') {
        faults.add(list.start, text);
    }
}

/// Tells of the keys of a descriptor that don't go together: it is of a path, or of an end of a pair.
fn add_descriptor(faults: &mut Faults<'_>, keys: Keys<'_>) {
    let file = faults.file;
    if keys.has(file, "path") {
        let text = "doesn't go with `path`: a descriptor is of a path, or of a side of a pair";
        keys.refuse(faults, "pair", text);
        keys.refuse(faults, "side", text);
    } else if !keys.has(file, "pair") && !keys.has(file, "side") {
        faults.add(
            keys.start,
            "a descriptor without `path`, or `pair` and `side`",
        );
    } else {
        keys.want(faults, "a descriptor of a pair", "pair");
        keys.want(faults, "a descriptor of a pair", "side");
        keys.refuse(faults, "flags", "is of a path alone");
    }
    if let Some(pair) = keys.value(file, "pair") {
        add_pair(faults, pair);
    }
    if let Some(flags) = keys.value(file, "flags") {
        add_empty_list(
            faults,
            flags,
            "`flags` has no word: it is read, write or both",
        );
    }
}

/// Tells of a text that has too few or too many bytes.
fn add_length(
    faults: &mut Faults<'_>,
    value: Option<Token>,
    least: usize,
    most: usize,
    text: &str,
) -> Result<(), AllocError> {
    let Some(value) = value else {
        return Ok(());
    };
    if matches!(value.kind, TokenKind::Text(_)) {
        let count = decode(faults.alloc, faults.file, value)?.bytes.len();
        if count < least || count > most {
            faults.add(value.start, text);
        }
    }
    Ok(())
}

/// Tells of the keys of a node that don't go with its kind, and of too long a content or target.
fn add_node(faults: &mut Faults<'_>, keys: Keys<'_>) -> Result<(), AllocError> {
    let file = faults.file;
    let Some(kind) = keys.value(file, "kind") else {
        return Ok(());
    };
    let kind = str::from_utf8(kind.written(file)).unwrap_or("");
    if kind == "dir" || kind == "link" {
        keys.refuse(faults, "content", "is of a file alone");
    }
    if kind == "dir" || kind == "file" {
        keys.refuse(faults, "target", "is of a link alone");
    }
    if kind == "file" {
        keys.want(faults, "a file", "content");
    }
    if kind == "link" {
        keys.want(faults, "a link", "target");
    }
    let (content, target) = (keys.value(file, "content"), keys.value(file, "target"));
    add_length(
        faults,
        content,
        0,
        MAX_BYTES,
        "a file has at most 4096 bytes",
    )?;
    add_length(
        faults,
        target,
        1,
        MAX_PATH,
        "a link's target has 1 to 1023 bytes",
    )
}

/// How many tables of a kind a task has at most, and what is told of one more.
fn most_of(kind: TableKind) -> Option<(usize, &'static str)> {
    match kind {
        TableKind::Node => Some((MAX_NODES - 1, "a task lists at most 1023 nodes")),
        TableKind::Grant => Some((MAX_GRANTS, "a task has at most 8 grants")),
        TableKind::Process => Some((MAX_PROCESSES, "a task starts with at most 16 processes")),
        TableKind::Program => Some((MAX_PROGRAMS, "a task has at most 8 programs")),
        TableKind::Top | TableKind::Descriptor | TableKind::Other => None,
    }
}

/// Tells of the first table of a kind that is one too many.
fn add_too_many(faults: &mut Faults<'_>, tables: &[Table], kind: TableKind) {
    let Some((most, text)) = most_of(kind) else {
        return;
    };
    let mut count = 0usize;
    for table in tables {
        if table.kind == kind {
            if count == most {
                faults.add(table.start, text);
            }
            count = count.saturating_add(1);
        }
    }
}

/// Tells of keys that don't go together, and of what lies past a limit.
pub(crate) fn add_table_faults(faults: &mut Faults<'_>, fields: &Fields) -> Result<(), AllocError> {
    for (number, table) in fields.tables.iter().enumerate() {
        let keys = Keys {
            fields,
            table: number,
            start: table.start,
        };
        match table.kind {
            TableKind::Node => add_node(faults, keys)?,
            TableKind::Descriptor => add_descriptor(faults, keys),
            _ => {}
        }
    }
    for kind in [
        TableKind::Node,
        TableKind::Grant,
        TableKind::Process,
        TableKind::Program,
    ]
    .iter()
    {
        add_too_many(faults, &fields.tables, *kind);
    }
    Ok(())
}
