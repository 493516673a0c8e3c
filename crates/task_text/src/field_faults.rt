//! Faults in the keys and words of a task's text.

use crate::decoded::decode;
use crate::faults::Faults;
use crate::fields::{Entry, Fields, Item, Table, TableKind, kind_beneath};
use crate::known_words::{
    OF_FREEBSD, Value, is_of_freebsd, keys_of, kind_name, needed_keys, value_of,
};
use crate::near::{is_known, meant};
use crate::places::part;
use crate::tokens::{Token, TokenKind};
use std::alloc::AllocError;
use texts::{is_name, parts_of};

/// The key of this name that tables of a kind may have.
fn key_named(kind: TableKind, name: &[u8]) -> Option<&'static str> {
    keys_of(kind)
        .iter()
        .find(|key| key.as_bytes() == name)
        .copied()
}

/// What a value has to be that isn't even of the right kind.
fn wanted_kind(file: &[u8], expected: Value, value: Token) -> Option<&'static str> {
    let is_word = matches!(value.kind, TokenKind::Word);
    let is_text = matches!(value.kind, TokenKind::Text(_));
    let is_list = matches!(value.kind, TokenKind::OpenBracket);
    let (is_right, wanted) = match expected {
        Value::Text | Value::Name | Value::OneOf(_) => (is_text, "a text in quotes"),
        Value::Number => (is_word, "a number"),
        Value::Truth => {
            let is_truth = is_known(value.written(file), &["true", "false"]);
            (is_word && is_truth, "true or false")
        }
        Value::Words(_) => (is_list, "a list of words in brackets"),
        Value::Tables => (is_list, "a list of tables in brackets"),
    };
    if is_right { None } else { Some(wanted) }
}

/// Tells of a value that isn't what its key wants.
fn add_value(
    faults: &mut Faults<'_>,
    expected: Value,
    key: &'static str,
    value: Token,
) -> Result<(), AllocError> {
    if let Some(wanted) = wanted_kind(faults.file, expected, value) {
        faults.add_of(value.start, key.as_bytes(), parts_of!("is ", wanted));
        return Ok(());
    }
    let word = decode(faults.alloc, faults.file, value)?.bytes;
    match expected {
        Value::OneOf(known) if !is_known(&word, known) => {
            faults.add_word(value.start, key, &word, known);
        }
        Value::Name if !is_name(&word) => {
            let text = "is no name: a letter a to z, then up to 15 of a to z, 0 to 9 and _";
            faults.add_of(value.start, &word, text);
        }
        _ => {}
    }
    Ok(())
}

/// Tells of a key that tables of its kind don't have. Where a task's own is not meant, those that each task has are told.
fn add_unknown_key(faults: &mut Faults<'_>, kind: TableKind, place: usize, name: &[u8]) {
    let known = match kind {
        TableKind::Top if meant(name, keys_of(kind)).is_none() => needed_keys(kind),
        _ => keys_of(kind),
    };
    faults.add_word(place, parts_of!("key of ", kind_name(kind)), name, known);
}

/// Tells of the faults of a key and its value.
fn add_entry(faults: &mut Faults<'_>, fields: &Fields, entry: &Entry) -> Result<(), AllocError> {
    let kind = fields.kind_of(entry.table);
    if kind == TableKind::Other {
        return Ok(());
    }
    let name = entry.key.written(faults.file);
    match (key_named(kind, name), entry.value) {
        (Some(key), Some(value)) => {
            add_value(faults, value_of(faults.wide, kind, key), key, value)
        }
        (Some(_), None) => Ok(()),
        (None, _) => {
            add_unknown_key(faults, kind, entry.key.start, name);
            Ok(())
        }
    }
}

/// Whether a word stands in its list before, by its place among all words. A known word is found after few others that are known.
fn is_twice(file: &[u8], fields: &Fields, number: usize, item: Item) -> bool {
    let word = item.word.written(file);
    let before = fields.items.get(..number).unwrap_or(&[]);
    before
        .iter()
        .rev()
        .take_while(|other| other.entry == item.entry)
        .any(|other| other.word.written(file) == word)
}

/// The key of the list that a word stands in, and the words that the list may have, if these are known.
fn list_of(
    file: &[u8],
    wide: bool,
    fields: &Fields,
    item: Item,
) -> Option<(&'static str, &'static [&'static str])> {
    let entry = fields.entries.get(item.entry)?;
    let kind = fields.kind_of(entry.table);
    let key = key_named(kind, entry.key.written(file))?;
    match value_of(wide, kind, key) {
        Value::Words(known) => Some((key, known)),
        _ => None,
    }
}

/// Tells of the fault of a word of a list, by its place among all words.
fn add_item(faults: &mut Faults<'_>, fields: &Fields, number: usize, item: Item) {
    let Some((key, known)) = list_of(faults.file, faults.wide, fields, item) else {
        return;
    };
    let word = item.word.written(faults.file);
    let start = item.word.start;
    if !matches!(item.word.kind, TokenKind::Text(_)) {
        faults.add_of(start, word, "is to be in quotes");
    } else if is_of_freebsd(faults.wide, word) {
        faults.add_of(start, word, OF_FREEBSD);
    } else if !is_known(word, known) {
        faults.add_word(start, key, word, known);
    } else if is_twice(faults.file, fields, number, item) {
        faults.add_of(start, word, "is in the list before");
    }
}

/// Whether a table has a key, or one of its kind is there by a header.
fn has_key(file: &[u8], fields: &Fields, number: usize, table: &Table, key: &str) -> bool {
    let beneath = kind_beneath(table.kind, key.as_bytes());
    fields.entry_at(file, number, key.as_bytes()).is_some()
        || beneath != TableKind::Other && table.holds(beneath)
}

/// The name of a table that no task has, where its header stands.
fn unknown_name<'a>(file: &'a [u8], table: &Table) -> Option<&'a [u8]> {
    if table.kind != TableKind::Other || !part(file, 0, table.start).ends_with(b"[") {
        return None;
    }
    let rest = part(file, table.start, file.len());
    let end = rest.iter().position(|byte| *byte == b']' || *byte == b'\n');
    Some(part(rest, 0, end.unwrap_or(rest.len())))
}

/// Tells of a table that no task has, or of the keys that a table lacks.
fn add_table(faults: &mut Faults<'_>, fields: &Fields, number: usize, table: &Table) {
    if let Some(name) = unknown_name(faults.file, table) {
        faults.add_word(table.start, "table", name, needed_keys(TableKind::Top));
    }
    for key in needed_keys(table.kind) {
        if !has_key(faults.file, fields, number, table, *key) {
            let said = parts_of!(kind_name(table.kind), " without `", *key, "`");
            faults.add(table.start, said);
        }
    }
}

/// Tells of the faults in keys and words.
pub(crate) fn add_field_faults(faults: &mut Faults<'_>, fields: &Fields) -> Result<(), AllocError> {
    for (number, table) in fields.tables.iter().enumerate() {
        add_table(faults, fields, number, table);
    }
    for entry in &fields.entries {
        add_entry(faults, fields, entry)?;
    }
    for (number, item) in fields.items.iter().enumerate() {
        add_item(faults, fields, number, *item);
    }
    Ok(())
}
