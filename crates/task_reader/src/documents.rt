//! What stands in the tables of a TOML document.

ghost use Rattle.std.specs.Prelude.{◌≡◌, false, IfErr, IfOk, map, option_map};
ghost use Rattle.toml.specs.Data.{as_bool, as_str, get_member};
ghost use Rattle.toml.specs.View.{array_view, items_view, table_view, view};
ghost use Rattle.task_reader.specs.Documents.{are_once, document_of, each_item, integer_at, is_among, items_at, once, only_keys, read_or, text_at, words_in};
ghost use Rattle.task_reader.specs.FaultViews.{ReadsTask};
ghost use Rattle.task_reader.specs.Reading.{Not_toml, Wrong_field, or_mistake};
ghost use Rattle.task_reader.specs.declared.faults.TaskFault.TheVariants as fault;

use crate::faults::TaskFault;
use indexmap::IndexSet;
use std::alloc::Global;
use toml::value::Array;
use toml::{Table, Value};

/// The document that some bytes are.
pub(crate) fn read_document(alloc: Global, bytes: &[u8]) -> Result<Table, TaskFault>
    ensures { ReadsTask table_view result (or_mistake Not_toml (document_of bytes.now)) }
{
    match toml::table_from_slice(alloc, bytes) {
        Ok(table) => Ok(table),
        Err(error) => {
            if error.is_memory() {
                return Err(TaskFault::Memory);
            }
            Err(TaskFault::NotToml)
        }
    }
}

/// Whether a word is one of these.
pub(crate) fn is_among(word: &str, words: &[&str]) -> bool
    ensures { result ≡ is_among word.now (map (λ w. w.now) words.now) }
{
    for known in words {
        if word == *known {
            return true;
        }
    }
    false
}

/// The words as a set, or nothing where one is given twice.
pub(crate) fn words_once<'a>(
    alloc: Global,
    words: &[&'a str],
) -> Result<Option<IndexSet<&'a str>>, TaskFault>
    ensures once { IfOk result (λ set. option_map (λ s. map (λ w. w.now) s.keys) set ≡ once (map (λ w. w.now) words.now)) }
    ensures memory { IfErr result (λ error. error ≡ fault.Memory) }
{
    let mut set = IndexSet::with_capacity(alloc, words.len())?;
    for word in words {
        let (_, is_new) = set.insert_full(*word)?;
        if !is_new {
            return Ok(None);
        }
    }
    Ok(Some(set))
}

/// Whether no word is given twice.
pub(crate) fn are_once(alloc: Global, words: &[&str]) -> Result<bool, TaskFault>
    ensures once { IfOk result (λ once. once ≡ are_once (map (λ w. w.now) words.now)) }
    ensures memory { IfErr result (λ error. error ≡ fault.Memory) }
{
    Ok(words_once(alloc, words)?.is_some())
}

/// Whether a table has no keys but these.
pub(crate) fn has_only(table: &Table, keys: &[&str]) -> bool
    ensures { result ≡ only_keys (map (λ k. k.now) keys.now) (table_view table.now) }
{
    for (key, _) in table {
        if !is_among(key.as_str(), keys) {
            return false;
        }
    }
    true
}

/// The value at a key.
pub(crate) fn value_at<'a>(table: &'a Table, key: &str) -> Option<&'a Value>
    ensures { option_map (λ v. view v.now) result ≡ get_member key.now (table_view table.now) }
{
    table.get(key)
}

/// The truth value at a key: false, where nothing stands there.
pub(crate) fn truth_at(table: &Table, key: &str) -> Option<bool>
    ensures { result ≡ read_or false as_bool (get_member key.now (table_view table.now)) }
{
    match value_at(table, key) {
        Some(value) => value.as_bool(),
        None => Some(false),
    }
}

/// The text at a key.
pub(crate) fn text_at<'a>(table: &'a Table, key: &str) -> Option<&'a str>
    ensures { option_map (λ s. s.now) result ≡ text_at key.now (table_view table.now) }
{
    match value_at(table, key) {
        Some(value) => value.as_str(),
        None => None,
    }
}

/// The integer at a key.
pub(crate) fn integer_at(table: &Table, key: &str) -> Option<i64>
    ensures { result ≡ integer_at key.now (table_view table.now) }
{
    match value_at(table, key) {
        Some(value) => value.as_integer(),
        None => None,
    }
}

/// The list at a key.
pub(crate) fn items_at<'a>(table: &'a Table, key: &str) -> Option<&'a Array>
    ensures { option_map (λ a. array_view a.now) result ≡ items_at key.now (table_view table.now) }
{
    match value_at(table, key) {
        Some(value) => value.as_array(),
        None => None,
    }
}

/// The texts of a list.
fn read_texts<'a>(alloc: Global, values: &'a [Value]) -> Result<Vec<&'a str>, TaskFault>
    ensures { ReadsTask (λ words. map (λ w. w.now) words.items) result (or_mistake Wrong_field (each_item as_str (items_view values.now))) }
{
    let mut texts = Vec::with_capacity(alloc, values.len())?;
    for value in values {
        match value.as_str() {
            Some(text) => texts.push(text)?,
            None => return Err(TaskFault::Field),
        }
    }
    Ok(texts)
}

/// The words of a list in which none is twice.
pub(crate) fn read_words<'a>(alloc: Global, value: &'a Value) -> Result<Vec<&'a str>, TaskFault>
    ensures { ReadsTask (λ words. map (λ w. w.now) words.items) result (or_mistake Wrong_field (words_in (view value.now))) }
{
    let values = match value.as_array() {
        Some(values) => values,
        None => return Err(TaskFault::Field),
    };
    let words = read_texts(alloc, values)?;
    if are_once(alloc, &words)? {
        Ok(words)
    } else {
        Err(TaskFault::Field)
    }
}
