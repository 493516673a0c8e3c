//! Faults in the paths, numbers and names of a task's text.

use crate::decoded::decode;
use crate::faults::Faults;
use crate::fields::{Fields, Item as ListWord, Table, TableKind};
use crate::near::meant;
use crate::places::part;
use crate::tokens::TokenKind;
use file_tree::lies_at;
use indexmap::IndexMap;
use prog_asm::is_valid_path;
use rights::limits::{MAX_DESCRIPTORS, MAX_GRANTS, MAX_NAME, MAX_PROGRAMS};
use std::alloc::{AllocError, Global};
use texts::{is_number, number_up_to, parts_of};

/// What a key stands for, and where that stands.
#[derive(Drop)]
struct Told {
    bytes: Vec<u8>,
    place: usize,
}

/// A node, a grant, a process, a program or a descriptor, as its text tells it.
#[derive(Drop)]
struct Item {
    kind: TableKind,
    parent: usize,
    /// Its path, or the program that a process names.
    path: Option<Told>,
    /// Its name, or the number of a descriptor.
    name: Option<Told>,
    is_directory: bool,
    is_link: bool,
    writes: bool,
}

/// What a table is found by: a node by its path, a grant and a program by their names, a descriptor by its number in its process.
#[derive(Clone, Copy, PartialEq, Eq, Hash)]
struct Key<'t> {
    kind: TableKind,
    parent: usize,
    word: &'t [u8],
}

/// What all tables tell, and which of those that are found by the same comes first, by its place among all.
#[derive(Drop)]
struct Known<'t> {
    items: &'t [Item],
    firsts: IndexMap<Key<'t>, usize>,
    /// The grants and the names of the programs, as many as a task may have.
    grants: Vec<usize>,
    programs: Vec<&'t str>,
}

/// What the key of a table stands for, if the table has it.
fn told_at(
    faults: &Faults<'_>,
    fields: &Fields,
    table: usize,
    key: &str,
) -> Result<Option<Told>, AllocError> {
    let Some(token) = fields.value_at(faults.file, table, key.as_bytes()) else {
        return Ok(None);
    };
    let bytes = match token.kind {
        TokenKind::Text(_) | TokenKind::Word => decode(faults.alloc, faults.file, token)?.bytes,
        _ => Vec::new(faults.alloc),
    };
    let place = token.start;
    Ok(Some(Told { bytes, place }))
}

/// What a table tells.
fn read_item(
    faults: &Faults<'_>,
    fields: &Fields,
    number: usize,
    table: &Table,
) -> Result<Item, AllocError> {
    let (path, name) = match table.kind {
        TableKind::Process => ("program", "name"),
        TableKind::Descriptor => ("path", "number"),
        _ => ("path", "name"),
    };
    let kind = told_at(faults, fields, number, "kind")?;
    let is_kind = |word: &str| match &kind {
        Some(kind) => meant(&kind.bytes, &[word]).is_some(),
        None => false,
    };
    Ok(Item {
        kind: table.kind,
        parent: table.parent,
        path: told_at(faults, fields, number, path)?,
        name: told_at(faults, fields, number, name)?,
        is_directory: is_kind("dir"),
        is_link: is_kind("link"),
        writes: false,
    })
}

/// The table that a word of a list is of, if it is the flag `write`.
fn written_by(file: &[u8], fields: &Fields, word: &ListWord) -> Option<usize> {
    let entry = fields.entries.get(word.entry)?;
    let is_flags = entry.key.written(file) == b"flags".as_slice();
    if is_flags && word.word.written(file) == b"write".as_slice() {
        return Some(entry.table);
    }
    None
}

/// All that tables tell, in the order of the text.
fn all_items(faults: &Faults<'_>, fields: &Fields) -> Result<Vec<Item>, AllocError> {
    let mut items = Vec::new(faults.alloc);
    for (number, table) in fields.tables.iter().enumerate() {
        items.push(read_item(faults, fields, number, table)?)?;
    }
    for word in &fields.items {
        let Some(table) = written_by(faults.file, fields, word) else {
            continue;
        };
        if let Some(item) = items.get_mut(table) {
            item.writes = true;
        }
    }
    Ok(items)
}

/// What is wrong with a name of a path.
fn name_fault(name: &[u8]) -> Option<&'static str> {
    if !is_valid_path(name) {
        return Some("has a byte that no name has");
    }
    match name {
        [] => Some("has two slashes in a row"),
        [b'.'] | [b'.', b'.'] => Some("has a `.` or `..`, which no path of a task has"),
        _ if name.len() > MAX_NAME => Some("has a name of more than 255 bytes"),
        _ => None,
    }
}

/// What is wrong in the form of a path: it is `/`, or names after a `/` each.
fn form_fault(path: &[u8]) -> Option<&'static str> {
    if path == b"/".as_slice() {
        return None;
    }
    let Some(names) = path.strip_prefix(b"/".as_slice()) else {
        return Some("doesn't begin with `/`");
    };
    if path.ends_with(b"/") {
        return Some("ends with a slash");
    }
    names.split(|byte| *byte == b'/').find_map(name_fault)
}

/// The directory that a path is in: all before its last slash.
fn directory_of(path: &[u8]) -> &[u8] {
    let end = path.iter().rposition(|byte| *byte == b'/').unwrap_or(0);
    part(path, 0, end)
}

/// Whether a path is another, or is beneath it.
fn is_beneath(path: &[u8], above: &[u8]) -> bool {
    lies_at(without_slash(above), path)
}

/// A path without a slash at its end.
fn without_slash(path: &[u8]) -> &[u8] {
    path.strip_suffix(b"/".as_slice()).unwrap_or(path)
}

/// What a key stands for; nothing where there is none.
fn bytes_of(told: &Option<Told>) -> &[u8] {
    match told {
        Some(told) => &told.bytes,
        None => &[],
    }
}

impl Item {
    /// What it is found by, if anything.
    fn key(&self) -> Option<Key<'_>> {
        let kind = self.kind;
        let (parent, word) = match kind {
            TableKind::Node => (0, without_slash(bytes_of(&self.path))),
            TableKind::Grant | TableKind::Program => (0, bytes_of(&self.name)),
            TableKind::Descriptor => (self.parent, bytes_of(&self.name)),
            TableKind::Top | TableKind::Process | TableKind::Other => return None,
        };
        Some(Key { kind, parent, word })
    }
}

impl<'t> Known<'t> {
    /// What these tables tell.
    fn new(alloc: Global, items: &'t [Item]) -> Result<Known<'t>, AllocError> {
        let mut known = Known {
            items,
            firsts: IndexMap::with_capacity(alloc, items.len())?,
            grants: Vec::new(alloc),
            programs: Vec::new(alloc),
        };
        for (number, item) in items.iter().enumerate() {
            known.add(number, item)?;
        }
        Ok(known)
    }

    /// Adds a table, by its place among all.
    fn add(&mut self, number: usize, item: &'t Item) -> Result<(), AllocError> {
        if let Some(key) = item.key() {
            if !self.firsts.contains_key(&key) {
                self.firsts.insert(key, number)?;
            }
        }
        if item.kind == TableKind::Grant && self.grants.len() < MAX_GRANTS {
            self.grants.push(number)?;
        }
        if item.kind == TableKind::Program && self.programs.len() < MAX_PROGRAMS {
            if let Ok(name) = str::from_utf8(bytes_of(&item.name)) {
                self.programs.push(name)?;
            }
        }
        Ok(())
    }

    /// Whether another table before this one is found by the same.
    fn is_twice(&self, number: usize, item: &Item) -> bool {
        match item.key() {
            Some(key) => self.firsts.get(&key).copied() != Some(number),
            None => false,
        }
    }

    /// The first node of a path or program of a name, by its place among all.
    fn first(&self, kind: TableKind, word: &[u8]) -> Option<usize> {
        let parent = 0;
        self.firsts.get(&Key { kind, parent, word }).copied()
    }

    /// The first node of a path.
    fn node_at(&self, path: &[u8]) -> Option<&Item> {
        self.items
            .get(self.first(TableKind::Node, without_slash(path))?)
    }

    /// Whether the node of a path is a directory; the root is one.
    fn is_directory(&self, path: &[u8]) -> bool {
        without_slash(path).is_empty() || self.node_at(path).is_some_and(|item| item.is_directory)
    }

    /// The path of a grant before this table that lies in a path, or in which that lies.
    fn nested_before(&self, number: usize, path: &[u8]) -> Option<&[u8]> {
        for grant in &self.grants {
            let before = bytes_of(&self.items.get(*grant)?.path);
            if *grant < number && (is_beneath(path, before) || is_beneath(before, path)) {
                return Some(before);
            }
        }
        None
    }

    /// What is wrong with the place of a node.
    fn node_fault(&self, number: usize, path: &[u8]) -> Option<&'static str> {
        let above = directory_of(path);
        if path == b"/".as_slice() {
            Some("is there without being listed")
        } else if self.first(TableKind::Node, path) != Some(number) {
            Some("is listed before")
        } else if above.is_empty() {
            None
        } else {
            match self.first(TableKind::Node, above) {
                None => Some("stands in a directory that isn't listed"),
                Some(other) if other > number => Some("comes before its directory"),
                _ if !self.is_directory(above) => Some("stands in what is no directory"),
                _ => None,
            }
        }
    }

    /// What is wrong with the path of a descriptor.
    fn opened_fault(&self, path: &[u8], writes: bool) -> Option<&'static str> {
        if self.is_directory(path) {
            return if writes {
                Some("is a directory, which isn't opened for writing")
            } else {
                None
            };
        }
        match self.node_at(path) {
            None => Some("is no node that is listed"),
            Some(node) if node.is_link => {
                Some("is a link, and a descriptor is of a file or a directory")
            }
            _ => None,
        }
    }
}

/// Tells of the faults of a grant's path.
fn add_grant(faults: &mut Faults<'_>, known: &Known<'_>, number: usize, path: &Told) {
    if !known.is_directory(&path.bytes) {
        faults.add_of(path.place, &path.bytes, "is no directory that is listed");
    } else if let Some(before) = known.nested_before(number, &path.bytes) {
        let said = parts_of!("and the grant of `", before, "` lie in one another");
        faults.add_of(path.place, &path.bytes, said);
    }
}

/// Tells of the faults of a descriptor's number.
fn add_number(faults: &mut Faults<'_>, is_twice: bool, number: &Told) {
    let digits = number.bytes.as_slice();
    if is_number(digits) && number_up_to(digits, MAX_DESCRIPTORS as u32 - 1).is_err() {
        faults.add_of(number.place, digits, "is no number from 0 to 15");
    }
    if is_twice {
        faults.add(
            number.place,
            parts_of!("descriptor ", digits, " is given before"),
        );
    }
}

/// Tells of the fault of a table's path, or of the program that a process names. Whether its form is good.
fn add_path(
    faults: &mut Faults<'_>,
    known: &Known<'_>,
    number: usize,
    item: &Item,
    path: &Told,
) -> bool {
    let bytes = path.bytes.as_slice();
    let is_path = matches!(
        item.kind,
        TableKind::Node | TableKind::Grant | TableKind::Descriptor
    );
    let form = if is_path { form_fault(bytes) } else { None };
    let fault = match item.kind {
        _ if form.is_some() => form,
        TableKind::Node => known.node_fault(number, bytes),
        TableKind::Descriptor => known.opened_fault(bytes, item.writes),
        _ => None,
    };
    if let Some(fault) = fault {
        faults.add_of(path.place, bytes, fault);
    } else if item.kind == TableKind::Grant {
        add_grant(faults, known, number, path);
    } else if item.kind == TableKind::Process && known.first(TableKind::Program, bytes).is_none() {
        faults.add_word(path.place, "program", bytes, &known.programs);
    }
    form.is_none()
}

/// Tells of the faults of a table's name, or of the number of a descriptor.
fn add_name(faults: &mut Faults<'_>, is_twice: bool, item: &Item, name: &Told) {
    if item.kind == TableKind::Descriptor {
        add_number(faults, is_twice, name);
    } else if is_twice && item.kind != TableKind::Node {
        faults.add_of(name.place, &name.bytes, "is given before");
    }
}

/// Tells of the faults in paths, numbers and names.
pub(crate) fn add_path_faults(faults: &mut Faults<'_>, fields: &Fields) -> Result<(), AllocError> {
    let items = all_items(faults, fields)?;
    let known = Known::new(faults.alloc, &items)?;
    for (number, item) in items.iter().enumerate() {
        let is_good = match &item.path {
            Some(path) => add_path(faults, &known, number, item, path),
            None => item.kind != TableKind::Grant,
        };
        if let Some(name) = &item.name {
            if is_good && !name.bytes.is_empty() {
                add_name(faults, known.is_twice(number, item), item, name);
            }
        }
    }
    Ok(())
}
