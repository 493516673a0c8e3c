//! The tables of a task's text: each key with the place of its value. What is no task has tables and keys too.

use crate::known_words::FURTHER_RIGHTS;
use crate::tokens::{Token, TokenKind, tokens_of};
use std::alloc::{AllocError, Global};

/// What a table is of, by where it stands.
#[derive(Clone, Copy, PartialEq, Eq, Hash)]
pub(crate) enum TableKind {
    Top,
    Node,
    Grant,
    Process,
    Descriptor,
    Program,
    Other,
}

/// A table.
#[derive(Drop)]
pub(crate) struct Table {
    pub kind: TableKind,
    /// The offset of its first byte.
    pub start: usize,
    /// The table that it is in, by its place among all.
    pub parent: usize,
    /// Its keys, by their places among all.
    entries: Vec<usize>,
    /// The kinds of the tables in it, each once.
    inner: Vec<TableKind>,
}

impl Table {
    /// Whether a table of this kind is in it.
    pub(crate) fn holds(&self, kind: TableKind) -> bool {
        self.inner.contains(&kind)
    }
}

/// A key of a table, and the first token of its value.
#[derive(Clone, Copy)]
pub(crate) struct Entry {
    pub table: usize,
    pub key: Token,
    pub value: Option<Token>,
}

/// A word of a list, which is the value of a key.
#[derive(Clone, Copy)]
pub(crate) struct Item {
    pub entry: usize,
    pub word: Token,
}

/// The tables, keys and words of a text, each in the order of the text.
#[derive(Drop)]
pub(crate) struct Fields {
    pub tables: Vec<Table>,
    pub entries: Vec<Entry>,
    pub items: Vec<Item>,
}

/// What is open around a token: a table in braces, or a list that is the value of a key.
#[derive(Clone, Copy)]
enum Frame {
    Braces { table: usize },
    List { entry: usize },
}

/// What stands before a token.
#[derive(Clone, Copy)]
enum Before {
    Nothing,
    Key(Token),
    /// A key that has no value yet, and `=`.
    Equals { entry: usize },
    /// The bracket of a table's header, and its name.
    Header(Option<Token>),
}

/// A reader of fields.
#[derive(Drop)]
struct Reader<'a> {
    file: &'a [u8],
    fields: Fields,
    frames: Vec<Frame>,
    before: Before,
    /// The table of the last header.
    current: usize,
    /// The table of the last process.
    process: usize,
}

/// The table of the whole text, by its place among all.
const TOP: usize = 0;

/// The kind of the table that stands at a key of another.
pub(crate) fn kind_beneath(parent: TableKind, key: &[u8]) -> TableKind {
    match (parent, str::from_utf8(key).unwrap_or("")) {
        (TableKind::Top, "node") => TableKind::Node,
        (TableKind::Top, "grant") => TableKind::Grant,
        (TableKind::Top, "process") => TableKind::Process,
        (TableKind::Top, "program") => TableKind::Program,
        (TableKind::Top, "process.fd") | (TableKind::Process, "fd") => TableKind::Descriptor,
        _ => TableKind::Other,
    }
}

impl Fields {
    /// The kind of a table.
    pub(crate) fn kind_of(&self, table: usize) -> TableKind {
        match self.tables.get(table) {
            Some(table) => table.kind,
            None => TableKind::Other,
        }
    }

    /// The first key of this name in a table.
    pub(crate) fn entry_at(&self, file: &[u8], table: usize, key: &[u8]) -> Option<&Entry> {
        for number in &self.tables.get(table)?.entries {
            let entry = self.entries.get(*number)?;
            if entry.key.written(file) == key {
                return Some(entry);
            }
        }
        None
    }

    /// The value of a key of a table, if it has it.
    pub(crate) fn value_at(&self, file: &[u8], table: usize, key: &[u8]) -> Option<Token> {
        self.entry_at(file, table, key)?.value
    }

    /// Whether the task asks for further rights.
    pub(crate) fn asks_for_further_rights(&self, file: &[u8]) -> bool {
        match self.value_at(file, TOP, FURTHER_RIGHTS.as_bytes()) {
            Some(value) => {
                let is_word = matches!(value.kind, TokenKind::Word);
                is_word && value.written(file) == b"true".as_slice()
            }
            None => false,
        }
    }
}

impl<'a> Reader<'a> {
    /// Adds a table of a kind, at this offset in another, and tells its place among all.
    fn add_table(
        &mut self,
        kind: TableKind,
        start: usize,
        parent: usize,
    ) -> Result<usize, AllocError> {
        let alloc = *self.frames.allocator();
        let table = self.fields.tables.len();
        if let Some(outer) = self.fields.tables.get_mut(parent) {
            if !outer.holds(kind) {
                outer.inner.push(kind)?;
            }
        }
        self.fields.tables.push(Table {
            kind,
            start,
            parent,
            entries: Vec::new(alloc),
            inner: Vec::new(alloc),
        })?;
        if kind == TableKind::Process {
            self.process = table;
        }
        Ok(table)
    }

    /// Adds a key to the table whose keys are read, without a value yet.
    fn add_entry(&mut self, key: Token) -> Result<(), AllocError> {
        let mut table = self.current;
        for frame in &self.frames {
            if let Frame::Braces { table: inner } = frame {
                table = *inner;
            }
        }
        let entry = self.fields.entries.len();
        if let Some(table) = self.fields.tables.get_mut(table) {
            table.entries.push(entry)?;
        }
        let value = None;
        self.fields.entries.push(Entry { table, key, value })?;
        self.before = Before::Equals { entry };
        Ok(())
    }

    /// Ends a header, with the table that it begins.
    fn close_header(&mut self, name: Token) -> Result<(), AllocError> {
        let kind = kind_beneath(TableKind::Top, name.written(self.file));
        let parent = if kind == TableKind::Descriptor {
            self.process
        } else {
            TOP
        };
        self.current = self.add_table(kind, name.start, parent)?;
        Ok(())
    }

    /// Begins a list or a table in braces as the value of a key, or in its list.
    fn open(&mut self, entry: usize, token: Token) -> Result<(), AllocError> {
        match (token.kind, self.fields.entries.get(entry).copied()) {
            (TokenKind::OpenBracket, _) => self.frames.push(Frame::List { entry })?,
            (TokenKind::OpenBrace, Some(Entry { table, key, .. })) => {
                let kind = kind_beneath(self.fields.kind_of(table), key.written(self.file));
                let table = self.add_table(kind, token.start, table)?;
                self.frames.push(Frame::Braces { table })?;
            }
            _ => {}
        }
        Ok(())
    }

    /// Takes the first token of the value of a key.
    fn take_value(&mut self, entry: usize, token: Token) -> Result<(), AllocError> {
        if let Some(entry) = self.fields.entries.get_mut(entry) {
            entry.value = Some(token);
        }
        self.open(entry, token)
    }

    /// Takes a token of a list.
    fn take_item(&mut self, entry: usize, token: Token) -> Result<(), AllocError> {
        if matches!(token.kind, TokenKind::Word | TokenKind::Text(_)) {
            self.fields.items.push(Item { entry, word: token })?;
            return Ok(());
        }
        self.open(entry, token)
    }

    /// Takes a token where no key, header or value is begun.
    fn take_first(&mut self, token: Token) -> Result<(), AllocError> {
        let around = self.frames.last().copied();
        match (token.kind, around) {
            (TokenKind::CloseBrace | TokenKind::CloseBracket, _) => {
                self.frames.pop();
            }
            (_, Some(Frame::List { entry })) => return self.take_item(entry, token),
            (TokenKind::Word | TokenKind::Text(_), _) => self.before = Before::Key(token),
            (TokenKind::OpenBracket, None) => self.before = Before::Header(None),
            _ => {}
        }
        Ok(())
    }

    /// Takes a token.
    fn take(&mut self, token: Token) -> Result<(), AllocError> {
        let before = self.before;
        self.before = Before::Nothing;
        match (before, token.kind) {
            (Before::Header(Some(name)), TokenKind::NewLine) => self.close_header(name),
            (Before::Header(_), TokenKind::Word | TokenKind::Text(_)) => {
                self.before = Before::Header(Some(token));
                Ok(())
            }
            (Before::Header(_), TokenKind::OpenBracket | TokenKind::CloseBracket) => {
                self.before = before;
                Ok(())
            }
            (Before::Key(key), TokenKind::Equals) => self.add_entry(key),
            (Before::Equals { entry }, _) => self.take_value(entry, token),
            _ => self.take_first(token),
        }
    }
}

/// The fields of a text.
pub(crate) fn fields_of(alloc: Global, file: &[u8]) -> Result<Fields, AllocError> {
    let mut reader = Reader {
        file,
        fields: Fields {
            tables: Vec::new(alloc),
            entries: Vec::new(alloc),
            items: Vec::new(alloc),
        },
        frames: Vec::new(alloc),
        before: Before::Nothing,
        current: TOP,
        process: TOP,
    };
    reader.add_table(TableKind::Top, 0, TOP)?;
    for token in &tokens_of(alloc, file)? {
        reader.take(*token)?;
    }
    Ok(reader.fields)
}
