//! Faults in the programs of a task's text.

use crate::code_forms::{add_meant, has_known_words, kind_of_word, wanted, words_of};
use crate::decoded::Decoded;
use crate::faults::Faults;
use crate::fields::Fields;
use crate::known_words::{OF_FREEBSD, is_of_freebsd};
use crate::near::meant;
use crate::places::part;
use crate::program_texts::codes_of;
use indexmap::IndexSet;
use prog_asm::{Form, LineFault, LineMistake, MNEMONICS, line_faults, line_parts};
use rights::limits::MAX_INSTRUCTIONS;
use std::alloc::{AllocError, Global};
use texts::{Line, Lines, Page, parts_of};

/// The labels of a program.
#[derive(Drop)]
struct Labels<'t> {
    all: IndexSet<&'t [u8]>,
    /// Those that may be meant: no more than a program may have.
    known: Vec<&'t str>,
}

impl<'t> Labels<'t> {
    /// The labels of lines.
    fn new(alloc: Global, lines: &[Line<'t>]) -> Result<Labels<'t>, AllocError> {
        let mut labels = Labels {
            all: IndexSet::new(alloc),
            known: Vec::new(alloc),
        };
        for line in lines {
            let Some(span) = line_parts(alloc, line.text)?.label else {
                continue;
            };
            let label = part(line.text, span.start, span.end);
            labels.all.insert(label)?;
            if labels.known.len() < MAX_INSTRUCTIONS && !label.is_empty() {
                if let Ok(label) = str::from_utf8(label) {
                    labels.known.push(label)?;
                }
            }
        }
        Ok(labels)
    }
}

/// The words that instructions begin with, in the wide language or the other.
fn instruction_words(alloc: Global, wide: bool) -> Result<Vec<&'static str>, AllocError> {
    let mut words = Vec::new(alloc);
    for mnemonic in &MNEMONICS {
        if wide || !mnemonic.is_wide() {
            words.push(mnemonic.name())?;
        }
    }
    Ok(words)
}

/// Whether a byte parts words.
fn is_blank(byte: u8) -> bool {
    byte == b' ' || byte == b'\t'
}

/// Whether a byte may stand in a word outside quotes.
fn may_stand_in_word(byte: u8) -> bool {
    byte.is_ascii_alphanumeric() || b"_:,\"".contains(&byte)
}

/// Where the word of a line around a byte begins, and the word.
fn word_around(line: &[u8], at: usize) -> (usize, &[u8]) {
    let start = match part(line, 0, at).iter().rposition(|byte| is_blank(*byte)) {
        Some(blank) => blank.saturating_add(1),
        None => 0,
    };
    let rest = part(line, start, line.len());
    let end = rest.iter().position(|byte| is_blank(*byte));
    (start, part(rest, 0, end.unwrap_or(rest.len())))
}

/// A fault of a program, and the line that it is in.
#[derive(Clone, Copy)]
struct CodeFault<'a> {
    code: &'a Decoded,
    line: &'a [u8],
    /// Where the line begins in the program.
    start: usize,
    fault: LineFault,
}

impl<'a> CodeFault<'a> {
    /// The bytes that are at fault.
    fn word(&self) -> &'a [u8] {
        part(self.line, self.fault.span.start, self.fault.span.end)
    }

    /// The offset in the file of a byte of the line.
    fn offset_of(&self, at: usize) -> usize {
        self.code.offset(self.start.saturating_add(at))
    }

    /// Where in the file the fault begins.
    fn offset(&self) -> usize {
        self.offset_of(self.fault.span.start)
    }

    /// Tells of the bytes at fault.
    fn add(&self, faults: &mut Faults<'_>, text: &str) {
        faults.add_of(self.offset(), self.word(), text);
    }

    /// Tells what list is meant by a word at an offset. Whether one is.
    fn add_list(&self, faults: &mut Faults<'_>, offset: usize, word: &[u8], form: Form) -> bool {
        let mut list = Page::new(faults.alloc);
        let is_meant = add_meant(&mut list, word, form);
        if is_meant {
            faults.add(offset, parts_of!("`", word, "`: `", &list, "` is meant?"));
        }
        is_meant
    }

    /// Tells of a byte that no word has.
    fn add_stray(&self, faults: &mut Faults<'_>) {
        let byte = self.word();
        if byte == b"#".as_slice() {
            return self.add(faults, "begins no comment: in a program `;` does");
        }
        if byte != b"|".as_slice() {
            return self.add(faults, "is a byte that no word of a program has");
        }
        let (start, word) = word_around(self.line, self.fault.span.start);
        let rights = if faults.wide {
            Form::AllRights
        } else {
            Form::Rights
        };
        for form in [Form::Flags, rights, Form::Commands].iter() {
            if self.add_list(faults, self.offset_of(start), word, *form) {
                return;
            }
        }
        self.add(faults, "parts no words: a comma does");
    }

    /// Tells of a word that isn't known: a label, a byte, or what an instruction would begin with.
    fn add_word(&self, faults: &mut Faults<'_>) -> Result<(), AllocError> {
        let word = self.word();
        let known = instruction_words(faults.alloc, faults.wide)?;
        if matches!(word, [byte] if !may_stand_in_word(*byte)) {
            self.add_stray(faults);
        } else if self.line.get(self.fault.span.end) == Some(&b':') {
            let text = "is no label: a letter a to z, then up to 15 of a to z, 0 to 9 and _";
            self.add(faults, text);
        } else if meant(word, &known).is_some() {
            faults.add_word(self.offset(), "instruction", word, &known);
        } else {
            self.add(faults, "is no instruction");
        }
        Ok(())
    }

    /// Tells of the first word of a list that isn't known, where others are, or that is FreeBSD's. Whether there is one.
    fn add_unknown(&self, faults: &mut Faults<'_>, form: Form) -> bool {
        let (list, known) = (self.word(), words_of(form));
        let is_list = list.contains(&b',');
        let mut at = self.fault.span.start;
        for word in list.split(|byte| *byte == b',') {
            if is_of_freebsd(faults.wide, word) {
                faults.add_of(self.offset_of(at), word, OF_FREEBSD);
                return true;
            }
            if is_list && meant(word, known).is_none() {
                faults.add_word(self.offset_of(at), kind_of_word(form), word, known);
                return true;
            }
            at = at.saturating_add(word.len()).saturating_add(1);
        }
        false
    }

    /// Tells of an operand that isn't of the form that its place wants, with what was meant.
    fn add_form(&self, faults: &mut Faults<'_>, form: Form) {
        let (word, known) = (self.word(), words_of(form));
        if form == Form::FurtherRight && word.contains(&b',') {
            self.add(faults, "is a list: `use` has one further right");
        } else if !known.is_empty() && has_known_words(word, known) {
            self.add(faults, "has a word twice, or words that don't go together");
        } else if known.is_empty()
            || !self.add_list(faults, self.offset(), word, form)
                && !self.add_unknown(faults, form)
        {
            faults.add_of(self.offset(), word, parts_of!("isn't ", wanted(form)));
        }
    }

    /// Tells of a wrong operand, or of too few or too many.
    fn add_operand(&self, faults: &mut Faults<'_>) -> Result<(), AllocError> {
        match self.fault.wants {
            None => self.add(faults, "is one operand too many"),
            Some(form) if self.word().is_empty() => {
                let instruction = line_parts(faults.alloc, self.line)?.instruction;
                let start = instruction.map_or(0, |span| span.start);
                let (_, word) = word_around(self.line, start);
                faults.add_of(self.offset(), word, parts_of!("lacks ", wanted(form)));
            }
            Some(form) => self.add_form(faults, form),
        }
        Ok(())
    }

    /// Tells of the fault.
    fn tell(&self, faults: &mut Faults<'_>, labels: &Labels<'_>) -> Result<(), AllocError> {
        let word = self.word();
        match self.fault.mistake {
            LineMistake::Word => self.add_word(faults)?,
            LineMistake::Operand => self.add_operand(faults)?,
            LineMistake::NoLabel if labels.all.contains(&word) => {
                self.add(faults, "is the label of no instruction: none follows it");
            }
            LineMistake::NoLabel => faults.add_word(self.offset(), "label", word, &labels.known),
            LineMistake::TwiceLabel => self.add(faults, "is a label for the second time"),
            LineMistake::TooMany => {
                faults.add(self.offset(), "a program has at most 256 instructions");
            }
            LineMistake::FallsOff => {
                let text = "the last instruction goes on: a program ends with jmp or halt";
                faults.add(self.offset(), text);
            }
        }
        Ok(())
    }
}

/// Tells that lines end with carriage returns, and sets these to blanks.
fn add_returns(faults: &mut Faults<'_>, code: &Decoded, bytes: &mut [u8]) {
    if let Some(at) = bytes.iter().position(|byte| *byte == b'\r') {
        let text = "lines end with a carriage return: in a program a line feed ends them alone";
        faults.add(code.offset(at), text);
    }
    for byte in bytes.iter_mut() {
        if *byte == b'\r' {
            *byte = b' ';
        }
    }
}

/// Tells of the faults of a program.
fn add_program(faults: &mut Faults<'_>, code: &Decoded) -> Result<(), AllocError> {
    if line_faults(faults.alloc, faults.wide, &code.bytes)?.is_empty() {
        return Ok(());
    }
    let mut bytes = Vec::from_slice(faults.alloc, &code.bytes)?;
    add_returns(faults, code, &mut bytes);
    let mut lines = Vec::new(faults.alloc);
    for line in Lines::new(&bytes) {
        lines.push(line)?;
    }
    let labels = Labels::new(faults.alloc, &lines)?;
    for fault in &line_faults(faults.alloc, faults.wide, &bytes)? {
        if let Some(line) = lines.get(fault.line.saturating_sub(1)) {
            let (start, line, fault) = (line.offset, line.text, *fault);
            let fault = CodeFault {
                code,
                line,
                start,
                fault,
            };
            fault.tell(faults, &labels)?;
        }
    }
    Ok(())
}

/// Tells of the faults of programs.
pub(crate) fn add_code_faults(faults: &mut Faults<'_>, fields: &Fields) -> Result<(), AllocError> {
    for code in &codes_of(faults.alloc, faults.file, fields)? {
        add_program(faults, code)?;
    }
    Ok(())
}
