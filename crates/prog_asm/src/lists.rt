//! Lists of words: rights, fcntl commands and flags.

ghost use Rattle.std.specs.Prelude.{⊤, ◌≡◌, map, option_map};
ghost use Rattle.instruction_set.specs.Fields.{read_commands, flag_names, read_flags, read_further, is_word_among, set_of_word, read_rights, set_of as set_in};
ghost use Rattle.texts.specs.Parts.{parts};

use bitflags::{Flag, Flags};
use rights::{Fcntls, OpenFlags, Rights, is_further_right};
use texts::first_part;

/// Whether the word is one of a list's.
fn is_among(word: &[u8], list: &[u8]) -> bool
    ensures { result ≡ is_word_among word.now (parts 44 list.now) }
{
    let mut list = list;
    loop {
        let (first, behind) = first_part(list, b',');
        if word == first {
            return true;
        }
        let Some(behind) = behind else {
            return false;
        };
        list = behind;
    }
}

/// The flag of this name.
fn named<F: Flags + Copy>(rows: &[Flag<F>], word: &[u8]) -> Option<F>
    ensures { option_map F.set_of result
        ≡ set_of_word (map (λ row. (row.name.now, F.set_of row.value)) rows.now) word.now }
{
    for row in rows {
        if word == row.name.as_bytes() {
            return Some(row.value);
        }
    }
    None
}

/// The set that a list stands for: words joined by commas, each once, or `none`.
fn set<F: Flags + Copy>(word: &[u8]) -> Option<F>
    requires { F.exact }
    ensures { option_map F.set_of result ≡ set_in F.table word.now }
{
    let mut set = F::empty();
    if word == b"none".as_slice() {
        return Some(set);
    }
    let mut list = word;
    loop {
        let (first, behind) = first_part(list, b',');
        if let Some(behind) = behind {
            if is_among(first, behind) {
                return None;
            }
        }
        match named(F::flags(), first) {
            Some(more) => set = set.union(more),
            None => return None,
        }
        let Some(behind) = behind else {
            return Some(set);
        };
        list = behind;
    }
}

/// The rights that a list names, further ones among them in the wide language alone. `RECV` is another
/// name of `READ`, and `SEND` of `WRITE`.
pub(crate) fn rights(word: &[u8], wide: bool) -> Option<Rights>
    ensures { option_map (λ rights. rights.0) result ≡ read_rights wide word.now }
{
    let rights = set::<Rights>(word)?;
    if wide || Rights::plain().contains(rights) {
        Some(rights)
    } else {
        None
    }
}

/// The further right of this name.
pub(crate) fn further_right(word: &[u8]) -> Option<Rights>
    ensures { option_map (λ right. right.0) result ≡ read_further word.now }
{
    let right = named(Rights::flags(), word)?;
    if is_further_right(right) {
        Some(right)
    } else {
        None
    }
}

/// The fcntl commands that a list names.
pub(crate) fn commands(word: &[u8]) -> Option<Fcntls>
    ensures { option_map (λ commands. commands.0) result ≡ read_commands word.now }
{
    set(word)
}

/// The flags of an open, as a list names them.
#[derive(Clone, Copy)]
struct FlagWords(u8);

const FLAG_WORDS: [Flag<FlagWords>; 5] = [
    Flag {
        name: "read",
        value: FlagWords(0x01),
    },
    Flag {
        name: "write",
        value: FlagWords(0x02),
    },
    Flag {
        name: "append",
        value: FlagWords(0x04),
    },
    Flag {
        name: "create",
        value: FlagWords(0x08),
    },
    Flag {
        name: "trunc",
        value: FlagWords(0x10),
    },
];

impl Flags for FlagWords {
    type Bits = u8;

    ghost exact = { ⊤ };

    ghost table = { flag_names };

    ghost set_of = { λ words. words.0 };

    fn flags<'a>() -> &'a [Flag<FlagWords>] {
        &FLAG_WORDS
    }

    fn bits(&self) -> u8 {
        self.0
    }

    fn from_bits_retain(bits: u8) -> FlagWords {
        FlagWords(bits)
    }
}

/// The flags that a list names, where they are valid: read or write is there, and append and trunc
/// come with write.
pub(crate) fn flags(word: &[u8]) -> Option<OpenFlags>
    ensures { result ≡ read_flags word.now }
{
    let words = set::<FlagWords>(word)?;
    OpenFlags::new(
        words.contains(FlagWords(0x01)),
        words.contains(FlagWords(0x02)),
        words.contains(FlagWords(0x04)),
        words.contains(FlagWords(0x08)),
        words.contains(FlagWords(0x10)),
    )
}
