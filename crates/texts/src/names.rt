//! Names of labels, programs and grants.

ghost use Rattle.std.specs.Prelude.{◌≡◌, ◌≤◌, take, true};
ghost use Rattle.std.specs.List.{list_all};
ghost use Rattle.texts.specs.Names.{is_name, is_name_byte};

use rights::limits::MAX_WORD;

/// Whether each byte may stand in a name.
fn has_name_bytes(bytes: &[u8]) -> bool
    ensures { result ≡ list_all is_name_byte bytes.now }
{
    for byte in bytes {
        if !byte.is_ascii_lowercase() && !byte.is_ascii_digit() && *byte != b'_' {
            return false;
        }
    }
    true
}

/// Whether the word is a name: a letter from a to z, and up to 15 of a to z, 0 to 9 and `_`. (own)
pub fn is_name(word: &[u8]) -> bool
    ensures { result ≡ is_name word.now }
{
    match word {
        [] => false,
        [first, rest @ ..] => {
            let has_name_bytes = has_name_bytes(rest);
            first.is_ascii_lowercase() && rest.len() < MAX_WORD && has_name_bytes
        }
    }
}

/// A name of a program or a grant, without memory of its own: a letter from a to z, and up to 15 of a to z, 0 to 9 and `_`. (own)
#[derive(Clone, Copy)]
pub struct Name {
    length: u8,
    bytes: [u8; MAX_WORD],
    pub ghost few: { length ≤ 16 },
    pub ghost word: { is_name (take length bytes) ≡ true },
}

impl Name {
    ghost use Rattle.std.specs.Prelude.{IfSome, None, ◌↔◌, false};
    ghost use Rattle.texts.specs.Views.{name_of};

    /// The name of these bytes.
    pub fn new(text: &[u8]) -> Name
        requires { is_name text.now ≡ true }
        ensures { name_of result ≡ text.now }
    {
        let mut bytes = [0; MAX_WORD];
        bytes[..text.len()].copy_from_slice(text);
        Name {
            length: text.len() as u8,
            bytes,
        }
    }

    /// The name of these bytes, if they are one.
    pub fn read(text: &[u8]) -> Option<Name>
        ensures some { IfSome result (λ name. name_of name ≡ text.now) }
        ensures none { (result ≡ None) ↔ (is_name text.now ≡ false) }
    {
        if !is_name(text) {
            return None;
        }
        Some(Name::new(text))
    }

    /// Its bytes.
    pub fn as_bytes(&self) -> &[u8]
        ensures bytes { result.now ≡ name_of self.now }
        ensures word { is_name result.now ≡ true }
    {
        &self.bytes[..self.length as usize]
    }
}
