//! What may be the name of a node, and what a symbolic link may hold.

ghost use Rattle.std.specs.Prelude.{◌≡◌};
ghost use Rattle.std.specs.List.{list_all};
ghost use Rattle.file_tree.specs.Places.{is_dots, is_file_name, is_file_name_byte, is_path_name, is_target, names_fit};

use rights::limits::{MAX_NAME, MAX_PATH};

/// Whether a byte may stand in a name.
fn may_stand_in_name(byte: u8) -> bool
    ensures { result ≡ is_file_name_byte byte }
{
    byte >= 33 && byte <= 126 && !(byte == b'"' || byte == b'/' || byte == b'\\')
}

/// Whether a name is `.` or `..`.
fn is_dot_name(name: &[u8]) -> bool
    ensures { result ≡ is_dots name.now }
{
    matches!(name, [b'.'] | [b'.', b'.'])
}

/// Whether each byte may stand in a name.
fn has_name_bytes(name: &[u8]) -> bool
    ensures { result ≡ list_all is_file_name_byte name.now }
{
    for byte in name {
        if !may_stand_in_name(*byte) {
            return false;
        }
    }
    true
}

/// Whether a text is a name of a path: bytes from 33 to 126 without `/`, `"` and `\`, one at least, and neither `.` nor `..`.
/// It may be longer than a node's name. (own)
pub fn is_path_name(name: &[u8]) -> bool
    ensures { result ≡ is_path_name name.now }
{
    let has_name_bytes = has_name_bytes(name);
    let is_dot_name = is_dot_name(name);
    !name.is_empty() && has_name_bytes && !is_dot_name
}

/// Whether a node may have the name: a name of a path, of 255 bytes at most. (own)
#[tactic(auto, unfolding(crate::specs::Places::is_file_name))]
pub fn is_valid_name(name: &[u8]) -> bool
    ensures { result ≡ is_file_name name.now }
{
    is_path_name(name) && name.len() <= MAX_NAME
}

/// Whether each name in a text has at most 255 bytes.
fn has_short_names(text: &[u8]) -> bool
    ensures { result ≡ names_fit 0 text.now }
{
    let mut read = 0;
    for byte in text {
        if *byte == b'/' {
            read = 0;
        } else {
            if read == MAX_NAME {
                return false;
            }
            read += 1;
        }
    }
    true
}

/// Whether a symbolic link may have the target: 1 to 1023 bytes, whose names have at most 255 bytes. (own)
#[tactic(auto, unfolding(crate::specs::Places::is_target))]
pub fn is_valid_target(target: &[u8]) -> bool
    ensures { result ≡ is_target target.now }
{
    let has_short_names = has_short_names(target);
    !target.is_empty() && target.len() <= MAX_PATH && has_short_names
}
