//! What a node holds: made, and written into, whatever way a tree is kept.

ghost use Rattle.std.specs.Prelude.{◌≡◌, ◌<◌, true, IfOk, OnOk, OnErr};
ghost use Rattle.std.specs.List.{list_all};
ghost use Rattle.file_tree.specs.Changes.{written};
ghost use Rattle.file_tree.specs.WellFormed.{is_byte};
ghost use Rattle.file_tree.specs.Views.{kind_of, new_content, new_kind};

use crate::nodes::{Kind, New};
use rights::limits::MAX_BYTES;
use std::alloc::{AllocError, Global};

/// The kind of a node that is to be made. (own)
pub fn kind_to_make(what: New<'_>) -> Kind
    ensures { kind_of result ≡ new_kind what.entry }
{
    match what {
        New::File => Kind::File,
        New::Dir => Kind::Dir,
        New::Link(_) => Kind::Link,
    }
}

/// A copy of some bytes.
fn copy_of_bytes(alloc: Global, bytes: &[u8]) -> Result<Vec<u8>, AllocError>
    ensures copied { IfOk result (λ copy. copy.items ≡ bytes.now) }
    ensures bytes { OnOk result (list_all is_byte bytes.now ≡ true) }
{
    let copy = Vec::from_slice(alloc, bytes)?;
    Ok(copy)
}

/// The content of a node that is to be made: a link's target, or nothing. A refused growth is its only error. (symlink(2))
pub fn content_to_make(alloc: Global, what: New<'_>) -> Result<Vec<u8>, AllocError>
    ensures copied { IfOk result (λ content. content.items ≡ new_content what.entry) }
    ensures bytes { OnOk result (list_all is_byte (new_content what.entry) ≡ true) }
{
    match what {
        New::File => Ok(Vec::new(alloc)),
        New::Dir => Ok(Vec::new(alloc)),
        New::Link(target) => {
            let content = copy_of_bytes(alloc, target)?;
            Ok(content)
        }
    }
}

/// Writes a byte into a content at a place below 4096, the gap before it filled with zeros. A refused growth is its only
/// error, and leaves the content as it was. (write(2))
pub fn put(content: &mut Vec<u8>, at: usize, b: u8) -> Result<(), AllocError>
    requires { at < MAX_BYTES }
    ensures ok { OnOk result (content.new.items ≡ written content.old.items at b) }
    ensures err { OnErr result (content.new.items ≡ content.old.items) }
{
    if at >= content.len() {
        content.resize(at + 1, 0)?;
    }
    content[at] = b;
    Ok(())
}
