//! The base task, and texts like it.

use std::alloc::{AllocError, Global};

/// The base task: a tree, two grants, and a program that only ends.
pub(super) const BASE: &str = "node = [
 {path=\"/work\", kind=\"dir\"},
 {path=\"/work/in\", kind=\"file\", content=\"AB\"},
 {path=\"/work/out\", kind=\"dir\"},
 {path=\"/work/same\", kind=\"link\", target=\"out/../in\"},
 {path=\"/work/up\", kind=\"link\", target=\"../etc/passwd\"},
 {path=\"/work/abs\", kind=\"link\", target=\"/etc/passwd\"},
 {path=\"/workshop\", kind=\"dir\"},
 {path=\"/workshop/x\", kind=\"file\", content=\"w\"},
 {path=\"/log\", kind=\"dir\"},
 {path=\"/etc\", kind=\"dir\"},
 {path=\"/etc/passwd\", kind=\"file\", content=\"x\"}]
grant = [
 {name=\"work\", path=\"/work\", ops=[\"look\",\"read\"]},
 {name=\"log\", path=\"/log\", ops=[\"create\",\"write\",\"remove\"]}]
process = [{program=\"main\", fd=[
 {number=0, path=\"/work\"}, {number=1, path=\"/log\"}]}]
[[program]]
name = \"main\"
code = '''
halt
'''
";

/// Parts of a text, each with what stands in its place.
pub(super) type Changes<'a> = &'a [(&'a str, &'a str)];

/// The text with a change made at the first place; nothing where the part isn't there.
fn changed_once(
    alloc: Global,
    text: &str,
    old: &str,
    new: &str,
) -> Result<Option<String>, AllocError> {
    let Some((before, behind)) = text.split_once(old) else {
        return Ok(None);
    };
    let made = format!(in alloc; "{before}{new}{behind}")?;
    Ok(Some(made))
}

/// The text with each change made, in turn; nothing where a part isn't there.
pub(super) fn changed(
    alloc: Global,
    text: &str,
    changes: Changes<'_>,
) -> Result<Option<String>, AllocError> {
    let mut text = String::from_str(alloc, text)?;
    for (old, new) in changes {
        let Some(made) = changed_once(alloc, &text, old, new)? else {
            return Ok(None);
        };
        text = made;
    }
    Ok(Some(text))
}

/// A text so many times.
pub(super) fn times(alloc: Global, text: &str, count: usize) -> Result<String, AllocError> {
    let mut all = String::new(alloc);
    for _ in 0..count {
        all.push_str(text)?;
    }
    Ok(all)
}
