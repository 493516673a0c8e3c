//! The name of a file as a URI reference.

ghost use Rattle.std.specs.Prelude.{◌≡◌, IfOk, string_bytes};
ghost use Rattle.sarif.specs.Uris as uris;

use percent_encoding::{AsciiSet, NON_ALPHANUMERIC, ascii_set, percent_encode};
use std::alloc::{AllocError, Global};

/// The ASCII bytes that don't stand in a path as they are.
const ESCAPED: AsciiSet = ascii_set!(
    NON_ALPHANUMERIC
        .remove(b'-')
        .remove(b'.')
        .remove(b'_')
        .remove(b'~')
        .remove(b'!')
        .remove(b'$')
        .remove(b'&')
        .remove(b'\'')
        .remove(b'(')
        .remove(b')')
        .remove(b'*')
        .remove(b'+')
        .remove(b',')
        .remove(b';')
        .remove(b'=')
        .remove(b'@')
        .remove(b'/')
);

/// What stands before a name that would else begin an authority.
fn head_of(name: &[u8]) -> &'static str
    ensures { result.now ≡ uris.head_of name.now }
{
    if name.starts_with(b"//") { "/." } else { "" }
}

/// A file's name as a URI reference (RFC 3986, 4.2): a path, with `%` and two digits for what may not stand there. Want of memory is the only error.
pub fn uri_of(alloc: Global, name: &[u8]) -> Result<String, AllocError>
    ensures { IfOk result (λ uri. string_bytes uri ≡ uris.uri_of name.now) }
{
    let mut uri = String::from_str(alloc, head_of(name))?;
    percent_encode(name, ESCAPED).append_to(&mut uri)?;
    Ok(uri)
}
