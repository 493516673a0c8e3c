//! The words that a task's text is made of.

ghost use Rattle.std.specs.Prelude.{◌≡◌, ◌∷◌, [], map};
ghost use Rattle.rights.specs.OperationLists.{operation_name};
ghost use Rattle.rights.specs.Operations.{Look, Read, Write, Create, Remove};
ghost use Rattle.rights.specs.Sets.{command_names};
ghost use Rattle.call_facts.specs.Sets.{flag_rows};
ghost use Rattle.task_text.specs.RightWords as rights;

use crate::fields::TableKind;
use crate::near::is_known;

/// The names of the rights: of the fourteen that every task may name, with those for sockets behind them, and of the further rights.
const RIGHT_WORDS: [&str; 48] = [
    "READ",
    "WRITE",
    "SEEK",
    "FTRUNCATE",
    "FSYNC",
    "FSTAT",
    "FCNTL",
    "LOOKUP",
    "CREATE",
    "FSTATAT",
    "MKDIRAT",
    "UNLINKAT",
    "RENAMEAT_SOURCE",
    "RENAMEAT_TARGET",
    "RECV",
    "SEND",
    "ACCEPT",
    "BIND",
    "CONNECT",
    "CONNECTAT",
    "EVENT",
    "FCHDIR",
    "FCHFLAGS",
    "FCHMOD",
    "FCHMODAT",
    "FCHOWN",
    "FCHOWNAT",
    "FEXECVE",
    "FLOCK",
    "FPATHCONF",
    "FSTATFS",
    "FUTIMES",
    "FUTIMESAT",
    "GETPEERNAME",
    "GETSOCKNAME",
    "GETSOCKOPT",
    "IOCTL",
    "KQUEUE_CHANGE",
    "KQUEUE_EVENT",
    "LISTEN",
    "MMAP_R",
    "MMAP_W",
    "MMAP_X",
    "PDGETPID",
    "PDKILL",
    "SETSOCKOPT",
    "SHUTDOWN",
    "TTYHOOK",
];

/// How many of them every task may name, which come first.
const PLAIN_WORDS: usize = 16;

/// The names of the rights that a task may name: of the further ones too, where it asks for them.
pub(crate) fn right_words(wide: bool) -> &'static [&'static str]
    ensures { map (λ word. word.now) result.now ≡ rights.right_words wide }
{
    if wide {
        &RIGHT_WORDS
    } else {
        &RIGHT_WORDS[..PLAIN_WORDS]
    }
}

/// The names of the further rights.
pub(crate) fn further_words() -> &'static [&'static str]
    ensures { map (λ word. word.now) result.now ≡ rights.further_words }
{
    &RIGHT_WORDS[PLAIN_WORDS..]
}

/// The names of the fcntl commands.
pub(crate) fn command_words() -> &'static [&'static str]
    ensures { map (λ word. word.now) result.now ≡ map (λ named. named.0) command_names }
{
    &["GETFL", "SETFL"]
}

/// The names of the operations of a grant.
fn operation_words() -> &'static [&'static str]
    ensures { map (λ word. word.now) result.now ≡ map operation_name (Look ∷ Read ∷ Write ∷ Create ∷ Remove ∷ []) }
{
    &["look", "read", "write", "create", "remove"]
}

/// The names of the flags of an open.
pub(crate) fn flag_words() -> &'static [&'static str]
    ensures { map (λ word. word.now) result.now ≡ map (λ row. row.name) flag_rows }
{
    &["read", "write", "append", "create", "trunc"]
}

/// The rights and fcntl commands of FreeBSD that no task can name. (rights(4), cap_fcntls_limit(2))
const UNNAMED_WORDS: &str =
    "ACL_CHECK ACL_DELETE ACL_GET ACL_SET BINDAT CHFLAGSAT EXTATTR_DELETE EXTATTR_GET EXTATTR_LIST \
    EXTATTR_SET FSCK GETOWN KQUEUE LINKAT_SOURCE LINKAT_TARGET MAC_GET MAC_SET MKFIFOAT MKNODAT MMAP MMAP_RW \
    MMAP_RWX MMAP_RX MMAP_WX PEELOFF PREAD PWRITE SEM_GETVALUE SEM_POST SEM_WAIT SETOWN SYMLINKAT";

/// Whether a word is one of these, or a further right where the task asks for none, with `CAP_` before it or without.
pub(crate) fn is_of_freebsd(wide: bool, word: &[u8]) -> bool {
    let name = word.strip_prefix(b"CAP_".as_slice()).unwrap_or(word);
    if is_known(name, further_words()) {
        return !wide;
    }
    UNNAMED_WORDS
        .as_bytes()
        .split(|byte| *byte == b' ')
        .any(|one| one == name)
}

/// What is told of such a word.
pub(crate) const OF_FREEBSD: &str =
    "is a word of FreeBSD that a task can't name (FREEBSD.md#more-calls-and-rights)";

/// What the value of a key is.
#[derive(Clone, Copy)]
pub(crate) enum Value {
    Text,
    /// The name of a program or a grant.
    Name,
    Number,
    /// `true` or `false`.
    Truth,
    /// One of these words.
    OneOf(&'static [&'static str]),
    /// A list of words of these, each once.
    Words(&'static [&'static str]),
    Tables,
}

/// The key by which a task asks for further rights.
pub(crate) const FURTHER_RIGHTS: &str = "further_rights";

/// The keys of a table of this kind.
pub(crate) fn keys_of(kind: TableKind) -> &'static [&'static str] {
    match kind {
        TableKind::Top => &["node", "grant", "process", "program", FURTHER_RIGHTS],
        TableKind::Node => &["path", "kind", "content", "target"],
        TableKind::Grant => &["name", "path", "ops"],
        TableKind::Process => &["program", "mode", "fd"],
        TableKind::Descriptor => {
            &[
                "number", "path", "flags", "pair", "side", "rights", "fcntls",
            ]
        }
        TableKind::Program => &["name", "code", "untrusted"],
        TableKind::Other => &[],
    }
}

/// Those of them that have to be there.
pub(crate) fn needed_keys(kind: TableKind) -> &'static [&'static str] {
    match kind {
        TableKind::Top => &["node", "grant", "process", "program"],
        TableKind::Node => &["path", "kind"],
        TableKind::Process => &["program", "fd"],
        TableKind::Descriptor => &["number"],
        TableKind::Program => &["name", "code"],
        TableKind::Grant | TableKind::Other => keys_of(kind),
    }
}

/// What the value of one of its keys is, in a task that asks for further rights or doesn't.
pub(crate) fn value_of(wide: bool, kind: TableKind, key: &str) -> Value {
    match (kind, key) {
        (TableKind::Top, "further_rights") | (TableKind::Program, "untrusted") => Value::Truth,
        (TableKind::Top, _) | (TableKind::Process, "fd") => Value::Tables,
        (TableKind::Node, "kind") => Value::OneOf(&["file", "dir", "link"]),
        (TableKind::Grant, "ops") => Value::Words(operation_words()),
        (TableKind::Process, "mode") => Value::OneOf(&["free", "cap"]),
        (TableKind::Process, "program") | (TableKind::Grant | TableKind::Program, "name") => {
            Value::Name
        }
        (TableKind::Descriptor, "number" | "pair") => Value::Number,
        (TableKind::Descriptor, "flags") => Value::Words(&["read", "write"]),
        (TableKind::Descriptor, "side") => Value::OneOf(&["a", "b"]),
        (TableKind::Descriptor, "rights") => Value::Words(right_words(wide)),
        (TableKind::Descriptor, "fcntls") => Value::Words(command_words()),
        _ => Value::Text,
    }
}

/// A table of this kind, as it is spoken of.
pub(crate) fn kind_name(kind: TableKind) -> &'static str {
    match kind {
        TableKind::Top => "the task",
        TableKind::Node => "a node",
        TableKind::Grant => "a grant",
        TableKind::Process => "a process",
        TableKind::Descriptor => "a descriptor",
        TableKind::Program => "a program",
        TableKind::Other => "a table",
    }
}
