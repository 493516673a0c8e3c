//! Limits of descriptors, as calls. (own: by cap_rights_limit(2), cap_fcntls_limit(2) and what truss(1) prints of them)

use crate::entries::Reason;
use crate::known::Known;
use crate::real_calls::Given;
use crate::runs::Run;
use crate::seen_calls::Through;
use crate::strace_texts::{after, between, same_bytes, without_spaces};
use rights::Call;
use texts::{Page, first_part};

/// How many names of rights are listed at most.
const MOST_NAMES: usize = 128;

/// The names that the calls here have otherwise.
const SPELLINGS: [(&[u8], &[u8]); 4] = [
    (b"RECV", b"READ"),
    (b"SEND", b"WRITE"),
    (b"PREAD", b"READ,SEEK"),
    (b"PWRITE", b"WRITE,SEEK"),
];

/// A name, as the calls here have it.
fn spelt(name: &[u8]) -> &[u8] {
    for (own, spelling) in &SPELLINGS {
        if same_bytes(name, own) {
            return spelling;
        }
    }
    name
}

/// Adds the names of a list, without this beginning, each behind a comma.
fn add_names(page: &mut Page, list: &[u8], beginning: &[u8]) {
    let mut rest = list;
    for _ in 0..MOST_NAMES {
        let (part, behind) = first_part(rest, b',');
        let (word, _blanks) = first_part(without_spaces(part), b' ');
        if let Some(name) = after(word, beginning) {
            page.bytes(b",");
            page.bytes(spelt(name));
        }
        let Some(behind) = behind else {
            return;
        };
        rest = behind;
    }
}

/// The names in braces that an argument lists, as `{ CAP_READ,CAP_SEEK }`, without this beginning, if it lists any.
fn listed(known: &mut Known, argument: &[u8], beginning: &[u8]) -> Option<Page> {
    let Some(list) = between(argument, b"{", b"}") else {
        return None;
    };
    let mut page = Page::new(known.alloc);
    add_names(&mut page, list, beginning);
    known.note(&page);
    Some(page)
}

/// Takes a limit of the rights of a descriptor. Why it is left out is told, if it is.
pub(crate) fn take_rights(run: &mut Run, through: &Through<'_>) -> Option<Reason> {
    let (seen, mention) = (through.seen, through.mention);
    let Some(names) = listed(&mut run.known, seen.argument(1), b"CAP_") else {
        return Some(Reason::Unknown);
    };
    let rights = Given::Rights(names.as_bytes());
    let given = [Given::Number(mention.number), rights];
    let about = [Some(mention), None];
    run.add(seen, Call::CapRightsLimit, &given, seen.outcome, about);
    None
}

/// Takes a limit of the fcntl commands of a descriptor, likewise.
pub(crate) fn take_commands(run: &mut Run, through: &Through<'_>) -> Option<Reason> {
    let (seen, mention) = (through.seen, through.mention);
    let Some(names) = listed(&mut run.known, seen.argument(1), b"CAP_FCNTL_") else {
        return Some(Reason::Unknown);
    };
    let commands = Given::Commands(names.as_bytes());
    let given = [Given::Number(mention.number), commands];
    let about = [Some(mention), None];
    run.add(seen, Call::CapFcntlsLimit, &given, seen.outcome, about);
    None
}
