//! A plan in words, as comments in front of its task.

use crate::demands::{Demand, Limit};
use crate::fates::standard_rights;
use crate::further::FurtherRights;
use crate::handles::Handle;
use crate::policies::{Account, Ground, Policy};
use crate::room::Room;
use crate::trees::Tree;
use bitflags::Flags;
use call_facts::sets::{add_commands, add_rights};
use records::Entry;
use rights::{Fcntls, Rights};
use texts::{Page, Say, say};

/// What a plan is told of.
#[derive(Clone, Copy)]
pub(crate) struct Words<'a> {
    pub tree: &'a Tree,
    pub policy: &'a Policy,
    pub accounts: &'a [Account],
    pub records: &'a [Vec<Entry>],
}

/// Places of which a grant allows what nobody means.
const USELESS: [&[u8]; 4] = [b"/", b"/home", b"/root", b"/etc"];

/// What a yes speaks of.
const LAST_WORDS: &[u8] =
    b"# A yes of `check` speaks of the calls that were recorded, in any order. With the
# program untrusted it speaks of all that this does behind cap_enter, if what comes
# before is as recorded.
";

/// How long a line is before another one begins.
const COLUMNS: usize = 78;

/// Adds a descriptor, by its number and the place that it is of.
fn add_handle(page: &mut Page, handle: &Handle) {
    say!(page; handle.number);
    if let Some(place) = &handle.place {
        say!(page; " (", place.as_slice(), ")");
    }
}

/// Adds names as C has them, each of which stands behind a comma, to a line that began there, where others may stand already.
fn add_names(page: &mut Page, begin: usize, beginning: &str, names: &[u8]) {
    let mut begin = begin;
    for byte in names {
        if *byte == b',' {
            page.bytes(b",");
            if page.as_bytes().len().saturating_sub(begin) > COLUMNS {
                begin = page.as_bytes().len();
                page.bytes(b"\n#     ");
            }
            say!(page; " ", beginning);
        } else {
            page.bytes(&[*byte]);
        }
    }
}

/// The names of what is asked, each behind a comma.
fn names_of(room: &mut Room, rights: Rights, further: FurtherRights) -> Vec<u8> {
    let mut names = Page::new(room.alloc());
    if rights != Rights::empty() {
        names.bytes(b",");
        add_rights(&mut names, rights);
    }
    further.add_names(&mut names);
    room.bytes(names)
}

/// The names of commands, each behind a comma.
fn command_names(room: &mut Room, commands: Fcntls) -> Vec<u8> {
    let mut names = Page::new(room.alloc());
    if commands != Fcntls::empty() {
        names.bytes(b",");
        add_commands(&mut names, commands);
    }
    room.bytes(names)
}

/// Adds the limit of a descriptor, as C has it, to a line that began there.
fn add_limit(room: &mut Room, page: &mut Page, begin: usize, demand: Demand) {
    let names = names_of(room, demand.rights, demand.further);
    page.bytes(b"cap_rights_init(&rights");
    add_names(page, begin, "CAP_", &names);
    page.bytes(b")\n");
    if demand.rights.contains(Rights::FCNTL) && demand.commands != Fcntls::all() {
        let names = command_names(room, demand.commands);
        let begin = page.as_bytes().len();
        page.bytes(b"#      cap_fcntls_limit(..");
        add_names(page, begin, "CAP_FCNTL_", &names);
        page.bytes(b")\n");
    }
    if demand.further.has_ioctl() {
        page.bytes(b"#      cap_ioctls_limit(.., the commands of its ioctl calls)\n");
    }
}

impl<'a> Words<'a> {
    /// Adds a directory that is to be opened in front of the mode, and what is done beneath it.
    fn add_ground(&self, room: &mut Room, page: &mut Page, ground: &Ground) {
        if !ground.demand.is_used {
            return;
        }
        let begin = page.as_bytes().len();
        say!(page; "#  open ", ground.place.as_slice(), " (");
        for (at, operation) in ground.operations(room).iter().enumerate() {
            if at > 0 {
                page.bytes(b", ");
            }
            page.bytes(operation.name().as_bytes());
        }
        page.bytes(b"): ");
        add_limit(room, page, begin, ground.demand);
    }

    /// Adds which descriptor a limit is of.
    fn add_subject(&self, page: &mut Page, account: &Account, limit: &Limit) {
        if let Some(handle) = account.handles.list.get(limit.handle) {
            add_handle(page, handle);
        }
        page.bytes(b": ");
    }

    /// Adds what is done with a descriptor in front of the mode.
    fn add_kept(&self, room: &mut Room, page: &mut Page, account: &Account, limit: &Limit) {
        let begin = page.as_bytes().len();
        page.bytes(b"#  ");
        self.add_subject(page, account, limit);
        if limit.demand.is_used {
            add_limit(room, page, begin, limit.demand);
        } else {
            page.bytes(b"close it, nothing behind the line uses it in this record\n");
        }
        if account.handles.is_listened_on(limit.handle) {
            page.bytes(b"#      (a connection that is accepted has the same)\n");
        }
    }

    /// Adds what an input, an output or errors have to keep beside what caph_limit_stdio(3) leaves, if it is anything.
    fn add_standard(&self, room: &mut Room, page: &mut Page, account: &Account, limit: &Limit) {
        let beyond = Flags::difference(limit.demand.rights, standard_rights());
        let further = limit.demand.further.beyond_standard();
        if beyond == Rights::empty() && further.is_empty() {
            return;
        }
        let begin = page.as_bytes().len();
        page.bytes(b"#  ");
        self.add_subject(page, account, limit);
        page.bytes(b"what caph_limit_stdio(3) leaves");
        let names = names_of(room, beyond, further);
        add_names(page, begin, "CAP_", &names);
        page.bytes(b"\n");
    }

    /// Adds what is done with a descriptor that is sent into the mode.
    fn add_sent(
        &self,
        room: &mut Room,
        page: &mut Page,
        account: &Account,
        entries: &[Entry],
        limit: &Limit,
    ) {
        let entry = entries.get(limit.entry);
        if let (Some(entry), true) = (entry, limit.demand.is_used) {
            let begin = page.as_bytes().len();
            say!(page; "#  before line ", entry.span.first, " sends ");
            self.add_subject(page, account, limit);
            add_limit(room, page, begin, limit.demand);
        }
    }

    /// Adds what is to be done in front of the mode.
    fn add_before(&self, room: &mut Room, page: &mut Page) {
        page.bytes(b"# Before cap_enter(2), in C, with 0, 1 and 2 by caph_limit_stdio(3):\n");
        for ground in &self.policy.grounds {
            self.add_ground(room, page, ground);
        }
        for (at, account) in self.accounts.iter().enumerate() {
            for limit in &account.demands.standard {
                self.add_standard(room, page, account, limit);
            }
            for limit in &account.demands.kept {
                self.add_kept(room, page, account, limit);
            }
            if let Some(entries) = self.records.get(at) {
                self.add_all_sent(room, page, account, entries);
            }
        }
    }

    /// Adds the limits of what is sent.
    fn add_all_sent(&self, room: &mut Room, page: &mut Page, account: &Account, entries: &[Entry]) {
        for limit in &account.demands.sent {
            self.add_sent(room, page, account, entries, limit);
        }
    }

    /// Adds which files have nobody who enters the mode.
    fn add_outside(&self, page: &mut Page) {
        for (at, account) in self.accounts.iter().enumerate() {
            if account.entrances.is_empty() {
                say!(page; "# In file ", at.saturating_add(1), " nobody comes to where the mode is entered.\n");
            }
        }
    }

    /// Adds what is wrong with the policy.
    fn add_policy(&self, page: &mut Page) {
        if self.policy.is_over {
            page.bytes(
                b"# There are names in more than eight directories: some are left by their paths alone.\n",
            );
        }
        for ground in &self.policy.grounds {
            for place in USELESS {
                if ground.place.as_slice() == place && ground.rights != Rights::empty() {
                    say!(page; "# THE GRANT OF ", place, " IS USELESS: it allows what nobody means.\n");
                }
            }
        }
    }

    /// Adds the plan in words. How many calls in the mode are left is told.
    pub(crate) fn add(&self, room: &mut Room, page: &mut Page, line: u32) -> usize {
        say!(page; "# The plan: the mode behind line ", line, " of the first file.\n");
        self.add_outside(page);
        self.add_before(room, page);
        let left = self.add_left(room, page);
        self.add_policy(page);
        page.bytes(LAST_WORDS);
        left
    }
}
