//! Sets as words: the names of their members with commas between them, or `none`.

ghost use Rattle.std.specs.Prelude.{◌≡◌, ◌<◌, ◌≤◌, ◌^◌, map, option_map, sum_by};
ghost use Rattle.std.specs.Str.{bytes_eq};
ghost use Rattle.texts.specs.PageViews.{Adds};
ghost use Rattle.texts.specs.Parts.{parts};
ghost use Rattle.call_facts.specs.MemberViews.{command_seen, flag_seen, right_seen};
ghost use Rattle.call_facts.specs.Sets.{command_rows, flag_rows, flag_set, has_word, listed, member_names, plain_rows, request_of_word, right_rows, set_of_list, set_word};

use bitflags::{Flag, Flags};
use rights::limits::{COMMANDS, PLAIN_RIGHTS, RIGHTS};
use rights::{Fcntls, OpenFlags, Rights};
use texts::{Page, Say, first_part, parts_of, say};

/// A member of a set, which has a name and a bit.
trait Member {
    ghost use Rattle.call_facts.specs.Sets.{Row};

    ghost member: { Self → Row };

    fn name(&self) -> &'static str
        ensures { result.now ≡ (member self.now).name };

    fn bit(&self) -> u64
        ensures { result ≡ (member self.now).bit };
}

impl Member for Flag<Rights> {
    ghost member = { right_seen };

    fn name(&self) -> &'static str {
        self.name
    }

    fn bit(&self) -> u64 {
        self.value.bits()
    }
}

impl Member for Flag<Fcntls> {
    ghost member = { command_seen };

    fn name(&self) -> &'static str {
        self.name
    }

    fn bit(&self) -> u64 {
        u64::from(self.value.bits())
    }
}

/// A flag of an open: its name, and its bit.
#[derive(Clone, Copy)]
struct OpenFlag {
    name: &'static str,
    bit: u64,
}

impl Member for OpenFlag {
    ghost member = { flag_seen };

    fn name(&self) -> &'static str {
        self.name
    }

    fn bit(&self) -> u64 {
        self.bit
    }
}

/// The rights, without their other names.
fn right_rows() -> &'static [Flag<Rights>]
    ensures { map right_seen result.now ≡ right_rows }
{
    &Rights::flags()[..RIGHTS]
}

/// Those of the fourteen.
fn plain_rows() -> &'static [Flag<Rights>]
    ensures { map right_seen result.now ≡ plain_rows }
{
    &Rights::flags()[..PLAIN_RIGHTS]
}

/// The fcntl commands.
fn command_rows() -> &'static [Flag<Fcntls>]
    ensures { map command_seen result.now ≡ command_rows }
{
    &Fcntls::flags()[..COMMANDS]
}

/// The flags of an open.
fn flag_rows() -> &'static [OpenFlag]
    ensures { map flag_seen result.now ≡ flag_rows }
{
    &[
        OpenFlag {
            name: "read",
            bit: 1,
        },
        OpenFlag {
            name: "write",
            bit: 2,
        },
        OpenFlag {
            name: "append",
            bit: 4,
        },
        OpenFlag {
            name: "create",
            bit: 8,
        },
        OpenFlag {
            name: "trunc",
            bit: 16,
        },
    ]
}

/// Whether two texts are the same.
fn is_same(text: &[u8], other: &[u8]) -> bool
    ensures { result ≡ bytes_eq text.now other.now }
{
    text == other
}

/// Whether a name is one of a list's.
fn has_word(name: &str, list: &[u8]) -> bool
    ensures { result ≡ has_word name.now (parts 44 list.now) }
{
    let mut list = list;
    loop {
        let (first, behind) = first_part(list, b',');
        if is_same(name.as_bytes(), first) {
            return true;
        }
        let Some(behind) = behind else {
            return false;
        };
        list = behind;
    }
}

/// The set of the members that a list names.
#[tactic(auto, unfolding(crate::specs::Sets::set_of_list))]
fn set_of<M: Member>(rows: &[M], list: &[u8]) -> u64
    requires { sum_by (λ r. r.bit) (map M.member rows.now) < 2 ^ 64 }
    ensures value { result ≡ set_of_list (map M.member rows.now) list.now }
    ensures within { result ≤ sum_by (λ r. r.bit) (map M.member rows.now) }
{
    let mut set = 0;
    for row in rows {
        if has_word(row.name(), list) {
            set += row.bit();
        }
    }
    set
}

/// Adds the names of the members of a set, lowest bit first: the first of them behind a separator, the others behind commas.
fn add_members<M: Member>(page: &mut Page, separator: &'static str, rows: &[M], set: u64)
    ensures { Adds page.old page.new (listed separator.now (member_names (map M.member rows.now) set)) }
{
    match rows {
        [] => {}
        [first, rest @ ..] => {
            if set % 2 == 1 {
                say!(page; separator, first.name());
                return add_members(page, ",", rest, set / 2);
            }
            add_members(page, separator, rest, set / 2)
        }
    }
}

/// Adds a set.
#[tactic(auto, unfolding(crate::specs::Sets::set_word))]
fn add_set<M: Member>(page: &mut Page, rows: &[M], set: u64)
    ensures { Adds page.old page.new (set_word (map M.member rows.now) set) }
{
    if set == 0 {
        "none".say(page)
    } else {
        add_members(page, "", rows, set)
    }
}

/// Adds rights.
pub fn add_rights(page: &mut Page, rights: Rights)
    ensures { Adds page.old page.new (set_word right_rows rights.0) }
{
    add_set(page, right_rows(), rights.bits());
}

/// Adds fcntl commands.
pub fn add_commands(page: &mut Page, commands: Fcntls)
    ensures { Adds page.old page.new (set_word command_rows commands.0) }
{
    add_set(page, command_rows(), u64::from(commands.bits()));
}

/// The set of the flags of an open.
#[tactic(auto, unfolding(crate::specs::Sets::flag_set))]
fn flag_set(flags: OpenFlags) -> u64
    ensures { result ≡ flag_set flags }
{
    u64::from(flags.read())
        + 2 * u64::from(flags.write())
        + 4 * u64::from(flags.append())
        + 8 * u64::from(flags.create())
        + 16 * u64::from(flags.trunc())
}

/// Adds the flags of an open.
pub fn add_flags(page: &mut Page, flags: OpenFlags)
    ensures { Adds page.old page.new (set_word flag_rows (flag_set flags)) }
{
    add_set(page, flag_rows(), flag_set(flags));
}

/// The rights that a list names.
pub fn read_rights(list: &[u8]) -> Rights
    ensures { result.0 ≡ set_of_list right_rows list.now }
{
    Rights::from_bits_retain(set_of(right_rows(), list))
}

/// Those of the fourteen that a list names.
pub fn read_plain_rights(list: &[u8]) -> Rights
    ensures { result.0 ≡ set_of_list plain_rows list.now }
{
    Rights::from_bits_retain(set_of(plain_rows(), list))
}

/// The fcntl commands that a list names.
pub fn read_commands(list: &[u8]) -> Fcntls
    ensures { result.0 ≡ set_of_list command_rows list.now }
{
    Fcntls::from_bits_retain(set_of(command_rows(), list) as u8)
}

/// The flags of an open that a list names.
#[tactic(auto, unfolding(crate::specs::Sets::request_of_word, crate::specs::Sets::request_of_set))]
pub fn read_flags(list: &[u8]) -> Option<OpenFlags>
    ensures { result ≡ request_of_word list.now }
{
    let set = set_of(flag_rows(), list);
    OpenFlags::new(
        set % 2 == 1,
        set / 2 % 2 == 1,
        set / 4 % 2 == 1,
        set / 8 % 2 == 1,
        set / 16 % 2 == 1,
    )
}
