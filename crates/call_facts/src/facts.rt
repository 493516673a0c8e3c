//! What is known of a call before it is given anything.

ghost use Rattle.std.specs.Prelude.{◌≡◌, count_by};
ghost use Rattle.rights.specs.Views.{call_of};
ghost use Rattle.call_facts.specs.Facts.{beneath, changing, concerns_mode, descriptor_count, facts_of, forks, frees, is_child, is_descriptor, is_freed, is_limited};
ghost use Rattle.call_facts.specs.Facts.{is_mode, is_moved, is_of_mode, making, may_be_refused, moves_name, naming, passing, plain};
ghost use Rattle.call_facts.specs.FactViews.{answer_seen, facts_seen, names_seen, passed_seen, role_seen, roles_seen, scope_seen, table_seen};

use rights::Call;

/// What an argument of a call is for.
#[derive(Clone, Copy, PartialEq, Eq)]
pub enum Role {
    Descriptor,
    Path,
    /// How a file is opened.
    Flags,
    /// The rights that a limit leaves, or the one that a use needs.
    Rights,
    /// The fcntl commands that a limit leaves.
    Commands,
    /// A byte, an offset or a length.
    Amount,
    /// Status flags.
    Status,
    /// Whether a directory is what is removed.
    Choice,
}

/// What a call works on.
#[derive(Clone, Copy, PartialEq, Eq)]
pub enum Scope {
    /// The mode of its process.
    Mode,
    /// The descriptors of its process, whatever they are of.
    Table,
    /// What its first descriptor is of.
    Object,
    /// The node that its first descriptor is of: by a socket it fails.
    Node,
    /// Names from the root, a global name space.
    Root,
    /// Names beneath its first descriptor, and beneath its second, if it has one.
    Beneath,
    /// Nothing that its process has.
    System,
}

/// What the success of a call does to the descriptors of its process, or to the processes.
#[derive(Clone, Copy, PartialEq, Eq)]
pub enum TableChange {
    Unchanged,
    /// A descriptor is made, with all rights.
    Opened,
    /// One with the rights of its directory's.
    Inherited,
    /// A copy of its first descriptor.
    Copied,
    /// The descriptor of a message.
    Received,
    /// Both ends of a pair of sockets.
    Pair,
    /// A process, with the same descriptors.
    Child,
    /// Its first descriptor's number is free.
    Freed,
    /// Its first descriptor is limited.
    Limited,
}

/// What it may do to names of the tree.
#[derive(Clone, Copy, PartialEq, Eq)]
pub enum NameChange {
    Stays,
    /// Makes one, where its flags say so.
    Created,
    Made,
    Removed,
    Moved,
}

/// What it passes, where its first descriptor is an end of a pair.
#[derive(Clone, Copy, PartialEq, Eq)]
pub enum Passed {
    Nothing,
    ByteIn,
    ByteOut,
    DescriptorIn,
    DescriptorOut,
}

/// What the number is with which it succeeds.
#[derive(Clone, Copy, PartialEq, Eq)]
pub enum Answer {
    Zero,
    /// How many bytes it wrote or sent.
    One,
    /// A byte that was read, or 256 at the end.
    Byte,
    Offset,
    /// A file, a directory or a socket.
    Kind,
    StatusFlags,
    ModeBit,
    /// A descriptor's.
    Number,
    /// A child's, or 0 in the child.
    Process,
}

/// What is known of a call before it is given anything.
#[derive(Clone, Copy)]
struct Facts {
    /// What its arguments are for, in their order.
    roles: &'static [Role],
    scope: Scope,
    table: TableChange,
    names: NameChange,
    passed: Passed,
    answer: Answer,
}

impl Facts {
    /// Of a call that changes and passes nothing.
    const fn plain(roles: &'static [Role], scope: Scope, answer: Answer) -> Facts
        ensures { facts_seen result ≡ plain (roles_seen roles.now) (scope_seen scope) (answer_seen answer) }
    {
        Facts {
            roles,
            scope,
            table: TableChange::Unchanged,
            names: NameChange::Stays,
            passed: Passed::Nothing,
            answer,
        }
    }

    /// Of one that makes this.
    const fn making(
        roles: &'static [Role],
        scope: Scope,
        table: TableChange,
        answer: Answer,
    ) -> Facts
        ensures { facts_seen result ≡ making (roles_seen roles.now) (scope_seen scope) (table_seen table) (answer_seen answer) }
    {
        Facts {
            table,
            ..Facts::plain(roles, scope, answer)
        }
    }

    /// Of one that does this to its descriptor.
    const fn changing(roles: &'static [Role], table: TableChange) -> Facts
        ensures { facts_seen result ≡ changing (roles_seen roles.now) (table_seen table) }
    {
        Facts {
            table,
            ..Facts::plain(roles, Scope::Table, Answer::Zero)
        }
    }

    /// Of one that changes names so.
    const fn naming(roles: &'static [Role], scope: Scope, names: NameChange) -> Facts
        ensures { facts_seen result ≡ naming (roles_seen roles.now) (scope_seen scope) (names_seen names) }
    {
        Facts {
            names,
            ..Facts::plain(roles, scope, Answer::Zero)
        }
    }

    /// Of one that passes this.
    const fn passing(roles: &'static [Role], passed: Passed, answer: Answer) -> Facts
        ensures { facts_seen result ≡ passing (roles_seen roles.now) (passed_seen passed) (answer_seen answer) }
    {
        Facts {
            passed,
            ..Facts::plain(roles, Scope::Object, answer)
        }
    }
}

/// What is known of a call.
fn facts_of(call: Call) -> Facts
    ensures { facts_seen result ≡ facts_of (call_of call) }
{
    use Role::{Amount, Choice, Commands, Descriptor, Flags, Path, Rights, Status};
    match call {
        Call::Open => Facts {
            names: NameChange::Created,
            ..Facts::making(
                &[Path, Flags],
                Scope::Root,
                TableChange::Opened,
                Answer::Number,
            )
        },
        Call::Openat => Facts {
            names: NameChange::Created,
            ..Facts::making(
                &[Descriptor, Path, Flags],
                Scope::Beneath,
                TableChange::Inherited,
                Answer::Number,
            )
        },
        Call::Read => Facts::passing(&[Descriptor], Passed::ByteIn, Answer::Byte),
        Call::Write => Facts::passing(&[Descriptor, Amount], Passed::ByteOut, Answer::One),
        Call::Sendfd => Facts::passing(
            &[Descriptor, Descriptor, Amount],
            Passed::DescriptorOut,
            Answer::One,
        ),
        Call::Recvfd => Facts {
            table: TableChange::Received,
            ..Facts::passing(&[Descriptor], Passed::DescriptorIn, Answer::Number)
        },
        Call::Lseek => Facts::plain(&[Descriptor, Amount], Scope::Node, Answer::Offset),
        Call::Ftruncate => Facts::plain(&[Descriptor, Amount], Scope::Node, Answer::Zero),
        Call::Fsync => Facts::plain(&[Descriptor], Scope::Node, Answer::Zero),
        Call::Fstat => Facts::plain(&[Descriptor], Scope::Object, Answer::Kind),
        Call::FcntlGetfl => Facts::plain(&[Descriptor], Scope::Object, Answer::StatusFlags),
        Call::FcntlSetfl => Facts::plain(&[Descriptor, Status], Scope::Object, Answer::Zero),
        Call::Fstatat => Facts::plain(&[Descriptor, Path], Scope::Beneath, Answer::Kind),
        Call::Stat => Facts::plain(&[Path], Scope::Root, Answer::Kind),
        Call::Mkdirat => Facts::naming(&[Descriptor, Path], Scope::Beneath, NameChange::Made),
        Call::Mkdir => Facts::naming(&[Path], Scope::Root, NameChange::Made),
        Call::Unlinkat => Facts::naming(
            &[Descriptor, Path, Choice],
            Scope::Beneath,
            NameChange::Removed,
        ),
        Call::Unlink => Facts::naming(&[Path, Choice], Scope::Root, NameChange::Removed),
        Call::Renameat => Facts::naming(
            &[Descriptor, Path, Descriptor, Path],
            Scope::Beneath,
            NameChange::Moved,
        ),
        Call::Dup => Facts::making(
            &[Descriptor],
            Scope::Table,
            TableChange::Copied,
            Answer::Number,
        ),
        Call::Close => Facts::changing(&[Descriptor], TableChange::Freed),
        Call::CapRightsLimit => Facts::changing(&[Descriptor, Rights], TableChange::Limited),
        Call::CapFcntlsLimit => Facts::changing(&[Descriptor, Commands], TableChange::Limited),
        Call::CapEnter => Facts::plain(&[], Scope::Mode, Answer::Zero),
        Call::CapGetmode => Facts::plain(&[], Scope::Mode, Answer::ModeBit),
        Call::Socketpair => Facts::making(&[], Scope::System, TableChange::Pair, Answer::Number),
        Call::Fork => Facts::making(&[], Scope::System, TableChange::Child, Answer::Process),
        Call::Use => Facts::plain(&[Descriptor, Rights], Scope::Object, Answer::Zero),
    }
}

/// What the arguments of a call are for, in their order.
pub fn roles_of(call: Call) -> &'static [Role]
    ensures { roles_seen result.now ≡ (facts_of (call_of call)).roles }
{
    facts_of(call).roles
}

/// What a call works on.
pub fn scope_of(call: Call) -> Scope
    ensures { scope_seen result ≡ (facts_of (call_of call)).scope }
{
    facts_of(call).scope
}

/// What the success of a call does to the descriptors of its process, or to the processes.
pub fn table_change(call: Call) -> TableChange
    ensures { table_seen result ≡ (facts_of (call_of call)).table }
{
    facts_of(call).table
}

/// What it may do to names of the tree.
pub fn name_change(call: Call) -> NameChange
    ensures { names_seen result ≡ (facts_of (call_of call)).names }
{
    facts_of(call).names
}

/// What it passes, where its first descriptor is an end of a pair.
pub fn passed_by(call: Call) -> Passed
    ensures { passed_seen result ≡ (facts_of (call_of call)).passed }
{
    facts_of(call).passed
}

/// What the number is with which it succeeds.
pub fn answer_of(call: Call) -> Answer
    ensures { answer_seen result ≡ (facts_of (call_of call)).answer }
{
    facts_of(call).answer
}

/// Whether an argument is a descriptor.
fn is_descriptor(role: Role) -> bool
    ensures { result ≡ is_descriptor (role_seen role) }
{
    matches!(role, Role::Descriptor)
}

/// How many of some arguments are descriptors.
fn count_descriptors(roles: &[Role]) -> usize
    ensures { result ≡ count_by is_descriptor (roles_seen roles.now) }
{
    let mut count = 0;
    for role in roles {
        if is_descriptor(*role) {
            count += 1;
        }
    }
    count
}

/// How many of its arguments are descriptors.
pub fn descriptor_count(call: Call) -> usize
    ensures { result ≡ descriptor_count (call_of call) }
{
    count_descriptors(roles_of(call))
}

/// Whether it works on the mode.
fn is_mode(scope: Scope) -> bool
    ensures { result ≡ is_mode (scope_seen scope) }
{
    matches!(scope, Scope::Mode)
}

/// Whether it moves a name.
fn is_moved(names: NameChange) -> bool
    ensures { result ≡ is_moved (names_seen names) }
{
    matches!(names, NameChange::Moved)
}

/// Whether it makes a process.
fn is_child(table: TableChange) -> bool
    ensures { result ≡ is_child (table_seen table) }
{
    matches!(table, TableChange::Child)
}

/// Whether it frees a number.
fn is_freed(table: TableChange) -> bool
    ensures { result ≡ is_freed (table_seen table) }
{
    matches!(table, TableChange::Freed)
}

/// Whether the number of its descriptor is free afterwards. (close(2))
pub fn frees(call: Call) -> bool
    ensures { result ≡ frees (call_of call) }
{
    is_freed(table_change(call))
}

/// Whether it makes a process. (fork(2))
pub fn forks(call: Call) -> bool
    ensures { result ≡ forks (call_of call) }
{
    is_child(table_change(call))
}

/// Whether it moves a name. (rename(2))
pub fn moves_name(call: Call) -> bool
    ensures { result ≡ moves_name (call_of call) }
{
    is_moved(name_change(call))
}

/// Whether it enters the mode, or asks for it. (cap_enter(2), cap_getmode(2))
pub fn concerns_mode(call: Call) -> bool
    ensures { result ≡ concerns_mode (call_of call) }
{
    is_mode(scope_of(call))
}

/// Whether it limits a descriptor.
fn is_limited(table: TableChange) -> bool
    ensures { result ≡ is_limited (table_seen table) }
{
    matches!(table, TableChange::Limited)
}

/// Whether it is for capability mode: the mode itself, or what a descriptor keeps in it. (capsicum(4))
pub fn is_of_mode(call: Call) -> bool
    ensures { result ≡ is_of_mode (call_of call) }
{
    concerns_mode(call) || is_limited(table_change(call))
}

/// Whether the kernel may refuse it: as it takes room (ENFILE, ENOSPC, EAGAIN), or as any call that needs a further right. (own)
pub fn may_be_refused(call: Call) -> bool
    ensures { result ≡ may_be_refused (call_of call) }
{
    match call {
        Call::Open | Call::Openat | Call::Write => true,
        Call::Mkdirat | Call::Mkdir | Call::Socketpair | Call::Fork | Call::Use => true,
        Call::Read | Call::Sendfd | Call::Recvfd | Call::Lseek | Call::Ftruncate => false,
        Call::Fsync | Call::Fstat | Call::Fstatat | Call::Stat => false,
        Call::FcntlGetfl | Call::FcntlSetfl | Call::Unlinkat | Call::Unlink => false,
        Call::Renameat | Call::Dup | Call::Close | Call::CapRightsLimit => false,
        Call::CapFcntlsLimit | Call::CapEnter | Call::CapGetmode => false,
    }
}

/// The call that does beneath a directory what a call by a path alone does; of another call itself. (openat(2), fstatat(2), mkdirat(2), unlinkat(2))
pub fn beneath(call: Call) -> Call
    ensures { call_of result ≡ beneath (call_of call) }
{
    match call {
        Call::Open => Call::Openat,
        Call::Stat => Call::Fstatat,
        Call::Mkdir => Call::Mkdirat,
        Call::Unlink => Call::Unlinkat,
        Call::Openat | Call::Read | Call::Write | Call::Sendfd => call,
        Call::Recvfd | Call::Lseek | Call::Ftruncate | Call::Fsync => call,
        Call::Fstat | Call::FcntlGetfl | Call::FcntlSetfl | Call::Fstatat => call,
        Call::Mkdirat | Call::Unlinkat | Call::Renameat | Call::Dup => call,
        Call::Close | Call::CapRightsLimit | Call::CapFcntlsLimit | Call::CapEnter => call,
        Call::CapGetmode | Call::Socketpair | Call::Fork | Call::Use => call,
    }
}
