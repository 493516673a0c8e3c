//! The text of a task, of what was learnt.

use crate::codes::Code;
use crate::needs::{Ends, Need, need_of};
use crate::policies::Policy;
use crate::room::Room;
use crate::tables::{Held, Holding, Table};
use crate::trees::{Link, Node, Presence, Tree, WorldAction};
use crate::worlds::{Footing, WorldEnd, world_code};
use rights::limits::{MAX_BYTES, MAX_DESCRIPTORS};
use rights::{Op, Side};
use texts::{Page, Say, parts_of, say};

/// A program, and what its first process begins with.
#[derive(Drop)]
pub(crate) struct Program {
    pub name: Vec<u8>,
    pub code: Code,
    pub table: Table,
}

/// A pair that is there from the start: of an end of a program's process, by its number there, of all ends of which nothing is asked, where the
/// world would have too many, or of a pair of the record.
#[derive(Clone, Copy, PartialEq, Eq)]
enum Origin {
    World { program: usize, first: u8 },
    Unasked,
    Recorded(u32),
}

/// A task on its way.
#[derive(Drop)]
pub(crate) struct Draft<'a> {
    pub programs: Vec<Program>,
    pub needs: Vec<Need>,
    pub tree: Tree,
    /// The policy of the plan, if it is one's.
    pub policy: Option<&'a Policy>,
    /// The pairs that are there from the start, in the order of their numbers.
    pairs: Vec<Origin>,
    /// All ends of which nothing is asked are of one pair.
    shares: bool,
}

/// How many ends the processes of programs begin with whose other side the world has.
fn ends_of_world(programs: &[Program]) -> usize {
    let mut count: usize = 0;
    for program in programs {
        for held in &program.table.held {
            if matches!(held.holding, Holding::World { .. }) {
                count = count.saturating_add(1);
            }
        }
    }
    count
}

/// Adds a node.
fn add_node(page: &mut Page, node: &Node) {
    let place = node.place.as_slice();
    match node.first {
        Presence::Absent => {}
        Presence::Directory => say!(page; " {path=\"", place, "\", kind=\"dir\"},\n"),
        Presence::File => {
            say!(page; " {path=\"", place, "\", kind=\"file\", content=\"");
            for _ in 0..node.length.min(MAX_BYTES) {
                page.bytes(b"A");
            }
            page.bytes(b"\"},\n");
        }
    }
}

/// Adds a link.
fn add_link(page: &mut Page, link: &Link) {
    say!(page; " {path=\"", link.place.as_slice(), "\", kind=\"link\", target=\"", link.target.as_slice(), "\"},\n");
}

/// The name of a side in a task.
fn side_name(side: Side) -> &'static str {
    match side {
        Side::A => "a",
        Side::B => "b",
    }
}

/// Adds operations, as a grant lists them.
fn add_operations(page: &mut Page, operations: &[Op]) {
    for (at, operation) in operations.iter().enumerate() {
        if at > 0 {
            page.bytes(b", ");
        }
        say!(page; "\"", operation.name(), "\"");
    }
}

/// Adds an end of a pair.
fn add_end(page: &mut Page, number: usize, pair: usize, side: Side) {
    say!(page; "{number=", number, ", pair=", pair, ", side=\"", side_name(side), "\"}");
}

impl<'a> Draft<'a> {
    /// Of programs, of what they ask of the world, of a tree, and of a plan's policy, if there is one.
    pub(crate) fn new(
        room: &mut Room,
        programs: Vec<Program>,
        needs: Vec<Need>,
        tree: Tree,
        policy: Option<&'a Policy>,
    ) -> Draft<'a> {
        let ends = ends_of_world(&programs);
        let mut draft = Draft {
            programs,
            needs,
            tree,
            policy,
            pairs: room.list(),
            shares: false,
        };
        let directories = draft.world_directories(room).len();
        draft.shares = ends.saturating_add(directories) > MAX_DESCRIPTORS;
        draft
    }

    /// Which pair an end of the world's is of.
    fn origin_of(&self, program: usize, first: u8) -> Origin {
        let own = need_of(&self.needs, Ends::Own { program, first });
        let connections = need_of(&self.needs, Ends::Connections { program, first });
        if self.shares && own.is_none() && connections.is_none() {
            Origin::Unasked
        } else {
            Origin::World { program, first }
        }
    }

    /// The number of a pair that is there from the start.
    fn pair_of(&mut self, room: &mut Room, origin: Origin) -> usize {
        for (at, own) in self.pairs.iter().enumerate() {
            if *own == origin {
                return at;
            }
        }
        room.push(&mut self.pairs, origin);
        self.pairs.len().saturating_sub(1)
    }

    /// Which pair a descriptor is an end of, if it is one, and of which side.
    fn end_of(&mut self, room: &mut Room, program: usize, at: usize) -> Option<(usize, Side)> {
        let held = self.programs.get(program)?.table.held.get(at)?;
        let (origin, side) = match held.holding {
            Holding::Node(_) | Holding::Connection { .. } => return None,
            Holding::World { first } => (self.origin_of(program, first), Side::A),
            Holding::End { pair, side, .. } => (Origin::Recorded(pair), side),
        };
        Some((self.pair_of(room, origin), side))
    }

    /// Adds a descriptor of a node.
    fn add_place(&self, page: &mut Page, number: u8, place: &[u8]) {
        say!(page; "{number=", number, ", path=\"", place, "\"");
        if let Some(
            Node {
                first: Presence::File,
                ..
            },
        ) = self.tree.node_at(place)
        {
            page.bytes(b", flags=[\"read\", \"write\"]");
        }
        page.bytes(b"}");
    }

    /// Adds a descriptor of a program's process.
    fn add_descriptor(&mut self, room: &mut Room, page: &mut Page, program: usize, at: usize) {
        if at > 0 {
            page.bytes(b", ");
        }
        let end = self.end_of(room, program, at);
        let held = match self.programs.get(program) {
            Some(program) => program.table.held.get(at),
            None => None,
        };
        match (held, end) {
            (Some(held), Some((pair, side))) => {
                add_end(page, usize::from(held.number), pair, side);
            }
            (
                Some(
                    Held {
                        number,
                        holding: Holding::Node(place),
                        ..
                    },
                ),
                None,
            ) => self.add_place(page, *number, place),
            _ => {}
        }
    }

    /// Adds the first process of a program.
    fn add_process(&mut self, room: &mut Room, page: &mut Page, program: usize) {
        let (count, name) = match self.programs.get(program) {
            Some(own) => (own.table.held.len(), room.copy(&own.name)),
            None => return,
        };
        say!(page; " {program=\"", name.as_slice(), "\", fd=[");
        for at in 0..count {
            self.add_descriptor(room, page, program, at);
        }
        page.bytes(b"]},\n");
    }

    /// The ends that the world has.
    fn world_ends(&self, room: &mut Room) -> Vec<WorldEnd> {
        let mut ends = room.list();
        for origin in &self.pairs {
            let (need, connections) = match *origin {
                Origin::World { program, first } => (
                    need_of(&self.needs, Ends::Own { program, first }),
                    need_of(&self.needs, Ends::Connections { program, first }),
                ),
                Origin::Unasked => (None, None),
                Origin::Recorded(_) => continue,
            };
            let number = ends.len();
            room.push(
                &mut ends,
                WorldEnd {
                    number,
                    need,
                    connections,
                },
            );
        }
        ends
    }

    /// Whether the world has more descriptors than a process may have.
    pub(crate) fn is_crowded(&self, room: &mut Room) -> bool {
        let ends = self.world_ends(room).len();
        let directories = self.world_directories(room).len();
        ends.saturating_add(directories) > MAX_DESCRIPTORS
    }

    /// The directories that the world has, to do something with the tree: those of the policy, or the root to move something.
    fn world_directories(&self, room: &mut Room) -> Vec<Vec<u8>> {
        let mut directories = room.list();
        let changes = &self.tree.changes;
        match self.policy {
            Some(policy) if !changes.is_empty() => {
                for ground in &policy.grounds {
                    let place = room.copy(&ground.place);
                    room.push(&mut directories, place);
                }
            }
            None if self.tree.moves_something() => {
                let place = room.copy(b"/");
                room.push(&mut directories, place);
            }
            _ => {}
        }
        directories
    }

    /// Adds the process of the world.
    fn add_world(&self, page: &mut Page, directories: &[Vec<u8>]) {
        page.bytes(b" {program=\"world\", fd=[");
        let mut number = 0usize;
        for (pair, origin) in self.pairs.iter().enumerate() {
            if !matches!(origin, Origin::Recorded(_)) {
                if number > 0 {
                    page.bytes(b", ");
                }
                add_end(page, number, pair, Side::B);
                number = number.saturating_add(1);
            }
        }
        for place in directories {
            if number > 0 {
                page.bytes(b", ");
            }
            say!(page; "{number=", number, ", path=\"", place.as_slice(), "\"}");
            number = number.saturating_add(1);
        }
        page.bytes(b"]}]\n");
    }

    /// Adds the grants.
    fn add_grants(&self, room: &mut Room, page: &mut Page) {
        page.bytes(b"grant = [");
        if let Some(policy) = self.policy {
            for (at, ground) in policy.grounds.iter().enumerate() {
                let parting = if at == 0 {
                    "\n {name=\""
                } else {
                    ",\n {name=\""
                };
                let name = policy.name_of(room, at);
                say!(page; parting, name.as_slice(), "\", path=\"", ground.place.as_slice(), "\", ops=[");
                add_operations(page, &ground.operations(room));
                page.bytes(b"]}");
            }
        }
        page.bytes(b"]\n");
    }

    /// Adds the tree.
    fn add_tree(&self, page: &mut Page) {
        page.bytes(b"node = [\n");
        for node in &self.tree.nodes {
            add_node(page, node);
        }
        for link in &self.tree.links {
            add_link(page, link);
        }
        page.bytes(b"]\n");
    }

    /// Adds the name of a program.
    fn add_name(&self, page: &mut Page, name: &[u8]) {
        say!(page; "\n[[program]]\nname = \"", name, "\"\n");
    }

    /// Adds the name of one of its programs.
    pub(crate) fn add_name_of(&self, page: &mut Page, program: usize) {
        if let Some(own) = self.programs.get(program) {
            self.add_name(page, &own.name);
        }
    }

    /// Adds the code of a program.
    fn add_code(&self, page: &mut Page, code: &[u8]) {
        say!(page; "code = '''\n", code, "'''\n");
    }

    /// Adds the task up to one of its programs.
    pub(crate) fn add_front(&mut self, room: &mut Room, page: &mut Page, program: usize) {
        self.add_tree(page);
        self.add_grants(room, page);
        page.bytes(b"process = [\n");
        for own in 0..self.programs.len() {
            self.add_process(room, page, own);
        }
        let directories = self.world_directories(room);
        self.add_world(page, &directories);
        for (at, own) in self.programs.iter().enumerate() {
            if at < program {
                self.add_name(page, &own.name);
                self.add_code(page, &own.code.text);
            }
        }
    }

    /// Adds the task from behind the name of one of its programs on.
    pub(crate) fn add_back(&self, room: &mut Room, page: &mut Page, program: usize) {
        for (at, own) in self.programs.iter().enumerate() {
            if at > program {
                self.add_name(page, &own.name);
            }
            if at >= program {
                self.add_code(page, &own.code.text);
            }
        }
        let ends = self.world_ends(room);
        let directories = self.world_directories(room);
        let footing = Footing {
            directories: &directories,
            first: ends.len(),
            moves_alone: self.policy.is_none(),
        };
        let world = world_code(room, &ends, &self.tree, footing);
        self.add_name(page, b"world");
        self.add_code(page, &world);
    }
}
