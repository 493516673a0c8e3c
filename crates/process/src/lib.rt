//! One process of a run: its program and point, its registers, whether it is in capability mode, the lookups that its call
//! has under way, and what it is made to do where its program is untrusted.
#![tactic(auto)]

ghost use Rattle.std.specs.Prelude.{◌≡◌, ◌<◌, ◌+◌, true, None, Some, is_some, option_map, slice_set};
ghost use Rattle.process.specs.State.{forked, ended, is_hostile, left_by, moved_to, new_process};
ghost use Rattle.process.specs.Views.{deed_in, deed_of, walking_in, walking_of};

mod copies;
pub mod deeds;
pub mod walking;

pub use deeds::Deed;
use instruction_set::Register;
use rights::limits::REGISTERS;
use std::marker::Model;
pub use walking::Walking;

/// A process. Its mode goes from off to on and never back. (cap_enter(2))
#[derive(Drop)]
pub struct Process {
    /// The program's place in the task.
    pub program: u8,
    /// The next instruction. `move_to` sets it where a call may be under way, which is so at its own point alone.
    pub point: u8,
    /// Registers 0 to 7. A call that succeeds sets register 0 (`succeed`), and one that fails sets register 7 (`fail`).
    pub registers: [u32; REGISTERS],
    mode: bool,
    /// Whether it has not ended.
    pub alive: bool,
    walk: Option<Walking>,
    marked: bool,
    kept: Option<Deed>,
}

impl Model for Process {
    ghost use Rattle.process.specs.State.{ProcessState};
    ghost use Rattle.process.specs.Views.{deed_in, walking_in};

    ghost Value = { ProcessState };

    ghost view = { λ p. record {
      program = p.program;
      point = p.point;
      registers = p.registers;
      mode = p.mode;
      alive = p.alive;
      walk = walking_in p.walk;
      marked = p.marked;
      kept = deed_in p.kept;
    } };
}

impl Process {
    /// A living process at point 0 with all registers 0, in capability mode or not, of a program that is trusted. No call is
    /// under way.
    pub fn new(program: u8, mode: bool) -> Process
        ensures { result ≡ new_process program mode }
    {
        Process {
            program,
            point: 0,
            registers: [0; REGISTERS],
            mode,
            alive: true,
            walk: None,
            marked: false,
            kept: None,
        }
    }

    /// Notes that its program is untrusted. It stays so, and so are its children.
    pub fn mark(&mut self)
        ensures { self.new ≡ record self.old { marked = true } }
    {
        self.marked = true;
    }

    /// Whether its program is untrusted.
    pub fn is_marked(&self) -> bool
        ensures { result ≡ self.now.marked }
    {
        self.marked
    }

    /// Whether the process is in capability mode. (cap_getmode(2))
    pub fn mode(&self) -> bool
        ensures { result ≡ self.now.mode }
    {
        self.mode
    }

    /// Puts the process into capability mode, or leaves it there. (cap_enter(2))
    pub fn enter(&mut self)
        ensures { self.new ≡ record self.old { mode = true } }
    {
        self.mode = true;
    }

    /// Forgets the call that is under way.
    #[cold]
    #[inline(never)]
    fn forget_walk(&mut self)
        ensures { self.new ≡ moved_to self.old self.old.point }
    {
        self.walk = None;
    }

    /// Goes to another point, where no call is under way yet.
    #[inline(always)]
    pub fn move_to(&mut self, point: u8)
        ensures { self.new ≡ moved_to self.old point }
    {
        self.point = point;
        if self.walk.is_some() {
            self.forget_walk();
        }
    }

    /// Goes on to the next point.
    pub fn go_on(&mut self)
        requires { self.old.point + 1 < 256 }
        ensures { self.new ≡ moved_to self.old (self.old.point + 1) }
    {
        self.move_to(self.point + 1);
    }

    /// Sets a register.
    pub fn set(&mut self, register: Register, value: u32)
        ensures { self.new ≡ record self.old { registers = slice_set self.old.registers register value } }
    {
        self.registers[register.number() as usize] = value;
    }

    /// Its call succeeds with this value: register 0 has it, and the process goes on.
    pub fn succeed(&mut self, value: u32)
        requires { self.old.point + 1 < 256 }
        ensures { self.new ≡ moved_to (record self.old { registers = slice_set self.old.registers 0 value }) (self.old.point + 1) }
    {
        self.registers[0] = value;
        self.go_on();
    }

    /// The same of a call that gives two numbers: register 1 has the second.
    pub fn succeed_with_two(&mut self, value: u32, second: u32)
        requires { self.old.point + 1 < 256 }
        ensures { self.new ≡ moved_to (record self.old { registers = slice_set (slice_set self.old.registers 0 value) 1 second }) (self.old.point + 1) }
    {
        self.registers[0] = value;
        self.registers[1] = second;
        self.go_on();
    }

    /// Its call fails: register 7 has the error's number, and the process goes to the label.
    pub fn fail(&mut self, errno: u32, otherwise: u8)
        ensures { self.new ≡ moved_to (record self.old { registers = slice_set self.old.registers 7 errno }) otherwise }
    {
        self.registers[7] = errno;
        self.move_to(otherwise);
    }

    /// Ends the process, with what its call had under way.
    pub fn end(&mut self)
        ensures { self.new ≡ ended self.old }
    {
        self.alive = false;
        self.walk = None;
    }

    /// Whether its call has a lookup under way.
    pub fn is_walking(&self) -> bool
        ensures { result ≡ is_some self.now.walk }
    {
        self.walk.is_some()
    }

    /// Takes what its call has under way out of the process. `walk_on` puts it back.
    pub fn take_walk(&mut self) -> Option<Walking>
        ensures taken { walking_in result ≡ self.old.walk }
        ensures left { self.new ≡ record self.old { walk = None } }
    {
        self.walk.take()
    }

    /// Keeps what its call has under way for the events to come.
    pub fn walk_on(&mut self, walking: Walking)
        ensures { self.new ≡ record self.old { walk = Some (walking_of walking) } }
    {
        self.walk = Some(walking);
    }

    /// Whether it may be made to do anything: its program is untrusted, it is in capability mode and lives, and no call of it is
    /// under way. (own)
    pub fn is_hostile(&self) -> bool
        ensures { result ≡ is_hostile self.now }
    {
        self.marked && self.mode && self.alive && self.walk.is_none()
    }

    /// Has it do this next, in the place of the instruction at its point. (own)
    pub fn keep(&mut self, deed: Deed)
        ensures { self.new ≡ record self.old { kept = Some (deed_of deed) } }
    {
        self.kept = Some(deed);
    }

    /// Takes what it is to do next out of the process. `keep` puts it back.
    pub fn take_deed(&mut self) -> Option<Deed>
        ensures taken { deed_in result ≡ self.old.kept }
        ensures left { self.new ≡ record self.old { kept = None } }
    {
        self.kept.take()
    }

    /// Has the registers and the point that a deed leaves. Nothing is under way then. (own)
    pub fn leave(&mut self, deed: &Deed)
        ensures { self.new ≡ left_by (deed_of deed.now) self.old }
    {
        self.registers = deed.registers;
        self.move_to(deed.point);
        self.kept = None;
    }

    /// What its call has under way, if anything. (own)
    pub fn walking(&self) -> Option<&Walking>
        ensures { option_map (λ w. walking_of w.now) result ≡ self.now.walk }
    {
        self.walk.as_ref()
    }

    /// What it is to do next in the place of the instruction at its point, if anything. (own)
    pub fn deed(&self) -> Option<&Deed>
        ensures { option_map (λ d. deed_of d.now) result ≡ self.now.kept }
    {
        self.kept.as_ref()
    }

    /// A child: a copy of all, the mode too, but for register 0, which is 0. (fork(2), capsicum(4))
    ///
    /// The process may have no lookup under way, so it takes no memory.
    pub fn fork_of(&self) -> Process
        requires { self.now.walk ≡ None }
        ensures { result ≡ forked self.now }
    {
        let mut registers = self.registers;
        registers[0] = 0;
        Process {
            program: self.program,
            point: self.point,
            registers,
            mode: self.mode,
            alive: self.alive,
            walk: None,
            marked: self.marked,
            kept: None,
        }
    }
}
