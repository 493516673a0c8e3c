//! What each instruction wants behind its word. A new instruction is a line of `MNEMONICS` and one of
//! `Words::written` or `Words::syscall`, or of what these call once its first operand is read. The
//! operands of calls are read in `call_forms`.

ghost use Rattle.std.specs.Prelude.{◌≡◌, Some};
ghost use Rattle.rights.specs.Views.{call_of};
ghost use Rattle.prog_asm.specs.FormParts.{comparison_at, register_form_at};
ghost use Rattle.prog_asm.specs.FormViews.{TakesField, TakesWord, jump_from, mnemonic_from, written_from};
ghost use Rattle.instruction_set.specs.Assembly.{placed};
ghost use Rattle.instruction_set.specs.Forms.{Make, commands_at, directory_at, else_at, flags_at, further_at, label_at, led, number_at};
ghost use Rattle.instruction_set.specs.Forms.{operand_at, path_at, register_at, rights_at, whole, written_at, written_of};
ghost use Rattle.prog_asm.specs.LineViews.{texts_of};
ghost use Rattle.prog_asm.specs.ReadingViews.{ReadsField};
ghost use Rattle.instruction_set.specs.Views.{instruction_of, operand_of};

use crate::lines::Word;
use crate::mistakes::Mistake;
use crate::mnemonics::Mnemonic;
use crate::{fields, lists};
use instruction_set::{Instruction, Operand, Path, Register, Syscall};
use rights::{Call, Fcntls, OpenFlags, Rights};
use std::alloc::Global;
use std::marker::Model;
use texts::is_name;

/// An instruction that leads to a label, but for the label.
#[derive(Drop)]
pub(crate) enum Jump {
    Always,
    IfEqual { register: Register, value: u32 },
    IfLess { register: Register, value: u32 },
    AfterError { call: Syscall },
}

impl Jump {
    /// The instruction, with the point that it leads to.
    pub(crate) fn led(self, target: u8) -> Instruction
        ensures { instruction_of result ≡ led (jump_from self) target }
    {
        match self {
            Jump::Always => Instruction::Jmp { target },
            Jump::IfEqual { register, value } => Instruction::Jeq {
                register,
                value,
                target,
            },
            Jump::IfLess { register, value } => Instruction::Jlt {
                register,
                value,
                target,
            },
            Jump::AfterError { call } => Instruction::Invoke {
                call,
                otherwise: target,
            },
        }
    }
}

/// An instruction as it is written: alone, or leading to the label of a name.
#[derive(Drop)]
pub(crate) enum Written<'t> {
    Set {
        register: Register,
        value: u32,
    },
    Mov {
        register: Register,
        source: Register,
    },
    Add {
        register: Register,
        addend: Register,
    },
    In {
        register: Register,
    },
    Halt,
    Leading {
        jump: Jump,
        label: &'t [u8],
    },
}

impl<'t> Written<'t> {
    /// The instruction, with this point in the place of its label, if it has one.
    #[tactic(auto, unfolding(crate::specs::FormViews::written_from))]
    pub(crate) fn led(self, target: u8) -> Instruction
        ensures { placed (λ name. Some target) (written_from self.entry) ≡ Some (instruction_of result) }
    {
        match self {
            Written::Set { register, value } => Instruction::Set { register, value },
            Written::Mov { register, source } => Instruction::Mov { register, source },
            Written::Add { register, addend } => Instruction::Add { register, addend },
            Written::In { register } => Instruction::In { register },
            Written::Halt => Instruction::Halt,
            Written::Leading { jump, .. } => jump.led(target),
        }
    }
}

/// The words of a line from some place on, which are read field by field. A clause sees the words.
#[derive(Drop)]
pub(crate) struct Words<'w, 't> {
    alloc: Global,
    rest: &'w [Word<'t>],
}

impl<'w, 't> Model for Words<'w, 't> {
    ghost use Rattle.std.specs.Prelude.{ℕ, List};
    ghost use Rattle.prog_asm.specs.LineViews.{texts_of};

    ghost Value = { List (List ℕ) };

    ghost view = { λ w. texts_of w.rest.now };
}

impl<'w, 't> Words<'w, 't> {
    /// These words.
    fn new(alloc: Global, rest: &'w [Word<'t>]) -> Words<'w, 't>
        ensures { result ≡ texts_of rest.now }
    {
        Words { alloc, rest }
    }

    /// The first word.
    fn word(&mut self) -> Result<&'t [u8], Mistake>
        ensures { TakesWord result self.old self.new }
    {
        match self.rest {
            [] => Err(Mistake::Wrong),
            [word, rest @ ..] => {
                self.rest = rest;
                Ok(word.text)
            }
        }
    }

    /// What was read, if no word is left.
    fn whole<T: Drop>(&self, read: T) -> Result<T, Mistake>
        ensures { ReadsField (λ all. all) result (whole read self.now) }
    {
        if self.rest.is_empty() {
            Ok(read)
        } else {
            Err(Mistake::Wrong)
        }
    }

    /// A register.
    #[tactic(auto, unfolding(instruction_set::specs::Forms::register_at))]
    fn register(&mut self) -> Result<Register, Mistake>
        ensures { TakesField (λ register. register) result self.new (register_at self.old) }
    {
        fields::register(self.word()?).ok_or(Mistake::Wrong)
    }

    /// A number.
    #[tactic(auto, unfolding(instruction_set::specs::Forms::number_at))]
    fn number(&mut self) -> Result<u32, Mistake>
        ensures { TakesField (λ number. number) result self.new (number_at self.old) }
    {
        fields::number(self.word()?).ok_or(Mistake::Wrong)
    }

    /// A register or a number.
    #[tactic(auto, unfolding(instruction_set::specs::Forms::operand_at))]
    pub(crate) fn operand(&mut self) -> Result<Operand, Mistake>
        ensures { TakesField operand_of result self.new (operand_at self.old) }
    {
        fields::operand(self.word()?).ok_or(Mistake::Wrong)
    }

    /// A path in double quotes.
    #[tactic(auto, unfolding(instruction_set::specs::Forms::path_at))]
    pub(crate) fn path(&mut self) -> Result<Path, Mistake>
        ensures { TakesField (λ path. path) result self.new (path_at self.old) }
    {
        let alloc = self.alloc;
        fields::path(alloc, self.word()?)
    }

    /// The flags of an open.
    #[tactic(auto, unfolding(instruction_set::specs::Forms::flags_at))]
    pub(crate) fn flags(&mut self) -> Result<OpenFlags, Mistake>
        ensures { TakesField (λ flags. flags) result self.new (flags_at self.old) }
    {
        lists::flags(self.word()?).ok_or(Mistake::Wrong)
    }

    /// A list of rights, further ones among them in the wide language.
    #[tactic(auto, unfolding(instruction_set::specs::Forms::rights_at))]
    pub(crate) fn rights(&mut self, wide: bool) -> Result<Rights, Mistake>
        ensures { TakesField (λ rights. rights.0) result self.new (rights_at wide self.old) }
    {
        lists::rights(self.word()?, wide).ok_or(Mistake::Wrong)
    }

    /// One further right.
    #[tactic(auto, unfolding(instruction_set::specs::Forms::further_at))]
    pub(crate) fn further_right(&mut self) -> Result<Rights, Mistake>
        ensures { TakesField (λ right. right.0) result self.new (further_at self.old) }
    {
        lists::further_right(self.word()?).ok_or(Mistake::Wrong)
    }

    /// A list of fcntl commands.
    #[tactic(auto, unfolding(instruction_set::specs::Forms::commands_at))]
    pub(crate) fn commands(&mut self) -> Result<Fcntls, Mistake>
        ensures { TakesField (λ commands. commands.0) result self.new (commands_at self.old) }
    {
        lists::commands(self.word()?).ok_or(Mistake::Wrong)
    }

    /// The name of a label.
    #[tactic(auto, unfolding(instruction_set::specs::Forms::label_at))]
    fn label(&mut self) -> Result<&'t [u8], Mistake>
        ensures { TakesField (λ name. name.now) result self.new (label_at self.old) }
    {
        let word = self.word()?;
        if is_name(word) {
            Ok(word)
        } else {
            Err(Mistake::Wrong)
        }
    }

    /// The word `dir`, or nothing: whether it is there.
    #[tactic(auto, unfolding(instruction_set::specs::Forms::directory_at))]
    pub(crate) fn directory(&mut self) -> bool
        ensures { directory_at self.old ≡ Some (result, self.new) }
    {
        match self.rest {
            [word, rest @ ..] if word.text == b"dir".as_slice() => {
                self.rest = rest;
                true
            }
            _ => false,
        }
    }

    /// The word `else` and a label.
    #[tactic(auto, unfolding(instruction_set::specs::Forms::else_at))]
    fn otherwise(&mut self) -> Result<&'t [u8], Mistake>
        ensures { TakesField (λ name. name.now) result self.new (else_at self.old) }
    {
        if self.word()? == b"else".as_slice() {
            self.label()
        } else {
            Err(Mistake::Wrong)
        }
    }

    /// The operands of a call in the wide language or the other, and where it leads after an error.
    #[tactic(auto, unfolding(instruction_set::specs::Forms::written_at, crate::specs::FormViews::written_from))]
    fn invocation(&mut self, wide: bool, call: Call) -> Result<Written<'t>, Mistake>
        ensures { TakesField written_from result self.new (written_at wide (Make (call_of call)) self.old) }
    {
        let call = self.syscall(wide, call)?;
        self.otherwise().map(|label| Written::Leading {
            jump: Jump::AfterError { call },
            label,
        })
    }

    /// The number and the label of a comparison behind its register. An instruction that compares nothing is refused.
    #[tactic(auto, unfolding(crate::specs::FormParts::comparison_at, crate::specs::FormViews::written_from))]
    fn comparison(&mut self, mnemonic: Mnemonic, register: Register) -> Result<Written<'t>, Mistake>
        ensures { TakesField written_from result self.new
            (comparison_at (mnemonic_from mnemonic) register self.old) }
    {
        let value = self.number()?;
        let label = self.label()?;
        let jump = match mnemonic {
            Mnemonic::Jeq => Jump::IfEqual { register, value },
            Mnemonic::Jlt => Jump::IfLess { register, value },
            _ => return Err(Mistake::Wrong),
        };
        Ok(Written::Leading { jump, label })
    }

    /// The operands of an instruction behind its register. One that has no register is refused.
    #[tactic(auto, unfolding(crate::specs::FormParts::register_form_at, crate::specs::FormViews::written_from))]
    fn register_form(
        &mut self,
        mnemonic: Mnemonic,
        register: Register,
    ) -> Result<Written<'t>, Mistake>
        ensures { TakesField written_from result self.new
            (register_form_at (mnemonic_from mnemonic) register self.old) }
    {
        Ok(match mnemonic {
            Mnemonic::Set => Written::Set {
                register,
                value: self.number()?,
            },
            Mnemonic::Mov => Written::Mov {
                register,
                source: self.register()?,
            },
            Mnemonic::Add => Written::Add {
                register,
                addend: self.register()?,
            },
            Mnemonic::In => Written::In { register },
            _ => return self.comparison(mnemonic, register),
        })
    }

    /// The operands of an instruction, in the wide language or the other.
    #[tactic(auto, unfolding(instruction_set::specs::Forms::written_at, crate::specs::FormParts::register_form_at, crate::specs::FormParts::comparison_at, crate::specs::FormViews::written_from))]
    fn written(&mut self, wide: bool, mnemonic: Mnemonic) -> Result<Written<'t>, Mistake>
        ensures { TakesField written_from result self.new (written_at wide (mnemonic_from mnemonic) self.old) }
    {
        match mnemonic {
            Mnemonic::Jmp => {
                let label = self.label()?;
                Ok(Written::Leading {
                    jump: Jump::Always,
                    label,
                })
            }
            Mnemonic::Halt => Ok(Written::Halt),
            Mnemonic::Make(call) => self.invocation(wide, call),
            _ => {
                let register = self.register()?;
                self.register_form(mnemonic, register)
            }
        }
    }
}

/// The instruction that the words behind its own stand for, all of them, in the wide language or the other.
pub(crate) fn read_written<'t>(
    alloc: Global,
    wide: bool,
    mnemonic: Mnemonic,
    operands: &[Word<'t>],
) -> Result<Written<'t>, Mistake>
    ensures { ReadsField written_from result
        (written_of wide (mnemonic_from mnemonic) (texts_of operands.now)) }
{
    let mut words = Words::new(alloc, operands);
    let written = words.written(wide, mnemonic)?;
    words.whole(written)
}
