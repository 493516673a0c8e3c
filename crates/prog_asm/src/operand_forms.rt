//! What may stand behind the word of an instruction, and the first word that may not.

ghost use Rattle.std.specs.Prelude.{◌≡◌, ◌≤◌, IfSome, length, map, option_map};
ghost use Rattle.rights.specs.Views.{call_of};
ghost use Rattle.prog_asm.specs.FormViews.{form_of, mnemonic_from, unfit_of};
ghost use Rattle.prog_asm.specs.LineViews.{word_of};
ghost use Rattle.prog_asm.specs.OperandForms.{call_forms, first_unfit, forms_of, is_of};

use crate::lines::Word;
use crate::mnemonics::Mnemonic;
use crate::{fields, lists};
use rights::Call;
use texts::is_name;

/// What may stand at a place behind the word of an instruction. (own)
#[derive(Clone, Copy, PartialEq, Eq)]
pub enum Form {
    /// `r0` to `r7`.
    Register,
    /// 0 to 4294967295.
    Number,
    /// A register or a number.
    Operand,
    /// A path in double quotes.
    Path,
    /// How a file is opened: a list of words.
    Flags,
    /// A list of rights: of the fourteen that every task may name.
    Rights,
    /// A list of rights, further ones among them.
    AllRights,
    /// One further right.
    FurtherRight,
    /// A list of fcntl commands.
    Commands,
    Label,
    /// The word `dir`, or nothing.
    Directory,
    /// The word `else`.
    Else,
}

impl Form {
    /// Whether a word is of this form.
    fn is_of(self, word: &[u8]) -> bool
        ensures { result ≡ is_of (form_of self) word.now }
    {
        match self {
            Form::Register => fields::register(word).is_some(),
            Form::Number => fields::number(word).is_some(),
            Form::Operand => fields::operand(word).is_some(),
            Form::Path => fields::quoted_path(word).is_some(),
            Form::Flags => lists::flags(word).is_some(),
            Form::Rights => lists::rights(word, false).is_some(),
            Form::AllRights => lists::rights(word, true).is_some(),
            Form::FurtherRight => lists::further_right(word).is_some(),
            Form::Commands => lists::commands(word).is_some(),
            Form::Label => is_name(word),
            Form::Directory => word == b"dir".as_slice(),
            Form::Else => word == b"else".as_slice(),
        }
    }
}

/// The operands of a call in the wide language or the other, and where it leads after an error.
fn call_forms(wide: bool, call: Call) -> &'static [Form]
    ensures { map form_of result.now ≡ call_forms wide (call_of call) }
{
    match call {
        Call::CapEnter | Call::CapGetmode | Call::Socketpair | Call::Fork => {
            &[Form::Else, Form::Label]
        }
        Call::Stat | Call::Mkdir => &[Form::Path, Form::Else, Form::Label],
        Call::Unlink => &[Form::Path, Form::Directory, Form::Else, Form::Label],
        Call::Open => &[Form::Path, Form::Flags, Form::Else, Form::Label],
        Call::Read
        | Call::Recvfd
        | Call::Fsync
        | Call::Fstat
        | Call::FcntlGetfl
        | Call::Dup
        | Call::Close => &[Form::Operand, Form::Else, Form::Label],
        Call::Write | Call::Lseek | Call::Ftruncate | Call::FcntlSetfl => {
            &[Form::Operand, Form::Operand, Form::Else, Form::Label]
        }
        Call::Sendfd => &[
            Form::Operand,
            Form::Operand,
            Form::Operand,
            Form::Else,
            Form::Label,
        ],
        Call::CapRightsLimit if wide => {
            &[Form::Operand, Form::AllRights, Form::Else, Form::Label]
        }
        Call::CapRightsLimit => &[Form::Operand, Form::Rights, Form::Else, Form::Label],
        Call::Use => &[Form::Operand, Form::FurtherRight, Form::Else, Form::Label],
        Call::CapFcntlsLimit => &[Form::Operand, Form::Commands, Form::Else, Form::Label],
        Call::Fstatat | Call::Mkdirat => &[Form::Operand, Form::Path, Form::Else, Form::Label],
        Call::Openat => &[
            Form::Operand,
            Form::Path,
            Form::Flags,
            Form::Else,
            Form::Label,
        ],
        Call::Unlinkat => &[
            Form::Operand,
            Form::Path,
            Form::Directory,
            Form::Else,
            Form::Label,
        ],
        Call::Renameat => &[
            Form::Operand,
            Form::Path,
            Form::Operand,
            Form::Path,
            Form::Else,
            Form::Label,
        ],
    }
}

impl Mnemonic {
    /// What the instruction wants behind its word in the wide language or the other, in this order. (own)
    pub fn forms(self, wide: bool) -> &'static [Form]
        ensures { map form_of result.now ≡ forms_of wide (mnemonic_from self) }
    {
        match self {
            Mnemonic::Set => &[Form::Register, Form::Number],
            Mnemonic::Mov | Mnemonic::Add => &[Form::Register, Form::Register],
            Mnemonic::In => &[Form::Register],
            Mnemonic::Jmp => &[Form::Label],
            Mnemonic::Jeq | Mnemonic::Jlt => &[Form::Register, Form::Number, Form::Label],
            Mnemonic::Halt => &[],
            Mnemonic::Make(call) => call_forms(wide, call),
        }
    }
}

/// What is wrong with words: so many may stand there, and behind them this form is wanted, or nothing is.
#[derive(Clone, Copy)]
pub(crate) struct Unfit {
    pub fit: usize,
    pub wants: Option<Form>,
}

/// What is wrong with words where these forms are wanted.
pub(crate) fn first_unfit(forms: &[Form], words: &[Word<'_>]) -> Option<Unfit>
    ensures unfit { option_map unfit_of result ≡ first_unfit (map form_of forms.now) (map (λ word. word.text) (map word_of words.now)) }
    ensures within { IfSome result (λ found. found.fit ≤ length words.now) }
{
    let wanted = match forms {
        [] => {
            return if words.is_empty() {
                None
            } else {
                Some(Unfit {
                    fit: 0,
                    wants: None,
                })
            };
        }
        [form, ..] => *form,
    };
    let forms = &forms[1..];
    match words {
        [word, rest @ ..] if wanted.is_of(word.text) => {
            let found = first_unfit(forms, rest)?;
            Some(Unfit {
                fit: found.fit + 1,
                wants: found.wants,
            })
        }
        _ if wanted == Form::Directory => first_unfit(forms, words),
        _ => Some(Unfit {
            fit: 0,
            wants: Some(wanted),
        }),
    }
}
