//! The words that instructions begin with.

ghost use Rattle.std.specs.Prelude.{◌≡◌, map, option_map};
ghost use Rattle.prog_asm.specs.FormViews.{mnemonic_from};
ghost use Rattle.instruction_set.specs.Forms.{is_wide_word, mnemonic_among, mnemonic_name, mnemonic_of};

use rights::Call;

/// The word that an instruction begins with. (own)
#[derive(Clone, Copy)]
pub enum Mnemonic {
    Set,
    Mov,
    Add,
    In,
    Jmp,
    Jeq,
    Jlt,
    Halt,
    /// A system call.
    Make(Call),
}

/// The instructions that are read, `use` in the wide language alone. (own)
pub const MNEMONICS: [Mnemonic; 36] = [
    Mnemonic::Set,
    Mnemonic::Mov,
    Mnemonic::Add,
    Mnemonic::In,
    Mnemonic::Jmp,
    Mnemonic::Jeq,
    Mnemonic::Jlt,
    Mnemonic::Halt,
    Mnemonic::Make(Call::Open),
    Mnemonic::Make(Call::Openat),
    Mnemonic::Make(Call::Read),
    Mnemonic::Make(Call::Write),
    Mnemonic::Make(Call::Sendfd),
    Mnemonic::Make(Call::Recvfd),
    Mnemonic::Make(Call::Lseek),
    Mnemonic::Make(Call::Ftruncate),
    Mnemonic::Make(Call::Fsync),
    Mnemonic::Make(Call::Fstat),
    Mnemonic::Make(Call::FcntlGetfl),
    Mnemonic::Make(Call::FcntlSetfl),
    Mnemonic::Make(Call::Fstatat),
    Mnemonic::Make(Call::Stat),
    Mnemonic::Make(Call::Mkdirat),
    Mnemonic::Make(Call::Mkdir),
    Mnemonic::Make(Call::Unlinkat),
    Mnemonic::Make(Call::Unlink),
    Mnemonic::Make(Call::Renameat),
    Mnemonic::Make(Call::Dup),
    Mnemonic::Make(Call::Close),
    Mnemonic::Make(Call::CapRightsLimit),
    Mnemonic::Make(Call::CapFcntlsLimit),
    Mnemonic::Make(Call::CapEnter),
    Mnemonic::Make(Call::CapGetmode),
    Mnemonic::Make(Call::Socketpair),
    Mnemonic::Make(Call::Fork),
    Mnemonic::Make(Call::Use),
];

impl Mnemonic {
    /// The word.
    pub fn name(self) -> &'static str
        ensures { result.now ≡ mnemonic_name (mnemonic_from self) }
    {
        match self {
            Mnemonic::Set => "set",
            Mnemonic::Mov => "mov",
            Mnemonic::Add => "add",
            Mnemonic::In => "in",
            Mnemonic::Jmp => "jmp",
            Mnemonic::Jeq => "jeq",
            Mnemonic::Jlt => "jlt",
            Mnemonic::Halt => "halt",
            Mnemonic::Make(call) => call.name(),
        }
    }

    /// Whether it is a word of the wide language alone. (own)
    pub fn is_wide(self) -> bool
        ensures { result ≡ is_wide_word (mnemonic_from self) }
    {
        matches!(self, Mnemonic::Make(Call::Use))
    }
}

/// The first of these that the word is.
fn mnemonic_among(mnemonics: &[Mnemonic], word: &[u8]) -> Option<Mnemonic>
    ensures { option_map mnemonic_from result
        ≡ mnemonic_among (map mnemonic_from mnemonics.now) word.now }
{
    for mnemonic in mnemonics {
        if word == mnemonic.name().as_bytes() {
            return Some(*mnemonic);
        }
    }
    None
}

/// The instruction that is read at this word, in the wide language or the other.
pub(crate) fn mnemonic_of(wide: bool, word: &[u8]) -> Option<Mnemonic>
    ensures { option_map mnemonic_from result ≡ mnemonic_of wide word.now }
{
    match mnemonic_among(&MNEMONICS, word) {
        Some(mnemonic) if !mnemonic.is_wide() || wide => Some(mnemonic),
        _ => None,
    }
}
