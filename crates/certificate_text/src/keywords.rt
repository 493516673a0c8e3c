//! The words that lines are made of.

ghost use Rattle.std.specs.Prelude.{◌≡◌};
ghost use Rattle.certificate_text.specs.KeywordViews.{keyword_text};

/// A word that a line has by its kind. (own)
#[derive(Clone, Copy)]
pub(crate) enum Keyword {
    At,
    Fd,
    Chan,
    Auth,
    Ceil,
    Hold,
    Off,
    On,
    Maybe,
    Open,
    Grant,
    Any,
    Sock,
    Unknown,
    None,
    A,
    B,
}

impl Keyword {
    /// Its bytes.
    pub(crate) fn as_bytes(self) -> &'static [u8]
        ensures { result.now ≡ keyword_text self }
    {
        match self {
            Keyword::At => b"at",
            Keyword::Fd => b"fd",
            Keyword::Chan => b"chan",
            Keyword::Auth => b"auth",
            Keyword::Ceil => b"ceil",
            Keyword::Hold => b"hold",
            Keyword::Off => b"off",
            Keyword::On => b"on",
            Keyword::Maybe => b"maybe",
            Keyword::Open => b"open",
            Keyword::Grant => b"grant",
            Keyword::Any => b"any",
            Keyword::Sock => b"sock",
            Keyword::Unknown => b"unknown",
            Keyword::None => b"none",
            Keyword::A => b"a",
            Keyword::B => b"b",
        }
    }
}
