//! Why bytes are no certificate.

ghost use Rattle.std.specs.Prelude.{◌≡◌};
ghost use Rattle.certificate_text.specs.Views.{fault_name, fault_number, faulty_at};
ghost use Rattle.certificate_text.specs.declared.faults.CertFault.TheVariants as faults;

use thiserror::Error;

/// Why a line is none of a certificate's. Of the two the first counts.
#[derive(Clone, Copy)]
pub(crate) enum LineFault {
    /// It has no form that a line has.
    Syntax,
    /// A number is past its limit.
    Limit,
}

/// Why bytes are no certificate: the first faulty line counts, and on it the first of these. The number is the offset of
/// the line's first byte, or the length of the text where a line is missing. (own)
#[derive(Clone, Copy, Debug, PartialEq, Eq, Error)]
pub enum CertFault {
    /// A line has no form that a line has.
    #[error("no line of a certificate at {0}")]
    Syntax(usize),
    /// A number is past its limit, a ninth program is named, or a 33rd class has a channel.
    #[error("past a limit at {0}")]
    Limit(usize),
    /// A line is out of its place, or not above the one before it.
    #[error("out of order at {0}")]
    Order(usize),
    /// A growth was refused.
    #[error("no memory")]
    Memory,
}

impl CertFault {
    /// The fault's number.
    pub fn number(self) -> u8
        ensures { result ≡ fault_number self }
    {
        match self {
            CertFault::Syntax(_) => 1,
            CertFault::Limit(_) => 2,
            CertFault::Order(_) => 3,
            CertFault::Memory => 4,
        }
    }

    /// The fault's name.
    pub fn name(self) -> &'static str
        ensures { result.now ≡ fault_name self }
    {
        match self {
            CertFault::Syntax(_) => "Syntax",
            CertFault::Limit(_) => "Limit",
            CertFault::Order(_) => "Order",
            CertFault::Memory => "Memory",
        }
    }
}

impl LineFault {
    /// The fault of a line that begins there.
    pub(crate) fn at(self, offset: usize) -> CertFault
        ensures { result ≡ faulty_at self offset }
    {
        match self {
            LineFault::Syntax => CertFault::Syntax(offset),
            LineFault::Limit => CertFault::Limit(offset),
        }
    }
}
