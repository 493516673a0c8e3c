//! How a certificate is read.

ghost use Rattle.std.specs.Prelude.{◌≡◌, IfOk, option_map};
ghost use Rattle.std.specs.Str.{bytes_eq};
ghost use Rattle.certificate.specs.Bounds.{Certificate};
ghost use Rattle.certificate.specs.Views.{version_of};
ghost use Rattle.certificate_text.specs.Readings.{certificate_of_text, closed, grown_by_line, line_of_text, read_behind, read_lines, version_of_line};
ghost use Rattle.certificate_text.specs.Texts.{certificate_text, end_line};
ghost use Rattle.certificate_text.specs.Views.{MakesCert, ReadsCert, TakesLine};

use crate::faults::CertFault;
use crate::lines::read_line;
use certificate::{Cert, Refusal, Version};
use std::alloc::Global;
use texts::Lines;

/// Adds a line of the body, which begins at this offset.
fn take_line(cert: &mut Cert, text: &[u8], offset: usize) -> Result<(), CertFault>
    ensures { TakesLine result cert.new offset (grown_by_line cert.old (line_of_text cert.old.version text.now)) }
{
    let line = match read_line(cert.version(), text) {
        Ok(line) => line,
        Err(fault) => return Err(fault.at(offset)),
    };
    match cert.push(&line) {
        Ok(()) => Ok(()),
        Err(Refusal::Limit) => Err(CertFault::Limit(offset)),
        Err(Refusal::Order) => Err(CertFault::Order(offset)),
        Err(Refusal::Memory) => Err(CertFault::Memory),
    }
}

/// Whether nothing stands behind the last line.
fn close(mut lines: Lines<'_>) -> Result<(), CertFault>
    ensures { (cert : Certificate) → MakesCert result cert (closed cert lines.entry) }
{
    let Some(line) = lines.next() else {
        return Err(CertFault::Syntax(0));
    };
    if line.text.is_empty() && lines.next().is_none() {
        return Ok(());
    }
    Err(CertFault::Syntax(line.offset))
}

/// Whether a line is the last one of a certificate.
fn is_end(text: &[u8]) -> bool
    ensures { result ≡ bytes_eq text.now end_line }
{
    text == b"end".as_slice()
}

/// Adds the lines behind the first one.
#[tactic(auto, unfolding(crate::specs::Readings::read_behind))]
fn take_lines(cert: &mut Cert, mut lines: Lines<'_>) -> Result<(), CertFault>
    ensures { MakesCert result cert.new (read_behind cert.old lines.entry) }
{
    while let Some(line) = lines.next() {
        if !line.is_ended {
            return Err(CertFault::Syntax(line.offset));
        }
        if is_end(line.text) {
            return close(lines);
        }
        take_line(cert, line.text, line.offset)?;
    }
    Err(CertFault::Syntax(0))
}

/// Reads the lines behind the first one.
fn read_body(mut cert: Cert, lines: Lines<'_>) -> Result<Cert, CertFault>
    ensures { ReadsCert result (read_behind cert lines.entry) }
{
    match take_lines(&mut cert, lines) {
        Ok(()) => Ok(cert),
        Err(fault) => Err(fault),
    }
}

/// The version that a first line tells, if it is one.
fn read_version(text: &[u8]) -> Option<Version>
    ensures { option_map version_of result ≡ version_of_line text.now }
{
    if text == b"capcert 1".as_slice() {
        Some(Version::One)
    } else if text == b"capcert 2".as_slice() {
        Some(Version::Two)
    } else if text == b"capcert 3".as_slice() {
        Some(Version::Three)
    } else if text == b"capcert 4".as_slice() {
        Some(Version::Four)
    } else {
        None
    }
}

/// Reads all lines.
fn read_lines(alloc: Global, mut lines: Lines<'_>) -> Result<Cert, CertFault>
    ensures { ReadsCert result (read_lines lines.entry) }
{
    let Some(first) = lines.next() else {
        return Err(CertFault::Syntax(0));
    };
    if !first.is_ended {
        return Err(CertFault::Syntax(first.offset));
    }
    let Some(version) = read_version(first.text) else {
        return Err(CertFault::Syntax(first.offset));
    };
    read_body(Cert::new(alloc, version), lines)
}

/// Reads a certificate of any version: the one whose text the bytes are, or the fault of their first faulty line, and of
/// that line's faults the first of `Syntax`, `Limit` and `Order`, with where the line begins. Only want of memory may come
/// instead. No other bytes are read as that certificate. (own)
#[tactic(auto, unfolding(crate::specs::Readings::certificate_of_text))]
pub fn read_cert(alloc: Global, bytes: &[u8]) -> Result<Cert, CertFault>
    ensures reads { ReadsCert result (certificate_of_text bytes.now) }
    ensures one_spelling { IfOk result (λ cert. certificate_text cert ≡ bytes.now) }
{
    read_lines(alloc, Lines::new(bytes))
}
