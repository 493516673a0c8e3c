//! Asks the programs what each case of `cases.toml` says, over the files of the folder that this runs in. A line names each
//! case that differs from what is wanted, and the last line counts.
#![tactic(auto)]

ghost use Rattle.std.specs.Prelude.{◌≡◌, None};

use anyhow::{Context, Result, bail};
use commands::serve;
use console::statuses::{DONE, STOPPED};
use console::{Disk, Fault, Source};
use explore::{HowFar, Watcher};
use rights::{Out, OutFault};
use serde::Deserialize;
use std::alloc::Global;
use std::fs;
use std::process::ExitCode;

/// Words, and what the program has to make of them.
#[derive(Drop, Deserialize)]
#[serde(deny_unknown_fields)]
struct Case {
    words: Vec<String>,

    /// Whether `capwhy` is asked, and not `capcheck`.
    #[serde(default)]
    why: bool,

    /// The file with the wanted output; without one none is wanted.
    out: Option<String>,

    /// The file with the line that is wanted on the error stream; without one none is wanted.
    err: Option<String>,

    #[serde(default)]
    status: u8,

    /// Whether the output is a certificate that has to be accepted. Without `out` any such certificate will do.
    #[serde(default)]
    found: bool,

    /// A text that stands nowhere in the output. Without `out` the output may be any other.
    without: Option<String>,
}

/// All cases.
#[derive(Drop, Deserialize)]
#[serde(deny_unknown_fields)]
struct Cases {
    case: Vec<Case>,
}

/// The name of the certificate that a search found. No file of the system has it, since it ends with a slash.
const FOUND: &str = "found/";

/// Files of the system by path, and what a search found, if there was one.
#[derive(Drop)]
struct Files<'a> {
    rt: &'a HostRuntime,
    found: Option<&'a [u8]>,
}

impl<'a> Source for Files<'a> {
    ghost files = { λ _. None };

    fn fetch<'b>(&mut self, name: &'b str) -> std::result::Result<Vec<u8>, Fault<'b>> {
        match self.found {
            Some(cert) if name == FOUND => Ok(Vec::from_slice(self.rt.alloc(), cert)?),
            _ => Disk::new(self.rt).fetch(name),
        }
    }
}

/// A writer into memory. It fails only where memory is refused.
#[derive(Drop)]
struct Sink {
    bytes: Vec<u8>,
    failures: u64,
}

impl Out for Sink {
    ghost taken = { λ _. None };

    ghost faults = { λ sink. sink.failures };

    fn write_some(&mut self, bytes: &[u8]) -> Result<usize, OutFault> {
        if self.bytes.extend_from_slice(bytes).is_err() {
            self.failures += 1;
            return Err(OutFault);
        }
        Ok(bytes.len())
    }
}

/// A writer that has taken nothing yet.
fn empty_sink(alloc: Global) -> Sink
    ensures { result.failures ≡ 0 }
{
    Sink {
        bytes: Vec::new(alloc),
        failures: 0,
    }
}

/// Nobody is told how far a search has come.
#[derive(Drop)]
struct Nobody;

impl Watcher for Nobody {
    fn tell(&mut self, _how_far: HowFar) {}
}

/// What the program makes of some words.
#[derive(Drop)]
struct Said {
    status: u8,
    out: Vec<u8>,
    err: Vec<u8>,
}

/// Serves the words to one of the programs. A status for want of memory or a failed output comes only from memory here, and is no answer.
fn asked(rt: &HostRuntime, why: bool, words: &[String], found: Option<&[u8]>) -> Result<Said> {
    let mut files = Files { rt, found };
    let mut out = empty_sink(rt.alloc());
    let mut err = empty_sink(rt.alloc());
    let status = if why {
        answers::serve(
            rt.alloc(),
            words,
            &mut files,
            &mut out,
            &mut err,
            &mut Nobody,
        )
    } else {
        serve(rt.alloc(), words, &mut files, &mut out, &mut err)
    };
    if status == STOPPED || err.failures > 0 {
        bail!("no memory");
    }
    Ok(Said {
        status,
        out: out.bytes,
        err: err.bytes,
    })
}

/// Whether `check` says yes to what was found for the task of these words.
fn is_accepted(rt: &HostRuntime, words: &[String], found: &[u8]) -> Result<bool> {
    let Some(task) = words.get(1) else {
        bail!("a search names no task");
    };
    let alloc = rt.alloc();
    let mut check = Vec::new(alloc);
    for word in ["check", task.as_str(), FOUND] {
        check.push(String::from_str(alloc, word)?)?;
    }
    let said = asked(rt, false, &check, Some(found))?;
    Ok(said.status == DONE && said.out.as_slice() == b"yes\n".as_slice() && said.err.is_empty())
}

/// The bytes of a file, which has to be there.
fn read(rt: &HostRuntime, name: &str) -> Result<Vec<u8>> {
    fs::read(rt, name).context(format_args!("{name}"))
}

/// The bytes of a wanted file, or none where none is named.
fn wanted(rt: &HostRuntime, name: &Option<String>) -> Result<Vec<u8>> {
    match name {
        Some(name) => read(rt, name.as_str()),
        None => Ok(Vec::new(rt.alloc())),
    }
}

/// Whether a part stands somewhere in a text.
fn has_part(text: &[u8], part: &[u8]) -> bool {
    (0..text.len()).any(|at| match text.get(at..) {
        None => false,
        Some(rest) => rest.starts_with(part),
    })
}

/// Whether a case asks for one output alone.
fn has_output(case: &Case) -> bool {
    case.out.is_some() || !case.found && case.without.is_none()
}

/// Whether the output is another one than is wanted.
fn has_other_output(rt: &HostRuntime, case: &Case, said: &Said) -> Result<bool> {
    let out = wanted(rt, &case.out)?;
    Ok(has_output(case) && said.out != out)
}

/// Whether a text stands in the output that is to stand nowhere in it.
fn has_unwanted(case: &Case, said: &Said) -> bool {
    match &case.without {
        None => false,
        Some(part) => has_part(&said.out, part.as_bytes()),
    }
}

/// Whether what is told on the error stream is another line than is wanted.
fn has_other_error(rt: &HostRuntime, case: &Case, said: &Said) -> Result<bool> {
    let err = wanted(rt, &case.err)?;
    Ok(said.err != err)
}

/// Whether what was found isn't accepted, where it has to be.
fn has_no_certificate(rt: &HostRuntime, case: &Case, said: &Said) -> Result<bool> {
    if !case.found {
        return Ok(false);
    }
    let is_accepted = is_accepted(rt, &case.words, &said.out)?;
    Ok(!is_accepted)
}

/// What differs of a case from what is wanted.
fn differences(rt: &HostRuntime, case: &Case) -> Result<Vec<&'static str>> {
    let said = asked(rt, case.why, &case.words, None)?;
    let parts = [
        (has_other_output(rt, case, &said)?, "output"),
        (has_unwanted(case, &said), "what it is to be without"),
        (has_other_error(rt, case, &said)?, "error"),
        (said.status != case.status, "status"),
        (has_no_certificate(rt, case, &said)?, "certificate"),
    ];
    let mut differ = Vec::new(rt.alloc());
    for (differs, name) in parts {
        if differs {
            differ.push(name)?;
        }
    }
    Ok(differ)
}

/// The cases of the file.
fn read_cases(rt: &HostRuntime) -> Result<Vec<Case>> {
    let text = read(rt, "cases.toml")?;
    let cases: Cases = toml::from_slice(rt.alloc(), &text).context("cases.toml")?;
    Ok(cases.case)
}

/// Tries each case, and says whether all are as wanted.
fn run(rt: &HostRuntime) -> Result<bool> {
    let cases = read_cases(rt)?;
    let (mut same, mut others) = (0usize, 0usize);
    for case in &cases {
        let differ = differences(rt, case)?;
        if differ.is_empty() {
            same = same.saturating_add(1);
            continue;
        }
        others = others.saturating_add(1);
        let words = case.words.join(rt.alloc(), " ")?;
        let differ = differ.join(rt.alloc(), ", ")?;
        println!(rt; "{words}: {differ}")?;
    }
    println!(rt; "{same} as wanted, {others} differ")?;
    Ok(others == 0)
}

fn main(rt: HostRuntime) -> Result<ExitCode> {
    if run(&rt)? {
        return Ok(ExitCode::SUCCESS);
    }
    Ok(ExitCode::FAILURE)
}
