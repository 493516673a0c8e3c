//! The program over files and writers in memory.

ghost use Rattle.std.specs.Prelude.{◌≡◌, Some, None, codes, option_map, if◌then◌else◌};
ghost use Rattle.std.specs.Str.{bytes_eq};

use commands::serve;
use console::{Fault, Source};
use rights::{Out, OutFault};
use std::alloc::{AllocError, Global};

/// Takes at most so many bytes a call, and fails at one call, in which it refuses or takes none.
#[derive(Drop)]
pub(super) struct Shelf {
    pub(super) bytes: Vec<u8>,
    most: usize,
    calls: u64,
    fails_at: u64,
    refuses: bool,
    failures: u64,
}

impl Out for Shelf {
    ghost taken = { λ shelf. Some shelf.bytes.items };

    ghost faults = { λ shelf. shelf.failures };

    fn write_some(&mut self, bytes: &[u8]) -> Result<usize, OutFault> {
        if bytes.is_empty() {
            return Ok(0);
        }
        self.calls = self.calls.wrapping_add(1);
        let count = bytes.len().min(self.most);
        if self.calls == self.fails_at || count == 0 {
            self.failures += 1;
            if self.refuses {
                return Err(OutFault);
            }
            return Ok(0);
        }
        if self.bytes.extend_from_slice(&bytes[..count]).is_err() {
            self.failures += 1;
            return Err(OutFault);
        }
        Ok(count)
    }
}

/// A shelf with no bytes yet. It fails at no call where `fails_at` is 0.
pub(super) fn empty_shelf(alloc: Global, most: usize, fails_at: u64, refuses: bool) -> Shelf
    ensures { result.failures ≡ 0 }
{
    Shelf {
        bytes: Vec::new(alloc),
        most,
        calls: 0,
        fails_at,
        refuses,
        failures: 0,
    }
}

/// The files `task` and `schedule`, where they are there. For `huge` there is no memory.
#[derive(Drop)]
pub(super) struct TwoFiles<'a> {
    pub(super) alloc: Global,
    pub(super) task: Option<&'a [u8]>,
    pub(super) schedule: Option<&'a [u8]>,
}

impl<'a> Source for TwoFiles<'a> {
    ghost files = { λ two. Some (λ name.
        if bytes_eq name (codes "task") then option_map (λ text. text.now) two.task
        else (if bytes_eq name (codes "schedule") then option_map (λ text. text.now) two.schedule else None)) };

    fn fetch<'b>(&mut self, name: &'b str) -> Result<Vec<u8>, Fault<'b>> {
        let text = match name {
            "task" => self.task,
            "schedule" => self.schedule,
            "huge" => return Err(Fault::Memory),
            _ => None,
        };
        match text {
            Some(bytes) => Ok(Vec::from_slice(self.alloc, bytes)?),
            None => Err(Fault::File(name)),
        }
    }
}

/// What the program says of some words.
#[derive(Drop)]
pub(super) struct Said {
    pub(super) status: u8,
    pub(super) out: Vec<u8>,
    pub(super) err: Vec<u8>,
}

impl Said {
    /// Whether it said just this.
    pub(super) fn is(&self, status: u8, out: &[u8], err: &[u8]) -> bool {
        self.status == status && self.out.as_slice() == out && self.err.as_slice() == err
    }
}

/// Serves the words over two files, with these writers for the output and for faults.
pub(super) fn serve_to(
    alloc: Global,
    words: &[&str],
    task: Option<&[u8]>,
    schedule: Option<&[u8]>,
    mut out: Shelf,
    mut err: Shelf,
) -> Result<Said, AllocError>
    requires out { out.failures ≡ 0 }
    requires err { err.failures ≡ 0 }
{
    let mut texts = Vec::new(alloc);
    for word in words {
        texts.push(String::from_str(alloc, *word)?)?;
    }
    let mut files = TwoFiles {
        alloc,
        task,
        schedule,
    };
    let status = serve(alloc, &texts, &mut files, &mut out, &mut err);
    Ok(Said {
        status,
        out: out.bytes,
        err: err.bytes,
    })
}

/// Serves the words over two files.
pub(super) fn says(
    alloc: Global,
    words: &[&str],
    task: Option<&[u8]>,
    schedule: Option<&[u8]>,
) -> Result<Said, AllocError> {
    let out = empty_shelf(alloc, 1000, 0, true);
    let err = empty_shelf(alloc, 1000, 0, true);
    serve_to(alloc, words, task, schedule, out, err)
}
