//! An answer as a value: it is written at the end, in one place.

ghost use Rattle.std.specs.Prelude.{◌≡◌, ◌<◌, ◌-◌, ◌^◌, [], IfOk, OnOk, Some, false, true};
ghost use Rattle.console.specs.Statuses.{is_done_status};

use console::statuses::{BROKEN, DONE};
use rights::{Out, OutFault};
use std::alloc::{AllocError, Global};
use texts::Page;

/// An answer: what is written, what is told beside it on the error stream, and the status that the program ends with.
#[derive(Drop)]
pub(crate) struct Answer {
    pub text: Vec<u8>,
    pub told: Vec<u8>,
    pub status: u8,
    ghost status_is: { is_done_status status ≡ true },
}

impl Answer {
    ghost use Rattle.std.specs.Prelude.{◌≡◌, true};
    ghost use Rattle.console.specs.Statuses.{is_done_status};

    /// An answer with this text and this status, to which nothing is told beside.
    pub(crate) fn new(alloc: Global, text: Vec<u8>, status: u8) -> Answer
        requires { is_done_status status ≡ true }
        ensures status { result.status ≡ status }
        ensures text { result.text.items ≡ text.items }
    {
        Answer {
            text,
            told: Vec::new(alloc),
            status,
        }
    }

    /// What a page says, of what is done.
    pub(crate) fn done(page: Page) -> Result<Answer, AllocError>
        ensures status { IfOk result (λ answer. answer.status ≡ 0) }
        ensures text { IfOk result (λ answer. answer.text.items ≡ page.bytes.items) }
        ensures whole { OnOk result (page.is_short ≡ false) }
    {
        let alloc = page.alloc();
        Ok(Answer::new(alloc, page.into_bytes()?, DONE))
    }

    /// What a page says, where the answer is no.
    pub(crate) fn broken(page: Page) -> Result<Answer, AllocError>
        ensures status { IfOk result (λ answer. answer.status ≡ 1) }
        ensures text { IfOk result (λ answer. answer.text.items ≡ page.bytes.items) }
        ensures whole { OnOk result (page.is_short ≡ false) }
    {
        let alloc = page.alloc();
        Ok(Answer::new(alloc, page.into_bytes()?, BROKEN))
    }
}

/// A writer that gathers what it is given. It fails only where memory is refused.
#[derive(Drop)]
pub(crate) struct Gathered {
    pub bytes: Vec<u8>,
    failures: u64,
}

impl Gathered {
    /// Nothing yet.
    pub(crate) fn new(alloc: Global) -> Gathered
        ensures bytes { result.bytes.items ≡ [] }
        ensures failures { result.failures ≡ 0 }
    {
        Gathered {
            bytes: Vec::new(alloc),
            failures: 0,
        }
    }
}

impl Out for Gathered {
    ghost taken = { λ gathered. Some gathered.bytes.items };

    ghost faults = { λ gathered. gathered.failures };

    fn write_some(&mut self, bytes: &[u8]) -> Result<usize, OutFault> {
        if self.bytes.extend_from_slice(bytes).is_err() {
            self.failures += 1;
            return Err(OutFault);
        }
        Ok(bytes.len())
    }
}
