//! Capwhy, the program: it answers what its words ask with the files of the system, standard output and standard error.
#![tactic(auto)]

use answers::{NAME, serve};
use console::{ClosedPipe, Console, Session};
use explore::{HowFar, Watcher};
use rights::write_all;
use std::io::{ErrorKind, IsTerminal, Write};
use std::process::ExitCode;
use std::time::Instant;

/// A terminal, where there is one, to which it is told how far a search has come.
#[derive(Drop)]
struct Progress<'a> {
    rt: &'a HostRuntime,
    /// When the program began, if there is a clock.
    start: Option<Instant>,
    is_told: bool,
}

impl<'a> Progress<'a> {
    /// How many of some things there were in a second since the program began; 0 where there is no clock.
    fn rate(&self, count: usize) -> u64 {
        let Some(start) = self.start else {
            return 0;
        };
        match start.elapsed(self.rt) {
            Ok(time) => {
                let milliseconds = u64::try_from(time.as_millis()).unwrap_or(u64::MAX).max(1);
                (count as u64).saturating_mul(1000) / milliseconds
            }
            Err(_) => 0,
        }
    }
}

impl<'a> Watcher for Progress<'a> {
    fn tell(&mut self, how_far: HowFar) {
        let mut stream = self.rt.stderr();
        if stream.is_terminal() {
            let (states, bound, deepest) = (how_far.states, how_far.bound, how_far.deepest);
            let rate = self.rate(states);
            self.is_told = write!(
                stream,
                "\r{states} of {bound} states, {rate} a second, by runs of up to {deepest} events"
            )
            .is_ok();
        }
    }
}

/// Tells why a file couldn't be read, if one couldn't.
fn tell_why(rt: &HostRuntime, why: Option<ErrorKind>) {
    if let Some(why) = why.filter(|why| *why != ErrorKind::OutOfMemory) {
        let _ = write!(rt.stderr(), "{NAME}: {why}\n");
    }
}

fn main(rt: HostRuntime) -> ExitCode {
    let session = &mut match Session::begin(&rt, NAME, ClosedPipe::Drops) {
        Ok(session) => session,
        Err(status) => return ExitCode::from(status),
    };
    let mut progress = Progress {
        rt: &rt,
        start: Instant::now(&rt).ok(),
        is_told: false,
    };
    let status = serve(
        rt.alloc(),
        &session.words,
        &mut session.files,
        &mut session.out,
        &mut session.err,
        &mut progress,
    );
    if progress.is_told {
        let _ = write_all(&mut Console::new(rt.stderr()), b"\n");
    }
    tell_why(&rt, session.files.why());
    ExitCode::from(session.end(status))
}
