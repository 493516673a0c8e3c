//! Capcheck, the program: it does what its words say with the files of the system, standard output and standard error.
#![tactic(auto)]

use commands::{NAME, serve};
use console::{ClosedPipe, Session};
use std::process::ExitCode;

fn main(rt: HostRuntime) -> ExitCode {
    let session = &mut match Session::begin(&rt, NAME, ClosedPipe::Fails) {
        Ok(session) => session,
        Err(status) => return ExitCode::from(status),
    };
    let status = serve(
        rt.alloc(),
        &session.words,
        &mut session.files,
        &mut session.out,
        &mut session.err,
    );
    ExitCode::from(session.end(status))
}
