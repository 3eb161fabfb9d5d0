//! The program `biostack`: its top call over the standard streams.
#![tactic(auto)]

use bio_workers::NoGate;
use biostack_top::{Ending, biostack};
use outside_io::{StdSink, StdSource};
use std::alloc::AllocError;
use std::env;
use std::io::ErrorKind;
use std::process::ExitCode;
use std::rt::Env;

/// The words after the program's name. Where one of them is no UTF-8 it answers no words at all, which the top call refuses too.
fn words(rt: &(impl Env + AllocGlobal)) -> Result<Vec<String>, AllocError> {
    match env::args(rt) {
        Ok(words) => words.skip(1).collect(rt.alloc()),
        Err(error) if error.kind() == ErrorKind::OutOfMemory => Err(AllocError),
        Err(_) => Ok(Vec::new(rt.alloc())),
    }
}

fn main(rt: HostRuntime) -> ExitCode {
    let mut errors = StdSink::new(rt.stderr());
    let Ok(words) = words(&rt) else {
        let _told = Ending::Memory.tell(&mut errors);
        return ExitCode::from(Ending::Memory.exit().0);
    };
    let mut source = StdSource::new(rt.stdin());
    let mut out = StdSink::new(rt.stdout());
    let mut gate = NoGate::new();
    let exit = biostack(
        &rt,
        rt.alloc(),
        &words,
        &mut source,
        &mut out,
        &mut errors,
        &mut gate,
    );
    ExitCode::from(exit.0)
}
