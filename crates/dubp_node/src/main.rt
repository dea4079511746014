//! The program of a node: `dubp_node run` answers the commands of the standard input, and `dubp_node gen N START` generates a chain.
//!
//! `run` of `dubp_session` is the whole program over any source and sink. `main` gives it the standard streams, and the node a secret of
//! the system's.
#![tactic(auto)]

use dubp_books::Books;
use dubp_people_checks::PeopleRules;
use dubp_session::{NO_ROOM, Node, ReadSource, Secret, USAGE, WriteSink, run};
use std::alloc::{AllocError, Global};
use std::env;
use std::hash::RandomState;
use std::io::ErrorKind;
use std::mem::forget;
use std::process::ExitCode;

fn main(rt: HostRuntime) -> ExitCode {
    ExitCode::from(status(&rt))
}

// The status of the run over the standard streams.
fn status(rt: &HostRuntime) -> u8 {
    let args = match env::args(rt) {
        Ok(args) => args,
        Err(error) => return status_of(error.kind()),
    };
    let Ok(args) = args.skip(1).collect::<Vec<String>>(rt.alloc()) else {
        return NO_ROOM;
    };
    let Ok(words) = words(rt.alloc(), &args) else {
        return NO_ROOM;
    };
    let mut source = ReadSource::new(rt.stdin());
    let mut sink = WriteSink::new(rt.stdout());
    let mut node = Node::<Books<PeopleRules>>::with_secret(rt.alloc(), secret(rt));
    let status = run(
        rt.alloc(),
        words.as_slice(),
        &mut source,
        &mut sink,
        &mut node,
    );
    // the process ends, and its memory with it: no table has to be taken apart
    forget(node);
    status
}

// Where the system has no secret to give, the known one: no answer depends on it.
fn secret(rt: &HostRuntime) -> Secret {
    match RandomState::new(rt) {
        Ok(state) => Secret::of(state),
        Err(_) => Secret::known(),
    }
}

// Words that are no text have no form of the program's.
fn status_of(kind: ErrorKind) -> u8 {
    match kind {
        ErrorKind::OutOfMemory => NO_ROOM,
        _ => USAGE,
    }
}

fn words<'a>(alloc: Global, args: &'a [String]) -> Result<Vec<&'a str>, AllocError> {
    let mut words = Vec::new(alloc);
    for arg in args {
        words.push(arg.as_str())?;
    }
    Ok(words)
}
