//! The program: it makes the real files and streams, and calls `luo_top::luo`.
#![tactic(auto)]

use luo_outside::{HostFiles, HostSink, OpenGate};
use luo_top::{code, luo};
use std::process::ExitCode;
use std::rt::Env;
use std::{env, io};

#[cfg(test)]
mod tests;
#[cfg(test)]
mod tests_faults;
#[cfg(test)]
mod tests_front;
#[cfg(test)]
mod tests_gate;
#[cfg(test)]
mod tests_lists;
#[cfg(test)]
mod tests_reports;

/// The exit status where the words of the command line can't be had.
const NO_WORDS: u8 = 9;

// The words of the command line without the program's name.
fn words_of<R: Env + AllocGlobal>(rt: &R) -> io::Result<Vec<String>> {
    Ok(env::args(rt)?.skip(1).collect(rt.alloc())?)
}

fn main(rt: HostRuntime) -> ExitCode {
    let alloc = rt.alloc();
    let Ok(words) = words_of(&rt) else {
        return ExitCode::from(NO_WORDS);
    };
    let mut files = HostFiles::new(&rt, alloc);
    let mut out = HostSink::new(rt.stdout());
    let mut err = HostSink::new(rt.stderr());
    let status = luo(
        &rt, alloc, &words, &mut files, &mut out, &mut err, &OpenGate,
    );
    ExitCode::from(code(status))
}
