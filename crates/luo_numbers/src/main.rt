//! Prints tables of known numbers, made by the calls that count collections; with words, makes tables to be timed.
#![tactic(auto)]

mod bench;
mod binomials;
mod components;
mod failure;
mod labelled;
mod parts;
mod plan;
mod sequences;
mod tables;

use failure::Failure;
use luo_binom::{LAST, Pascal};
use std::alloc::Global;
use std::process::ExitCode;
use std::rt::Env;
use std::{env, io};

// The exit statuses of failures.
const REFUSED: u8 = 2;

const NO_OUTPUT: u8 = 7;

const NO_MEMORY: u8 = 8;

const NO_WORDS: u8 = 9;

// The words of the command line without the program's name.
fn words_of<R: Env + AllocGlobal>(rt: &R) -> io::Result<Vec<String>> {
    Ok(env::args(rt)?.skip(1).collect(rt.alloc())?)
}

// What the words ask for: all tables, where there are none.
fn text_of(alloc: Global, words: &[String]) -> Result<String, Failure> {
    let pascal = Pascal::new(alloc, LAST)?;
    let mut text = String::new(alloc);
    if words.is_empty() {
        binomials::write_sums(&mut text)?;
        binomials::write_binomials(&mut text, &pascal)?;
        binomials::write_large(&mut text)?;
        binomials::write_choices(&mut text, &pascal)?;
        tables::write_labelled(&mut text, alloc, &pascal)?;
        tables::write_unlabelled(&mut text, alloc)?;
        tables::write_ahead(&mut text, alloc)?;
    } else {
        bench::run(alloc, &pascal, words)?;
    }
    Ok(text)
}

fn main(rt: HostRuntime) -> ExitCode {
    let Ok(words) = words_of(&rt) else {
        return ExitCode::from(NO_WORDS);
    };
    match text_of(rt.alloc(), &words) {
        Ok(text) => match print!(rt; "{text}") {
            Ok(()) => ExitCode::SUCCESS,
            Err(_) => ExitCode::from(NO_OUTPUT),
        },
        Err(Failure::Refused) => ExitCode::from(REFUSED),
        Err(Failure::NoMemory) => ExitCode::from(NO_MEMORY),
    }
}
