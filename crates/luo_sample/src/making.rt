// The text of a sample.
ghost use Rattle.std.specs.Prelude.{◌≡◌, ◌++◌, OnOk, IfOk};
ghost use Rattle.luo_sample.specs.Text.{type_line, proc_lines, analyze_line, numbered};
ghost use Rattle.luo_sample.specs.Number.{choice_at, universe_of, word, seeded, behind, Sample};

use crate::choice::next_choice;
use crate::writing::{first_line, put_analyze_line, put_proc_lines, put_type_line};
use luo_model::Universe;
use luo_num::NoMemory;
use rand_core::SeedableRng;
use rand_core::utils::NextWord;
use rand_pcg::Pcg32;
use std::alloc::Global;

// Appends the 20 definitions to the text, by the generator's words from here on.
fn put_types(text: &mut Vec<u8>, universe: Universe, words: &mut Pcg32) -> Result<(), NoMemory>
    ensures { OnOk result (text.new.items ≡ text.old.items
        ++ numbered (λ i. type_line universe i (choice_at words.old i)) 0 20) }
{
    for i in 0..20 {
        let choice = next_choice(words);
        put_type_line(text, universe, i, choice)?;
    }
    Ok(())
}

// Appends their procedures to the text, by the same words.
fn put_procs(text: &mut Vec<u8>, words: &mut Pcg32) -> Result<(), NoMemory>
    ensures { OnOk result (text.new.items ≡ text.old.items
        ++ numbered (λ i. proc_lines i (choice_at words.old i)) 0 20) }
{
    for i in 0..20 {
        let choice = next_choice(words);
        put_proc_lines(text, i, choice)?;
    }
    Ok(())
}

// Appends the analyze lines of the first eight procedures to the text.
fn put_analyses(text: &mut Vec<u8>) -> Result<(), NoMemory>
    ensures { OnOk result (text.new.items ≡ text.old.items ++ numbered analyze_line 0 8) }
{
    for i in 0..8 {
        put_analyze_line(text, i)?;
    }
    Ok(())
}

// The universe that the first word of a number chooses, and the generator after that word.
fn begin(number: u64) -> (Universe, Pcg32)
    ensures universe { result.0 ≡ universe_of (word (seeded number)) }
    ensures words { result.1 ≡ behind (seeded number) }
{
    let mut words = Pcg32::seed_from_u64(number);
    let first = words.next_word();
    let universe = if first % 2 == 0 {
        Universe::Unlabelled
    } else {
        Universe::Labelled
    };
    (universe, words)
}

/// The text of the sample program of a number: 21 definitions and 20 procedures of one layout, in
/// which the words of `Pcg32::seed_from_u64(number)` choose the universe, the definitions that each
/// one names and the kinds of its collections. It passes no limit and breaks no rule.
///
/// `NoMemory` says that there was no memory for the text, of some 5,000 bytes.
pub fn sample(alloc: Global, number: u64) -> Result<Vec<u8>, NoMemory>
    ensures { IfOk result (λ text. text.items ≡ Sample number) }
{
    // The choices are drawn twice from one seed: for the definitions, and for their procedures.
    let (universe, mut for_types) = begin(number);
    let (_, mut for_procs) = begin(number);
    let mut text = Vec::new(alloc);
    text.extend_from_slice(first_line(universe))?;
    text.extend_from_slice(b"type z = atom(1);\n")?;
    put_types(&mut text, universe, &mut for_types)?;
    text.extend_from_slice(b"measure unit : 1;\n")?;
    put_procs(&mut text, &mut for_procs)?;
    put_analyses(&mut text)?;
    Ok(text)
}
