//! The flags of `rustc-flags`.

ghost use Rattle.std.specs.Prelude.{◌≡◌, ◌∷◌, [], length, ◌≤◌};
ghost use Rattle.std.specs.Option.{option_copied};
ghost use Rattle.pb_directive.specs.Faults.{LineGives};
ghost use Rattle.pb_directive.specs.Lines.{after_prefix};
ghost use Rattle.pb_directive.specs.Directives.{flag_name, flag_of, flags_of, Adds, NextName, TakesFlag};

use crate::directive::{Directive, Directives};
use crate::fault::Problem;
use crate::texts::after_prefix;
use crate::words::Words;
use pb_data::Text;
use std::alloc::Global;

/// Returns the name after a flag's letter, if the word begins with this letter and has a name after
/// it.
fn flag_name<'a>(letter: &str, word: &'a str) -> Option<&'a str>
    ensures { option_copied result ≡ flag_name (after_prefix letter.now word.now) }
{
    let name = after_prefix(letter, word)?;
    if name.is_empty() {
        return None;
    }
    Some(name)
}

/// Returns the flag that a single word spells.
fn flag_of(alloc: Global, word: &str) -> Result<Directive, Problem>
    ensures { LineGives result (flag_of word.now) }
{
    if let Some(name) = flag_name("-l", word) {
        return Ok(Directive::LinkLib(Text::from_str(alloc, name)?));
    }
    if let Some(folder) = flag_name("-L", word) {
        return Ok(Directive::LinkSearch(Text::from_str(alloc, folder)?));
    }
    Err(Problem::BadFlag)
}

/// Returns the next word as the name of a flag. The word before it was the flag's letter.
fn next_name(alloc: Global, words: &mut Words) -> Result<Text, Problem>
    ensures name { NextName result words.old words.new }
    ensures shorter { length words.new ≤ length words.old }
{
    let Some(word) = words.next() else {
        return Err(Problem::BadFlag);
    };
    Ok(Text::from_str(alloc, word)?)
}

/// Returns the flag that begins with a word. If the word is only the flag's letter, the flag's name
/// is the next word.
#[tactic(auto, using(crate::proofs::FlagLemmas::flag_laws))]
fn flag_from(alloc: Global, word: &str, words: &mut Words) -> Result<Directive, Problem>
    ensures flag { TakesFlag result word.now words.old words.new }
    ensures shorter { length words.new ≤ length words.old }
{
    match word {
        "-l" => Ok(Directive::LinkLib(next_name(alloc, words)?)),
        "-L" => Ok(Directive::LinkSearch(next_name(alloc, words)?)),
        _ => {
            let flag = flag_of(alloc, word)?;
            Ok(flag)
        }
    }
}

/// Adds the flags of some words, each of which is a library or a folder of libraries.
pub fn add_flags(alloc: Global, words: Words, found: &mut Directives) -> Result<(), Problem>
    ensures { Adds result found.old found.new (flags_of words.entry) }
{
    let mut rest = words;
    while let Some(word) = rest.next() {
        let flag = flag_from(alloc, word, &mut rest)?;
        found.push(flag)?;
    }
    Ok(())
}
