ghost use Rattle.std.specs.Prelude.{◌≡◌, ◌<◌, ◌≤◌, ◌∷◌, [], ◌⊎◌, IfOk, OnOk, IfErr, MatchOption, map, drop, length, string_bytes, option_copied, slice_index, nat_eq, codes, if◌then◌else◌};
ghost use Rattle.std.specs.List.{starts_with};
ghost use Rattle.std.specs.Str.{IsUtf8};
ghost use Rattle.cli_words.specs.Values.{given_setting, setting_of};
ghost use Rattle.cli_words.specs.Table.{takes_named};
ghost use Rattle.cli_words.specs.Parts.{Sets, PathOf, HasNoFlag, StartsWithFlag, asking, asks, begins_with_dash, behind_flags, flag_part, flags, is_long, is_path, letters_ask, letters_say, option_part, next_valued, command_parts, says, short, switched, takes_next, value_behind, option_with_value};
ghost use Rattle.cli_words.specs.Options.{GivesOptions, Refuses, first_if_any, options_of, options_or_fault, with_parts};

use crate::fault::UsageFault;
use crate::info::Info;
use crate::options::Options;
use crate::setting::cut_at;
use crate::table::{FlagAction, OptionKind, Rule, takes_of};
use crate::word::Word;
use seq::OutOfMemory;
use std::alloc::Global;

pub(crate) fn starts_with(word: &str, front: &str) -> bool
    ensures { result ≡ starts_with nat_eq word.now front.now }
{
    word.starts_with(front)
}

pub(crate) fn is_path(word: &str) -> bool
    ensures { result ≡ is_path word.now }
{
    !starts_with(word, "-") || word == "-"
}

/// The first letter and what stands behind it, where the letter is an ASCII character.
pub(crate) fn first_letter(letters: &str) -> Option<(u8, &str)>
    ensures { MatchOption result ((letters.now ≡ []) ⊎ (128 ≤ slice_index letters.now 0)) (λ p. (letters.now ≡ p.0 ∷ p.1.now) × (p.0 < 128) × IsUtf8 p.1.now) }
{
    match letters.as_bytes() {
        [letter, ..] if *letter < 128 => Some((*letter, &letters[1..])),
        _ => None,
    }
}

/// A value right behind its letter, less one `=`.
pub(crate) fn value_behind(letters: &str) -> Option<&str>
    ensures { option_copied result ≡ value_behind letters.now }
{
    if letters.is_empty() {
        return None;
    }
    match letters.strip_prefix('=') {
        Some(value) => Some(value),
        None => Some(letters),
    }
}

fn short(alloc: Global, letter: u8) -> Result<String, OutOfMemory>
    requires { letter < 128 }
    ensures { IfOk result (λ s. string_bytes s ≡ short letter) }
{
    let mut spelling = String::from_str(alloc, "-")?;
    spelling.push(letter as char)?;
    Ok(spelling)
}

fn set_value(
    alloc: Global,
    options: &mut Options,
    option: &str,
    rule: Rule,
    value: &str,
) -> Result<(), UsageFault>
    ensures { GivesOptions (options_or_fault options.old (option_with_value option.now value.now (setting_of rule value.now) ∷ [])) options.new result }
{
    let Some(setting) = rule.setting(alloc, value)? else {
        return Err(UsageFault::BadValue(
            Word::from_str(alloc, option)?,
            Word::from_str(alloc, value)?,
        ));
    };
    options.set(setting)?;
    Ok(())
}

fn set_next(
    alloc: Global,
    options: &mut Options,
    option: &str,
    rule: Rule,
    next: Option<&str>,
) -> Result<(), UsageFault>
    ensures { GivesOptions (options_or_fault options.old (next_valued option.now rule (option_copied next.entry) ∷ [])) options.new result }
{
    match next {
        Some(value) if !starts_with(value, "-") => set_value(alloc, options, option, rule, value),
        _ => Err(UsageFault::NeedsValue(Word::from_str(alloc, option)?)),
    }
}

fn read_switch(
    alloc: Global,
    options: &mut Options,
    option: &str,
    given: FlagAction,
    value: Option<&str>,
) -> Result<(), UsageFault>
    ensures { GivesOptions (options_or_fault options.old (switched option.now given (option_copied value.entry) ∷ [])) options.new result }
{
    match value {
        Some(_) => Err(UsageFault::TakesNoValue(Word::from_str(alloc, option)?)),
        None => {
            options.set(given.setting())?;
            Ok(())
        }
    }
}

/// Reads an option that asks for a text: it sets nothing.
fn read_asking(alloc: Global, option: &str, value: Option<&str>) -> Result<(), UsageFault>
    ensures { (o : Options) (info : Info) → GivesOptions (options_or_fault o (asking option.now info (option_copied value.entry) ∷ [])) o result }
{
    match value {
        Some(_) => Err(UsageFault::TakesNoValue(Word::from_str(alloc, option)?)),
        None => Ok(()),
    }
}

/// Reads an option, whose value may stand in the word; says whether the next word was its value.
fn read_option(
    alloc: Global,
    options: &mut Options,
    word: &str,
    option: &str,
    value: Option<&str>,
    next: Option<&str>,
) -> Result<bool, UsageFault>
    ensures reading { GivesOptions (options_or_fault options.old (option_part (takes_named option.now) word.now option.now (option_copied value.entry) (option_copied next.entry) ∷ [])) options.new result }
    ensures took { IfOk result (λ took. took ≡ asks (takes_named option.now) (option_copied value.entry)) }
{
    match takes_of(option.as_bytes()) {
        None => Err(UsageFault::Unrecognized(Word::from_str(alloc, word)?)),
        Some(OptionKind::Nothing(given)) => {
            read_switch(alloc, options, option, given, value)?;
            Ok(false)
        }
        Some(OptionKind::Tells(_)) => {
            read_asking(alloc, option, value)?;
            Ok(false)
        }
        Some(OptionKind::Value(rule)) => match value {
            Some(value) => {
                set_value(alloc, options, option, rule, value)?;
                Ok(false)
            }
            None => {
                set_next(alloc, options, option, rule, next)?;
                Ok(true)
            }
        },
    }
}

/// The option without value that a text of letters starts with, and the letters behind it.
pub(crate) fn first_flag(letters: &str) -> Option<(FlagAction, &str)>
    ensures { MatchOption result (HasNoFlag letters.now) (λ p. StartsWithFlag letters.now p.0 p.1.now) }
{
    let (letter, rest) = first_letter(letters)?;
    match takes_of(&[b'-', letter]) {
        Some(OptionKind::Nothing(given)) => Some((given, rest)),
        _ => None,
    }
}

/// Reads the options without value at the front of a word's letters; gives what stands behind them.
fn read_flags<'a>(options: &mut Options, letters: &'a str) -> Result<&'a str, OutOfMemory>
    ensures set { OnOk result (options.new ≡ with_parts options.old (map flag_part (flags letters.now))) }
    ensures rest { IfOk result (λ rest. rest.now ≡ behind_flags letters.now) }
{
    let mut rest = letters;
    while let Some((given, behind)) = first_flag(rest) {
        options.set(given.setting())?;
        rest = behind;
    }
    Ok(rest)
}

/// Reads the letters of a short word; says whether the next word was a value.
fn read_letters(
    alloc: Global,
    options: &mut Options,
    word: &str,
    letters: &str,
    next: Option<&str>,
) -> Result<bool, UsageFault>
    ensures reading { GivesOptions (options_or_fault options.old (letters_say word.now letters.now (option_copied next.entry))) options.new result }
    ensures took { IfOk result (λ took. took ≡ letters_ask letters.now) }
{
    let rest = read_flags(options, letters)?;
    if rest.is_empty() {
        return Ok(false);
    }
    let Some((letter, behind)) = first_letter(rest) else {
        return Err(UsageFault::Unrecognized(Word::from_str(alloc, word)?));
    };
    let option = short(alloc, letter)?;
    read_option(
        alloc,
        options,
        word,
        option.as_str(),
        value_behind(behind),
        next,
    )
}

/// Reads a word; says whether the next word was its value.
fn read_word(
    alloc: Global,
    options: &mut Options,
    word: &str,
    next: Option<&str>,
) -> Result<bool, UsageFault>
    ensures reading { GivesOptions (options_or_fault options.old (says word.now (option_copied next.entry))) options.new result }
    ensures took { IfOk result (λ took. took ≡ takes_next word.now) }
{
    if is_path(word) {
        options.push_path(Word::from_str(alloc, word)?)?;
        return Ok(false);
    }
    if starts_with(word, "--") {
        let (option, value) = cut_at(word, '=');
        return read_option(alloc, options, word, option, value, next);
    }
    match first_letter(word) {
        Some((_, letters)) => read_letters(alloc, options, word, letters, next),
        None => Err(UsageFault::Unrecognized(Word::from_str(alloc, word)?)),
    }
}

pub(crate) fn first_word(words: &[String]) -> Option<&str>
    ensures { option_copied result ≡ first_if_any (map string_bytes words.now) }
{
    match words {
        [] => None,
        [word, ..] => Some(word.as_str()),
    }
}

/// The words behind the first, if that was taken.
pub(crate) fn words_left(words: &[String], took: bool) -> &[String]
    ensures { result.now ≡ (if took then drop 1 words.now else words.now) }
{
    match words {
        [_, rest @ ..] if took => rest,
        _ => words,
    }
}

/// Reads words behind `--`.
fn read_paths(alloc: Global, options: &mut Options, words: &[String]) -> Result<(), OutOfMemory>
    ensures { OnOk result (options.new ≡ with_parts options.old (map PathOf (map string_bytes words.now))) }
{
    for word in words {
        options.push_path(Word::from_str(alloc, word.as_str())?)?;
    }
    Ok(())
}

fn read_all(alloc: Global, options: &mut Options, words: &[String]) -> Result<(), UsageFault>
    ensures { GivesOptions (options_or_fault options.old (command_parts (map string_bytes words.now))) options.new result }
{
    let mut rest = words;
    while let Some((word, behind)) = rest.split_first() {
        if word.as_str() == "--" {
            read_paths(alloc, options, behind)?;
            return Ok(());
        }
        let took = read_word(alloc, options, word.as_str(), first_word(behind))?;
        rest = words_left(behind, took);
    }
    Ok(())
}

/// Reads a command line: pytest's reference, "Command-line Flags", and pytest-xdist's `-n` and `--dist`.
///
/// The fault is the first in the words, or else `Conflict`; `OutOfMemory` may come in place of either.
pub fn read_words(alloc: Global, words: &[String]) -> Result<Options, UsageFault>
    ensures ok { IfOk result (λ options. options_of (map string_bytes words.now) ≡ Ok options) }
    ensures refused { IfErr result (Refuses (options_of (map string_bytes words.now))) }
{
    let mut options = Options::defaults(alloc);
    read_all(alloc, &mut options, words)?;
    if options.asks_for_workers() && options.maxfail > 0 {
        return Err(UsageFault::Conflict);
    }
    Ok(options)
}
