ghost use Rattle.std.specs.Prelude.{◌≡◌, ◌≤◌, ◌<◌, ◌==◌, IfOk, is_some, option_copied};
ghost use Rattle.std.specs.List.{list_all, before_first};
ghost use Rattle.std.specs.Char.{is_ascii_digit};
ghost use Rattle.cli_words.specs.Values.{after_mark, is_number, number_between, style_named, distribution_named, seed_and_files_in, setting_of, given_setting};

use crate::options::{Dist, Tb};
use crate::table::{Counter, FlagAction, Rule, Switch, TextOption};
use crate::word::Word;
use seq::OutOfMemory;
use std::alloc::Global;

/// One option with its value.
#[derive(Drop)]
pub enum Setting {
    On(Switch),
    Count(Counter, u32),
    Text(TextOption, Word),
    Style(Tb),
    Distribution(Dist),
    /// Seed and number of files.
    Generated(u32, u32),
}

fn all_digits(text: &[u8]) -> bool
    ensures { result ≡ list_all is_ascii_digit text.now }
{
    text.iter().all(|digit| digit.is_ascii_digit())
}

/// Whether a text is a number: one to nine ASCII digits.
fn is_number(text: &[u8]) -> bool
    ensures { result ≡ is_number text.now }
{
    all_digits(text) && 1 <= text.len() && text.len() <= 9
}

/// A number from `low` to `high`.
fn number(text: &str, low: u32, high: u32) -> Option<u32>
    ensures { result ≡ number_between low high text.now }
{
    if !is_number(text.as_bytes()) {
        return None;
    }
    let number = text.parse::<u32>().ok()?;
    if number < low || high < number {
        return None;
    }
    Some(number)
}

fn style(text: &str) -> Option<Tb>
    ensures { result ≡ style_named text.now }
{
    match text {
        "short" => Some(Tb::Short),
        "line" => Some(Tb::Line),
        "no" => Some(Tb::No),
        _ => None,
    }
}

fn distribution(text: &str) -> Option<Dist>
    ensures { result ≡ distribution_named text.now }
{
    match text {
        "loadfile" => Some(Dist::LoadFile),
        "no" => Some(Dist::No),
        _ => None,
    }
}

/// What stands before the first `mark`, and what stands behind it, if there is one.
pub(crate) fn cut_at(text: &str, mark: char) -> (&str, Option<&str>)
    requires { mark < 128 }
    ensures before { result.0.now ≡ before_first (λ c. c == mark) text.now }
    ensures behind { option_copied result.1 ≡ after_mark mark text.now }
{
    match text.split_once(mark) {
        Some((before, behind)) => (before, Some(behind)),
        None => (text, None),
    }
}

/// Two numbers with a comma between them: the seed and the number of files of the generated tree.
fn seed_and_files(text: &str) -> Option<(u32, u32)>
    ensures { result ≡ seed_and_files_in text.now }
{
    let (seed, files) = cut_at(text, ',');
    let files = number(files?, 1, 4_000)?;
    let seed = number(seed, 0, 65_535)?;
    Some((seed, files))
}

impl FlagAction {
    pub(crate) fn setting(self) -> Setting
        ensures { result ≡ given_setting self }
    {
        match self {
            FlagAction::On(switch) => Setting::On(switch),
            FlagAction::Count(counter, count) => Setting::Count(counter, count),
        }
    }
}

impl Rule {
    /// Whether a value is of this form.
    #[tactic(auto, using(crate::proofs::Notices::some_map))]
    pub(crate) fn takes(self, value: &str) -> bool
        ensures { result ≡ is_some (setting_of self value.now) }
    {
        match self {
            Rule::Text(_) => true,
            Rule::Number(_, low, high) => number(value, low, high).is_some(),
            Rule::Style => style(value).is_some(),
            Rule::Distribution => distribution(value).is_some(),
            Rule::SeedAndFiles => seed_and_files(value).is_some(),
        }
    }

    /// What a value sets, if it is a value of this form.
    pub(crate) fn setting(self, alloc: Global, value: &str) -> Result<Option<Setting>, OutOfMemory>
        ensures { IfOk result (λ setting. setting ≡ setting_of self value.now) }
    {
        let setting = match self {
            Rule::Text(option) => Some(Setting::Text(option, Word::from_str(alloc, value)?)),
            Rule::Number(counter, low, high) => number(value, low, high).map(|count| Setting::Count(
                counter, count,
            )),
            Rule::Style => style(value).map(Setting::Style),
            Rule::Distribution => distribution(value).map(Setting::Distribution),
            Rule::SeedAndFiles => seed_and_files(value).map(|(seed, files)| Setting::Generated(
                seed, files,
            )),
        };
        Ok(setting)
    }
}
