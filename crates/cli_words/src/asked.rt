ghost use Rattle.std.specs.Prelude.{◌≡◌, List, ℕ, is_some, map, option_copied, string_bytes};
ghost use Rattle.cli_words.specs.Info.{first_notice, info_of, notice_of};
ghost use Rattle.cli_words.specs.Parts.{asks, behind_flags, letters_ask, letters_say, long_option, next_valued, option_part, command_parts, says, short, spelled_asks, spelled_parts, takes_next, value_behind, option_with_value};
ghost use Rattle.cli_words.specs.Table.{takes_named};
ghost use Rattle.cli_words.specs.Values.{setting_of};

use crate::info::{Info, Notice};
use crate::read::{
    first_flag, first_letter, first_word, is_path, starts_with, value_behind, words_left,
};
use crate::setting::cut_at;
use crate::table::{OptionKind, Rule, takes_of};

/// What a value of an option has to tell: a fault, where the option doesn't take it.
fn value_notice(rule: Rule, value: &str) -> Option<Notice>
    ensures { (option : List ℕ) → result ≡ notice_of (option_with_value option value.now (setting_of rule value.now)) }
{
    if rule.takes(value) {
        return None;
    }
    Some(Notice::Fault)
}

/// The same of the next word as the value.
fn next_notice(rule: Rule, next: Option<&str>) -> Option<Notice>
    ensures { (option : List ℕ) → result ≡ notice_of (next_valued option rule (option_copied next.entry)) }
{
    match next {
        None => Some(Notice::Fault),
        Some(value) => {
            if starts_with(value, "-") {
                return Some(Notice::Fault);
            }
            value_notice(rule, value)
        }
    }
}

/// What an option has to tell, whose value may stand in the word or be the next word.
fn option_notice(
    takes: Option<OptionKind>,
    value: Option<&str>,
    next: Option<&str>,
) -> Option<Notice>
    ensures { (word option : List ℕ) → result ≡ notice_of (option_part takes word option (option_copied value.entry) (option_copied next.entry)) }
{
    match (takes, value) {
        (None, _) => Some(Notice::Fault),
        (Some(OptionKind::Nothing(_)), None) => None,
        (Some(OptionKind::Nothing(_)), Some(_)) => Some(Notice::Fault),
        (Some(OptionKind::Tells(info)), None) => Some(Notice::Asked(info)),
        (Some(OptionKind::Tells(_)), Some(_)) => Some(Notice::Fault),
        (Some(OptionKind::Value(rule)), None) => next_notice(rule, next),
        (Some(OptionKind::Value(rule)), Some(value)) => value_notice(rule, value),
    }
}

/// Whether an option takes the next word.
fn asks(takes: Option<OptionKind>, value: Option<&str>) -> bool
    ensures { result ≡ asks takes (option_copied value.entry) }
{
    match takes {
        Some(OptionKind::Value(_)) => value.is_none(),
        Some(OptionKind::Nothing(_) | OptionKind::Tells(_)) | None => false,
    }
}

/// What stands behind the options without value at the front of a word's letters.
fn behind_flags(letters: &str) -> &str
    ensures { result.now ≡ behind_flags letters.now }
{
    let mut rest = letters;
    while let Some((_, behind)) = first_flag(rest) {
        rest = behind;
    }
    rest
}

/// What the option of a letter and what stands behind it have to tell; and whether it takes the next word.
fn letter_notice(letter: u8, behind: &str, next: Option<&str>) -> (Option<Notice>, bool)
    ensures told { (word : List ℕ) → result.0 ≡ notice_of (option_part (takes_named (short letter)) word (short letter) (value_behind behind.now) (option_copied next.entry)) }
    ensures took { result.1 ≡ asks (takes_named (short letter)) (value_behind behind.now) }
{
    let takes = takes_of(&[b'-', letter]);
    let value = value_behind(behind);
    (option_notice(takes, value, next), asks(takes, value))
}

/// What the letters of a short word have to tell; and whether they take the next word.
fn letters_notice(letters: &str, next: Option<&str>) -> (Option<Notice>, bool)
    ensures told { (word : List ℕ) → result.0 ≡ first_notice (letters_say word letters.now (option_copied next.entry)) }
    ensures took { result.1 ≡ letters_ask letters.now }
{
    let rest = behind_flags(letters);
    if rest.is_empty() {
        return (None, false);
    }
    match first_letter(rest) {
        Some((letter, behind)) => letter_notice(letter, behind, next),
        None => (Some(Notice::Fault), false),
    }
}

/// What a long option has to tell; and whether it takes the next word.
fn long_notice(word: &str, next: Option<&str>) -> (Option<Notice>, bool)
    ensures told { result.0 ≡ first_notice (spelled_parts word.now (Some (long_option word.now)) (option_copied next.entry)) }
    ensures took { result.1 ≡ spelled_asks (Some (long_option word.now)) }
{
    let (option, value) = cut_at(word, '=');
    let takes = takes_of(option.as_bytes());
    (option_notice(takes, value, next), asks(takes, value))
}

/// What a word has to tell, before the next one; and whether it takes that.
fn word_notice(word: &str, next: Option<&str>) -> (Option<Notice>, bool)
    ensures told { result.0 ≡ first_notice (says word.now (option_copied next.entry)) }
    ensures took { result.1 ≡ takes_next word.now }
{
    if is_path(word) {
        return (None, false);
    }
    if starts_with(word, "--") {
        return long_notice(word, next);
    }
    match first_letter(word) {
        Some((_, letters)) => letters_notice(letters, next),
        None => (Some(Notice::Fault), false),
    }
}

/// What words have to tell first.
fn words_notice(words: &[String]) -> Option<Notice>
    ensures { result ≡ first_notice (command_parts (map string_bytes words.now)) }
{
    let mut rest = words;
    while let Some((word, behind)) = rest.split_first() {
        if word.as_str() == "--" {
            return None;
        }
        let (notice, took) = word_notice(word.as_str(), first_word(behind));
        if notice.is_some() {
            return notice;
        }
        rest = words_left(behind, took);
    }
    None
}

/// The text that words ask for: that of the first `--help` or `--version`, if no fault comes before it (pytest's reference,
/// "Command-line Flags"). Behind `--` all words are paths.
#[tactic(auto, unfolding(crate::specs::Info::info_of))]
pub fn asked_info(words: &[String]) -> Option<Info>
    ensures { result ≡ info_of (map string_bytes words.now) }
{
    match words_notice(words) {
        None | Some(Notice::Fault) => None,
        Some(Notice::Asked(info)) => Some(info),
    }
}
