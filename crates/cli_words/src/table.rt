ghost use Rattle.std.specs.Prelude.{◌≡◌};
ghost use Rattle.cli_words.specs.Table.{takes_in, takes_named};

use crate::info::Info;

/// What can be switched on.
#[derive(Clone, Copy)]
pub enum Switch {
    Verbose,
    CollectOnly,
    SetupShow,
}

/// What is set to a number.
#[derive(Clone, Copy)]
pub enum Counter {
    MaxFail,
    Workers,
    StepLimit,
}

/// What is set to a text.
#[derive(Clone, Copy)]
pub enum TextOption {
    Keyword,
    Marks,
    Ignore,
}

/// What an option without a value sets.
#[derive(Clone, Copy)]
pub enum FlagAction {
    On(Switch),
    Count(Counter, u32),
}

/// The form of an option's value.
#[derive(Clone, Copy)]
pub enum Rule {
    Text(TextOption),
    /// A number from the first to the second.
    Number(Counter, u32, u32),
    Style,
    Distribution,
    SeedAndFiles,
}

/// Whether an option takes a value.
#[derive(Clone, Copy)]
pub enum OptionKind {
    Nothing(FlagAction),
    Value(Rule),
    /// No value: the option asks for a text.
    Tells(Info),
}

/// An option of the command line.
#[derive(Clone, Copy)]
pub struct Row {
    spelling: &'static str,
    takes: OptionKind,
}

/// All options, with each of their spellings.
const OPTIONS: [Row; 19] = [
    Row {
        spelling: "-k",
        takes: OptionKind::Value(Rule::Text(TextOption::Keyword)),
    },
    Row {
        spelling: "-m",
        takes: OptionKind::Value(Rule::Text(TextOption::Marks)),
    },
    Row {
        spelling: "-x",
        takes: OptionKind::Nothing(FlagAction::Count(Counter::MaxFail, 1)),
    },
    Row {
        spelling: "--exitfirst",
        takes: OptionKind::Nothing(FlagAction::Count(Counter::MaxFail, 1)),
    },
    Row {
        spelling: "--maxfail",
        takes: OptionKind::Value(Rule::Number(Counter::MaxFail, 0, 65_536)),
    },
    Row {
        spelling: "--tb",
        takes: OptionKind::Value(Rule::Style),
    },
    Row {
        spelling: "-n",
        takes: OptionKind::Value(Rule::Number(Counter::Workers, 0, 8)),
    },
    Row {
        spelling: "--numprocesses",
        takes: OptionKind::Value(Rule::Number(Counter::Workers, 0, 8)),
    },
    Row {
        spelling: "--dist",
        takes: OptionKind::Value(Rule::Distribution),
    },
    Row {
        spelling: "--ignore",
        takes: OptionKind::Value(Rule::Text(TextOption::Ignore)),
    },
    Row {
        spelling: "-v",
        takes: OptionKind::Nothing(FlagAction::On(Switch::Verbose)),
    },
    Row {
        spelling: "--verbose",
        takes: OptionKind::Nothing(FlagAction::On(Switch::Verbose)),
    },
    Row {
        spelling: "--collect-only",
        takes: OptionKind::Nothing(FlagAction::On(Switch::CollectOnly)),
    },
    Row {
        spelling: "--co",
        takes: OptionKind::Nothing(FlagAction::On(Switch::CollectOnly)),
    },
    Row {
        spelling: "--setup-show",
        takes: OptionKind::Nothing(FlagAction::On(Switch::SetupShow)),
    },
    Row {
        spelling: "--step-limit",
        takes: OptionKind::Value(Rule::Number(Counter::StepLimit, 1, 100_000_000)),
    },
    Row {
        spelling: "--generated",
        takes: OptionKind::Value(Rule::SeedAndFiles),
    },
    Row {
        spelling: "--help",
        takes: OptionKind::Tells(Info::Help),
    },
    Row {
        spelling: "--version",
        takes: OptionKind::Tells(Info::Version),
    },
];

fn takes_among(rows: &[Row], spelling: &[u8]) -> Option<OptionKind>
    ensures { result ≡ takes_in spelling.now rows.now }
{
    for row in rows {
        if row.spelling.as_bytes() == spelling {
            return Some(row.takes);
        }
    }
    None
}

/// What the option of this spelling takes, if there is one.
#[tactic(auto, unfolding(crate::specs::Table::takes_named))]
pub fn takes_of(spelling: &[u8]) -> Option<OptionKind>
    ensures { result ≡ takes_named spelling.now }
{
    takes_among(&OPTIONS, spelling)
}
