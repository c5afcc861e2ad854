ghost use Rattle.std.specs.Prelude.{◌≡◌, ◌++◌, ◌∷◌, [], OnOk, IsTrue, ◌↔◌};
ghost use Rattle.cli_words.specs.Options.{defaults, with_parts, asks_for_workers};
ghost use Rattle.cli_words.specs.Parts.{Sets, PathOf};

use crate::setting::Setting;
use crate::table::{Counter, Switch, TextOption};
use crate::word::{Word, Words};
use seq::OutOfMemory;
use std::alloc::Global;

/// The most steps of one activity, where no option sets it.
pub const MOST_STEPS: u64 = 1_000_000;

/// How much a report tells of each failure: `--tb` of pytest's command line.
#[derive(Clone, Copy, PartialEq, Eq)]
pub enum Tb {
    Short,
    Line,
    No,
}

/// How items are shared among workers: `--dist` of pytest-xdist's command line.
#[derive(Clone, Copy, PartialEq, Eq)]
pub enum Dist {
    LoadFile,
    No,
}

/// What a list of words asks for.
pub struct Options {
    /// The words that are no options.
    pub paths: Words,
    /// The expression of `-k`, or empty.
    pub keyword: Word,
    /// The expression of `-m`, or empty.
    pub marks: Word,
    /// After how many failures the run stops; 0 is never.
    pub maxfail: u32,
    pub tb: Tb,
    pub workers: u32,
    pub dist: Dist,
    /// The paths that collection passes over.
    pub ignore: Words,
    pub collect_only: bool,
    pub setup_show: bool,
    pub verbose: bool,
    /// How many steps one activity may take.
    pub step_limit: u64,
    /// Seed and number of files of the generated tree, where one is asked for.
    pub generated: Option<(u32, u32)>,
}

impl Drop for Options {
    fn drop(self) {
        let Options {
            paths: _,
            keyword: _,
            marks: _,
            maxfail: _,
            tb: _,
            workers: _,
            dist: _,
            ignore: _,
            collect_only: _,
            setup_show: _,
            verbose: _,
            step_limit: _,
            generated: _,
        } = self;
    }
}

impl Options {
    pub(crate) fn defaults(alloc: Global) -> Self
        ensures { result ≡ defaults }
    {
        Options {
            paths: Words::new(alloc),
            keyword: Word::from_string(String::new(alloc)),
            marks: Word::from_string(String::new(alloc)),
            maxfail: 0,
            tb: Tb::Short,
            workers: 0,
            dist: Dist::LoadFile,
            ignore: Words::new(alloc),
            collect_only: false,
            setup_show: false,
            verbose: false,
            step_limit: MOST_STEPS,
            generated: None,
        }
    }

    /// Whether the items are to run on workers.
    pub fn asks_for_workers(&self) -> bool
        ensures { result ≡ asks_for_workers self.now }
    {
        self.workers > 0 && self.dist != Dist::No && !self.collect_only
    }

    pub(crate) fn push_path(&mut self, path: Word) -> Result<(), OutOfMemory>
        ensures { OnOk result (self.new ≡ with_parts self.old (PathOf path ∷ [])) }
    {
        self.paths.push(path)?;
        Ok(())
    }

    fn switch_on(&mut self, switch: Switch)
        ensures { self.new ≡ with_parts self.old (Sets (Setting.On switch) ∷ []) }
    {
        match switch {
            Switch::Verbose => self.verbose = true,
            Switch::CollectOnly => self.collect_only = true,
            Switch::SetupShow => self.setup_show = true,
        }
    }

    fn set_count(&mut self, counter: Counter, count: u32)
        ensures { self.new ≡ with_parts self.old (Sets (Setting.Count counter count) ∷ []) }
    {
        match counter {
            Counter::MaxFail => self.maxfail = count,
            Counter::Workers => self.workers = count,
            Counter::StepLimit => self.step_limit = u64::from(count),
        }
    }

    fn set_text(&mut self, option: TextOption, text: Word) -> Result<(), OutOfMemory>
        ensures { OnOk result (self.new ≡ with_parts self.old (Sets (Setting.Text option text) ∷ [])) }
    {
        match option {
            TextOption::Keyword => self.keyword = text,
            TextOption::Marks => self.marks = text,
            TextOption::Ignore => self.ignore.push(text)?,
        }
        Ok(())
    }

    /// Sets what the setting says; a later setting of the same option replaces it, but paths to ignore are added.
    pub(crate) fn set(&mut self, setting: Setting) -> Result<(), OutOfMemory>
        ensures { OnOk result (self.new ≡ with_parts self.old (Sets setting ∷ [])) }
    {
        match setting {
            Setting::On(switch) => self.switch_on(switch),
            Setting::Count(counter, count) => self.set_count(counter, count),
            Setting::Text(option, text) => self.set_text(option, text)?,
            Setting::Style(tb) => self.tb = tb,
            Setting::Distribution(dist) => self.dist = dist,
            Setting::Generated(seed, files) => self.generated = Some((seed, files)),
        }
        Ok(())
    }
}
