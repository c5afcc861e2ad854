// Rows, as their lines spell them.

use std::alloc::{AllocError, Global};

/// The path of a source, its text, and whether its asserts are explained.
#[derive(Drop)]
pub struct Source {
    pub path: String,
    pub text: String,
    pub explains: bool,
}

/// What comes of an act within a budget.
#[derive(Drop)]
pub struct Run {
    pub budget: u64,
    pub want: String,
}

/// What is done, and what comes of it.
#[derive(Drop)]
pub struct Act {
    pub what: String,
    pub runs: Vec<Run>,
}

/// Sources, and what is done with them in turn.
#[derive(Drop)]
pub struct Row {
    pub name: String,
    pub sources: Vec<Source>,
    pub acts: Vec<Act>,
}

/// A line with what its pictures stand for, and its end.
fn push_line(text: &mut String, line: &str) -> Result<(), AllocError> {
    for c in line.chars() {
        match c {
            '␍' => text.push('\r')?,
            '␂' => text.push('\u{FEFF}')?,
            _ => text.push(c)?,
        }
    }
    text.push('\n')
}

fn begin_run(alloc: Global, runs: &mut Vec<Run>, budget: u64) -> Result<(), AllocError> {
    let want = String::new(alloc);
    Ok(runs.push(Run { budget, want })?)
}

/// A line of what comes of the last run; where there is none, one begins that has no steps.
fn push_want(alloc: Global, runs: &mut Vec<Run>, line: &str) -> Result<(), AllocError> {
    if runs.is_empty() {
        begin_run(alloc, runs, 0)?;
    }
    match runs.last_mut() {
        Some(run) => push_line(&mut run.want, line),
        None => Ok(()),
    }
}

impl Row {
    /// A row of a name, with nothing else yet.
    pub fn new(alloc: Global, name: &str) -> Result<Row, AllocError> {
        Ok(Row {
            name: String::from_str(alloc, name)?,
            sources: Vec::new(alloc),
            acts: Vec::new(alloc),
        })
    }

    fn begin_source(
        &mut self,
        alloc: Global,
        path: &str,
        explains: bool,
    ) -> Result<(), AllocError> {
        let path = String::from_str(alloc, path)?;
        let text = String::new(alloc);
        Ok(
            self.sources.push(Source {
                path,
                text,
                explains,
            })?,
        )
    }

    fn begin_act(&mut self, alloc: Global, what: &str) -> Result<(), AllocError> {
        let what = String::from_str(alloc, what)?;
        let runs = Vec::new(alloc);
        Ok(self.acts.push(Act { what, runs })?)
    }

    fn take_heading(&mut self, alloc: Global, heading: &str) -> Result<(), AllocError> {
        if let Some(path) = heading.strip_prefix("file ") {
            return self.begin_source(alloc, path, false);
        }
        if let Some(path) = heading.strip_prefix("explained ") {
            return self.begin_source(alloc, path, true);
        }
        let Some(budget) = heading.strip_prefix("within ") else {
            return self.begin_act(alloc, heading);
        };
        match self.acts.last_mut() {
            Some(act) => begin_run(alloc, &mut act.runs, budget.parse::<u64>().unwrap_or(0)),
            None => Ok(()),
        }
    }

    fn take_text(&mut self, alloc: Global, line: &str) -> Result<(), AllocError> {
        if let Some(act) = self.acts.last_mut() {
            return push_want(alloc, &mut act.runs, line);
        }
        match self.sources.last_mut() {
            Some(source) => push_line(&mut source.text, line),
            None => Ok(()),
        }
    }

    /// Takes a line behind the row's own.
    pub fn take(&mut self, alloc: Global, line: &str) -> Result<(), AllocError> {
        match line.strip_prefix(">>> ") {
            Some(heading) => self.take_heading(alloc, heading),
            None => self.take_text(alloc, line),
        }
    }
}
