// A bench of eight tests.

ghost use Rattle.std.specs.Prelude.{◌≡◌, ◌+◌, ◌*◌, ◌/◌, ◌%◌, ◌<◌, ◌++◌, ◌∷◌, [], IfOk, OnOk, string_bytes};
ghost use Rattle.worker_tests.specs.Letters.{file_letter, file_printed, file_reports, letter_name, letter_report};

use report_parts::{ItemReport, Lines, PhaseEnd, Text};
use report_rules::Tests;
use seq::OutOfMemory;
use share_files::Feed;
use std::alloc::{AllocError, Global};
use worker_runs::Bench;

/// What tests have printed in a world.
#[derive(Drop)]
pub struct Printed {
    pub text: Text,
}

impl Tests for Printed {
    ghost use Rattle.std.specs.Prelude.{⊤};

    type Value = u32;

    type Thrown = u32;

    type Rest = u32;

    type Source = u32;

    type Table = u32;

    ghost holds = { λ bytes source. ⊤ };
}

/// Four files with two tests each, which print their names.
#[derive(Drop)]
pub struct Letters {
    pub sizes: [u32; 4],
    ghost two_each: { sizes ≡ 2 ∷ 2 ∷ 2 ∷ 2 ∷ [] },
}

/// The letter of the file of a test.
fn letter_of(node: u32) -> char
    requires { node < 8 }
    ensures { result ≡ 97 + node / 2 }
{
    (b'a' + (node / 2) as u8) as char
}

/// The number of a test in its file.
fn number_of(node: u32) -> char
    requires { node < 8 }
    ensures { result ≡ 49 + node % 2 }
{
    (b'1' + (node % 2) as u8) as char
}

/// Pushes the name of a test.
fn push_name(out: &mut String, node: u32) -> Result<(), AllocError>
    requires { node < 8 }
    ensures { OnOk result (string_bytes out.new ≡ string_bytes out.old ++ letter_name node) }
{
    out.push(letter_of(node))?;
    out.push(number_of(node))
}

/// The name of a test.
fn name(alloc: Global, node: u32) -> Result<Text, OutOfMemory>
    requires { node < 8 }
    ensures { IfOk result (λ name. name ≡ letter_name node) }
{
    let mut name = String::new(alloc);
    push_name(&mut name, node)?;
    Ok(Text::from_string(name))
}

/// The path of the file of a test.
fn file(alloc: Global, node: u32) -> Result<Text, OutOfMemory>
    requires { node < 8 }
    ensures { IfOk result (λ file. file ≡ file_letter node) }
{
    let mut file = String::new(alloc);
    file.push(letter_of(node))?;
    Ok(Text::from_string(file))
}

/// The report of a test before which this was printed, and behind which that.
fn report(alloc: Global, node: u32, before: &str, behind: &str) -> Result<ItemReport, OutOfMemory>
    requires node { node < 8 }
    requires behind { behind.now ≡ before.now ++ letter_name node }
    ensures { IfOk result (λ r. r ≡ letter_report node before.now) }
{
    Ok(ItemReport {
        node_id: name(alloc, node)?,
        title: name(alloc, node)?,
        file: file(alloc, node)?,
        setup: PhaseEnd::Passed,
        call: PhaseEnd::Passed,
        teardown: PhaseEnd::Passed,
        shown_lines: Lines::from_vec(Vec::new(alloc)),
        captured: (
            Text::from_str(alloc, before)?,
            Text::from_str(alloc, behind)?,
            Text::from_str(alloc, behind)?,
        ),
    })
}

/// A test runs in a world that has printed this.
fn run_test(
    alloc: Global,
    node: u32,
    printed: &mut String,
    reports: &mut Vec<ItemReport>,
) -> Result<(), OutOfMemory>
    requires { node < 8 }
    ensures printed { OnOk result (string_bytes printed.new ≡ string_bytes printed.old ++ letter_name node) }
    ensures reports { OnOk result (reports.new.items ≡ reports.old.items ++ letter_report node (string_bytes printed.old) ∷ []) }
{
    let before = printed.clone()?;
    push_name(printed, node)?;
    let report = report(alloc, node, before.as_str(), printed.as_str())?;
    reports.push(report)?;
    Ok(())
}

/// The tests of a file run.
fn run_file(
    alloc: Global,
    file: u32,
    printed: &mut String,
    reports: &mut Vec<ItemReport>,
) -> Result<(), OutOfMemory>
    requires { file < 4 }
    ensures printed { OnOk result (string_bytes printed.new ≡ file_printed (string_bytes printed.old) file) }
    ensures reports { OnOk result (reports.new.items ≡ reports.old.items ++ file_reports (string_bytes printed.old) file) }
{
    run_test(alloc, 2 * file, printed, reports)?;
    run_test(alloc, 2 * file + 1, printed, reports)
}

impl Bench for Letters {
    ghost use Rattle.std.specs.Prelude.{◌≡◌};
    ghost use Rattle.cli_words.specs.Options.{defaults};
    ghost use Rattle.worker_tests.specs.Letters.{letters, letters_rules, letters_fixture};

    type World = Printed;

    type Value = u32;

    type Thrown = u32;

    type Rest = u32;

    type Table = u32;

    ghost collects = { λ bench c. c ≡ letters };

    ghost rules = { λ bench table. letters_rules };

    ghost fixture = { λ bench table. letters_fixture };

    ghost options = { λ bench. defaults };

    ghost groups = { λ bench. 4 };

    fn sizes(&self) -> &[u32] {
        self.sizes.as_slice()
    }

    #[tactic(auto, using(share_files::proofs::Left::left_falls))]
    fn run<F: Feed>(&self, alloc: Global, feed: &mut F) -> Result<Vec<ItemReport>, OutOfMemory> {
        let mut printed = String::new(alloc);
        let mut reports = Vec::new(alloc);
        while let Some(file) = feed.next() {
            run_file(alloc, file, &mut printed, &mut reports)?;
        }
        Ok(reports)
    }
}
