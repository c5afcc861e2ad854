// What is said without a run: of words and files that are refused, of a conftest that raises, and of words that ask for information.

ghost use Rattle.std.specs.Prelude.{◌≡◌, ◌++◌, IfErr, IfOk, IfSome, IsSome, IsTrue, IsErrOf, OnOk, codes, string_bytes};
ghost use Rattle.cli_words.specs.Faults.{usage_text};
ghost use Rattle.edge_io.specs.Files.{LargeFile};
ghost use Rattle.edge_io.specs.LoadFaults.{limit_of};
ghost use Rattle.pytest_core.specs.Status.{is_said};
ghost use Rattle.pytest_core.specs.Streamed.{IsNotSink};
ghost use Rattle.pytest_core.specs.Written.{response_of};
ghost use Rattle.worker_sessions.specs.run_items.report_rules.Answer.{conftest_fault, info_answer, limit_text, refusal};
ghost use Rattle.selection.specs.Exprs.{selection_text};
ghost use Rattle.texts.specs.Texts.{ended};

use crate::status::Status;
use cli_words::{Info, UsageFault};
use edge_io::LoadFault;
use report_text::{OutOfMemory, Told, conftest_fault};
use selection::SelectionFault;
use std::alloc::{AllocError, Global};
use std::fmt::Write;

/// Bytes and a status.
pub type Response = (Vec<u8>, Status);

/// Pushes a usage text.
fn push_usage(out: &mut String, text: &str) -> Result<(), AllocError>
    ensures { OnOk result (string_bytes out.new ≡ string_bytes out.old ++ (codes "ERROR: " ++ ended text.now)) }
{
    writeln!(out, "ERROR: {text}")
}

/// What is said of words or files that are refused.
pub fn refuse(alloc: Global, text: &str) -> Result<Response, OutOfMemory>
    ensures response { IfOk result (λ r. (r.0.items, r.1) ≡ response_of (refusal text.now)) }
    ensures said { IfOk result (λ r. IsTrue (is_said r.1)) }
{
    let mut out = String::new(alloc);
    push_usage(&mut out, text)?;
    Ok((out.into_bytes(), Status::Usage))
}

/// What is said of a fault of the words.
pub fn refuse_words(alloc: Global, fault: &UsageFault) -> Result<Response, OutOfMemory>
    ensures response { IfOk result (λ r. (r.0.items, r.1) ≡ response_of (refusal (usage_text fault.now))) }
    ensures said { IfOk result (λ r. IsTrue (is_said r.1)) }
{
    let text = format!(in alloc; "{fault}")?;
    refuse(alloc, text.as_str())
}

/// What is said of a word that names nothing.
pub fn refuse_word(alloc: Global, word: &str) -> Result<Response, OutOfMemory>
    ensures response { IfOk result (λ r. (r.0.items, r.1) ≡ response_of (refusal (codes "not found: " ++ word.now))) }
    ensures said { IfOk result (λ r. IsTrue (is_said r.1)) }
{
    let text = format!(in alloc; "not found: {word}")?;
    refuse(alloc, text.as_str())
}

/// What is said of an expression that is refused.
pub fn refuse_expression(alloc: Global, fault: SelectionFault) -> Result<Response, OutOfMemory>
    ensures response { IfOk result (λ r. (r.0.items, r.1) ≡ response_of (refusal (selection_text fault))) }
    ensures said { IfOk result (λ r. IsTrue (is_said r.1)) }
{
    let text = format!(in alloc; "{fault}")?;
    refuse(alloc, text.as_str())
}

fn refuse_size(alloc: Global, path: &str) -> Result<Response, OutOfMemory>
    ensures response { IfOk result (λ r. (r.0.items, r.1) ≡ response_of (refusal (limit_text (LargeFile path.now)))) }
    ensures said { IfOk result (λ r. IsTrue (is_said r.1)) }
{
    let text = format!(in alloc; "file too large: {path}")?;
    refuse(alloc, text.as_str())
}

/// Why a run broke off.
#[derive(Debug, Drop)]
pub enum RunFault {
    /// The tree failed, and nothing was written.
    Tree,
    /// The sink failed.
    Sink,
    OutOfMemory,
}

impl From<OutOfMemory> for RunFault {
    ghost use Rattle.std.specs.Prelude.{◌≡◌};
    ghost use Rattle.pytest_core.specs.declared.refusal.RunFault.TheVariants as fault;

    ghost from_gives = { λ _ e. e ≡ fault.OutOfMemory };

    fn from(_e: OutOfMemory) -> RunFault {
        RunFault::OutOfMemory
    }
}

/// What is said of a tree that passes a limit.
pub fn refuse_tree(alloc: Global, fault: &LoadFault) -> Result<Response, RunFault>
    ensures response { IfOk result (λ r. IfSome (limit_of fault.now) (λ l. (r.0.items, r.1) ≡ response_of (refusal (limit_text l)))) }
    ensures limit { IfOk result (λ r. IsSome (limit_of fault.now)) }
    ensures said { IfOk result (λ r. IsTrue (is_said r.1)) }
    ensures tree { IsErrOf result RunFault.Tree → fault.now ≡ LoadFault.Tree }
    ensures fault { IfErr result IsNotSink }
{
    match fault {
        LoadFault::Tree => Err(RunFault::Tree),
        LoadFault::TooManyFiles => Ok(refuse(alloc, "too many files")?),
        LoadFault::TooLarge(path) => Ok(refuse_size(alloc, path.as_str())?),
        LoadFault::TreeTooLarge => Ok(refuse(alloc, "tree too large")?),
        LoadFault::OutOfMemory => Err(RunFault::OutOfMemory),
    }
}

/// What is said of a conftest that raises.
pub fn tell_conftest(alloc: Global, path: &str, told: &Told) -> Result<Response, OutOfMemory>
    ensures response { IfOk result (λ r. (r.0.items, r.1) ≡ response_of (conftest_fault path.now told.now)) }
    ensures said { IfOk result (λ r. IsTrue (is_said r.1)) }
{
    let bytes = conftest_fault(alloc, path, told)?;
    Ok((bytes, Status::Usage))
}

/// What is said to words that ask for information.
pub fn tell_info(alloc: Global, info: Info) -> Result<Response, OutOfMemory>
    ensures response { IfOk result (λ r. (r.0.items, r.1) ≡ response_of (info_answer info)) }
    ensures said { IfOk result (λ r. IsTrue (is_said r.1)) }
{
    let text = format!(in alloc; "{info}")?;
    Ok((text.into_bytes(), Status::Passed))
}
