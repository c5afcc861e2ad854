// What words ask for.

ghost use Rattle.std.specs.Prelude.{◌≡◌, ℕ, List, None, IfOk, map, string_bytes};
ghost use Rattle.pytest_core.specs.Request.{OptionsAsk, WordsAsk, is_expression_fault, is_usage_fault};

use crate::refusal::{Response, refuse_expression, refuse_words, tell_info};
use cli_words::{Options, UsageFault, asked_info, read_words};
use report_text::OutOfMemory;
use selection::{Exprs, SelectionFault, read_exprs};
use std::alloc::Global;

/// What words ask for.
#[derive(Drop)]
pub enum Request {
    /// A run with these options and their expressions.
    Run(Options, Exprs),
    /// A text, whatever the tree is.
    Said(Response),
}

fn is_expression_fault(fault: SelectionFault) -> bool
    ensures { result ≡ is_expression_fault fault }
{
    match fault {
        SelectionFault::Wrong(..) | SelectionFault::TooDeep(_) => true,
        SelectionFault::OutOfMemory => false,
    }
}

/// What is said of options with an expression that is refused.
fn expression_request(alloc: Global, fault: SelectionFault) -> Result<Request, OutOfMemory>
    ensures { IfOk result (λ q. (o : Options) → IsRefused o fault → OptionsAsk o q) }
{
    if !is_expression_fault(fault) {
        return Err(OutOfMemory);
    }
    Ok(Request::Said(refuse_expression(alloc, fault)?))
}

ghost use Rattle.cli_words.specs.declared.options.Options.{Options};
ghost use Rattle.selection.specs.Exprs.{IsRefused};

/// What options ask for.
fn options_request(alloc: Global, options: Options) -> Result<Request, OutOfMemory>
    ensures { IfOk result (OptionsAsk options) }
{
    match read_exprs(alloc, &options) {
        Ok(exprs) => Ok(Request::Run(options, exprs)),
        Err(fault) => expression_request(alloc, fault),
    }
}

fn is_usage_fault(fault: &UsageFault) -> bool
    ensures { result ≡ is_usage_fault fault.now }
{
    match fault {
        UsageFault::Unrecognized(_)
        | UsageFault::NeedsValue(_)
        | UsageFault::BadValue(..)
        | UsageFault::TakesNoValue(_)
        | UsageFault::Conflict => true,
        UsageFault::OutOfMemory => false,
    }
}

/// What is said of words that have this fault.
fn fault_request(alloc: Global, fault: &UsageFault) -> Result<Request, OutOfMemory>
    ensures { IfOk result (λ q. (words : List (List ℕ)) → info_of words ≡ None → Refuses (options_of words) fault.now → WordsAsk words q) }
{
    if !is_usage_fault(fault) {
        return Err(OutOfMemory);
    }
    Ok(Request::Said(refuse_words(alloc, fault)?))
}

ghost use Rattle.cli_words.specs.Info.{info_of};
ghost use Rattle.cli_words.specs.Options.{Refuses, options_of};

/// What words ask for: a text where they ask for information or are refused, and else a run.
pub fn request_of(alloc: Global, words: &[String]) -> Result<Request, OutOfMemory>
    ensures { IfOk result (WordsAsk (map string_bytes words.now)) }
{
    if let Some(info) = asked_info(words) {
        return Ok(Request::Said(tell_info(alloc, info)?));
    }
    match read_words(alloc, words) {
        Ok(options) => options_request(alloc, options),
        Err(fault) => fault_request(alloc, &fault),
    }
}
