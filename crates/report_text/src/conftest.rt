ghost use Rattle.std.specs.Prelude.{◌≡◌, ◌++◌, IfOk, OnOk, string_bytes};
ghost use Rattle.report_text.specs.Conftest.{conftest_text};

use report_parts::{Told, push_told};
use seq::OutOfMemory;
use std::alloc::{AllocError, Global};
use std::fmt::Write;

#[tactic(auto, unfolding(crate::specs::Conftest::conftest_text))]
fn push_conftest_fault(out: &mut String, path: &str, told: &Told) -> Result<(), AllocError>
    ensures { OnOk result (string_bytes out.new ≡ string_bytes out.old ++ conftest_text path.now told.now) }
{
    writeln!(out, "ImportError while loading conftest '{path}'.")?;
    push_told(out, told)?;
    Ok(())
}

/// The whole output where a conftest can't be loaded: `path` names it, and `told` is its exception.
///
/// The program then ends with status 4.
pub fn conftest_fault(alloc: Global, path: &str, told: &Told) -> Result<Vec<u8>, OutOfMemory>
    ensures { IfOk result (λ bytes. bytes.items ≡ conftest_text path.now told.now) }
{
    let mut out = String::new(alloc);
    push_conftest_fault(&mut out, path, told)?;
    Ok(out.into_bytes())
}
