ghost use Rattle.std.specs.Prelude.{◌↔◌, ℕ, List, IfOk, Contains, map, string_bytes};
ghost use Rattle.edge_io.specs.Files.{InOrder};

use std::alloc::AllocError;

/// The paths in the order of their bytes, each once.
pub fn in_order(paths: Vec<String>) -> Result<Vec<String>, AllocError>
    ensures order { IfOk result (λ sorted. InOrder (map string_bytes sorted.items)) }
    ensures same { IfOk result (λ sorted. (path : List ℕ) → Contains (map string_bytes sorted.items) path ↔ Contains (map string_bytes paths.items) path) }
{
    let mut sorted = paths;
    sorted.sort()?;
    sorted.dedup();
    Ok(sorted)
}
