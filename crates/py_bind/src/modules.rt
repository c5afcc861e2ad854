// The file that an import names.

ghost use Rattle.std.specs.Prelude.{◌≡◌, None, Some, map, string_bytes, bytes_eq, encode_utf8, encode_utf8_all, MatchOption, IfSome, IfNone, codes};
ghost use Rattle.std.specs.List.{flat_map};
ghost use Rattle.std.specs.Option.{option_or};
ghost use Rattle.py_bind.specs.Modules.{rest_after, path_part, slashed, module_path, place_of, folder_of, candidates, module_place, IsNamed, NoneThere};

use py_values::PyText;

/// What stands behind other bytes, where the text begins with them.
fn behind_bytes<'t>(text: &'t [u8], front: &[u8]) -> Option<&'t [u8]>
    ensures { MatchOption result (rest_after front.now text.now ≡ None) (λ rest. rest_after front.now text.now ≡ Some rest.now) }
{
    text.strip_prefix(front)
}

/// What stands behind a character, where the text begins with it.
fn behind_char(text: &[u8], c: char) -> Option<&[u8]>
    ensures { MatchOption result (rest_after (encode_utf8 c) text.now ≡ None) (λ rest. rest_after (encode_utf8 c) text.now ≡ Some rest.now) }
{
    let mut buffer = [0u8; 4];
    let front = c.encode_utf8(&mut buffer);
    text.strip_prefix(front.as_bytes())
}

/// What stands behind a name, where the text begins with it.
fn behind_name<'t>(text: &'t [u8], name: &PyText) -> Option<&'t [u8]>
    ensures { MatchOption result (rest_after (encode_utf8_all name.now) text.now ≡ None) (λ rest. rest_after (encode_utf8_all name.now) text.now ≡ Some rest.now) }
{
    let chars = name.chars();
    let mut rest = text;
    for c in chars {
        rest = behind_char(rest, *c)?;
    }
    Some(rest)
}

/// What stands behind a `/` and a name, where the text begins with them.
fn behind_part<'t>(text: &'t [u8], name: &PyText) -> Option<&'t [u8]>
    ensures { MatchOption result (rest_after (path_part name.now) text.now ≡ None) (λ rest. rest_after (path_part name.now) text.now ≡ Some rest.now) }
{
    behind_name(text.strip_prefix(b"/")?, name)
}

/// What stands behind names with a `/` before each, where the text begins with them.
fn behind_parts<'t>(text: &'t [u8], names: &[PyText]) -> Option<&'t [u8]>
    ensures { MatchOption result (rest_after (flat_map path_part names.now) text.now ≡ None) (λ rest. rest_after (flat_map path_part names.now) text.now ≡ Some rest.now) }
{
    let mut rest = text;
    for name in names {
        rest = behind_part(rest, name)?;
    }
    Some(rest)
}

/// What stands behind a dotted name with `/` for its dots, where the text begins with it.
fn behind_dotted<'t>(text: &'t [u8], dotted: &[PyText]) -> Option<&'t [u8]>
    ensures { MatchOption result (rest_after (slashed dotted.now) text.now ≡ None) (λ rest. rest_after (slashed dotted.now) text.now ≡ Some rest.now) }
{
    match dotted {
        [first, others @ ..] => behind_parts(behind_name(text, first)?, others),
        [] => Some(text),
    }
}

/// Whether a path is that of a dotted name in a folder, with this end.
fn is_path(path: &[u8], folder: &[u8], dotted: &[PyText], end: &[u8]) -> bool
    ensures { result ≡ bytes_eq (module_path folder.now dotted.now end.now) path.now }
{
    match behind_bytes(path, folder) {
        Some(rest) => match behind_dotted(rest, dotted) {
            Some(rest) => end == rest,
            None => false,
        },
        None => false,
    }
}

/// The place of the path of a dotted name in a folder, with this end.
fn place_of(paths: &[String], folder: &[u8], dotted: &[PyText], end: &[u8]) -> Option<usize>
    ensures { result ≡ place_of (map string_bytes paths.now) (module_path folder.now dotted.now end.now) }
{
    for (at, path) in paths.iter().enumerate() {
        if is_path(path.as_bytes(), folder, dotted, end) {
            return Some(at);
        }
    }
    None
}

/// The place of the path of a dotted name in a folder: that of the package, or else that of the module.
fn place_in(paths: &[String], folder: &[u8], dotted: &[PyText]) -> Option<usize>
    ensures { result ≡ option_or (place_of (map string_bytes paths.now) (module_path folder.now dotted.now (codes "/__init__.py"))) (place_of (map string_bytes paths.now) (module_path folder.now dotted.now (codes ".py"))) }
{
    match place_of(paths, folder, dotted, b"/__init__.py") {
        Some(at) => Some(at),
        None => place_of(paths, folder, dotted, b".py"),
    }
}

/// The folder of a file, with the `/` behind it.
fn folder_of(path: &[u8]) -> &[u8]
    ensures { result.now ≡ folder_of path.now }
{
    let mut rest = path;
    while let Some((last, front)) = rest.split_last() {
        if *last == b'/' {
            return rest;
        }
        rest = front;
    }
    rest
}

/// The place of the first path of a module, in the importing file's folder and then in the root.
fn module_place(paths: &[String], importer: &[u8], dotted: &[PyText]) -> Option<usize>
    ensures { result ≡ module_place (map string_bytes paths.now) importer.now dotted.now }
{
    match place_in(paths, folder_of(importer), dotted) {
        Some(at) => Some(at),
        None => place_in(paths, b"", dotted),
    }
}

/// The place of the path that an import names (Language Reference, the import system): `__init__.py` in the folder of the dotted name,
/// or else the file of that name, both looked for in the importing file's folder, and then in the root. None exactly where no path is
/// one of these. Takes no memory.
pub fn find_module(paths: &[String], importer: &str, dotted: &[PyText]) -> Option<usize>
    ensures exact { result ≡ module_place (map string_bytes paths.now) importer.now dotted.now }
    ensures named { IfSome result (λ at. IsNamed (map string_bytes paths.now) (candidates importer.now dotted.now) at) }
    ensures none { IfNone result (NoneThere (map string_bytes paths.now) (candidates importer.now dotted.now)) }
{
    module_place(paths, importer.as_bytes(), dotted)
}
