ghost use Rattle.std.specs.Prelude.{◌≡◌, ◌≤◌, MatchOption};
ghost use Rattle.report_parts.specs.Blanks.{BeginsWithBlank, EndsWithBlank, stripped, without_front, without_end};

/// What stands behind the space or tab that a text starts with.
fn behind_blank(text: &str) -> Option<&str>
    ensures { MatchOption result (without_front text.now ≡ text.now) (λ rest. BeginsWithBlank text.now rest.now) }
{
    match text.strip_prefix(' ') {
        Some(rest) => Some(rest),
        None => text.strip_prefix('\t'),
    }
}

fn without_front(text: &str) -> &str
    ensures { result.now ≡ without_front text.now }
{
    let mut rest = text;
    while let Some(behind) = behind_blank(rest) {
        rest = behind;
    }
    rest
}

/// What stands before the space or tab that a text ends with.
fn before_blank(text: &str) -> Option<&str>
    ensures { MatchOption result (without_end text.now ≡ text.now) (λ rest. EndsWithBlank text.now rest.now) }
{
    match text.strip_suffix(' ') {
        Some(rest) => Some(rest),
        None => text.strip_suffix('\t'),
    }
}

fn without_end(text: &str) -> &str
    ensures { result.now ≡ without_end text.now }
{
    let mut rest = text;
    while let Some(before) = before_blank(rest) {
        rest = before;
    }
    rest
}

/// A text without the spaces and tabs on both sides.
pub(crate) fn stripped(text: &str) -> &str
    ensures { result.now ≡ stripped text.now }
{
    without_end(without_front(text))
}
