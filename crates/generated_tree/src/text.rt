// The texts and paths of the files.

ghost use Rattle.std.specs.Prelude.{◌≡◌, ◌≤◌, ◌<◌, ◌+◌, ◌++◌, IfOk, OnOk, decimal, string_bytes};
ghost use Rattle.generated_tree.specs.Generated.{conftest_text, four_digits, row_list, test_path};
ghost use Rattle.generated_tree.specs.Pieces.{before_number, before_rows, behind_rows, behind_tests, between_tests, in_pieces};

use std::alloc::{AllocError, Global};

const CONFTEST: &str = "import pytest


@pytest.fixture(scope=\"session\")
def base():
    yield 7
";

const BEFORE_NUMBER: &str = "import pytest


@pytest.fixture
def num(base):
    yield base + ";

const BEFORE_ROWS: &str = "


@pytest.mark.parametrize(\"x\", [";

const BEHIND_ROWS: &str = "])
def test_sum(num, x):
    assert num + x == 7 + ";

const BETWEEN_TESTS: &str = " + x


def test_mod(num):
    assert num % 3 == (7 + ";

/// The text of the conftest.
#[tactic(auto, unfolding(crate::specs::Generated::conftest_text))]
pub(crate) fn conftest_text() -> &'static str
    ensures { result.now ≡ conftest_text }
{
    CONFTEST
}

#[tactic(auto, unfolding(crate::specs::Pieces::before_number))]
fn before_number() -> &'static str
    ensures { result.now ≡ before_number }
{
    BEFORE_NUMBER
}

#[tactic(auto, unfolding(crate::specs::Pieces::before_rows))]
fn before_rows() -> &'static str
    ensures { result.now ≡ before_rows }
{
    BEFORE_ROWS
}

#[tactic(auto, unfolding(crate::specs::Pieces::behind_rows))]
fn behind_rows() -> &'static str
    ensures { result.now ≡ behind_rows }
{
    BEHIND_ROWS
}

#[tactic(auto, unfolding(crate::specs::Pieces::between_tests))]
fn between_tests() -> &'static str
    ensures { result.now ≡ between_tests }
{
    BETWEEN_TESTS
}

#[tactic(auto, unfolding(crate::specs::Pieces::behind_tests))]
fn behind_tests() -> &'static str
    ensures { result.now ≡ behind_tests }
{
    ") % 3\n"
}

/// The rows of a test that is run so often.
#[tactic(auto, using(crate::proofs::Rows::one_row, crate::proofs::Rows::two_rows, crate::proofs::Rows::three_rows, crate::proofs::Rows::four_rows, crate::proofs::Rows::five_rows))]
fn row_list(rows: u32) -> &'static str
    requires { (1 ≤ rows) × (rows ≤ 5) }
    ensures { result.now ≡ row_list rows }
{
    match rows {
        1 => "0",
        2 => "0, 1",
        3 => "0, 1, 2",
        4 => "0, 1, 2, 3",
        5 => "0, 1, 2, 3, 4",
        _ => unreachable!(),
    }
}

/// The text of a file with this number, whose first test is run so often.
pub(crate) fn test_text(alloc: Global, k: u32, rows: u32) -> Result<String, AllocError>
    requires { (1 ≤ rows) × (rows ≤ 5) }
    ensures { IfOk result (λ text. string_bytes text ≡ in_pieces (decimal k) (row_list rows)) }
{
    let before = before_number();
    let marked = before_rows();
    let rows = row_list(rows);
    let behind = behind_rows();
    let between = between_tests();
    let end = behind_tests();
    format!(in alloc; "{before}{k}{marked}{rows}{behind}{k}{between}{k}{end}")
}

/// The digit of a number below ten.
fn digit(number: u32) -> char
    requires { number ≤ 9 }
    ensures { result ≡ 48 + number }
{
    (b'0' + number as u8) as char
}

/// Pushes a number below 10,000 in four digits.
fn push_digits(out: &mut String, number: u32) -> Result<(), AllocError>
    requires { number < 10000 }
    ensures { OnOk result (string_bytes out.new ≡ string_bytes out.old ++ four_digits number) }
{
    out.push(digit(number / 1000))?;
    out.push(digit(number / 100 % 10))?;
    out.push(digit(number / 10 % 10))?;
    out.push(digit(number % 10))
}

/// The path of a file with this number.
#[tactic(auto, unfolding(crate::specs::Generated::test_path))]
pub(crate) fn test_path(alloc: Global, k: u32) -> Result<String, AllocError>
    requires { k < 10000 }
    ensures { IfOk result (λ path. string_bytes path ≡ test_path k) }
{
    let mut path = String::from_str(alloc, "test_g")?;
    push_digits(&mut path, k)?;
    path.push_str(".py")?;
    Ok(path)
}
