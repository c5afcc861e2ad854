ghost use Rattle.std.specs.Prelude.{◌≡◌, ◌+◌};
ghost use Rattle.link_cells.specs.Rings.{links_of, HasWord, put, put_ahead, put_back, detached, attached, spliced, ahead_of, back_of, moved_front, moved_back, CanMove};
ghost use Rattle.link_cells.specs.declared.link.Link.TheVariants.{Cell, Head};

use crate::link::{Link, Links};
use cell_words::{CellWords, Steps};
use std::sync::ledger::Ledger;

/// The links of a word.
pub fn links_of(words: &CellWords<Links, Links>, at: Link) -> Links
    requires { HasWord words.now at }
    ensures { result ≡ links_of words.now at }
{
    match at {
        Link::Cell(cell) => *words.cell(cell),
        Link::Head(head) => *words.head(head),
    }
}

/// Writes one word.
fn put<L: Ledger>(words: &mut CellWords<Links, Links>, at: Link, links: Links, steps: &mut Steps<L>)
    requires { HasWord words.old at }
    ensures words { words.new ≡ put words.old at links }
    ensures step { steps.new ≡ steps.old + 1 }
{
    match at {
        Link::Cell(cell) => {
            let _before = words.swap_cell(cell, links, steps);
        }
        Link::Head(head) => {
            let _before = words.swap_head(head, links, steps);
        }
    }
}

fn put_ahead<L: Ledger>(
    words: &mut CellWords<Links, Links>,
    at: Link,
    to: Link,
    steps: &mut Steps<L>,
)
    requires { HasWord words.old at }
    ensures words { words.new ≡ put_ahead words.old at to }
    ensures step { steps.new ≡ steps.old + 1 }
{
    let back = links_of(words, at).back;
    put(words, at, Links { back, ahead: to }, steps);
}

fn put_back<L: Ledger>(
    words: &mut CellWords<Links, Links>,
    at: Link,
    to: Link,
    steps: &mut Steps<L>,
)
    requires { HasWord words.old at }
    ensures words { words.new ≡ put_back words.old at to }
    ensures step { steps.new ≡ steps.old + 1 }
{
    let ahead = links_of(words, at).ahead;
    put(words, at, Links { back: to, ahead }, steps);
}

/// Links the neighbours of a cell past it.
fn detach<L: Ledger>(words: &mut CellWords<Links, Links>, cell: usize, steps: &mut Steps<L>)
    requires cell { HasWord words.old (Cell cell) }
    requires back { HasWord words.old (back_of words.old (Cell cell)) }
    requires ahead { HasWord words.old (ahead_of words.old (Cell cell)) }
    ensures words { words.new ≡ detached words.old cell }
    ensures step { steps.new ≡ steps.old + 2 }
{
    let Links { back, ahead } = links_of(words, Link::Cell(cell));
    put_ahead(words, back, ahead, steps);
    put_back(words, ahead, back, steps);
}

/// Links a cell between two neighbours.
pub fn attach<L: Ledger>(
    words: &mut CellWords<Links, Links>,
    cell: usize,
    back: Link,
    ahead: Link,
    steps: &mut Steps<L>,
)
    requires cell { HasWord words.old (Cell cell) }
    requires back { HasWord words.old back }
    requires ahead { HasWord words.old ahead }
    ensures words { words.new ≡ attached words.old cell back ahead }
    ensures step { steps.new ≡ steps.old + 3 }
{
    put(words, Link::Cell(cell), Links { back, ahead }, steps);
    put_ahead(words, back, Link::Cell(cell), steps);
    put_back(words, ahead, Link::Cell(cell), steps);
}

/// Moves a cell from where it stands to the front of the ring of a head.
pub fn move_front<L: Ledger>(
    words: &mut CellWords<Links, Links>,
    cell: usize,
    head: usize,
    steps: &mut Steps<L>,
)
    requires { CanMove words.old cell head }
    ensures words { words.new ≡ moved_front words.old cell head }
    ensures step { steps.new ≡ steps.old + 5 }
{
    detach(words, cell, steps);
    let first = links_of(words, Link::Head(head)).ahead;
    attach(words, cell, Link::Head(head), first, steps);
}

/// Moves a cell from where it stands to the back of the ring of a head.
pub fn move_back<L: Ledger>(
    words: &mut CellWords<Links, Links>,
    cell: usize,
    head: usize,
    steps: &mut Steps<L>,
)
    requires { CanMove words.old cell head }
    ensures words { words.new ≡ moved_back words.old cell head }
    ensures step { steps.new ≡ steps.old + 5 }
{
    detach(words, cell, steps);
    let last = links_of(words, Link::Head(head)).back;
    attach(words, cell, last, Link::Head(head), steps);
}

/// Puts the ring of `from`, which has cells, in front of that of `to`, and leaves `from` alone.
pub fn join<L: Ledger>(
    words: &mut CellWords<Links, Links>,
    from: usize,
    to: usize,
    steps: &mut Steps<L>,
)
    requires from { HasWord words.old (Head from) }
    requires to { HasWord words.old (Head to) }
    requires last { HasWord words.old (back_of words.old (Head from)) }
    requires first { HasWord words.old (ahead_of words.old (Head from)) }
    requires front { HasWord words.old (ahead_of words.old (Head to)) }
    ensures words { words.new ≡ spliced words.old from to }
    ensures step { steps.new ≡ steps.old + 5 }
{
    let Links {
        back: last,
        ahead: first,
    } = links_of(words, Link::Head(from));
    let front = links_of(words, Link::Head(to)).ahead;
    put_ahead(words, last, front, steps);
    put_back(words, front, last, steps);
    put_ahead(words, Link::Head(to), first, steps);
    put_back(words, first, Link::Head(to), steps);
    let alone = Link::Head(from);
    put(
        words,
        alone,
        Links {
            back: alone,
            ahead: alone,
        },
        steps,
    );
}
