ghost use Rattle.std.specs.Prelude.{◌≡◌, ◌∷◌, []};
ghost use Rattle.grammar_code.specs.Walk.{first_of, first_meant, starts_with, wanted};
ghost use Rattle.py_expressions.specs.token_kinds.Kinds.{kind, op_number};
ghost use Rattle.py_cursor.specs.declared.stop.Stop.TheVariants.{Bad, Deep};
ghost use Rattle.py_cursor.specs.Cursor.{number_on, kinds_of, rows_of, IsBlocked};
ghost use Rattle.py_cursor.specs.Parser.{Takes, Gives, Makes, Loses};

use crate::cursor::{Sign, begins, blocked, first_meant, first_of};
use crate::stop::Stop;
use py_tokens::{Op, Token};
use std::alloc::Global;

/// The tokens that are left to be read, and where reading stopped.
#[derive(Drop)]
pub struct Parser<'t> {
    pub alloc: Global,
    pub rest: &'t [Token],
    /// Why the last function gave nothing, where one gave nothing.
    pub stop: Stop<'t>,
}

impl<'t> Parser<'t> {
    /// Before the first token.
    pub fn new(alloc: Global, tokens: &'t [Token]) -> Self
        ensures left { result.rest.now ≡ tokens.now }
        ensures stops { result.stop ≡ Bad tokens.entry }
    {
        Parser {
            alloc,
            rest: tokens,
            stop: Stop::Bad(tokens),
        }
    }

    /// Takes the first token, where it is of this kind.
    pub fn take(&mut self, sign: Sign) -> Option<&'t Token>
        ensures { Takes (λ t. t.now) (first_of kind (number_on sign ∷ []) self.old.rest.now) result self.old self.new }
    {
        match first_of(self.rest, &[sign]) {
            Some((token, rest)) => {
                self.rest = rest;
                Some(token)
            }
            None => None,
        }
    }

    /// Takes the first token, where it is this operator or word.
    pub fn take_op(&mut self, op: Op) -> Option<&'t Token>
        ensures { Takes (λ t. t.now) (first_of kind (op_number op ∷ []) self.old.rest.now) result self.old self.new }
    {
        self.take(Sign::Op(op))
    }

    /// Takes the first token, where it stands for something in a table of operators: the token, and what it stands for.
    pub fn take_meant<V: Copy>(&mut self, rows: &[(Op, V)]) -> Option<(&'t Token, V)>
        ensures { Takes (λ x. (x.0.now, x.1)) (first_meant kind (rows_of rows.now) self.old.rest.now) result self.old self.new }
    {
        match first_meant(self.rest, rows) {
            Some((token, value, rest)) => {
                self.rest = rest;
                Some((token, value))
            }
            None => None,
        }
    }

    /// Takes the first token, which has to be of this kind.
    pub fn expect(&mut self, sign: Sign) -> Option<&'t Token>
        ensures { Gives (λ t. t.now) result self.new (wanted kind (number_on sign ∷ []) self.old.rest.now) }
    {
        match first_of(self.rest, &[sign]) {
            Some((token, rest)) => {
                self.rest = rest;
                Some(token)
            }
            None => {
                self.stop = Stop::Bad(self.rest);
                None
            }
        }
    }

    /// Takes the first token, which has to be this operator or word.
    pub fn expect_op(&mut self, op: Op) -> Option<&'t Token>
        ensures { Gives (λ t. t.now) result self.new (wanted kind (op_number op ∷ []) self.old.rest.now) }
    {
        self.expect(Sign::Op(op))
    }

    /// Whether the first token is of this kind.
    pub fn at(&self, sign: Sign) -> bool
        ensures { result ≡ starts_with kind (number_on sign ∷ []) self.now.rest.now }
    {
        begins(self.rest, &[sign])
    }

    /// Whether the first token is this operator or word.
    pub fn at_op(&self, op: Op) -> bool
        ensures { result ≡ starts_with kind (op_number op ∷ []) self.now.rest.now }
    {
        begins(self.rest, &[Sign::Op(op)])
    }

    /// Whether the first token is of a kind in the set.
    pub fn at_any(&self, set: &[Sign]) -> bool
        ensures { result ≡ starts_with kind (kinds_of set.now) self.now.rest.now }
    {
        begins(self.rest, set)
    }

    /// Reading stops where no level is left: the first token is too deep, where it is of a kind in the set.
    pub fn stop_blocked(&mut self, set: &[Sign])
        ensures stops { IsBlocked (starts_with kind (kinds_of set.now) self.old.rest.now) self.old.rest.now self.new.stop }
        ensures kept { self.new.rest.now ≡ self.old.rest.now }
    {
        self.stop = blocked(self.rest, set);
    }

    /// Reading stops at these tokens: with the first of them it would go on in more levels than are left.
    pub fn stop_deep(&mut self, tokens: &'t [Token])
        ensures stops { self.new.stop ≡ Deep tokens.entry }
        ensures kept { self.new.rest.now ≡ self.old.rest.now }
    {
        self.stop = Stop::Deep(tokens);
    }

    /// What was made; where it wasn't, memory ran out.
    pub fn made<T: Drop, E: Drop>(&mut self, made: Result<T, E>) -> Option<T>
        ensures makes { Makes made self.old.rest.now result self.new }
        ensures failed { Loses made self.old.rest.now result self.new }
    {
        match made {
            Ok(made) => Some(made),
            Err(_) => {
                self.stop = Stop::Memory;
                None
            }
        }
    }
}
