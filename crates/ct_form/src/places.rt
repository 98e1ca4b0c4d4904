//! Places in the text of a function.

ghost use Rattle.std.specs.Prelude.{◌≡◌, IfOk};
ghost use Rattle.ct_form.specs.Readers.{at_of};
ghost use Rattle.ct_form.specs.Statements.{begun as place_begun, declared as place_declared, mark as mark_at, moved as place_moved, span_of_word as span_of};
ghost use Rattle.ct_form.specs.Words.{first_word};

use crate::parts::variable_of;
use crate::words::next;
use ct_base::{Items, Mem, OutOfMemory, Span, Token};
use ct_core::{Mark, Variable};
use std::alloc::Global;

/// A place in the text of a function: the tokens that are left, how many statements and
/// declarations of the unit began before it, and the parameters and variables that the function
/// declared before it.
#[derive(Drop)]
pub struct Place<'t> {
    pub tokens: &'t [Token],
    pub serial: u32,
    pub variables: Items<Variable>,
}

/// The span of the first word of these tokens.
fn span_of_word(tokens: &[Token]) -> Span
    ensures { result ≡ span_of (first_word tokens.now) }
{
    match next(tokens) {
        Some((token, _)) => token.span,
        None => Span { file: 0, line: 0 },
    }
}

impl<'t> Place<'t> {
    /// The mark of a statement that begins here.
    pub fn mark(&self) -> Mark
        ensures { result ≡ mark_at (at_of self.now) }
    {
        Mark {
            span: span_of_word(self.tokens),
            serial: self.serial,
        }
    }

    /// A place further on.
    pub fn moved(self, rest: &'t [Token]) -> Place<'t>
        ensures { at_of result ≡ place_moved (at_of self.entry) rest.now }
    {
        Place {
            tokens: rest,
            serial: self.serial,
            variables: self.variables,
        }
    }

    /// A place further on, with one more begun. Where a `u32` does not count them, memory is said
    /// to have run out.
    pub fn begun(self, rest: &'t [Token]) -> Mem<Place<'t>>
        ensures { IfOk result (λ place. at_of place ≡ place_begun (at_of self.entry) rest.now) }
    {
        let Some(serial) = self.serial.checked_add(1) else {
            return Err(OutOfMemory);
        };
        Ok(Place {
            tokens: rest,
            serial,
            variables: self.variables,
        })
    }

    /// The same place behind the declaration of one more variable, of this name.
    pub fn declared(mut self, alloc: Global, name: &Token) -> Mem<Place<'t>>
        ensures { IfOk result (λ place. at_of place ≡ place_declared (at_of self.entry) name.now) }
    {
        self.variables.push(variable_of(alloc, name)?)?;
        Ok(self)
    }
}
