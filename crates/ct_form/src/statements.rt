//! Statements and declarations of a function.

ghost use Rattle.std.specs.Prelude.{◌≡◌, ◌≤◌, IfOk, codes, drop, length, take};
ghost use Rattle.ct_form.specs.Readers.{AnswersBody, AnswersDeclaration, AnswersStatement, at_of};
ghost use Rattle.ct_form.specs.Words.{Stands};

use crate::expressions::INT;
use crate::names::{Binding, Signature, is_declared};
use crate::parts::binding_of;
use crate::places::Place;
use crate::words::{NoMatch, name, word};
use ct_base::{Items, Token};
use ct_core::CoreStatement;
use sqlite_items::Boxed;
use std::alloc::Global;

/// How many parameters and variables a function may have.
pub const MOST_VARIABLES: usize = 128;

/// What the statements of a function may use: the functions declared so far, whether `unity.h`
/// was included, and whether the function gives a value.
#[derive(Clone, Copy)]
pub struct Context<'a> {
    pub alloc: Global,
    pub functions: &'a [Signature],
    pub unity: bool,
    pub gives_value: bool,
}

/// What stands in a block: the numbers of the variables that it declares itself, and its parts.
#[derive(Drop)]
pub struct Inside {
    pub numbers: Items<u32>,
    pub parts: Items<CoreStatement>,
}

impl<'a> Context<'a> {
    /// A statement at the front of the place, in which so many statements with parts may begin in
    /// one another, and the place behind it. The scope behind it is that before it.
    #[cycle(statement)]
    fn statement<'t>(
        &self,
        room: u32,
        scope: &mut Vec<Binding>,
        place: Place<'t>,
    ) -> Result<(CoreStatement, Place<'t>), NoMatch>
        ensures scope { IfOk result (λ _. scope.new.items ≡ scope.old.items) }
        ensures statement { AnswersStatement self.now room scope.old.items (at_of place.entry) result }
    {
        if let Ok((target, middle)) = name(place.tokens) {
            return self.named(scope.as_slice(), place, target, middle);
        }
        if let Ok(inside) = word(place.tokens, b"{") {
            return self.block(room, scope, place, inside);
        }
        if let Ok(behind) = word(place.tokens, b"if") {
            return self.choice(room, scope, place, behind);
        }
        if let Ok(behind) = word(place.tokens, b"while") {
            return self.turns(room, scope, place, behind);
        }
        if let Ok(behind) = word(place.tokens, b"return") {
            return self.returned(scope.as_slice(), place, behind);
        }
        if let Ok(behind) = word(place.tokens, b"TEST_ASSERT_EQUAL_INT") {
            return self.assertion(scope.as_slice(), place, behind);
        }
        Err(NoMatch::Elsewhere)
    }

    /// A block, behind its `{`.
    #[cycle(statement)]
    fn block<'t>(
        &self,
        room: u32,
        scope: &mut Vec<Binding>,
        place: Place<'t>,
        inside: &'t [Token],
    ) -> Result<(CoreStatement, Place<'t>), NoMatch>
        requires { Stands (codes "{") place.tokens.now inside.now }
        ensures scope { IfOk result (λ _. scope.new.items ≡ scope.old.items) }
        ensures statement { AnswersStatement self.now room scope.old.items (at_of place.entry) result }
    {
        if room == 0 {
            return Err(NoMatch::Elsewhere);
        }
        let mark = place.mark();
        let outer = scope.len();
        let place = place.begun(inside)?;
        let (Inside { numbers, parts }, place) = self.body(room - 1, scope, outer, place)?;
        scope.truncate(outer);
        Ok((CoreStatement::Block(mark, numbers, parts), place))
    }

    /// An `if` with its parts, behind its first word.
    #[cycle(statement)]
    fn choice<'t>(
        &self,
        room: u32,
        scope: &mut Vec<Binding>,
        place: Place<'t>,
        behind: &'t [Token],
    ) -> Result<(CoreStatement, Place<'t>), NoMatch>
        requires { Stands (codes "if") place.tokens.now behind.now }
        ensures scope { IfOk result (λ _. scope.new.items ≡ scope.old.items) }
        ensures statement { AnswersStatement self.now room scope.old.items (at_of place.entry) result }
    {
        if room == 0 {
            return Err(NoMatch::Elsewhere);
        }
        let mark = place.mark();
        let (test, inside) = self.test(scope.as_slice(), behind)?;
        let place = place.begun(inside)?;
        let (yes, place) = self.statement(room - 1, scope, place)?;
        let first = Boxed::new(self.alloc, yes)?;
        let Ok(others) = word(place.tokens, b"else") else {
            return Ok((CoreStatement::If(mark, test, first, None), place));
        };
        let (no, place) = self.statement(room - 1, scope, place.moved(others))?;
        let second = Boxed::new(self.alloc, no)?;
        Ok((CoreStatement::If(mark, test, first, Some(second)), place))
    }

    /// A `while` with its part, behind its first word.
    #[cycle(statement)]
    fn turns<'t>(
        &self,
        room: u32,
        scope: &mut Vec<Binding>,
        place: Place<'t>,
        behind: &'t [Token],
    ) -> Result<(CoreStatement, Place<'t>), NoMatch>
        requires { Stands (codes "while") place.tokens.now behind.now }
        ensures scope { IfOk result (λ _. scope.new.items ≡ scope.old.items) }
        ensures statement { AnswersStatement self.now room scope.old.items (at_of place.entry) result }
    {
        if room == 0 {
            return Err(NoMatch::Elsewhere);
        }
        let mark = place.mark();
        let (test, inside) = self.test(scope.as_slice(), behind)?;
        let place = place.begun(inside)?;
        let (turn, place) = self.statement(room - 1, scope, place)?;
        let part = Boxed::new(self.alloc, turn)?;
        Ok((CoreStatement::While(mark, test, part), place))
    }

    /// What stands in a block, with its closing brace. Behind `outer` the scope has the
    /// declarations of the block.
    #[cycle(statement)]
    pub fn body<'t>(
        &self,
        room: u32,
        scope: &mut Vec<Binding>,
        outer: usize,
        place: Place<'t>,
    ) -> Result<(Inside, Place<'t>), NoMatch>
        requires { outer ≤ length scope.old.items }
        ensures scope { IfOk result (λ _. take outer scope.new.items ≡ take outer scope.old.items) }
        ensures body { AnswersBody self.now room (take outer scope.old.items) (drop outer scope.old.items) (at_of place.entry) result }
    {
        let mut numbers = Items::new(self.alloc);
        let mut parts = Items::new(self.alloc);
        let mut place = place;
        loop {
            if let Ok(rest) = word(place.tokens, b"}") {
                return Ok((Inside { numbers, parts }, place.moved(rest)));
            }
            if let Ok(behind) = word(place.tokens, b"int") {
                let (number, part, after) = self.declaration(scope, outer, place, behind)?;
                numbers.push(number)?;
                parts.push(part)?;
                place = after;
                continue;
            }
            let (part, after) = self.statement(room, scope, place)?;
            parts.push(part)?;
            place = after;
        }
    }

    /// A declaration, behind its `int`: the number of the variable, which is the newest in the
    /// scope then, and the core tree.
    fn declaration<'t>(
        &self,
        scope: &mut Vec<Binding>,
        outer: usize,
        place: Place<'t>,
        behind: &'t [Token],
    ) -> Result<(u32, CoreStatement, Place<'t>), NoMatch>
        requires bound { outer ≤ length scope.old.items }
        requires stands { Stands (codes "int") place.tokens.now behind.now }
        ensures number { IfOk result (λ found. found.0 ≡ length place.entry.variables) }
        ensures declaration { AnswersDeclaration self.now (take outer scope.old.items) (drop outer scope.old.items) (at_of place.entry) behind.now scope.new.items result }
    {
        let (name, middle) = name(behind)?;
        if is_declared(&scope[outer..], name.text.as_slice())
            || place.variables.len() >= MOST_VARIABLES
        {
            return Err(NoMatch::Elsewhere);
        }
        let mark = place.mark();
        let number = place.variables.len() as u32;
        scope.push(binding_of(self.alloc, name, number)?)?;
        let (start, ending) = self.start(scope.as_slice(), middle)?;
        let rest = word(ending, b";")?;
        let place = place.begun(rest)?.declared(self.alloc, name)?;
        Ok((
            number,
            CoreStatement::Declare(mark, number, INT, start),
            place,
        ))
    }
}
