//! Statements without parts.

ghost use Rattle.std.specs.Prelude.{◌≡◌, ℕ, Option, codes};
ghost use Rattle.ct_core.specs.declared.trees.CoreExpression.{CoreExpression as expression};
ghost use Rattle.ct_form.specs.Answers.{Answers};
ghost use Rattle.ct_form.specs.Readers.{AnswersStatement, at_of};
ghost use Rattle.ct_form.specs.Statements.{IsStart, IsTest};
ghost use Rattle.ct_form.specs.Words.{Absent, Stands, StandsName};

use crate::expressions::{INT, Names};
use crate::names::{Binding, number_of};
use crate::parts::{PARENTHESES, assertion_core};
use crate::places::Place;
use crate::statements::Context;
use crate::words::{NoMatch, word};
use ct_base::Token;
use ct_core::{CoreExpression, CoreStatement};
use sqlite_items::Boxed;

impl<'a> Context<'a> {
    /// The test of an `if` or `while`, and what follows it.
    pub fn test<'t>(
        &self,
        scope: &[Binding],
        tokens: &'t [Token],
    ) -> Result<(CoreExpression, &'t [Token]), NoMatch>
        ensures { Answers (λ found. found.0) (λ found. found.1.now)
            (IsTest self.now.functions.now scope.now tokens.now) result }
    {
        let names = Names {
            alloc: self.alloc,
            functions: self.functions,
            scope,
        };
        names.test(tokens)
    }

    /// The initialiser of a declaration, where one stands there, and what follows it.
    pub fn start<'t>(
        &self,
        scope: &[Binding],
        tokens: &'t [Token],
    ) -> Result<(Option<CoreExpression>, &'t [Token]), NoMatch>
        ensures { Answers {C = Option expression} (λ found. found.0) (λ found. found.1.now)
            (IsStart self.now.functions.now scope.now tokens.now) result }
    {
        let names = Names {
            alloc: self.alloc,
            functions: self.functions,
            scope,
        };
        names.start(tokens)
    }

    /// A statement that begins with a name, and the place behind it.
    pub fn named<'t>(
        &self,
        scope: &[Binding],
        place: Place<'t>,
        target: &'t Token,
        middle: &'t [Token],
    ) -> Result<(CoreStatement, Place<'t>), NoMatch>
        requires { StandsName place.tokens.now target.now middle.now }
        ensures { (room : ℕ) → AnswersStatement self.now room scope.now (at_of place.entry) result }
    {
        match word(middle, b"=") {
            Ok(behind) => self.assignment(scope, place, target, middle, behind),
            Err(_) => self.call(scope, place, target, middle),
        }
    }

    /// An assignment, behind its `=`.
    fn assignment<'t>(
        &self,
        scope: &[Binding],
        place: Place<'t>,
        target: &'t Token,
        middle: &'t [Token],
        behind: &'t [Token],
    ) -> Result<(CoreStatement, Place<'t>), NoMatch>
        requires name { StandsName place.tokens.now target.now middle.now }
        requires sign { Stands (codes "=") middle.now behind.now }
        ensures { (room : ℕ) → AnswersStatement self.now room scope.now (at_of place.entry) result }
    {
        let mark = place.mark();
        let Some(variable) = number_of(scope, target.text.as_slice()) else {
            return Err(NoMatch::Elsewhere);
        };
        let names = Names {
            alloc: self.alloc,
            functions: self.functions,
            scope,
        };
        let (value, ending) = names.expression(PARENTHESES, behind)?;
        let rest = word(ending, b";")?;
        let object = Boxed::new(self.alloc, CoreExpression::Variable(variable))?;
        let stored = Boxed::new(self.alloc, value)?;
        let store = CoreExpression::Assign(INT, object, stored);
        let place = place.begun(rest)?;
        Ok((CoreStatement::Run(mark, store), place))
    }

    /// A statement that is a call.
    fn call<'t>(
        &self,
        scope: &[Binding],
        place: Place<'t>,
        target: &'t Token,
        middle: &'t [Token],
    ) -> Result<(CoreStatement, Place<'t>), NoMatch>
        requires name { StandsName place.tokens.now target.now middle.now }
        requires sign { Absent (codes "=") middle.now }
        ensures { (room : ℕ) → AnswersStatement self.now room scope.now (at_of place.entry) result }
    {
        let mark = place.mark();
        let names = Names {
            alloc: self.alloc,
            functions: self.functions,
            scope,
        };
        let (_, core, ending) = names.call(PARENTHESES, place.tokens)?;
        let rest = word(ending, b";")?;
        let place = place.begun(rest)?;
        Ok((CoreStatement::Run(mark, core), place))
    }

    /// A `return`, behind its word.
    pub fn returned<'t>(
        &self,
        scope: &[Binding],
        place: Place<'t>,
        behind: &'t [Token],
    ) -> Result<(CoreStatement, Place<'t>), NoMatch>
        requires { Stands (codes "return") place.tokens.now behind.now }
        ensures { (room : ℕ) → AnswersStatement self.now room scope.now (at_of place.entry) result }
    {
        if !self.gives_value {
            return Err(NoMatch::Elsewhere);
        }
        let mark = place.mark();
        let names = Names {
            alloc: self.alloc,
            functions: self.functions,
            scope,
        };
        let (core, ending) = names.expression(PARENTHESES, behind)?;
        let rest = word(ending, b";")?;
        let place = place.begun(rest)?;
        Ok((CoreStatement::Return(mark, Some(core)), place))
    }

    /// The assertion, behind its word.
    pub fn assertion<'t>(
        &self,
        scope: &[Binding],
        place: Place<'t>,
        behind: &'t [Token],
    ) -> Result<(CoreStatement, Place<'t>), NoMatch>
        requires { Stands (codes "TEST_ASSERT_EQUAL_INT") place.tokens.now behind.now }
        ensures { (room : ℕ) → AnswersStatement self.now room scope.now (at_of place.entry) result }
    {
        if !self.unity {
            return Err(NoMatch::Elsewhere);
        }
        let mark = place.mark();
        let names = Names {
            alloc: self.alloc,
            functions: self.functions,
            scope,
        };
        let (expected, actual, ending) = names.pair(behind)?;
        let rest = word(ending, b";")?;
        let core = assertion_core(self.alloc, mark, expected, actual)?;
        let place = place.begun(rest)?;
        Ok((CoreStatement::Run(mark, core), place))
    }
}
