//! The syntax trees of C, which tokens a tree spells, and how marks and keywords are spelled.
#![tactic(auto)]

mod declarations;
mod expressions;
mod spelling;
mod statements;
mod words;

pub use declarations::{Declaration, Designator, InitDeclarator, Initialiser, InitialiserItem};
pub use expressions::{Declarator, Enumerator, Expr, Member, Parameter, ParameterForm, Spec};
pub use spelling::is_left_out_word;
pub use statements::{Block, BlockItem, Branch, ForStart, Item, Statement, Tree};
pub use words::{
    AssignOp, InfixOp, Keyword, Mark, MemberOp, PrefixOp, Qualifier, SpecWord, StepOp,
};
