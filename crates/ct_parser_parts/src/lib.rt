//! Parts of syntax trees, and syntax trees from their parts, a function for each production, up to the limits of depth.
#![tactic(auto)]

mod bodies;
mod declarations;
mod declarators;
mod expressions;
mod operands;
mod parts;
mod reach;
mod specifiers;
mod statements;

pub use bodies::{
    no_body, no_items, push_case, push_declared, push_default, push_definition, push_lone,
    push_outside, push_stated,
};
pub use declarations::{
    braces, declare, no_init_declarators, no_initialisers, push_bare, push_init, push_started,
    static_assert, value_init,
};
pub use declarators::{
    array, array_open, called, function, group, nameless, no_declarators, no_parameters, pointer,
    push_declarator, push_parameter,
};
pub use expressions::{
    assign, call, cast, character, comma, conditional, index, infix, infix_level, member, name,
    no_arguments, number, paren, postfix, prefix, push_argument, sizeof_type, sizeof_value,
    strings, unary,
};
pub use parts::{
    Aimed, Built, DeclaratorPart, Declared, EnumeratorsPart, ExprPart, MembersPart, ParametersPart,
    SpecsPart,
};
pub use reach::{Counts, Nest, Reach, is_within, joined, nested, passed};
pub use specifiers::{
    no_enumerators, no_members, no_specs, push_enumerator, push_member, push_valued, with_enum,
    with_enum_tag, with_struct, with_struct_tag, with_typedef, with_word,
};
pub use statements::{
    block, break_statement, continue_statement, do_loop, for_loop, if_branches, if_else,
    no_branches, push_branch, return_value, run, start_declaration, start_value, switch,
    while_loop,
};
