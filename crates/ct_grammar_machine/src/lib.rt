//! The grammar as a machine that reads one word at a time: definitions, and no code. A stack of open productions, what
//! comes next, and the parts that each production makes.
#![tactic(auto)]
