//! Refusals of units.

use ct_base::{LimitKind, Mem};
use ct_preproc::{PreFault, PreKind};
use std::alloc::Global;

/// Appends a refusal: its file, its line and what is wrong.
pub fn push_fault(alloc: Global, fault: &PreFault, out: &mut String) -> Mem<()> {
    let line = fault.line;
    let kind = name_of_fault(fault.kind);
    let text = format!(in alloc; "{}:{line}: {kind}", fault.file.as_str())?;
    out.push_str(text.as_str())?;
    Ok(())
}

fn name_of_fault(kind: PreKind) -> &'static str {
    match kind {
        PreKind::OpenComment => "Lex OpenComment",
        PreKind::BadToken => "Lex BadToken",
        PreKind::MissingInclude => "Preprocess MissingInclude",
        PreKind::BadDirective => "Preprocess BadDirective",
        PreKind::Unbalanced => "Preprocess Unbalanced",
        PreKind::Redefined => "Preprocess Redefined",
        PreKind::BadDefinition => "Preprocess BadDefinition",
        PreKind::Arguments => "Preprocess Arguments",
        PreKind::OpenCall => "Preprocess OpenCall",
        PreKind::BadPaste => "Preprocess BadPaste",
        PreKind::Condition => "Preprocess Condition",
        PreKind::Error => "Preprocess Error",
        PreKind::Limit(LimitKind::Tokens) => "Limit Tokens",
        PreKind::Limit(LimitKind::IncludeDepth) => "Limit IncludeDepth",
        PreKind::Limit(_) => "Limit",
    }
}
