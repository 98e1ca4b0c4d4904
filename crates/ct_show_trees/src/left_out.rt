//! The first token of a text that is left out of the language.

use ct_base::Mem;
use ct_parser::unsupported;
use ct_show_preprocessor::words_of;
use ct_show_rows::{Row, push_escaped};
use std::alloc::Global;

/// Appends the place of the first token that is left out, from 0, and the token.
pub fn left_out_outcome(alloc: Global, row: &Row, out: &mut String) -> Mem<()> {
    let text = row.input(alloc)?;
    let Some(words) = words_of(alloc, text.as_slice())? else {
        return Ok(out.push_str("an open comment")?);
    };
    let Some(place) = unsupported(words.as_slice()) else {
        return Ok(out.push_str("nothing")?);
    };
    let number = format!(in alloc; "{place} ")?;
    out.push_str(number.as_str())?;
    if let Some(token) = words.get(place) {
        push_escaped(token.text.as_slice(), out)?;
    }
    Ok(())
}
