//! Texts in outcomes.

use ct_base::Mem;
use ct_show_rows::push_escaped;
use std::alloc::Global;

/// Appends a text line by line, with escapes. Behind a text whose last line does not end stands `\end`.
pub fn push_text(text: &[u8], out: &mut String) -> Mem<()> {
    for (place, line) in text.split(|byte| *byte == b'\n').enumerate() {
        if place > 0 {
            out.push('\n')?;
        }
        push_escaped(line, out)?;
    }
    if !text.is_empty() && !text.ends_with("\n".as_bytes()) {
        out.push_str("\\end\n")?;
    }
    Ok(())
}

/// Appends a number.
pub fn push_number(alloc: Global, number: u64, out: &mut String) -> Mem<()> {
    let text = format!(in alloc; "{number}")?;
    out.push_str(text.as_str())?;
    Ok(())
}

/// Appends words and a new-line.
pub fn push_line(words: &str, out: &mut String) -> Mem<()> {
    out.push_str(words)?;
    out.push('\n')?;
    Ok(())
}
