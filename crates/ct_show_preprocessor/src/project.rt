//! Small projects, of each of which one unit is shown.

use ct_base::{Bytes, Items, Mem, Text};
use ct_outside::Texts;
use ct_preproc::{Head, Heads};
use ct_settings::Define;
use ct_show_rows::{Part, Row};
use std::alloc::Global;

/// What is shown of a unit.
#[derive(Clone, Copy, Debug, PartialEq, Eq)]
pub enum Shown {
    /// Its tokens.
    Tokens,
    /// Each token with its file and line.
    Places,
    /// What it includes.
    Includes,
    /// The definitions of its macros.
    Definitions,
    /// How many tokens it has.
    Count,
}

/// A small project: its files, the path of that of the unit, and what is known beside them.
#[derive(Drop)]
pub struct Project {
    pub shown: Shown,
    pub path: Option<Text>,
    pub files: Texts,
    pub folders: Items<Text>,
    pub defines: Items<Define>,
    pub heads: Heads,
}

impl Project {
    /// A project without files, whose headers are searched in `inc` and `src` and whose mocks are
    /// named `mock_`.
    fn new(alloc: Global) -> Mem<Project> {
        let mut folders = Items::new(alloc);
        folders.push(Text::copy_of(alloc, "inc")?)?;
        folders.push(Text::copy_of(alloc, "src")?)?;
        Ok(Project {
            shown: Shown::Tokens,
            path: None,
            files: Texts::new(alloc),
            folders,
            defines: Items::new(alloc),
            heads: Heads {
                prefix: Text::copy_of(alloc, "mock_")?,
                folder: Text::copy_of(alloc, "build/mocks")?,
                scan: false,
                texts: Items::new(alloc),
            },
        })
    }

    /// The project of a row. Its options are `file PATH` and `head NAME`, with the text of a file and of the
    /// head of a mock, `show tokens`, `show places`, `show includes`,
    /// `show definitions` or `show count`, `scan`, and
    /// `define NAME TEXT`. Any other text is that of the file `m.c`. The unit is that of the first file.
    pub fn of_row(alloc: Global, row: &Row) -> Mem<Project> {
        let mut project = Project::new(alloc)?;
        for part in &row.parts {
            project.take(alloc, part)?;
        }
        if project.path.is_none() {
            project.put(alloc, "m.c", "".as_bytes())?;
        }
        Ok(project)
    }

    /// Takes an option and its text.
    fn take(&mut self, alloc: Global, part: &Part) -> Mem<()> {
        let text = part.text.as_slice();
        if let Some(path) = part.value_of("file") {
            return self.put(alloc, path, text);
        }
        if let Some(name) = part.value_of("head") {
            return self.put_head(alloc, name, text);
        }
        self.set(alloc, part.option.as_str())?;
        if !text.is_empty() {
            self.put(alloc, "m.c", text)?;
        }
        Ok(())
    }

    /// Takes one more file.
    fn put(&mut self, alloc: Global, path: &str, text: &[u8]) -> Mem<()> {
        self.files.put(path, text)?;
        if self.path.is_none() {
            self.path = Some(Text::copy_of(alloc, path)?);
        }
        Ok(())
    }

    /// Takes one more head of a mock.
    fn put_head(&mut self, alloc: Global, name: &str, text: &[u8]) -> Mem<()> {
        let name = Text::copy_of(alloc, name)?;
        let text = Bytes::from_slice(alloc, text)?;
        self.heads.texts.push(Head { name, text })?;
        Ok(())
    }

    /// Takes an option without text.
    fn set(&mut self, alloc: Global, option: &str) -> Mem<()> {
        let (word, rest) = option.split_once(' ').unwrap_or((option, ""));
        match word {
            "show" => self.shown = shown_by(rest),
            "scan" => self.heads.scan = true,
            "define" => self.define(alloc, rest)?,
            _ => {}
        }
        Ok(())
    }

    /// Takes a name and its text.
    fn define(&mut self, alloc: Global, rest: &str) -> Mem<()> {
        let (name, text) = rest.split_once(' ').unwrap_or((rest, "1"));
        self.defines.push(Define {
            name: Bytes::from_slice(alloc, name.as_bytes())?,
            text: Bytes::from_slice(alloc, text.as_bytes())?,
        })?;
        Ok(())
    }
}

/// What is shown, by its name.
fn shown_by(name: &str) -> Shown {
    match name {
        "places" => Shown::Places,
        "includes" => Shown::Includes,
        "definitions" => Shown::Definitions,
        "count" => Shown::Count,
        _ => Shown::Tokens,
    }
}
