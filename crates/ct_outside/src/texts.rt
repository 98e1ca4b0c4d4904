//! Texts in memory.

ghost use Rattle.std.specs.Prelude.{◌≡◌, OnOk, OnErr};
ghost use Rattle.std.specs.Option.{option_copied};
ghost use Rattle.std.specs.FinMap.{empty, get, insert};

use crate::finder::Finder;
use ct_base::{Bytes, Mem};
use std::alloc::Global;
use std::collections::BTreeMap;
use std::marker::Model;

/// Texts by their paths.
#[derive(Debug, Drop)]
pub struct Texts {
    alloc: Global,
    files: BTreeMap<String, Bytes>,
}

impl Model for Texts {
    ghost use Rattle.ct_outside.specs.Files.{Files};
    ghost use Rattle.ct_outside.specs.TreeState.{files_code};
    ghost use Rattle.ct_outside.specs.Stored.{texts_of};

    ghost Value = { Files };

    ghost coded = { files_code };

    ghost view = { λ texts. texts_of texts.files.entries };
}

impl Texts {
    pub fn new(alloc: Global) -> Texts
        ensures { result ≡ empty }
    {
        Texts {
            alloc,
            files: BTreeMap::new(alloc),
        }
    }

    /// Sets the text at a path.
    #[tactic(auto, using(crate::proofs::TextsLemmas::put_texts))]
    pub fn put(&mut self, path: &str, text: &[u8]) -> Mem<()>
        ensures ok { OnOk result (self.new ≡ insert self.old path.now text.now) }
        ensures err { OnErr result (self.new ≡ self.old) }
    {
        let key = String::from_str(self.alloc, path)?;
        let text = Bytes::from_slice(self.alloc, text)?;
        self.files.insert(key, text)?;
        Ok(())
    }
}

impl Finder for Texts {
    ghost texts = { λ texts. texts };

    #[tactic(auto, using(crate::proofs::TextsLemmas::get_texts))]
    fn get(&self, path: &str) -> Option<&[u8]> {
        Some(self.files.get(path)?.as_slice())
    }
}
