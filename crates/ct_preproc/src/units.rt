//! The unit of a file.

ghost use Rattle.std.specs.Prelude.{◌≡◌, false, true, IfOk, IsSome, Ok, Err};
ghost use Rattle.std.specs.FinMap.{get};
ghost use Rattle.ct_base.specs.Answers.{IfFault, OnAnswer};
ghost use Rattle.ct_preproc.specs.Files as files;
ghost use Rattle.ct_directive.specs.Headers.{built_in_headers};
ghost use Rattle.ct_preproc.specs.Reading as steps;
ghost use Rattle.ct_preproc.specs.Units as spec;

use crate::file::File;
use crate::paths::one_token;
use crate::reader::Reader;
use crate::state::{Place, State};
use ct_base::{Bytes, Fail, Items, Mem, Out, Text, Token, TokenKind};
use ct_directive::{Heads, PreFault, PreKind, Search, first_other, object_like, words_of};
use ct_macro::Macros;
use ct_outside::Finder;
use ct_settings::Define;
use std::alloc::Global;

/// An include that was read: the name that the directive gives, the path of what it means, the number
/// of includes that lead to the file of the directive, and the directive's line.
#[derive(Debug, Drop)]
pub struct Include {
    pub name: Bytes,
    pub path: Text,
    pub depth: u32,
    pub line: u32,
}

/// A definition of a macro that a directive gave where no macro of the name stood: the name, the path of
/// the file in which the directive stands, and whether that is a built-in header.
#[derive(Debug, Drop)]
pub struct Definition {
    pub name: Bytes,
    pub path: Text,
    pub built_in: bool,
}

/// The unit of a file: its tokens after preprocessing; the paths of the files that were opened, by
/// their numbers, its own first; the includes in the order of reading; the macros at its end; and the
/// definitions in the order of reading. A macro at the end is that of the last definition of its name; one
/// that has none is predefined or a define of the project.
#[derive(Drop)]
pub struct SourceUnit {
    pub tokens: Items<Token>,
    pub files: Items<Text>,
    pub includes: Items<Include>,
    pub macros: Macros,
    pub definitions: Items<Definition>,
}

/// The most tokens of a unit.
fn most_tokens(tool: bool) -> u64
    ensures { result ≡ spec.most_tokens tool }
{
    if tool { u64::MAX } else { 1_000_000 }
}

/// The most includes that may nest.
fn most_includes(tool: bool) -> u32
    ensures { result ≡ spec.most_includes tool }
{
    if tool { 66 } else { 64 }
}

/// A macro that stands for one number.
#[tactic(auto, using(crate::proofs::Defining::anew_rules))]
fn number(alloc: Global, name: &[u8], text: &[u8], macros: Macros) -> Mem<Macros>
    ensures { IfOk result (λ after. after ≡ spec.with_number name.now text.now macros) }
{
    let text = Bytes::from_slice(alloc, text)?;
    let body = one_token(alloc, TokenKind::Number, text)?;
    let macro_ = object_like(alloc, name, body)?;
    let mut macros = macros;
    macros.undef(name);
    match macros.define(macro_) {
        Ok(()) => Ok(macros),
        Err(_) => Err(ct_base::OutOfMemory),
    }
}

/// `__STDC__` and `__STDC_VERSION__` (C11 6.10.8.1).
fn predefined(alloc: Global) -> Mem<Macros>
    ensures { IfOk result (λ macros. macros ≡ spec.predefined) }
{
    let macros = Macros::new(alloc)?;
    let macros = number(alloc, b"__STDC__".as_slice(), b"1".as_slice(), macros)?;
    number(
        alloc,
        b"__STDC_VERSION__".as_slice(),
        b"201112L".as_slice(),
        macros,
    )
}

impl File<'_> {
    /// The macros with a define of the project in place of another definition of its name.
    #[tactic(auto, using(crate::proofs::Defining::anew_rules, crate::proofs::Replacing::replacing_rules))]
    fn replaced(&self, macros: Macros, define: &Define, body: Items<Token>) -> Out<Macros, PreFault>
        ensures { OnAnswer result (λ answer. answer ≡ spec.replaced self.now.place.now macros define.now.name body) }
    {
        let macro_ = object_like(self.alloc, define.name.as_slice(), body)?;
        let mut macros = macros;
        macros.undef(define.name.as_slice());
        match macros.define(macro_) {
            Ok(()) => Ok(macros),
            Err(Fail::Fault(_)) => Err(self.fault(0, PreKind::BadDefinition)),
            Err(Fail::OutOfMemory) => Err(Fail::OutOfMemory),
        }
    }

    /// The macros with a define of the project, whose text is these tokens.
    #[tactic(auto, using(crate::proofs::Choices::choice_rules))]
    fn with_body(
        &self,
        macros: Macros,
        define: &Define,
        body: Items<Token>,
    ) -> Out<Macros, PreFault>
        ensures { OnAnswer result (spec.Defined self.now.place.now macros define.now.name body) }
    {
        match first_other(body.as_slice()) {
            Some(_) => Err(self.fault(0, PreKind::BadToken)),
            None => self.replaced(macros, define, body),
        }
    }

    /// The tokens of the text of a define, which has no lines.
    fn define_lexed(&self, define: &Define) -> Out<Vec<Token>, PreFault>
        ensures tokens { IfOk result (λ tokens. steps.IsLexed self.now.place.now true 0 define.now.text (Ok tokens.items)) }
        ensures open { IfFault result (λ fault. steps.IsLexed self.now.place.now true 0 define.now.text (Err fault)) }
    {
        self.lexed(true, 0, define.text.as_slice())
    }

    /// The macros with a define of the project.
    fn with_define(&self, macros: Macros, define: &Define) -> Out<Macros, PreFault>
        ensures { OnAnswer result (spec.HasDefine self.now.place.now macros define.now) }
    {
        let tokens = self.define_lexed(define)?;
        let body = words_of(self.alloc, tokens)?;
        self.with_body(macros, define, body)
    }

    /// The macros with the defines of the project.
    fn with_defines(&self, macros: Macros, defines: &[Define]) -> Out<Macros, PreFault>
        ensures { OnAnswer result (spec.HaveDefines self.now.place.now macros defines.now) }
    {
        let mut macros = macros;
        let mut rest = defines;
        while let Some((define, more)) = rest.split_first() {
            macros = self.with_define(macros, define)?;
            rest = more;
        }
        Ok(macros)
    }

    /// The macros at the begin of a unit.
    fn macros_of(&self, defines: &[Define]) -> Out<Macros, PreFault>
        ensures { OnAnswer result (spec.HaveDefines self.now.place.now spec.predefined defines.now) }
    {
        let macros = predefined(self.alloc)?;
        self.with_defines(macros, defines)
    }
}

/// What is known before a unit is read.
fn empty(alloc: Global, macros: Macros) -> State
    ensures { result ≡ spec.empty macros }
{
    State {
        tokens: Items::new(alloc),
        files: Items::new(alloc),
        includes: Items::new(alloc),
        macros,
        definitions: Items::new(alloc),
        counted: 0,
        once: Items::new(alloc),
    }
}

impl<F: Finder> Reader<'_, F> {
    /// The state behind a text, where these macros stand at its begin.
    fn read_unit(
        &self,
        alloc: Global,
        place: &Place,
        tool: bool,
        text: &[u8],
        macros: Macros,
    ) -> Out<State, PreFault>
        requires { place.now.depth ≡ 0 }
        ensures { OnAnswer result (files.ReadsFile (spec.most_tokens tool) (files.Enters (F.texts self.now.search.finder.now) self.now.search.folders.now self.now.search.heads.now built_in_headers (spec.most_tokens tool) (spec.most_includes tool)) place.now text.now (spec.empty macros)) }
    {
        let limit = most_tokens(tool);
        let more = most_includes(tool);
        let state = empty(alloc, macros);
        let file = File {
            alloc,
            place,
            limit,
        };
        self.read(more, file, text, state)
    }

    /// The unit of a text, where these macros stand at its begin.
    fn unit_of(
        &self,
        alloc: Global,
        place: &Place,
        tool: bool,
        text: &[u8],
        macros: Macros,
    ) -> Out<SourceUnit, PreFault>
        requires { place.now.depth ≡ 0 }
        ensures { OnAnswer result (spec.ReadsUnit (F.texts self.now.search.finder.now) self.now.search.folders.now self.now.search.heads.now built_in_headers tool place.now text.now macros) }
    {
        let state = self.read_unit(alloc, place, tool, text, macros)?;
        Ok(SourceUnit {
            tokens: state.tokens,
            files: state.files,
            includes: state.includes,
            macros: state.macros,
            definitions: state.definitions,
        })
    }

    /// The unit of a text, where the defines of the project stand at its begin.
    fn defined_unit(
        &self,
        alloc: Global,
        place: &Place,
        tool: bool,
        text: &[u8],
        defines: &[Define],
    ) -> Out<SourceUnit, PreFault>
        requires { place.now.depth ≡ 0 }
        ensures { OnAnswer result (spec.DefinesUnit (F.texts self.now.search.finder.now) self.now.search.folders.now self.now.search.heads.now built_in_headers tool place.now text.now defines.now) }
    {
        let file = File {
            alloc,
            place,
            limit: most_tokens(tool),
        };
        let macros = file.macros_of(defines)?;
        self.unit_of(alloc, place, tool, text, macros)
    }
}

/// The unit of the file at a path, with the files that it includes (C11 5.1.1.2p1.4, 6.10). Includes are
/// searched in the folder of the file that includes and then in the folders; then the heads of mocks and
/// the built-in headers are meant. `tool` says that the file is generated. The first refusal in the order
/// of reading is answered.
pub fn unit<F: Finder>(
    alloc: Global,
    finder: &F,
    folders: &[Text],
    heads: &Heads,
    defines: &[Define],
    path: &str,
    tool: bool,
) -> Out<SourceUnit, PreFault>
    requires { IsSome (get (F.texts finder.now) path.now) }
    ensures { OnAnswer result (spec.IsPreprocessedUnit (F.texts finder.now) folders.now heads.now built_in_headers defines.now path.now tool) }
{
    let Some(text) = finder.get(path) else {
        return Err(Fail::OutOfMemory);
    };
    let place = Place {
        path: Text::copy_of(alloc, path)?,
        depth: 0,
        built_in: false,
    };
    let search = Search {
        finder,
        folders,
        heads,
    };
    let reader = Reader { search };
    reader.defined_unit(alloc, &place, tool, text, defines)
}
