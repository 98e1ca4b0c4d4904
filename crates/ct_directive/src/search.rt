//! Where an include is found (C11 6.10.2).

ghost use Rattle.std.specs.Prelude.{◌≡◌, ◌∷◌, ◌++◌, [], IfOk, MatchOption, Some, None, if◌then◌else◌, nat_eq, length, drop};
ghost use Rattle.std.specs.List.{starts_with};
ghost use Rattle.std.specs.Option.{option_copied};
ghost use Rattle.std.specs.Bool.{MatchBool};
ghost use Rattle.ct_directive.specs.Headers.{built_in_headers};
ghost use Rattle.ct_directive.specs.Search as spec;

use crate::forms::Header;
use crate::headers::built_in;
use crate::heads::{Head, Heads};
use ct_base::{Bytes, Mem, Text};
use ct_outside::{Finder, join_path};
use std::alloc::Global;

/// What an include means: a text, at its path. A built-in header has no lines.
#[derive(Debug, Drop)]
pub struct Target {
    pub path: Text,
    pub text: Bytes,
    pub built_in: bool,
}

/// What has the texts of includes: the files of a project, the folders in which they are searched, and
/// the heads of mocks.
#[derive(Drop)]
pub struct Search<'a, F> {
    pub finder: &'a F,
    pub folders: &'a [Text],
    pub heads: &'a Heads,
}

/// Whether a name is `unity.h` or `cmock.h`.
fn is_own(name: &str) -> bool
    ensures { result ≡ spec.is_own name.now }
{
    name == "unity.h" || name == "cmock.h"
}

/// What stands behind a front, where a text begins with it.
#[tactic(auto, using(crate::proofs::Endings::behind_front))]
fn behind<'t>(front: &str, text: &'t str) -> Option<&'t str>
    ensures { option_copied result ≡ (if starts_with nat_eq text.now front.now then Some (drop (length front.now) text.now) else None) }
{
    text.strip_prefix(front)
}

/// The header that a mock head of this name is of, where such heads begin with the prefix.
fn mocked<'n>(prefix: &str, name: &'n str) -> Option<&'n str>
    ensures { option_copied result ≡ spec.mocked prefix.now name.now }
{
    let bytes = name.as_bytes();
    if is_own(name) || bytes.contains(&b'/') || !bytes.ends_with(b".h".as_slice()) {
        return None;
    }
    behind(prefix, name)
}

/// The text that a head has in a list.
fn text_named<'h>(heads: &'h [Head], name: &str) -> Option<&'h [u8]>
    ensures { option_copied result ≡ spec.text_named heads.now name.now }
{
    let mut rest = heads;
    while let Some((head, more)) = rest.split_first() {
        if head.name.as_str() == name {
            return Some(head.text.as_slice());
        }
        rest = more;
    }
    None
}

/// The text of a head in a scan, where its header is there or is not.
fn scan_text(alloc: Global, header: &str, there: bool) -> Mem<Bytes>
    ensures { IfOk result (λ text. text ≡ spec.scan_text header.now there) }
{
    let mut text = String::new(alloc);
    if there {
        text.push_str("#include \"")?;
        text.push_str(header)?;
        text.push_str("\"\n")?;
    }
    Ok(Bytes::from_slice(alloc, text.as_bytes())?)
}

/// The path of what a folder has under a name.
fn path_in(alloc: Global, folder: &str, name: &str) -> Mem<Text>
    ensures { IfOk result (λ path. path ≡ folder.now ++ 47 ∷ name.now) }
{
    let mut path = String::from_str(alloc, folder)?;
    path.push('/')?;
    path.push_str(name)?;
    Ok(Text::new(path))
}

/// The folder of a file, as the path that leads there.
fn folder_of(alloc: Global, path: &str) -> Mem<Text>
    ensures { IfOk result (λ folder. folder ≡ spec.folder_of path.now) }
{
    let mut folder = String::from_str(alloc, path)?;
    folder.push_str("/..")?;
    Ok(Text::new(folder))
}

impl<F: Finder> Search<'_, F> {
    /// The file that a folder has under a name.
    fn at(&self, alloc: Global, folder: &str, name: &str) -> Mem<Option<Target>>
        ensures { IfOk result (λ found. MatchOption found (spec.IsNotAt (F.texts self.now.finder.now) folder.now name.now)
            (λ target. spec.IsAt (F.texts self.now.finder.now) folder.now name.now target)) }
    {
        let Some(path) = join_path(alloc, folder, name)? else {
            return Ok(None);
        };
        let Some(text) = self.finder.get(path.as_str()) else {
            return Ok(None);
        };
        Ok(Some(Target {
            path: Text::new(path),
            text: Bytes::from_slice(alloc, text)?,
            built_in: false,
        }))
    }

    /// The file of a name in the first of the folders that has one.
    fn in_folders(&self, alloc: Global, name: &str) -> Mem<Option<Target>>
        ensures { IfOk result (λ found. spec.IsFound (F.texts self.now.finder.now) self.now.folders.now name.now found) }
    {
        let mut rest = self.folders;
        while let Some((folder, more)) = rest.split_first() {
            if let Some(target) = self.at(alloc, folder.as_str(), name)? {
                return Ok(Some(target));
            }
            rest = more;
        }
        Ok(None)
    }

    /// The file of a name, in the folder of the file at a path or else in the folders.
    fn beside(&self, alloc: Global, path: &str, name: &str) -> Mem<Option<Target>>
        ensures { IfOk result (λ found. spec.IsFound (F.texts self.now.finder.now) (spec.folder_of path.now ∷ self.now.folders.now) name.now found) }
    {
        let folder = folder_of(alloc, path)?;
        if let Some(target) = self.at(alloc, folder.as_str(), name)? {
            return Ok(Some(target));
        }
        self.in_folders(alloc, name)
    }

    /// Whether some folder has the header that is mocked.
    fn is_there(&self, alloc: Global, header: &str) -> Mem<bool>
        ensures { IfOk result (λ there. spec.IsThere (F.texts self.now.finder.now) self.now.folders.now self.now.heads.now.prefix header.now there) }
    {
        if is_own(header) || mocked(self.heads.prefix.as_str(), header).is_some() {
            return Ok(false);
        }
        Ok(self.in_folders(alloc, header)?.is_some())
    }

    /// What the name of a mock head means, which is that of a header.
    fn head(&self, alloc: Global, name: &str, header: &str) -> Mem<Option<Target>>
        ensures { IfOk result (λ target. spec.IsHeadTarget (F.texts self.now.finder.now) self.now.folders.now self.now.heads.now name.now header.now target) }
    {
        let text = if self.heads.scan {
            let there = self.is_there(alloc, header)?;
            scan_text(alloc, header, there)?
        } else {
            match text_named(self.heads.texts.as_slice(), name) {
                Some(text) => Bytes::from_slice(alloc, text)?,
                None => return Ok(None),
            }
        };
        Ok(Some(Target {
            path: path_in(alloc, self.heads.folder.as_str(), name)?,
            text,
            built_in: false,
        }))
    }

    /// What a name means that is searched.
    fn searched(&self, alloc: Global, path: &str, name: &str, quoted: bool) -> Mem<Option<Target>>
        ensures { IfOk result (λ target. spec.SearchMeans (F.texts self.now.finder.now) self.now.folders.now built_in_headers path.now (record { name = name.now; quoted = quoted }) target) }
    {
        let found = if quoted {
            self.beside(alloc, path, name)?
        } else {
            self.in_folders(alloc, name)?
        };
        match found {
            Some(target) => Ok(Some(target)),
            None => built_in(alloc, name),
        }
    }

    /// What a name means in the file at a path, if it means anything.
    fn named(&self, alloc: Global, path: &str, name: &str, quoted: bool) -> Mem<Option<Target>>
        ensures { IfOk result (λ target. spec.NameMeans (F.texts self.now.finder.now) self.now.folders.now self.now.heads.now built_in_headers path.now (record { name = name.now; quoted = quoted }) target) }
    {
        if is_own(name) {
            return built_in(alloc, name);
        }
        match mocked(self.heads.prefix.as_str(), name) {
            Some(mocked_header) => self.head(alloc, name, mocked_header),
            None => self.searched(alloc, path, name, quoted),
        }
    }

    /// What a header name means in the file at a path, if it means anything.
    #[tactic(auto, using(crate::proofs::Naming::naming_rules))]
    pub fn target(&self, alloc: Global, path: &str, header: &Header) -> Mem<Option<Target>>
        ensures { IfOk result (λ target. spec.Means (F.texts self.now.finder.now) self.now.folders.now self.now.heads.now built_in_headers path.now header.now target) }
    {
        match str::from_utf8(header.name.as_slice()) {
            Ok(name) => self.named(alloc, path, name, header.quoted),
            Err(_) => Ok(None),
        }
    }
}
