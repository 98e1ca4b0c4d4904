//! Rows of the table of settings: the value of a key of a section, or its default.
#![tactic(auto, unfolding(crate::specs::Rows::row))]

ghost use Rattle.std.specs.Prelude.{◌≡◌, [], map};
ghost use Rattle.std.specs.Result.{result_map_both};
ghost use Rattle.ct_base.specs.Answers.{OnAnswer};
ghost use Rattle.ct_settings.specs.Names as names;
ghost use Rattle.ct_settings.specs.Paths as paths;
ghost use Rattle.ct_settings.specs.Places.{place_of};
ghost use Rattle.ct_settings.specs.Rows.{row};
ghost use Rattle.ct_settings.specs.Values as values;

use crate::record::{Define, Pattern, SettingFault, WhenPtr};
use crate::sections::Section;
use crate::values;
use ct_base::{Items, Out, Text};
use std::alloc::Global;

impl Section<'_> {
    /// The path of a key.
    pub fn path(&self, alloc: Global, key: &str, default: &str) -> Out<Text, SettingFault>
        ensures { OnAnswer result (λ answer. row (place_of self.now) key.now (values.one paths.path_of) default.now ≡ answer) }
    {
        match self.value(key) {
            Some(node) => self.named(alloc, key, values::one_path(alloc, node)),
            None => Ok(Text::copy_of(alloc, default)?),
        }
    }

    /// The prefix of test files.
    pub fn test_prefix(&self, alloc: Global, key: &str, default: &str) -> Out<Text, SettingFault>
        ensures { OnAnswer result (λ answer. row (place_of self.now) key.now (values.one names.prefix_of) default.now ≡ answer) }
    {
        match self.value(key) {
            Some(node) => self.named(alloc, key, values::test_prefix(alloc, node)),
            None => Ok(Text::copy_of(alloc, default)?),
        }
    }

    /// The prefix of mocks.
    pub fn mock_prefix(&self, alloc: Global, key: &str, default: &str) -> Out<Text, SettingFault>
        ensures { OnAnswer result (λ answer. row (place_of self.now) key.now (values.one names.mock_prefix_of) default.now ≡ answer) }
    {
        match self.value(key) {
            Some(node) => self.named(alloc, key, values::mock_prefix(alloc, node)),
            None => Ok(Text::copy_of(alloc, default)?),
        }
    }

    /// The patterns of a key.
    pub fn patterns(
        &self,
        alloc: Global,
        key: &str,
        default: Items<Pattern>,
    ) -> Out<Items<Pattern>, SettingFault>
        ensures { OnAnswer result (λ answer. row (place_of self.now) key.now (values.many paths.pattern_of) default ≡ answer) }
    {
        match self.value(key) {
            Some(node) => self.named(alloc, key, values::patterns(alloc, node)),
            None => Ok(default),
        }
    }

    /// The defines of a key.
    pub fn defines(
        &self,
        alloc: Global,
        key: &str,
        default: Items<Define>,
    ) -> Out<Items<Define>, SettingFault>
        ensures { OnAnswer result (λ answer. row (place_of self.now) key.now (values.many names.define_of) default ≡ answer) }
    {
        match self.value(key) {
            Some(node) => self.named(alloc, key, values::defines(alloc, node)),
            None => Ok(default),
        }
    }

    /// The words of a key, none by default.
    pub fn words(&self, alloc: Global, key: &str) -> Out<Vec<&[u8]>, SettingFault>
        ensures { OnAnswer result (λ answer. row (place_of self.now) key.now values.words []
            ≡ result_map_both (λ words. map (λ word. word.now) words.items) (λ fault. fault) answer) }
    {
        match self.value(key) {
            Some(node) => self.named(alloc, key, values::words(alloc, node)),
            None => Ok(Vec::new(alloc)),
        }
    }

    /// What is compared of pointers.
    pub fn pointers(&self, alloc: Global, key: &str, default: WhenPtr) -> Out<WhenPtr, SettingFault>
        ensures { OnAnswer result (λ answer. row (place_of self.now) key.now (values.one names.when_ptr_of) default ≡ answer) }
    {
        match self.value(key) {
            Some(node) => self.named(alloc, key, values::pointers(node)),
            None => Ok(default),
        }
    }

    /// The truth value of a key.
    pub fn truth(&self, alloc: Global, key: &str, default: bool) -> Out<bool, SettingFault>
        ensures { OnAnswer result (λ answer. row (place_of self.now) key.now values.truth default ≡ answer) }
    {
        match self.value(key) {
            Some(node) => self.named(alloc, key, values::truth_value(node)),
            None => Ok(default),
        }
    }

    /// The truth value of a key that may not be true yet.
    pub fn untruth(&self, alloc: Global, key: &str, default: bool) -> Out<bool, SettingFault>
        ensures { OnAnswer result (λ answer. row (place_of self.now) key.now values.untruth default ≡ answer) }
    {
        match self.value(key) {
            Some(node) => self.named(alloc, key, values::untruth_value(node)),
            None => Ok(default),
        }
    }
}
