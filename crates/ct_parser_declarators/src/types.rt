//! Which specifiers form a type (C11 6.7.2p2).

ghost use Rattle.std.specs.Prelude.{◌≡◌, ◌==◌};
ghost use Rattle.ct_parser_parts.specs.Parts.{parts_built};
ghost use Rattle.ct_parser_parts.specs.Views.{specs_part};
ghost use Rattle.ct_syntax.specs.TypeWords.{type_number as spec_number, count_word as spec_count, same_words as spec_same, type_lists};
ghost use Rattle.std.specs.List.{list_all, list_any};

use ct_parser_parts::SpecsPart;
use ct_syntax::SpecWord;

const TYPE_WORDS: [SpecWord; 8] = [
    SpecWord::Void,
    SpecWord::Bool,
    SpecWord::Char,
    SpecWord::Short,
    SpecWord::Int,
    SpecWord::Long,
    SpecWord::Signed,
    SpecWord::Unsigned,
];

const TYPE_LISTS: [&[SpecWord]; 28] = [
    &[SpecWord::Void],
    &[SpecWord::Char],
    &[SpecWord::Signed, SpecWord::Char],
    &[SpecWord::Unsigned, SpecWord::Char],
    &[SpecWord::Short],
    &[SpecWord::Signed, SpecWord::Short],
    &[SpecWord::Short, SpecWord::Int],
    &[SpecWord::Signed, SpecWord::Short, SpecWord::Int],
    &[SpecWord::Unsigned, SpecWord::Short],
    &[SpecWord::Unsigned, SpecWord::Short, SpecWord::Int],
    &[SpecWord::Int],
    &[SpecWord::Signed],
    &[SpecWord::Signed, SpecWord::Int],
    &[SpecWord::Unsigned],
    &[SpecWord::Unsigned, SpecWord::Int],
    &[SpecWord::Long],
    &[SpecWord::Signed, SpecWord::Long],
    &[SpecWord::Long, SpecWord::Int],
    &[SpecWord::Signed, SpecWord::Long, SpecWord::Int],
    &[SpecWord::Unsigned, SpecWord::Long],
    &[SpecWord::Unsigned, SpecWord::Long, SpecWord::Int],
    &[SpecWord::Long, SpecWord::Long],
    &[SpecWord::Signed, SpecWord::Long, SpecWord::Long],
    &[SpecWord::Long, SpecWord::Long, SpecWord::Int],
    &[
        SpecWord::Signed,
        SpecWord::Long,
        SpecWord::Long,
        SpecWord::Int,
    ],
    &[SpecWord::Unsigned, SpecWord::Long, SpecWord::Long],
    &[
        SpecWord::Unsigned,
        SpecWord::Long,
        SpecWord::Long,
        SpecWord::Int,
    ],
    &[SpecWord::Bool],
];

/// A number of each word that is a part of a type, and 0 for others.
fn type_number(word: SpecWord) -> u8
    ensures { result ≡ spec_number word }
{
    match word {
        SpecWord::Void => 1,
        SpecWord::Bool => 2,
        SpecWord::Char => 3,
        SpecWord::Short => 4,
        SpecWord::Int => 5,
        SpecWord::Long => 6,
        SpecWord::Signed => 7,
        SpecWord::Unsigned => 8,
        _ => 0,
    }
}

/// How often a word stands among words.
fn count_word(word: SpecWord, words: &[SpecWord]) -> usize
    ensures { result ≡ spec_count word words.now }
{
    words
        .iter()
        .filter(|other| type_number(**other) == type_number(word))
        .count()
}

/// Whether each of some words stands as often among words as among others.
fn same_counts(kinds: &[SpecWord], words: &[SpecWord], others: &[SpecWord]) -> bool
    ensures { result ≡ list_all (λ w. spec_count w words.now == spec_count w others.now) kinds.now }
{
    kinds.iter().all(|word| count_word(*word, words) == count_word(*word, others))
}

/// Whether the words of a type are the same, in any order.
fn same_words(words: &[SpecWord], others: &[SpecWord]) -> bool
    ensures { result ≡ spec_same words.now others.now }
{
    same_counts(&TYPE_WORDS, words, others)
}

/// Whether words are one of some lists, in any order.
fn is_among(words: &[SpecWord], lists: &[&[SpecWord]]) -> bool
    ensures { result ≡ list_any (λ list. spec_same words.now list.now) lists.now }
{
    lists.iter().any(|list| same_words(words, *list))
}

/// Whether the words of a type are one of the lists of C11 6.7.2p2.
fn is_listed(words: &[SpecWord]) -> bool
    ensures { result ≡ list_any (spec_same words.now) type_lists }
{
    is_among(words, &TYPE_LISTS)
}

/// Whether a part of a type stands among specifiers.
pub fn has_type(specs: &SpecsPart) -> bool
    ensures { result ≡ parts_built.has_type (specs_part specs.now) }
{
    specs.wholes != 0 || !same_words(specs.words.as_slice(), &[])
}

/// Whether specifiers form a type.
pub fn forms_type(specs: &SpecsPart) -> bool
    ensures { result ≡ parts_built.forms_type (specs_part specs.now) }
{
    match specs.wholes {
        0 => is_listed(specs.words.as_slice()),
        1 => same_words(specs.words.as_slice(), &[]),
        _ => false,
    }
}
