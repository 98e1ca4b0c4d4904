//! The words of the command line.

ghost use Rattle.std.specs.Prelude.{◌≡◌, ◌↔◌, IsTrue, codes};
ghost use Rattle.ct_top.specs.Words.{IsTestAll};

/// Whether the words are the one word `test:all`.
pub fn is_test_all(words: &[String]) -> bool
    ensures { IsTrue result ↔ IsTestAll words.now }
{
    match words {
        [word] => word.as_str() == "test:all",
        _ => false,
    }
}
