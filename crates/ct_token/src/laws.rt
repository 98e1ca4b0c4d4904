//! What holds of every text: it has tokens or leaves a comment open, and it has no others.

ghost use Rattle.std.specs.Prelude.{◌≡◌, ℕ, List, ◌⊎◌};
ghost use Rattle.ct_base.specs.declared.lexical.Token.{Token};
ghost use Rattle.ct_token.specs.Constants.{Decodes};
ghost use Rattle.ct_token.specs.Lexing.{IsTokenization, LeavesOpen};

/// A text spells one list of bytes at most, so `characters` gives that one.
pub fn one_decoding()
    ensures { (text a b : List ℕ) → Decodes text a → Decodes text b → a ≡ b }
{}

/// Each text spells a list of bytes, or none.
pub fn each_decoding()
    ensures { (text : List ℕ) → ((bytes : List ℕ) × Decodes text bytes) ⊎ ((bytes : List ℕ) → Decodes text bytes → ⊥) }
{}

/// A text has one list of tokens: no other list is its tokenization, so `tokens` gives that one.
pub fn one_tokenization()
    ensures { (file : ℕ) (text : List ℕ) (a b : List Token) →
        IsTokenization file text a → IsTokenization file text b → a ≡ b }
{}

/// A text leaves a comment open on one line at most, and none where it has a list of tokens.
pub fn one_open_comment()
    ensures one { (text : List ℕ) (a b : ℕ) → LeavesOpen text a → LeavesOpen text b → a ≡ b }
    ensures apart { (file : ℕ) (text : List ℕ) (tokens : List Token) (line : ℕ) →
        IsTokenization file text tokens → LeavesOpen text line → ⊥ }
{}

/// Each text has a list of tokens, or leaves a comment open.
pub fn each_text()
    ensures { (file : ℕ) (text : List ℕ) →
        ((tokens : List Token) × IsTokenization file text tokens) ⊎ ((line : ℕ) × LeavesOpen text line) }
{}
