//! Laws of printed syntax trees.
#![tactic(auto)]

ghost use Rattle.std.specs.Prelude.{◌≡◌, ℕ, List, [], Option, None};
ghost use Rattle.ct_base.specs.declared.lexical.Span.{Span};
ghost use Rattle.ct_base.specs.declared.lexical.Token.{Token};
ghost use Rattle.ct_base.specs.declared.limits.LimitKind.{LimitKind};
ghost use Rattle.ct_syntax.specs.Scopes.{Scope, no_names};
ghost use Rattle.ct_syntax.specs.Trees.{Item};
ghost use Rattle.ct_syntax.specs.Spelling.{spell_unit};
ghost use Rattle.ct_syntax.specs.Units.{IsShallow};
ghost use Rattle.ct_parser.specs.Parses.{Parsed, Refused};
ghost use Rattle.ct_print.specs.Printed.{IsPrintable, IsTextOf};
ghost use Rattle.ct_print.specs.Text.{text_of};
ghost use Rattle.ct_print_laws.specs.TextTokens.{AreOfPrinted};

/// Printed items are read as themselves, apart from places, in each scope: they spell the tokens of their text there, and no
/// others do.
pub fn one_printed_tree()
    ensures itself { (scope : Scope) (items : List Item) (file : ℕ) → IsPrintable scope items →
        IsTextOf scope items file (text_of (spell_unit items [])) }
    ensures alone { (scope : Scope) (items others : List Item) (file : ℕ) → IsPrintable scope items →
        IsTextOf scope others file (text_of (spell_unit items [])) → others ≡ items }
{}

/// What a reader may say of the tokens of a printed text: it gives no other tree (`itself`), it refuses none that
/// passes no limit of depth (`shallow`), and it refuses one by such a limit alone (`deep`).
pub fn printed_is_read()
    ensures itself { (items others : List Item) (tokens : List Token) → AreOfPrinted no_names items tokens → Parsed tokens others → others ≡ items }
    ensures shallow { (items : List Item) (tokens : List Token) (span : Span) (limit : Option LimitKind) → AreOfPrinted no_names items tokens →
        IsShallow items → Refused tokens span limit → ⊥ }
    ensures deep { (items : List Item) (tokens : List Token) (span : Span) → AreOfPrinted no_names items tokens →
        Refused tokens span None → ⊥ }
{}
