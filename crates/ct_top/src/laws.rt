//! Laws of the meaning of a project.

ghost use Rattle.std.specs.Prelude.{◌≡◌};
ghost use Rattle.ct_outside.specs.Files.{Files};
ghost use Rattle.ct_top.specs.Project.{HasOutcome, LogsOrRefusal};

use ct_find::one_finding;
use ct_form::one_form;
use ct_token::{one_open_comment, one_tokenization};
use ct_yaml::one_node;

/// A project has at most one outcome: the one that a clause of `run` names is the only one.
pub fn one_outcome()
    ensures { (files : Files) (a b : LogsOrRefusal) → HasOutcome files a → HasOutcome files b → a ≡ b }
{
    one_finding();
    one_form();
    one_tokenization();
    one_open_comment();
    one_node();
}
