//! The law of the runner, and of the tables that link units.

ghost use Rattle.std.specs.Prelude.{◌≡◌, ◌≢◌, ℕ, List, [], ◌∷◌, ◌++◌, All, codes};
ghost use Rattle.ct_core.specs.declared.units.CoreUnit.{CoreUnit};
ghost use Rattle.ct_core.specs.declared.units.CoreFunction.{CoreFunction};
ghost use Rattle.ct_core.specs.declared.units.Definition.{Definition};
ghost use Rattle.ct_meaning.specs.Program.{plain_world, log_of};
ghost use Rattle.ct_meaning.specs.Written.{written_world, written_log};
ghost use Rattle.ct_phases.specs.Linked.{IsLinked, IsTestProject, AreNamedApart, table_in_order, runner_of};

/// By the meaning of C alone, the units of a test project with their runner have the log of the
/// written meaning, which runs each test in two phases.
pub fn runner_runs_the_phases()
    ensures { (units : List CoreUnit) (functions : List Definition) (budget : ℕ) (path : List ℕ) → IsTestProject units → IsLinked (units ++ runner_of path units ∷ []) functions → log_of (plain_world (units ++ runner_of path units ∷ []) functions budget) ≡ written_log (written_world units functions budget) }
{}

/// The table that lists the functions of the units in order, and then what is built in and no
/// unit defines, links them.
pub fn a_table_in_order_is_linked()
    ensures { (units : List CoreUnit) → AreNamedApart units → IsLinked units (table_in_order units) }
{}

/// A test file in which no two functions of external linkage have one name, and none is `main`,
/// stands so beside its runner.
pub fn a_runner_is_named_apart()
    ensures { (unit : CoreUnit) (path : List ℕ) → AreNamedApart (unit ∷ []) → All (λ (f : CoreFunction). f.name ≢ codes "main") unit.functions → AreNamedApart (unit ∷ runner_of path (unit ∷ []) ∷ []) }
{}
