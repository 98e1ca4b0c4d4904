//! The search for the files of a project.

ghost use Rattle.std.specs.Prelude.{◌≡◌, ◌≤◌, ℕ, List, IfOk, Some, Ok, Err, length};
ghost use Rattle.std.specs.FinMap.{get};
ghost use Rattle.ct_find.specs.Limits.{most_file_bytes};
ghost use Rattle.ct_find.specs.Results.{Finds};
ghost use Rattle.ct_outside.specs.Files as outside;
ghost use Rattle.ct_top.specs.Project.{LogsOrRefusal, SearchMeans};
ghost use Rattle.ct_top.specs.Stops.{FaultsAfter, IfRefused};

use crate::refusing::limit_passed;
use crate::stops::Stop;
use ct_base::Fail;
use ct_find::{Files, FindFault, find};
use ct_outside::Tree;
use ct_settings::ProjectSettings;
use std::alloc::Global;

/// The files of a project.
pub fn search<T: Tree>(
    alloc: Global,
    tree: &mut T,
    settings: &ProjectSettings,
) -> Result<Files, Stop>
    ensures told { (files : outside.Files) → T.files tree.old ≡ Some files → IfOk result (λ found. Finds settings.now files (Ok found)) }
    ensures small { IfOk result (λ found. (path text : List ℕ) → get found.texts path ≡ Some text → length text ≤ most_file_bytes) }
    ensures refused { (files : outside.Files) → T.files tree.old ≡ Some files → IfRefused result (λ refusal. SearchMeans files settings.now (Err refusal)) }
    ensures same_files { T.files tree.new ≡ T.files tree.old }
    ensures faults { FaultsAfter result (T.read_faults tree.old) (T.read_faults tree.new) }
    ensures write_faults { T.write_faults tree.new ≡ T.write_faults tree.old }
{
    match find(alloc, tree, settings) {
        Ok(found) => Ok(found),
        Err(Fail::OutOfMemory) => Err(Stop::OutOfMemory),
        Err(Fail::Fault(FindFault::Read)) => Err(Stop::ReadFault),
        Err(Fail::Fault(FindFault::Limit { kind, path })) => {
            Err(Stop::Refused(limit_passed(alloc, kind, path.as_str())?))
        }
    }
}
