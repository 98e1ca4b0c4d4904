//! The top call.

ghost use Rattle.std.specs.Prelude.{◌≡◌, ◌⊎◌, ◌++◌, ◌≤◌, List, ℕ, Some, IfOk, IfErr, length};
ghost use Rattle.std.specs.FinMap.{get};
ghost use Rattle.ct_base.specs.Answers.{IfFault};
ghost use Rattle.ct_base.specs.declared.answers.Status.TheVariants.{Passed, Failed, Refused, ReadFault, WriteFault, OutFault, OutOfMemory, Usage};
ghost use Rattle.ct_find.specs.Limits.{most_file_bytes};
ghost use Rattle.ct_outside.specs.Counts.{Rose};
ghost use Rattle.ct_outside.specs.Files as outside;
ghost use Rattle.ct_outside.specs.Taken.{Took};
ghost use Rattle.ct_report.specs.Report.{report_of};
ghost use Rattle.ct_top.specs.Project.{HasOutcome, LogsOrRefusal, TestsMean, output_of, status_after};
ghost use Rattle.ct_top.specs.Stops.{AnswerFaultsAfter, Ends, FaultsAfter, IfRefused, ReadFaultsAfter, SinkFaultsAfter, WriteFaultsAfter};
ghost use Rattle.ct_top.specs.Words.{IsTestAll, usage_line};

use crate::names::check_names;
use crate::project::project_settings;
use crate::refusing::refusal_text;
use crate::searching::search;
use crate::stops::Stop;
use crate::translating::run_files;
use crate::words::is_test_all;
use crate::writing::finish;
use ct_base::{Mem, Out, Refusal, Status};
use ct_find::Files;
use ct_outside::{Sink, Tree};
use ct_report::{RunLog, footer, lines, status, summary};
use std::alloc::Global;

/// The line that is written where the words are no command.
const USAGE: &[u8] = b"usage: ceedling [--project PATH] [--budget N] COMMAND\n";

/// Runs the command that the words after the program's name are. The one command is `test:all`: it reads
/// the project, runs its tests and writes the report, or the line of the project's first refusal. Nothing
/// is written before all is known.
pub fn run<T: Tree, S: Sink>(alloc: Global, words: &[String], tree: &mut T, out: &mut S) -> Status
    // For every project: the sink took exactly the report, or the line of the first refusal, and the status is
    // exactly that of the project's meaning, where the tree tells its files, the sink tells what it took, no
    // count of faults rose and memory was there.
    ensures report { (files : outside.Files) (before : List ℕ) → IsTestAll words.now
        → T.files tree.old ≡ Some files → S.taken out.old ≡ Some before
        → (Rose (T.read_faults tree.old) (T.read_faults tree.new) → ⊥)
        → (Rose (T.write_faults tree.old) (T.write_faults tree.new) → ⊥)
        → (Rose (S.faults out.old) (S.faults out.new) → ⊥)
        → (result ≡ OutOfMemory → ⊥)
        → (outcome : LogsOrRefusal) × HasOutcome files outcome
        × (S.taken out.new ≡ Some (before ++ output_of outcome)) × (result ≡ status_after outcome) }

    // Whatever is told: the whole text of some outcome was written with its status, or a front of it where the
    // sink failed. Where the tree tells its files, the outcome is the project's.
    ensures outcome { IsTestAll words.now → (result ≡ ReadFault → ⊥) → (result ≡ OutOfMemory → ⊥)
        → (outcome : LogsOrRefusal) × Ends result (S.taken out.old) (S.taken out.new) (output_of outcome) (status_after outcome)
        × ((files : outside.Files) → T.files tree.old ≡ Some files → HasOutcome files outcome) }

    // The usage line comes exactly where the words are no command, and then nothing else does.
    ensures usage { (IsTestAll words.now → ⊥) → Ends result (S.taken out.old) (S.taken out.new) usage_line Usage }
    ensures command { IsTestAll words.now → result ≡ Usage → ⊥ }

    // A fault comes only where its count rose, and every other status leaves the count.
    ensures read_faults { ReadFaultsAfter result (T.read_faults tree.old) (T.read_faults tree.new) }
    ensures write_faults { WriteFaultsAfter result (T.write_faults tree.old) (T.write_faults tree.new) }
    ensures sink_faults { SinkFaultsAfter result (S.faults out.old) (S.faults out.new) }

    // Nothing is written after a read fault or for want of memory, and no file ever.
    ensures read_fault { result ≡ ReadFault → S.taken out.new ≡ S.taken out.old }
    ensures out_of_memory { result ≡ OutOfMemory → S.taken out.new ≡ S.taken out.old }
    ensures same_files { T.files tree.new ≡ T.files tree.old }
    ensures no_write { result ≡ WriteFault → ⊥ }
{
    if !is_test_all(words) {
        return finish(out, USAGE, Status::Usage);
    }
    match answer_to(alloc, tree) {
        Ok(answer) => finish(out, answer.text.as_slice(), answer.status),
        Err(status) => status,
    }
}

/// What a run writes, and the status with which it then ends.
#[derive(Debug, Drop)]
struct Answer {
    text: Vec<u8>,
    status: Status,
}

/// The answer to `test:all`, or the status of a run that ends before anything is written.
fn answer_to<T: Tree>(alloc: Global, tree: &mut T) -> Result<Answer, Status>
    ensures ok { IfOk result (λ answer. (outcome : LogsOrRefusal) × (answer.text.items ≡ output_of outcome) × (answer.status ≡ status_after outcome)
        × ((files : outside.Files) → T.files tree.old ≡ Some files → HasOutcome files outcome)) }
    ensures err { IfErr result (λ status. (status ≡ ReadFault) ⊎ (status ≡ OutOfMemory)) }
    ensures faults { AnswerFaultsAfter result (T.read_faults tree.old) (T.read_faults tree.new) }
    ensures write_faults { T.write_faults tree.new ≡ T.write_faults tree.old }
    ensures same_files { T.files tree.new ≡ T.files tree.old }
{
    match logs_of_project(alloc, tree) {
        Ok(logs) => {
            let Ok(text) = report(alloc, logs.as_slice()) else {
                return Err(Status::OutOfMemory);
            };
            Ok(Answer {
                text,
                status: status(logs.as_slice()),
            })
        }
        Err(Stop::Refused(refusal)) => {
            let Ok(text) = refusal_text(alloc, &refusal) else {
                return Err(Status::OutOfMemory);
            };
            Ok(Answer {
                text,
                status: Status::Refused,
            })
        }
        Err(Stop::ReadFault) => Err(Status::ReadFault),
        Err(Stop::OutOfMemory) => Err(Status::OutOfMemory),
    }
}

/// The logs of the tests of a project, or why there are none.
fn logs_of_project<T: Tree>(alloc: Global, tree: &mut T) -> Result<Vec<RunLog>, Stop>
    ensures ok { (files : outside.Files) → T.files tree.old ≡ Some files → IfOk result (λ logs. HasOutcome files (Ok logs.items)) }
    ensures refused { (files : outside.Files) → T.files tree.old ≡ Some files → IfRefused result (λ refusal. HasOutcome files (Err refusal)) }
    ensures same_files { T.files tree.new ≡ T.files tree.old }
    ensures faults { FaultsAfter result (T.read_faults tree.old) (T.read_faults tree.new) }
    ensures write_faults { T.write_faults tree.new ≡ T.write_faults tree.old }
{
    let settings = project_settings(alloc, tree)?;
    let files = search(alloc, tree, &settings)?;
    Ok(logs_of_tests(alloc, &files)?)
}

/// The logs of the test files that were found.
fn logs_of_tests(alloc: Global, files: &Files) -> Out<Vec<RunLog>, Refusal>
    requires { (path text : List ℕ) → get files.now.texts path ≡ Some text → length text ≤ most_file_bytes }
    ensures ok { IfOk result (λ logs. TestsMean files.now.texts files.now.tests (Ok logs.items)) }
    ensures refused { IfFault result (λ refusal. TestsMean files.now.texts files.now.tests (Err refusal)) }
{
    check_names(alloc, files.tests.as_slice())?;
    run_files(alloc, files, files.tests.as_slice())
}

/// The whole report of the logs.
fn report(alloc: Global, logs: &[RunLog]) -> Mem<Vec<u8>>
    ensures { IfOk result (λ text. text.items ≡ report_of logs.now) }
{
    let mut text = Vec::new(alloc);
    for log in logs {
        lines(alloc, log, &mut text)?;
        footer(alloc, log, &mut text)?;
    }
    summary(alloc, logs, &mut text)?;
    Ok(text)
}
