//! `ceedling` tests C projects that are laid out for Ceedling, CMock and Unity.
#![tactic(auto)]

ghost use Rattle.std.specs.Prelude.{◌≡◌};
ghost use Rattle.ct_cli.specs.Ending.{exit_code_of};

mod causes;
mod dir_tree;
mod standard_output;
#[cfg(test)]
mod tests;

use crate::causes::{Cause, cause_of};
use crate::dir_tree::DirTree;
use crate::standard_output::StandardOutput;
use ct_base::{Mem, OutOfMemory, Status};
use ct_top::run;
use std::env;
use std::process::ExitCode;
use std::rt::Env;

fn main(rt: HostRuntime) -> ExitCode {
    let status = match words(&rt) {
        Ok(words) => {
            let mut tree = DirTree::new(rt);
            let mut out = StandardOutput::new(rt);
            run(rt.alloc(), words.as_slice(), &mut tree, &mut out)
        }
        Err(OutOfMemory) => Status::OutOfMemory,
    };
    ExitCode::from(exit_code(status))
}

/// The words after the program's name. Where one of all words is not UTF-8, there are none.
fn words<R: Env + AllocGlobal>(rt: &R) -> Mem<Vec<String>> {
    match env::args(rt) {
        Ok(all) => Ok(all.skip(1).collect(rt.alloc())?),
        Err(error) if cause_of(&error) == Cause::OutOfMemory => Err(OutOfMemory),
        Err(_) => Ok(Vec::new(rt.alloc())),
    }
}

/// The exit status of the program.
fn exit_code(status: Status) -> u8
    ensures { result ≡ exit_code_of status }
{
    match status {
        Status::Passed => 0,
        Status::Failed => 1,
        Status::Refused => 2,
        Status::ReadFault => 3,
        Status::WriteFault => 4,
        Status::OutOfMemory => 5,
        Status::OutFault => 6,
        Status::Usage => 64,
    }
}
