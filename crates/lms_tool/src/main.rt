//! The command-line program.
#![tactic(auto)]

mod hint;
mod streams;

use crate::hint::hint_for;
use crate::streams::hold_closed_streams;
use lms_cli::run::{report, run};
use lms_commands::{Fault, Resources};
use lms_disk::DiskWorld;
use lms_meter::{Asking, Meter, Wiping};
use lms_world::Printer;
use std::env;
use std::io::{ErrorKind, IsTerminal};
use std::process::ExitCode;
use std::rt::Env;

fn main(rt: HostRuntime) -> ExitCode {
    let mut errors = rt.stderr();
    let held = hold_closed_streams(&rt);
    let meter_output = rt.stderr();
    let is_shown = meter_output.is_terminal();
    let meter = Meter::new(&rt, &meter_output, is_shown);
    let arguments = if held.is_ok() {
        arguments(&rt)
    } else {
        Err(Fault::ReadInput)
    };
    let status = match arguments {
        Ok(arguments) => {
            let is_typed = is_shown && rt.stdin().is_terminal();
            let hint = if is_typed { hint_for(&arguments) } else { None };
            run(
                &Resources {
                    rt: &rt,
                    alloc: rt.alloc(),
                    progress: &meter,
                    looked_on: is_shown,
                },
                arguments.as_slice(),
                &mut DiskWorld::new(rt.alloc(), &rt),
                &mut Wiping::new(&meter, Asking::new(&meter_output, hint, rt.reader())),
                &mut Printer::new(Wiping::new(&meter, rt.stdout())),
                &mut Wiping::new(&meter, rt.stderr()),
            )
        }
        Err(fault) => report(fault, &mut errors),
    };
    drop(held);
    ExitCode::from(status.code())
}

/// The program's arguments. `ReadInput` where one is no UTF-8 text, `OutOfMemory` where memory ran
/// out.
fn arguments<R: Env + AllocGlobal>(rt: &R) -> Result<Vec<String>, Fault> {
    match env::args(rt) {
        Ok(arguments) => arguments
            .collect(rt.alloc())
            .map_err(|_| Fault::OutOfMemory),
        Err(error) if error.kind() == ErrorKind::OutOfMemory => Err(Fault::OutOfMemory),
        Err(_) => Err(Fault::ReadInput),
    }
}
