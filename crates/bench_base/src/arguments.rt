//! The arguments of a program that times.
use crate::fault::Fault;
use std::env;
use std::rt::Env;

/// The argument that the program was started with, `None` where there is none. More than one are a
/// `Usage`.
pub fn argument(rt: &(impl Env + AllocGlobal)) -> Result<Option<String>, Fault> {
    let Ok(arguments) = env::args(rt) else {
        return Err(Fault::Usage);
    };
    let mut arguments = arguments.skip(1);
    match (arguments.next(), arguments.next()) {
        (argument, None) => Ok(argument),
        _ => Err(Fault::Usage),
    }
}
