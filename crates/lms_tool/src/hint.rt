//! What is said to who may type a command's input.

/// What the command of these arguments waits for where it reads its input from a terminal, and what
/// ends that. `None` where it reads none, or is made to be read by programs.
pub fn hint_for(arguments: &[String]) -> Option<&'static str> {
    match arguments.get(1)?.as_str() {
        "keygen" => Some("keygen waits for the seed: 64 hexadecimal digits, Enter and Ctrl-D"),
        "batch" => Some("batch waits for job lines; Ctrl-D at the beginning of a line ends them"),
        _ => None,
    }
}
