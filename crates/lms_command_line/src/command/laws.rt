//! What the program's usage promises, over clap's definition of it.

ghost use Rattle.lms_command_line.specs.UsageArguments.{UsagesAreTaken};

/// For each subcommand of the table, `NAME --OPTION=TEXT ..` with its options in turn is taken for
/// any texts, as that subcommand with these texts.
pub fn usages_are_taken()
    ensures { UsagesAreTaken }
{}
