//! The sums of a history.
ghost use Rattle.std.specs.Prelude.{◌≡◌, ◌<◌, ◌^◌};
ghost use Rattle.lms_book.specs.History.{given_of, burnt_of};

use lms_book::Entry;

/// How many indices the reservations gave, and how many they burnt.
pub(crate) fn sums_in(history: &[Entry]) -> (u64, u64)
    requires given { given_of history.now < 2 ^ 64 }
    requires burnt { burnt_of history.now < 2 ^ 64 }
    ensures given { result.0 ≡ given_of history.now }
    ensures burnt { result.1 ≡ burnt_of history.now }
{
    let mut given = 0;
    let mut burnt = 0;
    for entry in history {
        match *entry {
            Entry::Given { len } => given += len,
            Entry::Burnt { len } => burnt += len,
        }
    }
    (given, burnt)
}
