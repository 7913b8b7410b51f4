//! The reservations of a book, one after another.
ghost use Rattle.std.specs.Prelude.{◌≡◌, ◌<◌, ◌^◌};
ghost use Rattle.lms_book.specs.History.{counter_of, leases, len_of, burnt_len, has_range, range_of};

/// One reservation of `len` indices.
#[derive(Clone, Copy, Debug, PartialEq, Eq)]
pub enum Entry {
    /// Given as a lease.
    Given { len: u64 },
    /// Given to nobody by this book, since it is not certain that their image was stored. A later
    /// opening may give them, where the store kept an older image.
    Burnt { len: u64 },
}

impl Entry {
    /// How many indices it reserved.
    pub(crate) fn len(&self) -> u64
        ensures { result ≡ len_of self.now }
    {
        match *self {
            Entry::Given { len } | Entry::Burnt { len } => len,
        }
    }

    /// How many indices it burnt: its length where it is `Burnt`, and else 0.
    pub(crate) fn burnt(&self) -> u64
        ensures { result ≡ burnt_len self.now }
    {
        match *self {
            Entry::Given { .. } => 0,
            Entry::Burnt { len } => len,
        }
    }
}

/// Whether one of the leases has just the `len` indices from `start` on, where the reservations
/// begin at `base`.
pub(crate) fn is_given(history: &[Entry], base: u64, start: u64, len: u64) -> bool
    requires { counter_of base history.now < 2 ^ 64 }
    ensures { result ≡ has_range (range_of start len) (leases base history.now) }
{
    let mut at = base;
    for entry in history {
        match *entry {
            Entry::Given { len: given } => {
                if at == start && given == len {
                    return true;
                }
                at += given;
            }
            Entry::Burnt { len: burnt } => at += burnt,
        }
    }
    false
}
