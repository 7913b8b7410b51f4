//! Which calls of a store in memory are to fail.
ghost use Rattle.std.specs.Prelude.{◌≡◌, [], ◌∷◌, ◌++◌, drop, get_or};

/// What a store holds after a write that failed.
#[derive(Clone, Copy, Debug, PartialEq, Eq)]
pub enum Left {
    /// The bytes before the write.
    Old,
    /// The bytes that were to be written.
    New,
}

/// How a write is to fail.
#[derive(Clone, Copy)]
pub(crate) struct Plan {
    pub(crate) left: Left,
    /// Whether every call after it fails too.
    pub(crate) stops: bool,
}

/// How many calls plans are kept for.
pub(crate) const PLANS: usize = 8;

/// Takes what is planned for the next call. The other plans move one place forward, and `last`
/// comes after them.
pub(crate) fn take_first<T: Copy>(plans: &mut [T; PLANS], last: T) -> T
    ensures first { result ≡ get_or plans.old 0 last }
    ensures others { plans.new ≡ drop 1 plans.old ++ last ∷ [] }
{
    let [first, a, b, c, d, e, f, g] = *plans;
    let others = [a, b, c, d, e, f, g, last];
    *plans = others;
    first
}
