//! What is done to a byte.

ghost use Rattle.std.specs.Prelude.{◌≡◌};
ghost use Rattle.guest_memory.specs.lemmas.MemoriesTerms.{refuses};

/// What is done to a byte.
#[derive(Clone, Copy, Debug, PartialEq, Eq)]
pub(crate) enum Access {
    Read,
    Write,
}

impl Access {
    /// Whether it is refused in an area that may only be read, where the area is one.
    pub(crate) fn is_refused(self, read_only: bool) -> bool
        ensures { result ≡ refuses self read_only }
    {
        match self {
            Access::Read => false,
            Access::Write => read_only,
        }
    }
}
