//! The sizes of the fields that follow a line of `log`: a list of fixed room, which takes no memory.

ghost use Rattle.std.specs.Prelude.{◌≤◌, ◌≡◌, length};
ghost use Rattle.history_word.specs.Lines.{max_sizes};

/// At least as many as a line of 4,096 bytes can have: each takes ` path `, of 6 bytes, and a digit
/// or more.
const MAX_SIZES: usize = 586;

/// Sizes of fields, in order. They take no memory, so that the fields are read to their end even if
/// none is left.
#[derive(Drop)]
pub(crate) struct Sizes {
    items: [u64; MAX_SIZES],
    count: usize,
    ghost within: { count ≤ max_sizes },
    ghost sized: { length items ≡ max_sizes },
}

impl Sizes {
    ghost use Rattle.std.specs.Prelude.{◌<◌, [], ◌∷◌, ◌++◌};
    ghost use Rattle.history_word.specs.Sizes.{listed};

    /// Returns no sizes.
    pub(crate) fn new() -> Self
        ensures { listed result ≡ [] }
    {
        Sizes {
            items: [0; MAX_SIZES],
            count: 0,
        }
    }

    /// Adds one after the others.
    pub(crate) fn add(&mut self, size: u64)
        requires { length (listed self.old) < max_sizes }
        ensures { listed self.new ≡ listed self.old ++ size ∷ [] }
    {
        self.items[self.count] = size;
        self.count += 1;
    }

    /// Returns all of them.
    pub(crate) fn as_slice(&self) -> &[u64]
        ensures { result.now ≡ listed self.now }
    {
        &self.items[..self.count]
    }
}
