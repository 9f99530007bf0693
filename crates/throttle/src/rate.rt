ghost use Rattle.std.specs.Prelude.{◌≤◌};

/// How many documents may be written in a second, after `requests_per_second` of Elasticsearch's reindex API.
#[derive(Clone, Copy, PartialEq, Eq)]
pub enum Rate {
    /// As many as there are.
    None,
    /// So many, over all slices together.
    PerSecond(Documents),
}

/// A number of documents, at least 1.
#[derive(Clone, Copy, PartialEq, Eq)]
pub struct Documents {
    pub count: u32,
    pub ghost some: { 1 ≤ count },
}

impl Rate {
    ghost use Rattle.std.specs.Prelude.{◌≡◌, Some};
    ghost use Rattle.throttle.specs.Waits.{per_second};

    /// The rate of so many documents a second, at least 1. It takes no memory.
    pub fn per_second(count: u32) -> Rate
        requires { 1 ≤ count }
        ensures { per_second result ≡ Some count }
    {
        Rate::PerSecond(Documents { count })
    }
}
