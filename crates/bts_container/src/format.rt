// The formats of a repository.
ghost use Rattle.std.specs.Prelude.{◌≡◌};
ghost use Rattle.bts_container.specs.Formats.{number_of, size_limit};

/// What a repository and its processes are kept in: the second format takes longer containers.
#[derive(Clone, Copy, Debug, PartialEq, Eq)]
pub enum Format {
    One,
    Two,
}

impl Format {
    /// Its number, 1 or 2.
    pub fn number(self) -> u8
        ensures { result ≡ number_of self }
    {
        match self {
            Format::One => 1,
            Format::Two => 2,
        }
    }

    /// The most bytes of a container.
    pub fn size_limit(self) -> usize
        ensures { result ≡ size_limit self }
    {
        match self {
            Format::One => 32_768,
            Format::Two => 1_048_576,
        }
    }
}
