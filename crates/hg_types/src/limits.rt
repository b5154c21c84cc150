//! How much a push may bring, and how a server is set up.

ghost use Rattle.std.specs.Prelude.{◌≡◌, ◌↔◌, IsTrue};
ghost use Rattle.hg_types.specs.Limits.{IsAllowed, IsWithin, standard_limits};

/// How much a server takes. Each field is a greatest allowed value.
#[derive(Clone, Copy, Debug, PartialEq, Eq)]
pub struct Limits {
    /// Bytes of a bundle's stream parameters.
    pub params: u32,
    /// Bytes of one part's payload.
    pub payload: u32,
    /// Bytes of one bundle.
    pub stream: u32,
    /// Parts of one push.
    pub parts: u32,
    /// Bytes of one changeset's text.
    pub text: u32,
    /// Pushes that have a row in a book at once.
    pub rows: u32,
    /// Changesets of a changelog.
    pub revisions: u32,
}

impl Limits {
    ghost use Rattle.hg_types.specs.Limits.{IsAllowed, IsWithin, standard_limits};

    /// The standard values, which are also the greatest that are allowed.
    pub fn standard() -> Limits
        ensures { result ≡ standard_limits }
    {
        Limits {
            params: 65_536,
            payload: 67_108_864,
            stream: 268_435_456,
            parts: 10_000,
            text: 16_777_216,
            rows: 1_024,
            revisions: 2_147_483_647,
        }
    }

    /// Whether each field is at least 1 and at most the standard value.
    pub fn is_allowed(&self) -> bool
        ensures { IsTrue result ↔ IsAllowed self.now }
    {
        let most = Limits::standard();
        is_within(self.params, most.params)
            && is_within(self.payload, most.payload)
            && is_within(self.stream, most.stream)
            && is_within(self.parts, most.parts)
            && is_within(self.text, most.text)
            && is_within(self.rows, most.rows)
            && is_within(self.revisions, most.revisions)
    }
}

fn is_within(value: u32, most: u32) -> bool
    ensures { IsTrue result ↔ IsWithin value most }
{
    1 <= value && value <= most
}

/// How a server is set up.
#[derive(Clone, Copy, Debug, PartialEq, Eq)]
pub struct Settings {
    /// Whether what is pushed becomes public.
    pub publishing: bool,
    pub limits: Limits,
    /// The number of the first push.
    pub first_push: u32,
}
