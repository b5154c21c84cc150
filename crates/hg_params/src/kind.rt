//! Which bytes are a part's type.

ghost use Rattle.std.specs.Prelude.{◌≡◌};
ghost use Rattle.std.specs.List.{list_all};
ghost use Rattle.hg_params.specs.Header.{is_kind as is_kind_of, is_kind_byte as is_kind_byte_of};

fn is_kind_byte(byte: u8) -> bool
    ensures { result ≡ is_kind_byte_of byte }
{
    matches!(byte, b'a'..=b'z' | b'A'..=b'Z' | b'0'..=b'9' | b'_' | b':' | b'-')
}

fn are_kind_bytes(kind: &[u8]) -> bool
    ensures { result ≡ list_all is_kind_byte_of kind.now }
{
    kind.iter().all(|byte| is_kind_byte(*byte))
}

/// Whether the bytes can be a part's type.
pub fn is_kind(kind: &[u8]) -> bool
    ensures { result ≡ is_kind_of kind.now }
{
    match kind {
        [] => false,
        [_, ..] => are_kind_bytes(kind),
    }
}
