//! What can be wrong with a header or with stream parameters.

ghost use Rattle.std.specs.Prelude.{◌≡◌};
ghost use Rattle.hg_params.specs.declared.fault.ParamFault.TheVariants.{NoMemory};

use hg_types::NoMemory;
use thiserror::Error;

/// What is wrong with a header (1 to 4) or with stream parameters (5 to 8). Of several the one that is
/// decided first is reported: in a header the lower number, in stream parameters that of the first faulty
/// parameter.
#[derive(Clone, Copy, Debug, PartialEq, Eq, Error)]
pub enum ParamFault {
    /// 1: a field of the header passes the end of its bytes.
    #[error("a field passes the end")]
    Short = 1,
    /// 2: bytes are left over after the fields.
    #[error("bytes are left over")]
    Leftover,
    /// 3: the type is empty or holds another byte than `a-z A-Z 0-9 _ : -`.
    #[error("a bad part type")]
    BadType,
    /// 4: two parameters have one key.
    #[error("a key stands twice")]
    RepeatedKey,
    /// 5: the name of a stream parameter is empty.
    #[error("an empty name")]
    EmptyName,
    /// 6: the name of a stream parameter begins with no ASCII letter.
    #[error("a name that begins with no letter")]
    BadName,
    /// 7: a stream parameter that has to be understood, as its name begins in upper case, is not known.
    #[error("an unknown mandatory parameter")]
    UnknownMandatory,
    /// 8: the stream is compressed.
    #[error("the stream is compressed")]
    Compressed,
    /// 9: a growth was refused.
    #[error("out of memory")]
    NoMemory,
}

/// Whatever says that memory was refused.
impl<E: Into<NoMemory> + Drop> From<E> for ParamFault {
    ghost from_gives = { λ _ fault. fault ≡ NoMemory };

    fn from(_refused: E) -> Self {
        ParamFault::NoMemory
    }
}
