//! What holds of all headers and all stream parameters. The functions do nothing: what they ensure is a
//! theorem.

ghost use Rattle.std.specs.Prelude.{ℕ, ◌<◌, List, All};
ghost use Rattle.hg_types.specs.declared.part.Param.{Param as AnyParam};
ghost use Rattle.hg_params.specs.declared.head.Head.{Head as AnyHead};
ghost use Rattle.hg_params.specs.Header.{IsHeader};
ghost use Rattle.hg_params.specs.Laws.{HasOneReading, HasSomeReading, IsReadBack, IsAllThatIsWritten};
ghost use Rattle.hg_params.specs.Laws.{IsSmall, HasOneParamsReading, HasSomeParamsReading};

use std::alloc::Allocator;

/// A header is read in one way: its bytes say at most one thing or have at most one fault, and not both.
pub fn headers_have_one_reading<A: Allocator>()
    ensures { (bytes : List ℕ) → HasOneReading A bytes }
{}

/// Any bytes are a header or have a fault. With [`headers_have_one_reading`], they are one header or have one
/// fault.
pub fn every_header_is_read<A: Allocator>()
    ensures { (bytes : List ℕ) → All (λ byte. byte < 256) bytes → HasSomeReading A bytes }
{}

/// What is written of a part that can be written is read back as the same part with its type cased.
pub fn what_is_written_is_read_back<A: Allocator>()
    ensures { (kind : List ℕ) (id : ℕ) (params : List (AnyParam A)) → IsReadBack kind id params }
{}

/// A part can be written only where it, with its type cased, is what some header says.
pub fn only_what_headers_say_is_written<A: Allocator>()
    ensures { (kind : List ℕ) (id : ℕ) (params : List (AnyParam A)) → IsAllThatIsWritten kind id params }
{}

/// No header is empty, and none has more than 261,382 bytes.
pub fn headers_are_small<A: Allocator>()
    ensures { (bytes : List ℕ) (head : AnyHead A) → IsHeader bytes head → IsSmall bytes }
{}

/// Stream parameters are read in one way: their bytes give at most one list or have at most one fault, and
/// not both.
pub fn stream_params_have_one_reading<A: Allocator>()
    ensures { (bytes : List ℕ) → HasOneParamsReading A bytes }
{}

/// Any bytes give a list of stream parameters or have a fault. With [`stream_params_have_one_reading`], it is
/// one list or one fault.
pub fn every_params_text_is_read<A: Allocator>()
    ensures { (bytes : List ℕ) → HasSomeParamsReading A bytes }
{}
