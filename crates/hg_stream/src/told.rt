//! The stream's fault for that of a block, of parameters or of a chunk.

ghost use Rattle.std.specs.Prelude.{◌≡◌};
ghost use Rattle.hg_stream.specs.code.Told.{of_params, of_header, of_chunk, of_block};

use crate::block::BlockFault;
use crate::fault::StreamFault;
use hg_chunks::ChunkFault;
use hg_params::ParamFault;

/// What a fault of stream parameters is reported as. Out of memory is the stream's own fault, here and below.
pub fn params_fault(fault: ParamFault) -> StreamFault
    ensures { result ≡ of_params fault }
{
    match fault {
        ParamFault::NoMemory => StreamFault::NoMemory,
        _ => StreamFault::Params(fault),
    }
}

/// What a fault of a part's header is reported as.
pub fn header_fault(fault: ParamFault) -> StreamFault
    ensures { result ≡ of_header fault }
{
    match fault {
        ParamFault::NoMemory => StreamFault::NoMemory,
        _ => StreamFault::Header(fault),
    }
}

/// What a fault of a payload's chunk is reported as.
pub fn chunk_fault(fault: ChunkFault) -> StreamFault
    ensures { result ≡ of_chunk fault }
{
    match fault {
        ChunkFault::NoMemory => StreamFault::NoMemory,
        _ => StreamFault::Chunk(fault),
    }
}

/// What a fault of a block after its size is reported as.
pub fn block_fault(fault: BlockFault) -> StreamFault
    ensures { result ≡ of_block fault }
{
    match fault {
        BlockFault::Negative => StreamFault::NegativeSize,
        BlockFault::TooLarge => StreamFault::TooLarge,
        BlockFault::NoMemory => StreamFault::NoMemory,
    }
}
