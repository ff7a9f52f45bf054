// The bytes of a batch's input.
ghost use Rattle.std.specs.Prelude.{◌≡◌, IfErr, IfOk};
ghost use Rattle.bp_base.specs.Causes.{Rose};
ghost use Rattle.boxpleat_batch.specs.Inputs.{IsInput, IsNoInput};

use crate::status::{BatchFault, BatchStatus};
use bp_base::{ReadError, Source, read_whole};
use std::alloc::Global;

// The most bytes of a batch's input.
const MOST_BATCH_BYTES: u64 = 4_194_304;

// All bytes of the input, or the status where there are none.
pub fn given<T: Source>(alloc: Global, input: &mut T) -> Result<Vec<u8>, BatchStatus>
    ensures bytes { IfOk result (λ v. IsInput (T.left input.old) (T.left input.new) v.items) }
    ensures none { IfErr result (λ s. IsNoInput (T.left input.old) (T.left input.new) s) }
    ensures failed { IfErr result (λ s. s ≡ BatchStatus.ReadFault → Rose (T.faults input.old) (T.faults input.new)) }
{
    match read_whole(alloc, input, MOST_BATCH_BYTES + 1) {
        Ok(bytes) => {
            if bytes.len() as u64 > MOST_BATCH_BYTES {
                return Err(BatchStatus::Refused(BatchFault::TooLong));
            }
            Ok(bytes)
        }
        Err(ReadError::Failed) => Err(BatchStatus::ReadFault),
        Err(ReadError::NoMemory) => Err(BatchStatus::NoMemory),
    }
}
