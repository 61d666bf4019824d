// A slice of operations as bytes.
ghost use Rattle.std.specs.Prelude.{◌≡◌};
ghost use Rattle.operation_bytes.specs.Encoded.{encoded, first257};

use crate::byte_list::ByteList;
use operations::Operation;

// All, or the first 257.
#[tactic(auto, unfolding(crate::specs::Encoded::first257))]
fn first_257(operations: &[Operation]) -> &[Operation]
    ensures { result.now ≡ first257 operations.now }
{
    &operations[..operations.len().min(257)]
}

// The bytes of all, or of the first 257.
#[tactic(auto, using(crate::proofs::EncodedLaws::none_encoded, crate::proofs::EncodedLaws::more_encoded, crate::proofs::EncodedLaws::has_room))]
pub fn encode(operations: &[Operation]) -> ByteList
    ensures { result ≡ encoded (first257 operations.now) }
{
    let few = first_257(operations);
    let mut list = ByteList::new();
    for operation in few {
        list.push(*operation);
    }
    list
}
