// The shape of a list.
ghost use Rattle.std.specs.Prelude.{◌≡◌, leb, get_or};
ghost use Rattle.std.specs.List.{list_all};
ghost use Rattle.operations.specs.Operations.{shaped};

// Whether each has the direction 0 or 1.
fn are_directed(operations: &[[u8; 3]]) -> bool
    ensures { result ≡ list_all (λ o. leb (get_or o 0 0) 1) operations.now }
{
    operations.iter().all(|operation| operation[0] <= 1)
}

// Whether a list is whole operations, each with the direction 0 or 1.
#[tactic(auto, using(crate::proofs::ChunkLaws::shaped_checked))]
pub fn is_shaped(list: &[u8]) -> bool
    ensures { result ≡ shaped list.now }
{
    let (operations, end) = list.as_chunks::<3>();
    end.is_empty() & are_directed(operations)
}
