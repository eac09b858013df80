// What is asked of a whole batch before its delays: few enough clashes (9).
ghost use Rattle.std.specs.Prelude.{◌≡◌};
ghost use Rattle.model.specs.Format.{Within};
ghost use Rattle.model.specs.Open.{few_clashes};

use clashes::{Clashes, list_clashes};
use model::Batch;

// D is at most 1,024. (Within stands in the contract and not in a type: the definition `read_file` yields a plain Batch.)
pub fn few_clashes(batch: &Batch) -> bool
    requires { Within batch.now }
    ensures { result ≡ few_clashes batch.now }
{
    let mut clashes = Clashes {
        count: 0,
        codes: [0; 1024],
    };
    list_clashes(batch, &mut clashes);
    clashes.count <= 1024
}
