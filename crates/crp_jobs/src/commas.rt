//! A list that is read again is seen with commas between its fields, as its reader saw it.
ghost use Rattle.std.specs.Prelude.{◌≡◌, IfOk};
ghost use Rattle.crp_separated.specs.Inputs.{comma_list};

use crp_plan::read_all;
use crp_separated::ListInput;
use std::alloc::{AllocError, Global};

/// The list with commas that has the records of this one, with this byte between its fields.
pub(crate) fn comma_list(alloc: Global, text: &[u8], separator: u8) -> Result<Vec<u8>, AllocError>
    ensures { IfOk result (λ list. list.items ≡ comma_list separator text.now) }
{
    let mut list = ListInput::with_commas(text, separator);
    let mut interruptions = 0;
    match read_all(alloc, &mut list, usize::MAX, &mut interruptions) {
        Ok(bytes) => Ok(bytes),
        Err(_) => Err(AllocError),
    }
}
