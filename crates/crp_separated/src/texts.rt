//! A whole text.
ghost use Rattle.std.specs.Prelude.{◌≡◌, IfOk};
ghost use Rattle.crp_separated.specs.Inputs.{with_separator};
ghost use Rattle.crp_separated.specs.Separators.{list_with};

use crate::separated::Separated;
use crate::translating::Separators;
use crate::unmarked::Unmarked;
use crp_plan::read_all;
use std::alloc::{AllocError, Global};

/// The list with another byte between its fields than this text has, and the same records.
pub fn list_with(alloc: Global, text: &[u8], separators: Separators) -> Result<Vec<u8>, AllocError>
    ensures { IfOk result (λ list. list.items ≡ list_with separators.from separators.to text.now) }
{
    let mut list = Separated::new(Unmarked::new(text), separators);
    let mut interruptions = 0;
    match read_all(alloc, &mut list, usize::MAX, &mut interruptions) {
        Ok(bytes) => Ok(bytes),
        Err(_) => Err(AllocError),
    }
}

/// The list with this byte between its fields that has the records of this one, which has commas.
pub fn with_separator(alloc: Global, list: Vec<u8>, separator: u8) -> Result<Vec<u8>, AllocError>
    ensures { IfOk result (λ text. text.items ≡ with_separator separator list.items) }
{
    if separator == b',' {
        return Ok(list);
    }
    let separators = Separators {
        from: b',',
        to: separator,
    };
    list_with(alloc, &list, separators)
}
