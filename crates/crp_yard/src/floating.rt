//! Containers that stand on nothing.

ghost use Rattle.std.specs.Prelude.{◌≡◌, length};
ghost use Rattle.crp_yard.specs.Faults.{is_floating, floating_before};

use crate::fault::YardFault;
use crate::listing::Listing;
use crate::place::Place;

fn is_floating(listing: &Listing, place: &Place) -> bool
    ensures { result ≡ is_floating listing.now place.now }
{
    place.tier() >= 2 && !listing.is_taken(&place.below())
}

/// The fault of the first entry that floats, if one does.
pub(crate) fn floating(listing: &Listing) -> Option<YardFault>
    ensures { result ≡ floating_before listing.now (length listing.now) }
{
    for i in 0..listing.len() {
        if is_floating(listing, listing.place(i)) {
            return Some(YardFault::Floating { record: i + 2 });
        }
    }
    None
}
