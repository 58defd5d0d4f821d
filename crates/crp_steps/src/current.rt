ghost use Rattle.std.specs.Prelude.{◌≡◌, IsTrue, ◌↔◌};
ghost use Rattle.crp_steps.specs.Events.{HoldsAt, value_of};

use crate::event::Bound;
use crate::path::Path;
use crp_bay::Position;
use crp_bounds::{blocking, look_ahead};
use crp_thinning::{Thinned, follows_thinned};

/// A worker's current path, copied, and the position that it leads to.
#[derive(Drop)]
pub(crate) struct Current {
    pub(crate) path: Path,
    pub(crate) place: Position,
}

impl Current {
    /// Whether the bound is one at the position.
    pub(crate) fn holds(&self, bound: Bound<'_>) -> bool
        ensures { IsTrue result ↔ HoldsAt bound.entry self.now.place.place }
    {
        match bound {
            Bound::Blocking | Bound::LookAhead => true,
            Bound::Reasons { number, text } => {
                follows_thinned(text, Thinned::of(&self.place), u32::from(number))
            }
        }
    }

    /// The value of the path as a leaf.
    pub(crate) fn value(&self, bound: Bound<'_>) -> u32
        ensures { result ≡ value_of bound.entry self.now.path self.now.place.place }
    {
        let more = match bound {
            Bound::Blocking => blocking(&self.place),
            Bound::LookAhead => look_ahead(&self.place),
            Bound::Reasons { number, .. } => u32::from(number),
        };
        self.path.length() + more
    }
}
