//! The state of one worker of a search or several.
ghost use Rattle.std.specs.Prelude.{◌≡◌, ◌≤◌, ◌++◌, ◌∷◌, [], false, ◌||◌, if◌then◌else◌, None};
ghost use Rattle.crp_incumbent.specs.Rule.{view_joined};
ghost use Rattle.crp_solve.specs.Groups.{place_key, keys, IsRoom, IsUnused};

use crate::workers::aim::{Aim, Fewest};
use crp_incumbent::{Seat, Shared};
use crp_plan::Plan;
use crp_pool::PoolSeat;
use crp_tree::Part;
use std::alloc::Global;
use std::marker::{Model, PhantomData};

/// The state of one worker of a search or several: a seat at the shared words, the best plan that was met there, the parts that
/// were searched, and places in the pool. It is marked where a part was lost, and where the gate stopped its claims.
#[derive(Drop)]
pub struct Crew<A: Aim> {
    pub(crate) seat: Seat,
    pub(crate) best: Option<Plan>,
    pub(crate) parts: Vec<Part>,
    pub(crate) places: Vec<PoolSeat>,
    pub(crate) short: bool,
    pub(crate) stopped: bool,
    pub(crate) aim: PhantomData<A>,
}

/// The state of one worker or several of a search for the fewest relocations. A part is lost only where memory was short.
pub type Group = Crew<Fewest>;

impl<A: Aim> Model for Crew<A> {
    ghost use Rattle.crp_solve.specs.Desks.{known_with};
    ghost use Rattle.crp_solve.specs.Groups.{Crew, IsGroup};
    ghost use Rattle.crp_tree.specs.Symbols.{tree_code};
    ghost use Rattle.std.specs.Coded.{codes};

    ghost Value = { Crew };

    ghost coded = { Prim.hlevel (codes, tree_code) };

    ghost view = { λ g. record { of = g.seat.of; view = known_with g.stopped g.seat.view; plan = g.best; parts = g.parts.items; places = g.places.items; short = g.short; stopped = g.stopped } };

    ghost invariant = { λ g. IsGroup A.keeps (record { of = g.seat.of; view = known_with g.stopped g.seat.view; plan = g.best; parts = g.parts.items; places = g.places.items; short = g.short; stopped = g.stopped }) };
}

/// Moves what is in `more` to the end. Where there is no memory it answers false, and nothing is moved.
fn append<T: Drop>(to: &mut Vec<T>, mut more: Vec<T>) -> bool
    ensures { to.new.items ≡ (if result then to.old.items ++ more.items else to.old.items) }
{
    to.append(&mut more).is_ok()
}

impl<A: Aim> Crew<A> {
    /// The state of both, for groups of these shared words. Where it cannot grow, the result is marked.
    pub fn merge(self, shared: &Shared, other: Crew<A>) -> Crew<A>
        requires mine { self.of ≡ shared.now }
        requires others { other.of ≡ shared.now }
        ensures of { result.of ≡ shared.now }
        ensures view { result.view ≡ record (view_joined self.view other.view) { refused = result.view.refused } }
        ensures refused { result.stopped ≡ false → result.view ≡ view_joined self.view other.view }
        ensures stopped { result.stopped ≡ (self.stopped || other.stopped) }
        ensures plan { A.better self.plan other.plan result.plan }
        ensures parts { result.short ≡ false → result.parts ≡ self.parts ++ other.parts }
        ensures places { result.short ≡ false → result.places ≡ self.places ++ other.places }
        ensures short { result.short ≡ false → (self.short ≡ false) × (other.short ≡ false) }
    {
        let Crew {
            seat,
            best,
            mut parts,
            mut places,
            short,
            stopped,
            aim: _,
        } = self;
        let parts_fit = append(&mut parts, other.parts);
        let places_fit = append(&mut places, other.places);
        Crew {
            seat: shared.join(seat, other.seat),
            best: A::better_of(best, other.best),
            parts,
            places,
            short: short | other.short | !(parts_fit & places_fit),
            stopped: stopped | other.stopped,
            aim: PhantomData,
        }
    }

    /// The state of a worker before it begins, at a place that is not the first, in a list with room for it.
    pub(crate) fn new(
        alloc: Global,
        seat: Seat,
        place: PoolSeat,
        mut room: Vec<PoolSeat>,
    ) -> Crew<A>
        requires kept { A.keeps seat.of seat.view None [] }
        requires none_granted { seat.view.granted ≡ 0 }
        requires place { IsUnused place }
        requires number { 1 ≤ place.number }
        requires room { IsRoom room }
        ensures of { result.of ≡ seat.of }
        ensures view { result.view ≡ seat.view }
        ensures stopped { result.stopped ≡ false }
        ensures places { keys result ≡ place_key place ∷ [] }
    {
        room.push_reserved(place);
        Crew {
            seat,
            best: None,
            parts: Vec::new(alloc),
            places: room,
            short: false,
            stopped: false,
            aim: PhantomData,
        }
    }
}
