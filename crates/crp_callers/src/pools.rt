//! A seat of a pool with room for a name.
ghost use Rattle.std.specs.Prelude.{◌≡◌, ◌<◌, [], ◌∷◌, ◌++◌, length};

use crp_pool::PoolSeat;
use crp_tree::Name;

/// Puts a name where fewer names were put than the seat has room for. It is not handed back.
pub fn put_in_room(seat: &mut PoolSeat, name: Name)
    requires { length seat.old.puts < seat.old.capacity }
    ensures { seat.new.puts ≡ seat.old.puts ++ name ∷ [] }
{
    let Ok(()) = seat.put(name) else {
        unreachable!()
    };
}
