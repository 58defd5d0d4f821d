//! From one tree of a text that is followed to the next.
ghost use Rattle.std.specs.Prelude.{◌≡◌, ◌≤◌, ◌-◌, false, ◌∷◌, [], ◌++◌, Contains};
ghost use Rattle.std.specs.Bool.{OnTrue, OnFalse};
ghost use Rattle.crp_thinned.specs.Thinned.{good_rows, child_at};
ghost use Rattle.crp_thinning.specs.Branches.{task, row_tasks, left_of, behind, to_come, IsOpen};

use crate::thinned::Thinned;
use arrayvec::ArrayVec;

/// The most branches that are open at once.
pub const MAX_BRANCHES: usize = 193;

/// A branch that is open.
#[derive(Clone, Copy, Default, Drop)]
pub struct Frame {
    /// How much its tree has to show.
    pub need: u32,
    /// Of how many of its rows the tree has begun.
    pub rows: u8,
    /// Whether its last tree has begun, or it has one tree alone.
    pub last: bool,
}

/// Where a text that is followed has come to.
#[derive(Drop)]
pub struct Path {
    /// The position there.
    pub place: Thinned,
    /// How much the tree there has to show.
    pub need: u32,
    /// The branches on the way, the outermost first.
    pub frames: ArrayVec<Frame, MAX_BRANCHES>,
}

/// Goes from a branch to its next tree.
fn enter(path: &mut Path, frame: Frame)
    requires more { frame.last ≡ false }
    requires left { path.old.place.place.next ≤ path.old.place.place.ordered }
    requires open { IsOpen path.old }
    ensures tasks { left_of path.old.place.place frame ++ behind path.old ≡ to_come path.new }
    ensures open { IsOpen path.new }
{
    let rows = path.place.good_rows();
    let count = frame.rows as usize;
    if count < rows.len() {
        path.place.put(rows.as_slice()[count]);
        path.need = frame.need.saturating_sub(1);
        path.frames.push(Frame {
            need: frame.need,
            rows: frame.rows + 1,
            last: false,
        });
        return;
    }
    path.place.lift();
    path.need = frame.need.saturating_sub(2);
    path.frames.push(Frame {
        need: frame.need,
        rows: frame.rows,
        last: true,
    });
}

/// Goes on to the next tree that is to come, once a tree has ended; `false` where none is.
pub fn go_on(path: &mut Path) -> bool
    requires { IsOpen path.old }
    ensures some { OnTrue result (behind path.old ≡ to_come path.new) }
    ensures open { OnTrue result (IsOpen path.new) }
    ensures none { OnFalse result (behind path.old ≡ []) }
{
    while let Some(frame) = path.frames.pop() {
        let _undone = path.place.undo();
        if !frame.last {
            enter(path, frame);
            return true;
        }
    }
    false
}

/// Goes into a thinned branch.
pub fn branch(path: &mut Path)
    requires left { path.old.place.place.next ≤ path.old.place.place.ordered }
    requires open { IsOpen path.old }
    ensures tasks { row_tasks path.old.place.place path.old.need (good_rows path.old.place.place) ++ behind path.old ≡ to_come path.new }
    ensures open { IsOpen path.new }
{
    let frame = Frame {
        need: path.need,
        rows: 0,
        last: false,
    };
    enter(path, frame);
}

/// Goes into a branch with one tree, that of a row where the blocker is well placed.
pub fn branch_free(path: &mut Path, row: u8)
    requires good { Contains (good_rows path.old.place.place) row }
    requires open { IsOpen path.old }
    ensures tasks { task (child_at path.old.place.place row) (path.old.need - 1) ∷ behind path.old ≡ to_come path.new }
    ensures open { IsOpen path.new }
{
    path.place.put(row);
    let need = path.need;
    path.need = need.saturating_sub(1);
    path.frames.push(Frame {
        need,
        rows: 0,
        last: true,
    });
}
