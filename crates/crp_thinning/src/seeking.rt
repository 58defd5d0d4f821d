//! A family that may gain much. What is found is checked before it is used, so nothing is promised of it.
ghost use Rattle.std.specs.Prelude.{◌<◌, ◌≤◌, length};

use crate::looking::{height, rows, stack};
use crate::scanning::least_with;
use crate::track::Track;
use arrayvec::ArrayVec;

/// The most symbols of a family: at most 96 ranks of two digits, each with a symbol behind it.
pub const MAX_FAMILY: usize = 300;

/// How often at most a chain is tried to go on.
const MAX_TRIES: u32 = 4000;

/// A container that blocks, with the rows that are open to it, a bit for each, and their number.
#[derive(Clone, Copy, Default, Drop)]
struct Item {
    turn: u8,
    rank: u8,
    count: u8,
    open: u16,
}

/// A chain that is tried: how many ranks are to leave, the rank of its first and of its last container, and the rows that are open to any.
#[derive(Clone, Copy, Drop)]
struct Trial {
    ordered: u8,
    first: u8,
    last: u8,
    open: u16,
}

/// What is left of the rows when a turn comes, by the row, from 0.
#[derive(Drop)]
struct Left {
    /// How many containers.
    counts: [u8; 16],
    /// The least ordered rank of those; 0 where the row has no room, 255 where it has and none of them is ordered.
    offers: [u8; 16],
    /// By rank: the least ordered rank beneath it, 255 where there is none; 0 where the rank stands nowhere.
    under: [u8; 256],
}

/// How many rows have a bit.
#[inline]
fn count_rows(open: u16) -> u8 {
    open.count_ones().min(16) as u8
}

/// Writes of each container of a stack the least ordered rank beneath it, and returns the least of the stack.
fn mark_stack(ordered: u8, stack: &[u8], under: &mut [u8; 256]) -> u8 {
    let mut least = 255;
    for rank in stack {
        under[*rank as usize] = least;
        least = least_with(ordered, *rank, least);
    }
    least
}

/// The rows before the first turn.
fn left_of(track: &Track) -> Left {
    let mut left = Left {
        counts: [0; 16],
        offers: [0; 16],
        under: [0; 256],
    };
    for row in 1..rows(track) + 1 {
        let stack = stack(track, row);
        let index = row as usize - 1;
        let least = mark_stack(track.ordered(), stack, &mut left.under);
        left.counts[index] = stack.len() as u8;
        if stack.len() < height(track, row) as usize {
            left.offers[index] = least;
        }
    }
    left
}

/// The rows that are open to a container of a rank, a bit for each.
fn open_to(rank: u8, offers: &[u8; 16]) -> u16 {
    let mut open: u16 = 0;
    for row in 0..16u32 {
        if rank < offers[row as usize] {
            open |= 1 << row;
        }
    }
    open
}

/// Adds a container whose turn is this rank, if at most so many rows are open to it.
fn add_item(most: u8, turn: u8, rank: u8, offers: &[u8; 16], list: &mut ArrayVec<Item, 96>) {
    let open = open_to(rank, offers);
    let count = count_rows(open);
    if count <= most && !list.is_full() {
        list.push(Item {
            turn,
            rank,
            count,
            open,
        });
    }
}

/// Adds the containers whose turn is this rank, from the top down, if it stands, in this row, from 0, and no turn beneath it comes
/// before; then what stands beneath it is left of the row.
fn add_turn(
    most: u8,
    turn: u8,
    row: usize,
    stack: &[u8],
    left: &mut Left,
    list: &mut ArrayVec<Item, 96>,
)
    requires row { row < 16 }
    requires stack { length stack.now ≤ 8 }
{
    let least = left.under[turn as usize];
    if least < turn {
        return;
    }
    let mut count = stack.len().min(left.counts[row] as usize);
    while count > 0 {
        count -= 1;
        if stack[count] == turn {
            break;
        }
        add_item(most, turn, stack[count], &left.offers, list);
    }
    left.counts[row] = count as u8;
    left.offers[row] = least;
}

/// The containers that block and to which at most so many rows are open, in the order in which they come up.
fn items_of(track: &Track, most: u8) -> ArrayVec<Item, 96> {
    let mut list = ArrayVec::new();
    let stacks = track.stacks();
    let row_of = track.row_of();
    let mut left = left_of(track);
    for turn in track.next()..track.ordered() + 1 {
        let row = row_of[turn as usize] as usize;
        if row < stacks.len() {
            add_turn(most, turn, row, stacks[row].ranks(), &mut left, &mut list);
        }
    }
    list
}

/// Goes on with a chain by so many more containers, each in its turn one of those that come up later.
fn extend(
    items: &[Item],
    used: &[bool; 256],
    trial: Trial,
    most: u8,
    left: u8,
    tries: &mut u32,
    chain: &mut ArrayVec<u8, 16>,
) -> bool {
    if left == 0 {
        return true;
    }
    if trial.last > trial.ordered || items.len() < left as usize {
        return false;
    }
    for (i, item) in items.iter().enumerate() {
        if *tries == 0 || item.turn >= trial.first {
            return false;
        }
        *tries -= 1;
        if item.rank <= trial.last || used[item.rank as usize] || chain.is_full() {
            continue;
        }
        let open = trial.open | item.open;
        if open != trial.open && count_rows(open) > most {
            continue;
        }
        chain.push(item.rank);
        let next = Trial {
            ordered: trial.ordered,
            first: trial.first,
            last: item.rank,
            open,
        };
        if extend(&items[i + 1..], used, next, most, left - 1, tries, chain) {
            return true;
        }
        let _last = chain.pop();
    }
    false
}

/// Adds a symbol where there is room.
fn add(symbol: u8, text: &mut ArrayVec<u8, MAX_FAMILY>) {
    if !text.is_full() {
        text.push(symbol);
    }
}

/// Adds a rank of one or two digits.
fn add_rank(rank: u8, text: &mut ArrayVec<u8, MAX_FAMILY>) {
    if rank >= 10 {
        add(b'0' + rank / 10, text);
    }
    add(b'0' + rank % 10, text);
}

/// Adds a chain, and uses its containers.
fn add_chain(chain: &[u8], used: &mut [bool; 256], text: &mut ArrayVec<u8, MAX_FAMILY>) {
    if !text.is_empty() {
        add(b',', text);
    }
    for (i, rank) in chain.iter().enumerate() {
        if i > 0 {
            add(b'.', text);
        }
        add_rank(*rank, text);
        used[*rank as usize] = true;
    }
}

/// Adds a chain that begins with a container, of one more than the rows that are open to any of it. Whether there is one.
fn add_from(
    ordered: u8,
    items: &[Item],
    item: Item,
    most: u8,
    tries: &mut u32,
    used: &mut [bool; 256],
    text: &mut ArrayVec<u8, MAX_FAMILY>,
) -> bool {
    if used[item.rank as usize] {
        return false;
    }
    let mut chain = ArrayVec::new();
    chain.push(item.rank);
    let trial = Trial {
        ordered,
        first: item.rank,
        last: item.rank,
        open: item.open,
    };
    if !extend(items, used, trial, most, most, tries, &mut chain) {
        return false;
    }
    add_chain(chain.as_slice(), used, text);
    true
}

/// Adds chains of one more container than so many rows, until they gain what is wanted. How much is still wanted.
fn add_chains(
    ordered: u8,
    items: &[Item],
    most: u8,
    wanted: u32,
    tries: &mut u32,
    used: &mut [bool; 256],
    text: &mut ArrayVec<u8, MAX_FAMILY>,
) -> u32 {
    let mut left = wanted;
    for (i, item) in items.iter().enumerate() {
        if left == 0 {
            return 0;
        }
        if add_from(ordered, &items[i + 1..], *item, most, tries, used, text) {
            left -= 1;
        }
    }
    left
}

/// Those of the containers that are in no chain, and to which at most so many rows are open.
fn fitting(items: &[Item], used: &[bool; 256], most: u8) -> ArrayVec<Item, 96> {
    let mut list = ArrayVec::new();
    for item in items {
        if !used[item.rank as usize] && item.count <= most && !list.is_full() {
            list.push(*item);
        }
    }
    list
}

/// Looks for a family whose chains gain as much, each with at most so many rows that are open to any of it, and writes its text.
pub fn find_family(
    track: &Track,
    wanted: u32,
    rows: u8,
    text: &mut ArrayVec<u8, MAX_FAMILY>,
) -> bool {
    let list = items_of(track, rows);
    let mut used = [false; 256];
    let mut tries = MAX_TRIES;
    let mut left = wanted;
    let mut unused = list.len() as u32;
    for most in 0..rows.min(16) + 1 {
        // Each chain that is still to come has so many containers at least.
        let size = u32::from(most) + 1;
        if left == 0 || unused < left.saturating_mul(size) {
            break;
        }
        let few = fitting(list.as_slice(), &used, most);
        let more = add_chains(
            track.ordered(),
            few.as_slice(),
            most,
            left,
            &mut tries,
            &mut used,
            text,
        );
        unused = unused.saturating_sub(left.saturating_sub(more).saturating_mul(size));
        left = more;
    }
    add(b';', text);
    left == 0
}
