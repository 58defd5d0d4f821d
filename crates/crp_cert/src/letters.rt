//! The letters by which symbols are spelled.
ghost use Rattle.std.specs.Prelude.{◌≡◌, ◌≤◌, ◌++◌, length, map, take, OnOk};
ghost use Rattle.crp_cert.specs.Letters.{letter};
ghost use Rattle.crp_cert.specs.declared.letters.TheConstants.{BLOCK};

use crp_row::Kind;
use std::alloc::AllocError;

/// How many letters are made before they are added.
const BLOCK: usize = 1024;

/// The first letter of a symbol, which is all that is spelled of one without reasons: as a sum, so that a compiler can make several
/// at once.
fn letter_of(kind: Kind) -> u8
    ensures { result ≡ letter kind }
{
    let is_l = matches!(kind, Kind::CutL) as u8;
    let is_r = matches!(kind, Kind::CutR(_)) as u8;
    let is_x = matches!(kind, Kind::Branch(_)) as u8;
    let is_g = matches!(kind, Kind::Given) as u8;
    b'B' + is_l * (b'L' - b'B') + is_r * (b'[' - b'B') + is_x * (b'X' - b'B') + is_g * (b'G' - b'B')
}

/// Makes the first letters of symbols at the front of a block: apart from the text, so that a compiler can make several at once.
fn set_letters(block: &mut [u8; BLOCK], kinds: &[Kind])
    requires { length kinds.now ≤ BLOCK }
    ensures { take (length kinds.now) block.new ≡ map letter kinds.now }
{
    for i in 0..kinds.len() {
        block[i] = letter_of(kinds[i]);
    }
}

/// Adds the first letters of symbols, which are all that is spelled of those without reasons.
pub fn push_letters(text: &mut Vec<u8>, kinds: &[Kind]) -> Result<(), AllocError>
    ensures { OnOk result (text.new.items ≡ text.old.items ++ map letter kinds.now) }
{
    text.reserve(kinds.len())?;
    let mut block = [0; BLOCK];
    let mut rest = kinds;
    while !rest.is_empty() {
        let (next, behind) = rest.split_at(rest.len().min(BLOCK));
        set_letters(&mut block, next);
        text.extend_from_slice(&block[..next.len()])?;
        rest = behind;
    }
    Ok(())
}
