//! What one line of a report says, without its LF.
ghost use Rattle.std.specs.Prelude.{◌≡◌, ◌≤◌, IfSome, IfNone};
ghost use Rattle.crp_plan.specs.BayNames.{IsYardBay};
ghost use Rattle.crp_said.specs.Said.{counts_line, words_of_bay, bays_line};
ghost use Rattle.crp_said.specs.Spelled.{most, AreSmall, IsSmall, ended, IsOrdersLine, IsBayLine, IsLastLine};

use crate::fields::{counts_of, last_of, parts_of};
use crate::numbers::Numbers;
use crate::said::Said;
use crp_plan::BayName;

/// The three numbers that a first line says: exactly those whose line it is.
pub fn read_numbers(line: &[u8]) -> Option<Numbers>
    ensures found { IfSome result (λ n. AreSmall n × (ended line.now ≡ counts_line n)) }
    ensures none { IfNone result (¬ IsOrdersLine line.now) }
{
    let Some(numbers) = counts_of(line) else {
        return None;
    };
    Some(numbers)
}

/// The name of a bay and what is said of the bay, as the line of the bay says them: exactly those whose words it is.
pub fn read_bay(line: &[u8]) -> Option<(BayName, Said)>
    ensures found { IfSome result (λ x. IsYardBay x.0 × IsSmall x.1 × (line.now ≡ words_of_bay x.0 x.1)) }
    ensures none { IfNone result (¬ IsBayLine line.now) }
{
    let Some(((block, bay), said)) = parts_of(line) else {
        return None;
    };
    if bay > 9999 {
        return None;
    }
    let Some(name) = BayName::new(block, bay as u16) else {
        return None;
    };
    Some((name, said))
}

/// The two numbers that a last line says, whatever it counts: exactly those whose line it is.
pub fn read_last(line: &[u8]) -> Option<(u32, u32)>
    ensures found { IfSome result (λ x. (x.0 ≤ most) × (x.1 ≤ most) × (ended line.now ≡ bays_line x.0 x.1)) }
    ensures none { IfNone result (¬ IsLastLine line.now) }
{
    let Some((count, settled)) = last_of(line) else {
        return None;
    };
    Some((count, settled))
}
