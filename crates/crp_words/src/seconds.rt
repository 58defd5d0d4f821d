//! Reads a number of seconds.
ghost use Rattle.std.specs.Prelude.{◌≡◌, ◌<◌, ◌≤◌, ◌^◌, ℕ, length, IfSome, IfNone};
ghost use Rattle.std.specs.Str.Parse.{digits_value};
ghost use Rattle.crp_words.specs.Seconds.{AreDigits, IsPart, IsSecondsText, IsThousandths};

// The most digits before the point.
const MOST_WHOLE: usize = 5;

// The most digits behind it.
const MOST_PART: usize = 3;

// The most milliseconds: those of a day.
const MOST_MILLIS: u64 = 86_400_000;

// The number that a text of 1 to so many digits writes.
fn digits_in(text: &str, most: usize) -> Option<u64>
    requires { most ≤ 5 }
    ensures some { IfSome result (λ number. AreDigits most text.now × (number ≡ digits_value 10 text.now)) }
    ensures small { IfSome result (λ number. number < 10 ^ length text.now) }
    ensures none { IfNone result (¬ AreDigits most text.now) }
{
    if text.len() > most || text.starts_with('+') {
        return None;
    }
    match text.parse::<u64>() {
        Ok(number) => Some(number),
        Err(_) => None,
    }
}

// The thousandths that the digits behind a point write.
fn part_in(text: &str) -> Option<u64>
    ensures some { IfSome result (IsPart text.now) }
    ensures small { IfSome result (λ thousandths. thousandths < 1000) }
    ensures none { IfNone result (¬ AreDigits 3 text.now) }
{
    let number = digits_in(text, MOST_PART)?;
    match text.len() {
        1 => Some(number * 100),
        2 => Some(number * 10),
        _ => Some(number),
    }
}

// The thousandths of a second that a text writes.
fn thousandths_in(text: &str) -> Option<u64>
    ensures some { IfSome result (IsThousandths text.now) }
    ensures none { IfNone result ((thousandths : ℕ) → IsThousandths text.now thousandths → ⊥) }
{
    let Some((whole, part)) = text.split_once('.') else {
        let number = digits_in(text, MOST_WHOLE)?;
        return Some(number * 1000);
    };
    let number = digits_in(whole, MOST_WHOLE)?;
    let part = part_in(part)?;
    Some(number * 1000 + part)
}

/// The milliseconds that a text of seconds writes: 1 to 5 digits, and behind them, if at all, a point and 1 to 3 digits; from 0.001 to 86400.
pub(crate) fn millis_in(text: &str) -> Option<u64>
    ensures some { IfSome result (IsSecondsText text.now) }
    ensures none { IfNone result ((millis : ℕ) → IsSecondsText text.now millis → ⊥) }
{
    let Some(millis) = thousandths_in(text) else {
        return None;
    };
    if millis < 1 || millis > MOST_MILLIS {
        return None;
    }
    Some(millis)
}
