//! One more byte of reasons.
ghost use Rattle.std.specs.Prelude.{◌≡◌, false, MatchOption};
ghost use Rattle.crp_reasons.specs.Rests.{GoesOn, Number, Digits, Text};
ghost use Rattle.crp_reasons.specs.Stages.{left_at, is_text};

use crate::byte::is_reason_byte;
use crate::numbers::{first_digit, more_digits};
use crate::stage::Stage;
use crp_thinning::{Follower, Thinned};
use std::mem;

/// What follows a byte where the number is to begin.
fn begin_number(place: Thinned, byte: u8) -> Stage
    ensures { GoesOn (Number place.place) byte (left_at result) }
{
    match first_digit(byte) {
        Some(number) => Stage::Digits { place, number },
        None => Stage::Refused,
    }
}

/// What follows a byte behind digits of the number.
fn go_on_number(place: Thinned, number: u8, byte: u8) -> Stage
    ensures { GoesOn (Digits place.place number) byte (left_at result) }
{
    if let Some(more) = more_digits(number, byte) {
        return Stage::Digits {
            place,
            number: more,
        };
    }
    if byte == b':' {
        Stage::Text {
            number,
            follower: Follower::new(place, number as u32),
        }
    } else {
        Stage::Refused
    }
}

/// Follows a byte of the text. Where it does not belong to the text, returns what follows it.
fn go_on_text(number: u8, follower: &mut Follower, byte: u8) -> Option<Stage>
    ensures { MatchOption result (GoesOn (Text number follower.old) byte (Text number follower.new)) (λ stage. GoesOn (Text number follower.old) byte (left_at stage)) }
{
    if is_reason_byte(byte) {
        let _closes = follower.follow(byte);
        return None;
    }
    if byte == b']' {
        Some(Stage::Whole {
            number,
            shown: follower.is_done(),
        })
    } else {
        Some(Stage::Refused)
    }
}

/// What follows a byte where no text is read.
fn go_on_before(stage: Stage, byte: u8) -> Stage
    requires { is_text stage ≡ false }
    ensures { GoesOn (left_at stage) byte (left_at result) }
{
    match stage {
        Stage::Number { place } => begin_number(place, byte),
        Stage::Digits { place, number } => go_on_number(place, number, byte),
        Stage::Text { .. } => unreachable!(),
        Stage::Whole { .. } | Stage::Refused => Stage::Refused,
    }
}

/// Goes on by one byte.
pub fn go_on(stage: &mut Stage, byte: u8)
    ensures { GoesOn (left_at stage.old) byte (left_at stage.new) }
{
    match stage {
        Stage::Text { number, follower } => {
            if let Some(last) = go_on_text(*number, follower, byte) {
                *stage = last;
            }
        }
        Stage::Number { .. } | Stage::Digits { .. } | Stage::Whole { .. } | Stage::Refused => {
            let before = mem::replace(stage, Stage::Refused);
            *stage = go_on_before(before, byte);
        }
    }
}
