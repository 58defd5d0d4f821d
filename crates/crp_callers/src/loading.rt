//! The table in the order in which the ship is loaded.
ghost use Rattle.std.specs.Prelude.{◌≡◌, ◌∷◌, ℕ, List, true, take, length, sum_by, codes};
ghost use Rattle.crp_movins.specs.declared.order.Order.{Order};
ghost use Rattle.crp_movins.specs.Digits.{is_slot, slot_of};
ghost use Rattle.crp_follow.specs.Followed.{BayFollowed};
ghost use Rattle.crp_follow.specs.Table as table;
ghost use Rattle.crp_order.specs.SlotDigits.{slot_text};
ghost use Rattle.crp_loading.specs.Loading.{turn_fields, records_of, by_turns};

use crp_loading::{same_records, slots_are_as_ordered};

/// Whatever is counted of the records of the table of moves is counted of the records of this table, less their last two columns.
pub fn records_are_counted_again()
    ensures { (count : List (List ℕ) → ℕ) (sequence : List (List ℕ)) (orders : List Order) (bays : List BayFollowed)
        → sum_by (λ r. count (take 12 (turn_fields r))) (by_turns (length sequence) (records_of sequence orders bays)) ≡ sum_by count (table.records_of bays) }
{
    same_records();
}

/// A slot of seven digits is shown as the message has it, and one of six with a zero in front.
pub fn slots_are_shown()
    ensures seven { (text : List ℕ) → is_slot text ≡ true → length text ≡ 7 → slot_text (slot_of text) ≡ text }
    ensures six { (text : List ℕ) → is_slot text ≡ true → length text ≡ 6 → slot_text (slot_of text) ≡ 48 ∷ text }
    ensures one_of_seven { slot_text (slot_of (codes "1010384")) ≡ codes "1010384" }
    ensures one_of_six { slot_text (slot_of (codes "010384")) ≡ codes "0010384" }
{
    slots_are_as_ordered();
}
