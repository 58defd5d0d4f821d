//! Laws of the table. Each is the contract of a function that does nothing.
ghost use Rattle.std.specs.Prelude.{◌≡◌, ℕ, List, [], true, map, filter, take, length, sum_by};
ghost use Rattle.crp_movins.specs.declared.order.Order.{Order};
ghost use Rattle.crp_movins.specs.Digits.{is_slot, slot_of, seven_digits};
ghost use Rattle.crp_follow.specs.Followed.{BayFollowed};
ghost use Rattle.crp_follow.specs.Stated.{moves_of};
ghost use Rattle.crp_follow.specs.Table.{columns_in};
ghost use Rattle.crp_follow.specs.Table as table;
ghost use Rattle.crp_order.specs.SlotDigits.{slot_text};
ghost use Rattle.crp_loading.specs.Faults.{faults_in};
ghost use Rattle.crp_loading.specs.Loading.{TurnRecord, turn_fields, records_of, by_turns};
ghost use Rattle.crp_loading.specs.Loaded.{moves_up_to, has_turn_up_to};

/// The table has the records of the table of moves, with two columns more, and each of them once: whatever is counted of records comes to
/// the same.
pub fn same_records()
    ensures columns { (sequence : List (List ℕ)) (orders : List Order) (bays : List BayFollowed)
        → map (λ r. take 12 (turn_fields r)) (records_of sequence orders bays) ≡ table.records_of bays }
    ensures each { (count : TurnRecord → ℕ) (sequence : List (List ℕ)) (orders : List Order) (bays : List BayFollowed)
        → sum_by count (by_turns (length sequence) (records_of sequence orders bays)) ≡ sum_by count (records_of sequence orders bays) }
{}

/// The column `slot` has the slot as the message has it, where six digits get a zero in front.
pub fn slots_are_as_ordered()
    ensures { (text : List ℕ) → is_slot text ≡ true → slot_text (slot_of text) ≡ seven_digits text }
{}

/// Where the takes of a bay have no fault, the moves that are made when the ship has its first containers are exactly those whose record
/// in the table has one of the first turns.
pub fn loaded_moves_have_turns()
    ensures { (sequence : List (List ℕ)) (n : ℕ) (b : BayFollowed) → faults_in sequence b.stated.moves ≡ []
        → moves_up_to sequence n (moves_of b.stated.moves) ≡ map (λ c. c.said) (filter (has_turn_up_to sequence n) (columns_in b)) }
{}
