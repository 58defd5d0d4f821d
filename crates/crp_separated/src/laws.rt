//! What translated texts are.
ghost use Rattle.std.specs.Prelude.{◌≡◌, ℕ, List};
ghost use Rattle.csv.specs.Reading.{records, strip_bom};
ghost use Rattle.crp_separated.specs.Separators.{IsSeparator, list_with, parted_by};

/// The list with one byte between its fields has the records that the list with the other byte has, whatever stands in it.
#[tactic(auto, using(crate::proofs::Records::same_records))]
pub fn records_are_the_same()
    ensures { (from to : ℕ) (text : List ℕ) → IsSeparator from → IsSeparator to → records (parted_by to) (strip_bom (list_with from to text)) ≡ records (parted_by from) (strip_bom text) }
{}
