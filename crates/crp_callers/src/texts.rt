//! What interchanges say where characters are released.

ghost use Rattle.std.specs.Prelude.{◌≡◌, ◌⊎◌, ℕ, List, [], ◌∷◌, Ok, Err};
ghost use Rattle.edi_text.specs.Parts.{SegmentParts};
ghost use Rattle.edi_text.specs.Spelling.{Spells};
ghost use Rattle.edi_text.specs.FirstFault.{IsFirstFault};
ghost use Rattle.edi_text.specs.declared.fault.EdiFault.{EdiFault};
ghost use Rattle.edi_text.specs.declared.fault.EdiFault.TheVariants.{Release, Memory};
ghost use Rattle.crp_callers.specs.Released.{with_terminator, released, broken_off};

use edi_text::{
    EdiFault, Segments, a_list_or_a_fault, one_fault_for_a_text, one_list_for_a_text,
    read_segments, spelled_has_no_fault,
};
use std::alloc::Global;

/// A terminator that is released ends no segment: the text spells one segment and no other list, and has no
/// fault.
pub fn released_terminators()
    ensures spelled { Spells released (with_terminator ∷ []) }
    ensures one { (segments : List SegmentParts) → Spells released segments → segments ≡ with_terminator ∷ [] }
    ensures faultless { (fault : EdiFault) → IsFirstFault released fault → ⊥ }
{
    one_list_for_a_text();
    spelled_has_no_fault();
}

/// A text that ends with the release character has that fault and no other, and spells nothing.
pub fn releases_of_nothing()
    ensures fault { IsFirstFault broken_off (Release 3) }
    ensures one { (fault : EdiFault) → IsFirstFault broken_off fault → fault ≡ Release 3 }
    ensures unspelled { (segments : List SegmentParts) → Spells broken_off segments → ⊥ }
{
    one_fault_for_a_text();
    spelled_has_no_fault();
}

/// A text that spells nothing has a fault, and a text without a fault spells something.
pub fn spelled_or_faulty()
    ensures faulty { (text : List ℕ) → ((segments : List SegmentParts) → Spells text segments → ⊥)
        → (fault : EdiFault) × IsFirstFault text fault }
    ensures spelled { (text : List ℕ) → ((fault : EdiFault) → IsFirstFault text fault → ⊥)
        → (segments : List SegmentParts) × Spells text segments }
{
    a_list_or_a_fault();
}

/// What is read of a text in which a terminator is released.
pub fn read_released_terminator(alloc: Global) -> Result<Segments, EdiFault>
    ensures { (result ≡ Ok (with_terminator ∷ [])) ⊎ (result ≡ Err Memory) }
{
    read_segments(alloc, b"FTX+A?'B'")
}

/// A text that ends with the release character is refused.
pub fn read_release_of_nothing(alloc: Global) -> Result<Segments, EdiFault>
    ensures { (result ≡ Err (Release 3)) ⊎ (result ≡ Err Memory) }
{
    read_segments(alloc, b"FTX?")
}
