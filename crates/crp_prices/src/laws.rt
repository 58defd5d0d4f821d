//! Laws of the bound by prices, for the crates above.
ghost use Rattle.std.specs.Prelude.{◌≡◌, ◌≢◌, ℕ, codes, ◌-◌, ◌<◌, ◌≤◌, ◌+◌, ◌*◌, ◌↔◌, IsTrue, true, false, List, [], ◌∷◌, ◌++◌, length, sum, Some, slice_get};
ghost use Rattle.crp_plan.specs.Rows.{occurrences};
ghost use Rattle.crp_plan.specs.declared.moves.Move.{Move};
ghost use Rattle.crp_plan.specs.Bay.{Problem, IsProblem, IsPlan, IsAt, path_of, Position, IsSound, IsShifted, Legal, Completes, relocations};
ghost use Rattle.crp_bounds.specs.Bounds.{holds_lower, blocking};
ghost use Rattle.crp_prices.specs.declared.job.Job.{Job};
ghost use Rattle.crp_prices.specs.Prices.{IsFirst, IsLater, IsJob, IsHistory, least_of, earns, earned, IsMost, AreMost, firsts, price_bound};
ghost use Rattle.crp_prices.specs.declared.job.MarkedJob.{MarkedJob};
ghost use Rattle.crp_prices.specs.Pass.{AreJobs, row_pass};
ghost use Rattle.crp_prices.specs.AllJobs.{jobs_of, mosts, pass_bound};
ghost use Rattle.crp_prices.specs.PriceLists.{AreListed, list_text};
ghost use Rattle.crp_prices.specs.Worked.{worked, worked_price, worked_list, four_in};

/// Whatever the prices are, and a unit: a unit for each container that blocks and the prices of the first jobs are together at most a unit
/// for each relocation of any way to the end, and what the rows earn. So the bound by prices is at most these relocations.
pub fn prices_bound()
    ensures units { (price : ℕ → ℕ → ℕ) (unit : ℕ) (s : Position) (mosts : List ℕ) (moves : List Move) → IsSound s → AreMost price unit s mosts
        → Completes s moves → unit * blocking s + firsts price s ≤ unit * relocations moves + sum mosts }
    ensures rounded { (price : ℕ → ℕ → ℕ) (unit : ℕ) (s : Position) (mosts : List ℕ) (moves : List Move) → 1 ≤ unit → IsSound s
        → AreMost price unit s mosts → Completes s moves → price_bound price unit s mosts ≤ relocations moves }
{}

/// After a retrieval the rows earn at most what they did, and the bound is the same. After a relocation they earn less, so that the bound
/// is one less at most.
pub fn prices_fall_slowly()
    ensures taken { (price : ℕ → ℕ → ℕ) (unit : ℕ) (s : Position) (mosts : List ℕ) (row : ℕ) (t : Position) → IsSound s → AreMost price unit s mosts
        → Legal s (Move.Take row) t → AreMost price unit t mosts × (blocking t ≡ blocking s) × (firsts price t ≡ firsts price s) }
    ensures shifted { (price : ℕ → ℕ → ℕ) (unit : ℕ) (s : Position) (mosts : List ℕ) (from to : ℕ) (t : Position) → IsSound s
        → AreMost price unit s mosts → Legal s (Move.Shift from to) t → ((after : List ℕ) × AreMost price unit t after
        × (unit * blocking s + firsts price s + sum after ≤ unit + (unit * blocking t + firsts price t) + sum mosts)
        × (1 ≤ unit → price_bound price unit s mosts ≤ 1 + price_bound price unit t after)) }
{}

/// A plan whose path begins with a path has at least the length of that, and the bound by any prices at the position there.
pub fn prices_pass()
    ensures units { (price : ℕ → ℕ → ℕ) (unit : ℕ) (p : Problem) (path more : List ℕ) (s : Position) (mosts : List ℕ) (moves : List Move)
        → IsProblem p → IsAt p path s → AreMost price unit s mosts → IsPlan p moves → path_of moves ≡ path ++ more
        → unit * (length path + blocking s) + firsts price s ≤ unit * relocations moves + sum mosts }
    ensures rounded { (price : ℕ → ℕ → ℕ) (unit : ℕ) (p : Problem) (path more : List ℕ) (s : Position) (mosts : List ℕ) (moves : List Move)
        → 1 ≤ unit → IsProblem p → IsAt p path s → AreMost price unit s mosts → IsPlan p moves → path_of moves ≡ path ++ more
        → length path + price_bound price unit s mosts ≤ relocations moves }
{}

/// Along a legal row the same prices go on, and length plus bound never falls.
pub fn prices_grow()
    ensures { (price : ℕ → ℕ → ℕ) (unit : ℕ) (p : Problem) (path : List ℕ) (row : ℕ) (s t : Position) (mosts : List ℕ) → 1 ≤ unit → IsProblem p
        → IsAt p path s → IsAt p (path ++ row ∷ []) t → AreMost price unit s mosts → ((after : List ℕ) × AreMost price unit t after
        × (length path + price_bound price unit s mosts ≤ length (path ++ row ∷ []) + price_bound price unit t after)) }
{}

/// What a row earns at most, it earns at most still, whatever is retrieved, and wherever else a container goes; so only the row that a
/// relocation goes to need be looked at anew, and that earns less by what the relocation earned.
pub fn rows_keep_most()
    ensures taken { (price : ℕ → ℕ → ℕ) (unit : ℕ) (s : Position) (from : ℕ) (t : Position) (row most : ℕ) → IsSound s → Legal s (Move.Take from) t
        → IsMost price unit s row most → IsMost price unit t row most }
    ensures others { (price : ℕ → ℕ → ℕ) (unit : ℕ) (s : Position) (from to : ℕ) (t : Position) (row most : ℕ) → IsSound s
        → Legal s (Move.Shift from to) t → row ≢ to - 1 → IsMost price unit s row most → IsMost price unit t row most }
    ensures onto { (price : ℕ → ℕ → ℕ) (unit : ℕ) (s : Position) (from to : ℕ) (t : Position) (most : ℕ) → IsSound s → (k : IsShifted s from to t)
        → IsMost price unit s (to - 1) most
        → IsMost price unit t (to - 1) (most - earns price unit s.ordered k.onto (record { rank = k.moved; turn = s.next })) }
    ensures path { (price : ℕ → ℕ → ℕ) (unit : ℕ) (p : Problem) (path : List ℕ) (to : ℕ) (s t : Position) (row most : ℕ) → IsProblem p
        → IsAt p path s → IsAt p (path ++ to ∷ []) t → row ≢ to - 1 → IsMost price unit s row most → IsMost price unit t row most }
{}

/// No history of a row earns more than the pass over all jobs of the position, in the order in which it reads them; and these are its jobs.
pub fn pass_is_most()
    ensures most { (price : ℕ → ℕ → ℕ) (unit : ℕ) (s : Position) (jobs : List MarkedJob) (row height : ℕ) (stack : List ℕ) → IsSound s → AreJobs s jobs
        → slice_get s.heights row ≡ Some height → slice_get s.stacks row ≡ Some stack → IsMost price unit s row (row_pass price unit s.ordered jobs height stack) }
    ensures jobs { (s : Position) (highest : ℕ) → IsSound s → ((x : ℕ) → 1 ≤ occurrences x s.stacks → x ≤ highest) → AreJobs s (jobs_of s highest) }
{}

/// What the words of jobs say: a container that stands on a list has a first job where an ordered one of a lower rank is there, and its
/// turn is the least of them; it has one; and its jobs are those of the ordered turns from that one on, until it leaves.
pub fn job_words_mean()
    ensures first { (s : Position) (row : ℕ) (low over : List ℕ) (c k : ℕ) → IsSound s → slice_get s.stacks row ≡ Some (low ++ c ∷ over)
        → (IsFirst s (record { rank = c; turn = k }) ↔ IsTrue (holds_lower s.ordered c low) × (k ≡ least_of s.ordered low)) }
    ensures one_turn { (s : Position) (a b : Job) → IsSound s → IsFirst s a → IsFirst s b → a.rank ≡ b.rank → a.turn ≡ b.turn }
    ensures not_both { (s : Position) (j : Job) → IsSound s → IsLater s j → IsFirst s j → ⊥ }
    ensures jobs { (s : Position) (j : Job) → IsSound s → (IsJob s j ↔ (k : ℕ) × IsFirst s (record { rank = j.rank; turn = k })
        × (k ≤ j.turn) × (j.turn ≤ s.ordered) × (j.rank ≤ s.ordered → j.turn < j.rank)) }
{}

/// A bay that can be added up by hand, 1 4 3 | 5 | 2, with 10 for a unit. 3 and then 4 make way for 1: 10 and 14 are due. The first row is open
/// again in turn 2, where 4 earns 6; the second, with one place, takes 4 for 14; on the third both are badly placed in turn 1, 3 for 10 - 10 and
/// 4 for 14 - (10 + 6), and in turn 3, when 2 has left, 4 earns 3. So 24 - 23 is due, which is one unit.
pub fn prices_worked()
    ensures jobs { jobs_of worked 5 ≡ record { rank = 3; turn = 1; is_later = false } ∷ record { rank = 4; turn = 1; is_later = false }
        ∷ record { rank = 4; turn = 2; is_later = true } ∷ record { rank = 3; turn = 2; is_later = true } ∷ record { rank = 4; turn = 3; is_later = true } ∷ [] }
    ensures due { firsts worked_price worked ≡ 24 }
    ensures mosts { mosts worked_price 10 worked ≡ 6 ∷ 14 ∷ 3 ∷ [] }
    ensures bound { pass_bound worked_price 10 worked ≡ 3 }
    ensures first_row { IsHistory worked 3 (1 ∷ 4 ∷ 3 ∷ []) (four_in 2) × (earned worked_price 10 5 (1 ∷ 4 ∷ 3 ∷ []) (four_in 2) ≡ 6) }
    ensures second_row { IsHistory worked 2 (5 ∷ []) (four_in 1) × (earned worked_price 10 5 (5 ∷ []) (four_in 1) ≡ 14) }
    ensures third_row { IsHistory worked 2 (2 ∷ []) (four_in 3) × (earned worked_price 10 5 (2 ∷ []) (four_in 3) ≡ 3) }
{}

/// Its prices as a list, and how that is spelled.
pub fn price_list_worked()
    ensures listed { AreListed worked_list }
    ensures text { list_text worked_list ≡ codes "3:1.10;4:1.14,2.6,3.3" }
{}
