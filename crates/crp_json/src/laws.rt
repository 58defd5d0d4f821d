//! Laws of the definitions. Each is the contract of a function that does nothing.
ghost use Rattle.std.specs.Prelude.{◌≡◌, ◌∷◌, ◌++◌, [], ℕ, List, None, Some, true, false, codes};
ghost use Rattle.json.specs.Print.{print};
ghost use Rattle.crp_said.specs.declared.said.SaidCause.TheVariants.{Budget};
ghost use Rattle.crp_said.specs.declared.said.Said.TheVariants.{First, NoPlan, Between, Outside};
ghost use Rattle.crp_said.specs.declared.moves.SaidMove.TheVariants.{Shift, Take};
ghost use Rattle.crp_checker.specs.declared.verdict.Verdict.TheVariants as verdict;
ghost use Rattle.crp_json.specs.declared.entry.Printed.{Printed};
ghost use Rattle.crp_json.specs.Objects.{numbers_object, bay_object, last_object, shown_object, audited_object, bounds_object, array, ranks_tokens};
ghost use Rattle.crp_json.specs.Lines.{AreJsonLines};
ghost use Rattle.crp_json.specs.Errors.{error_object};

/// What is printed, or a front of it that ends behind an entry, has one text of JSON Lines at most.
pub fn one_json()
    ensures { (printed : Printed) (report lines other : List ℕ) → AreJsonLines printed report lines → AreJsonLines printed report other → lines ≡ other }
{}

/// Some objects by hand: of a first line, of a bay without a plan, of one with its first best plan, of one between bounds, of one outside the rule, and of a last line;
/// and of a certificate with bounds, of one of a first best plan, of bounds, of the ranks of two
/// chains, and of how many bays were audited.
pub fn worked_cases()
    ensures first { print (numbers_object (record { orders = 6; vacant = 0; absent = 2 })) ≡ codes "{\"orders\":6,\"open\":0,\"absent\":2}" }
    ensures no_plan { print (bay_object (record { block = codes "A"; bay = 1 }) NoPlan [])
        ≡ codes "{\"bay\":{\"block\":\"A\",\"bay\":1},\"verdict\":\"no plan\",\"lower\":null,\"upper\":null,\"first\":false,\"cause\":null,\"moves\":[]}" }
    ensures settled { print (bay_object (record { block = codes "A"; bay = 1 }) (First 0) (Take (record { row = 1; tier = 2 }) (codes "C\"1") ∷ []))
        ≡ codes "{\"bay\":{\"block\":\"A\",\"bay\":1},\"verdict\":\"optimal\",\"lower\":0,\"upper\":0,\"first\":true,\"cause\":null,\"moves\":[{\"move\":\"take\",\"from\":{\"row\":1,\"tier\":2},\"container\":\"C\\\"1\"}]}" }
    ensures bounded { print (bay_object (record { block = codes "B"; bay = 12 }) (Between 11 (Some 13) Budget) (Shift (record { row = 1; tier = 3 }) (record { row = 2; tier = 1 }) (67 ∷ 255 ∷ []) ∷ []))
        ≡ codes "{\"bay\":{\"block\":\"B\",\"bay\":12},\"verdict\":\"between\",\"lower\":11,\"upper\":13,\"first\":false,\"cause\":\"budget\",\"moves\":[{\"move\":\"shift\",\"from\":{\"row\":1,\"tier\":3},\"to\":{\"row\":2,\"tier\":1},\"container_hex\":\"43ff\"}]}" }
    ensures outside { print (bay_object (record { block = codes "B"; bay = 12 }) (Outside 3) [])
        ≡ codes "{\"bay\":{\"block\":\"B\",\"bay\":12},\"verdict\":\"outside the rule\",\"lower\":null,\"upper\":3,\"first\":false,\"cause\":\"edited\",\"moves\":[]}" }
    ensures shown_bounds { print (shown_object (record { block = codes "B"; bay = 12 }) (verdict.Bounds 11 None))
        ≡ codes "{\"bay\":{\"block\":\"B\",\"bay\":12},\"verdict\":\"between\",\"lower\":11,\"upper\":null,\"first\":false}" }
    ensures shown_first { print (shown_object (record { block = codes "A"; bay = 1 }) (verdict.First 3))
        ≡ codes "{\"bay\":{\"block\":\"A\",\"bay\":1},\"verdict\":\"optimal\",\"lower\":3,\"upper\":3,\"first\":true}" }
    ensures bounds { print (bounds_object (record { bay = record { block = codes "A"; bay = 1 }; blocking = 2; look_ahead = 3; chains = None }))
        ≡ codes "{\"bay\":{\"block\":\"A\",\"bay\":1},\"blocking\":2,\"look_ahead\":3,\"chains\":null}" }
    ensures ranks { print (array (ranks_tokens (record { begins = true; rank = 1 } ∷ record { begins = false; rank = 12 } ∷ record { begins = true; rank = 4 } ∷ []))) ≡ codes "[[1,12],[4]]" }
    ensures audited { print (audited_object 12) ≡ codes "{\"audited\":12}" }
    ensures last { print (last_object 2 1) ≡ codes "{\"bays\":2,\"decided\":1}" }
{}

/// Some objects of lines of the standard error by hand: of notes, one of which is no UTF-8, of a bay that begins, of faults, and of advice.
pub fn worked_errors()
    ensures note { print (error_object (codes "crp: note: the file holds no certificate")) ≡ codes "{\"note\":\"the file holds no certificate\"}" }
    ensures hex { print (error_object (codes "crp: note: " ++ (67 ∷ 255 ∷ []))) ≡ codes "{\"note_hex\":\"43ff\"}" }
    ensures progress { print (error_object (codes "crp: bay 2 of 3, B 12")) ≡ codes "{\"progress\":\"bay 2 of 3, B 12\"}" }
    ensures fault { print (error_object (codes "crp: C5 at line 8")) ≡ codes "{\"fault\":\"C5 at line 8\",\"code\":\"C5\",\"at\":\"line 8\"}" }
    ensures named { print (error_object (codes "crp: certificate 2: K3 at part / symbol 2"))
        ≡ codes "{\"fault\":\"certificate 2: K3 at part / symbol 2\",\"code\":\"K3\",\"at\":\"part / symbol 2\"}" }
    ensures first { print (error_object (codes "crp: A6 at bay B 2: C1 at line 1"))
        ≡ codes "{\"fault\":\"A6 at bay B 2: C1 at line 1\",\"code\":\"A6\",\"at\":\"bay B 2: C1 at line 1\"}" }
    ensures alone { print (error_object (codes "crp: S12")) ≡ codes "{\"fault\":\"S12\",\"code\":\"S12\",\"at\":null}" }
    ensures no_place { print (error_object (codes "crp: certificate 1: K2 (Q2 at step 1)"))
        ≡ codes "{\"fault\":\"certificate 1: K2 (Q2 at step 1)\",\"code\":\"K2\",\"at\":null}" }
    ensures no_code { print (error_object (codes "crp: the report: too many bytes")) ≡ codes "{\"fault\":\"the report: too many bytes\",\"code\":null,\"at\":null}" }
    ensures advice { print (error_object (codes "look at the file a\"b: close it")) ≡ codes "{\"advice\":\"look at the file a\\\"b: close it\"}" }
{}
