//! Laws of what certificates show, for the crates above.
ghost use Rattle.std.specs.Prelude.{◌≡◌, ◌≢◌, ◌↔◌, ℕ, List, [], length, Option, Some, IfSome};
ghost use Rattle.crp_plan.specs.Bay.{Problem, IsProblem};
ghost use Rattle.crp_plan.specs.BayNames.{YardBay, IsYardBay};
ghost use Rattle.crp_plan.specs.Plans.{ProblemPath};
ghost use Rattle.crp_plan.specs.Faults.{IsPlanPath};
ghost use Rattle.crp_tree.specs.Claims.{path_in};
ghost use Rattle.crp_tree.specs.First.{IsFirstBest, MeetNeeds};
ghost use Rattle.crp_tree.specs.Parts.{Certificate, IsAbout, claimed};
ghost use Rattle.crp_cert.specs.Writing.{script_for, certificate_text, first_script_for, first_certificate_text};
ghost use Rattle.crp_cert.specs.declared.claim.Claim.TheVariants as claim;
ghost use Rattle.crp_cert.specs.declared.script.Script.{Script};
ghost use Rattle.crp_checker.specs.declared.refused.Refused.{Refused};
ghost use Rattle.crp_checker.specs.declared.verdict.Verdict.{Verdict};
ghost use Rattle.crp_checker.specs.AcceptedTexts.{IsAcceptedScript, IsAcceptedText, IsWanted};
ghost use Rattle.crp_checker.specs.Verdicts.{IsVerdict, Says};
ghost use Rattle.crp_checker.specs.Shown.{TextShows};
ghost use Rattle.crp_checker.specs.Refusals.{IsFirstWrongClaim, IsRefusal};
ghost use Rattle.crp_checker.specs.Files.{BeginsWithTexts, FileShows, IsFileRefusal};

/// Bytes are not both the text of an accepted certificate and refused; they show one thing, or are
/// refused for one reason.
pub fn accepted_or_refused()
    ensures apart { (wanted : Option Problem) (bytes : List ℕ) (parsed : Script) (refused : Refused)
        → IsAcceptedText wanted bytes parsed → IsRefusal wanted bytes refused → ⊥ }
    ensures one_verdict { (wanted : Option Problem) (bytes : List ℕ) (verdict other : Verdict)
        → TextShows wanted bytes verdict → TextShows wanted bytes other → verdict ≡ other }
    ensures one_refusal { (wanted : Option Problem) (bytes : List ℕ) (refused other : Refused)
        → IsRefusal wanted bytes refused → IsRefusal wanted bytes other → refused ≡ other }
{}

/// An accepted claim is not wrong, and another is wrong in one way at most.
pub fn right_or_wrong()
    ensures apart { (wanted : Option Problem) (script : Script) (refused : Refused)
        → IsAcceptedScript script → IsWanted wanted script.head.problem
        → IsFirstWrongClaim wanted script refused → ⊥ }
    ensures one { (wanted : Option Problem) (script : Script) (refused other : Refused)
        → IsProblem script.head.problem → IsFirstWrongClaim wanted script refused
        → IsFirstWrongClaim wanted script other → refused ≡ other }
{}

/// What a verdict says of an accepted claim is so.
pub fn verdicts_say()
    ensures { (script : Script) (verdict : Verdict) → IsAcceptedScript script → IsVerdict script verdict
        → Says script.head.problem verdict }
{}

/// Where a text is accepted that claims the first best plan, the plan of its head is the first best
/// one, and has as many relocations as the bound. And the verdict says so exactly for such a claim.
pub fn first_is_best()
    ensures plan { (wanted : Option Problem) (bytes : List ℕ) (script : Script) (least : ℕ) → IsAcceptedText wanted bytes script
        → script.head.claim ≡ claim.First least
        → (path : List ℕ) × (script.head.plan ≡ Some path) × (length path ≡ least) × IsFirstBest script.head.problem path }
    ensures verdict { (script : Script) (verdict : Verdict) (least : ℕ) → IsVerdict script verdict
        → (verdict ≡ Verdict.First least) ↔ (script.head.claim ≡ claim.First least) }
{}

/// What is written of a certificate about a problem, with a plan of it or none, is accepted, whatever its parts give to each other:
/// under the name of a bay.
pub fn written_is_accepted()
    ensures { (bay : YardBay) (p : Problem) (cert : Certificate) (plan : Option ProblemPath) → IsYardBay bay
        → IsAbout p cert → IfSome (path_in plan) (IsPlanPath p)
        → IsAcceptedText (Some p) (certificate_text bay p cert plan) (script_for bay (claimed p cert (path_in plan))) }
{}

/// So is what is written with the claim that the plan is the first best one, where each cut of the certificate meets its need.
pub fn first_written_is_accepted()
    ensures { (bay : YardBay) (p : Problem) (cert : Certificate) (plan : ProblemPath) → IsYardBay bay
        → IsAbout p cert → IsPlanPath p plan.path → MeetNeeds (length plan.path) plan.path cert.parts
        → IsAcceptedText (Some p) (first_certificate_text bay p cert plan) (first_script_for bay (claimed p cert (Some plan.path))) }
{}

/// A file is cut into the texts of certificates in one way.
pub fn one_cut()
    ensures { (file : List ℕ) (texts others : List (List ℕ)) → BeginsWithTexts file texts []
        → BeginsWithTexts file others [] → texts ≡ others }
{}

/// A file of certificates does not both show verdicts and have a refusal; it shows one list of verdicts, or is refused at one
/// certificate, behind one list, for one reason. (That memory ran out is no reason of the file's.)
pub fn shown_or_refused()
    ensures apart { (file : List ℕ) (verdicts before : List (YardBay × Verdict)) (number : ℕ) (refused : Refused)
        → refused ≢ Refused.Memory → FileShows file verdicts → IsFileRefusal file before number refused → ⊥ }
    ensures one_list { (file : List ℕ) (verdicts others : List (YardBay × Verdict))
        → FileShows file verdicts → FileShows file others → verdicts ≡ others }
    ensures one_refusal { (file : List ℕ) (before behind : List (YardBay × Verdict)) (number place : ℕ) (refused other : Refused)
        → refused ≢ Refused.Memory → other ≢ Refused.Memory
        → IsFileRefusal file before number refused → IsFileRefusal file behind place other
        → (before ≡ behind) × (number ≡ place) × (refused ≡ other) }
{}
