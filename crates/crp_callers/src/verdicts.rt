//! The checker of certificates: what its verdicts say, and which texts it refuses.
ghost use Rattle.std.specs.Prelude.{◌≡◌, ◌≤◌, ◌⊎◌, ℕ, ◌++◌, ◌∷◌, [], List, Some, None, length, IfOk, IfErr, IfSome, IsTrue};
ghost use Rattle.crp_plan.specs.BayNames.{YardBay};
ghost use Rattle.crp_plan.specs.declared.moves.Move.{Move};
ghost use Rattle.std.specs.Option.{option_copied};
ghost use Rattle.crp_plan.specs.Bay.{Problem as Statement, cap, IsProblem, IsPlan, IsBest, relocations};
ghost use Rattle.crp_plan.specs.Faults.{IsPlanPath};
ghost use Rattle.crp_tree.specs.Claims.{path_in};
ghost use Rattle.crp_tree.specs.Parts.{IsAbout};
ghost use Rattle.crp_tree.specs.First.{IsFirstBest, MeetNeeds};
ghost use Rattle.crp_cert.specs.declared.script.Script.{Script};
ghost use Rattle.crp_cert.specs.declared.head.Head.{Head};
ghost use Rattle.crp_cert.specs.Text.{IsHeadOf};
ghost use Rattle.crp_cert.specs.Script.{IsScriptOf};
ghost use Rattle.crp_checker.specs.declared.verdict.Verdict.{Verdict as Shown};
ghost use Rattle.crp_checker.specs.AcceptedTexts.{IsAcceptedScript, IsAcceptedText};
ghost use Rattle.crp_checker.specs.Refusals.{IsFirstWrongClaim, IsRefusal};
ghost use Rattle.crp_checker.specs.Shown.{TextShowsFor};
ghost use Rattle.crp_checker.specs.Verdicts.{Says};
ghost use Rattle.crp_checker.specs.Files.{IsEnded, FileShows};

use crp_cert::{CertFault, cert_text, first_text, read_head};
use crp_checker::{
    Refused, Verdict, accepted_or_refused, check, check_file, check_for, first_is_best,
    first_written_is_accepted, one_cut, right_or_wrong, shown_or_refused, verdicts_say,
    written_is_accepted,
};
use crp_plan::{BayName, Plan, Problem, begins_somewhere};
use crp_tree::Cert;
use std::alloc::Global;

/// No bytes are refused: the first line is missing.
pub fn check_no_bytes(alloc: Global) -> Refused
    ensures { (result ≡ Refused.Cert (CertFault.Opening 1)) ⊎ (result ≡ Refused.Memory) }
{
    match check(alloc, b"") {
        Ok(_) => unreachable!(),
        Err(refused) => refused,
    }
}

/// So it is where the certificate of one problem is asked for.
pub fn check_no_bytes_for(alloc: Global, problem: &Problem) -> Refused
    ensures { (result ≡ Refused.Cert (CertFault.Opening 1)) ⊎ (result ≡ Refused.Memory) }
{
    match check_for(alloc, problem, b"") {
        Ok(_) => unreachable!(),
        Err(refused) => refused,
    }
}

/// Whether the bytes are an accepted certificate; nothing where memory runs out.
pub fn is_accepted(alloc: Global, bytes: &[u8]) -> Option<bool>
    ensures accepted { IfSome result (λ accepted. IsTrue accepted → (script : Script) × IsAcceptedText None bytes.now script) }
    ensures rejected { IfSome result (λ accepted. (script : Script) → IsAcceptedText None bytes.now script → IsTrue accepted) }
{
    match check(alloc, bytes) {
        Ok(_) => Some(true),
        Err(Refused::Memory) => None,
        Err(_) => Some(false),
    }
}

/// Whether they are an accepted certificate of this problem.
pub fn is_accepted_for(alloc: Global, problem: &Problem, bytes: &[u8]) -> Option<bool>
    ensures accepted { IfSome result (λ accepted. IsTrue accepted → (script : Script) × IsAcceptedText (Some problem.now) bytes.now script) }
    ensures rejected { IfSome result (λ accepted. (script : Script) → IsAcceptedText (Some problem.now) bytes.now script → IsTrue accepted) }
{
    match check_for(alloc, problem, bytes) {
        Ok(_) => Some(true),
        Err(Refused::Memory) => None,
        Err(_) => Some(false),
    }
}

/// The bound of an accepted certificate: no plan of the bay that it states has fewer relocations, and there is no plan where the bound is the cap.
pub fn shown_bound(alloc: Global, bytes: &[u8]) -> Option<u32>
    ensures bound { IfSome result (λ least. (head : Head) × IsHeadOf bytes.now head
        × ((moves : List Move) → IsPlan head.problem moves → least ≤ relocations moves)) }
    ensures none { IfSome result (λ least. (head : Head) × IsHeadOf bytes.now head
        × (least ≡ cap head.problem → (moves : List Move) → IsPlan head.problem moves → ⊥)) }
{
    let Ok(head) = read_head(alloc, bytes) else {
        return None;
    };
    let Ok(_verdict) = check(alloc, bytes) else {
        return None;
    };
    Some(head.claim.bound())
}

/// So it is with the plans of a problem, where the certificate is one of it.
pub fn shown_bound_for(alloc: Global, problem: &Problem, bytes: &[u8]) -> Option<u32>
    ensures bound { IfSome result (λ least. (moves : List Move) → IsPlan problem.now moves → least ≤ relocations moves) }
    ensures none { IfSome result (λ least. least ≡ cap problem.now → (moves : List Move) → IsPlan problem.now moves → ⊥) }
{
    let Ok(head) = read_head(alloc, bytes) else {
        return None;
    };
    let Ok(_verdict) = check_for(alloc, problem, bytes) else {
        return None;
    };
    Some(head.claim.bound())
}

/// The verdict on an accepted certificate: what it says is so of the bay that the certificate states.
pub fn said_of_stated(alloc: Global, bytes: &[u8]) -> Option<Verdict>
    ensures { IfSome result (λ verdict. (head : Head) × IsHeadOf bytes.now head × Says head.problem verdict) }
{
    let Ok(verdict) = check(alloc, bytes) else {
        return None;
    };
    Some(verdict)
}

/// So it is of a problem, where the certificate is one of it.
pub fn said_of_problem(alloc: Global, problem: &Problem, bytes: &[u8]) -> Option<Verdict>
    ensures { IfSome result (λ verdict. Says problem.now verdict) }
{
    let Ok(verdict) = check_for(alloc, problem, bytes) else {
        return None;
    };
    Some(verdict)
}

/// Checks the certificate of the small bay: two relocations are the fewest, unless memory runs out.
pub fn check_small(alloc: Global) -> Result<Verdict, Refused>
    ensures shown { IfOk result (λ verdict. verdict ≡ Verdict.Optimal 2) }
    ensures refused { IfErr result (λ refused. refused ≡ Refused.Memory) }
{
    begins_somewhere();
    accepted_or_refused();
    check(
        alloc,
        b"CRP-CERT 1\nbay A 1\nsize 2 2 2 3\nrow 1 3\nrow 2\nat least 2\nplan 2 1\npart /: L\nend 1\n",
    )
}

/// The fewest relocations, where a certificate shows them: no legal plan of the bay that it states has fewer, and one has as many.
pub fn fewest(alloc: Global, bytes: &[u8]) -> Option<u32>
    ensures { IfSome result (λ count. (script : Script) × IsScriptOf bytes.now script × IsBest script.head.problem count) }
{
    verdicts_say();
    let Ok(Verdict::Optimal(count)) = check(alloc, bytes) else {
        return None;
    };
    Some(count)
}

/// The relocations of the first best plan, where a certificate shows it: its own plan is that one.
pub fn first_best(alloc: Global, bytes: &[u8]) -> Option<u32>
    ensures { IfSome result (λ count. (script : Script) × IsScriptOf bytes.now script
        × ((path : List ℕ) × (script.head.plan ≡ Some path) × (length path ≡ count) × IsFirstBest script.head.problem path)) }
{
    first_is_best();
    let Ok(Verdict::First(count)) = check(alloc, bytes) else {
        return None;
    };
    Some(count)
}

/// A file without bytes has no certificate, and is not refused: none of its certificates is wrong.
pub fn check_no_file(alloc: Global) -> Option<usize>
    ensures { IfSome result (λ count. count ≡ 0) }
{
    shown_or_refused();
    match check_file(alloc, b"") {
        Ok(shown) => Some(shown.as_slice().len()),
        Err(refusal) => match refusal.refused {
            Refused::Memory => None,
            _ => unreachable!(),
        },
    }
}

/// A file that ends within a title is refused at its first certificate, for its first line.
pub fn check_no_certificate(alloc: Global) -> Option<(u64, Refused)>
    ensures { IfSome result (λ refusal. refusal ≡ (1, Refused.Cert (CertFault.Opening 1))) }
{
    shown_or_refused();
    match check_file(alloc, b"CRP") {
        Ok(_) => unreachable!(),
        Err(refusal) => match refusal.refused {
            Refused::Memory => None,
            refused => Some((refusal.number, refused)),
        },
    }
}

/// A file of two certificates, one behind the other, shows of each what that one shows, in their order.
pub fn two_are_shown()
    ensures { (first second : List ℕ) (verdicts : List (YardBay × Shown)) → IsEnded first → IsEnded second → FileShows (first ++ second) verdicts
        → (a : YardBay × Shown) × (b : YardBay × Shown) × (verdicts ≡ a ∷ b ∷ []) × TextShowsFor first a.0 a.1 × TextShowsFor second b.0 b.1 }
{
    one_cut();
}

/// Writes a certificate and checks it: nothing but want of memory keeps it from being accepted.
pub fn check_written(
    alloc: Global,
    bay: &BayName,
    problem: &Problem,
    cert: &Cert,
    plan: Option<&Plan>,
) -> Result<Verdict, Refused>
    requires about { IsAbout problem.now cert.now }
    requires plan { IfSome (path_in (option_copied plan)) (IsPlanPath problem.now) }
    ensures { IfErr result (λ refused. refused ≡ Refused.Memory) }
{
    written_is_accepted();
    accepted_or_refused();
    let _named = bay.bay();
    match cert_text(alloc, bay, problem, cert, plan) {
        Ok(text) => check_for(alloc, problem, &text),
        Err(_) => Err(Refused::Memory),
    }
}

/// So it is with one that claims its plan to be the first best one, where its cuts meet their needs.
pub fn check_first_written(
    alloc: Global,
    bay: &BayName,
    problem: &Problem,
    cert: &Cert,
    plan: &Plan,
) -> Result<Verdict, Refused>
    requires about { IsAbout problem.now cert.now }
    requires plan { IsPlanPath problem.now plan.now.path }
    requires met { MeetNeeds (length plan.now.path) plan.now.path cert.now.parts }
    ensures { IfErr result (λ refused. refused ≡ Refused.Memory) }
{
    first_written_is_accepted();
    accepted_or_refused();
    let _named = bay.bay();
    match first_text(alloc, bay, problem, cert, plan) {
        Ok(text) => check_for(alloc, problem, &text),
        Err(_) => Err(Refused::Memory),
    }
}

/// Where no problem is asked for, a claim that is accepted is not wrong, and another is wrong in one way at most.
pub fn claims_are_right_or_wrong()
    ensures right { (script : Script) (refused : Refused) → IsAcceptedScript script → IsFirstWrongClaim None script refused → ⊥ }
    ensures wrong { (script : Script) (refused other : Refused) → IsProblem script.head.problem → IsFirstWrongClaim None script refused
        → IsFirstWrongClaim None script other → refused ≡ other }
{
    right_or_wrong();
}

/// Bytes are refused for one reason, whatever problem is asked for.
pub fn one_reason()
    ensures { (problem : Statement) (bytes : List ℕ) (refused other : Refused) → IsRefusal (Some problem) bytes refused
        → IsRefusal (Some problem) bytes other → refused ≡ other }
{
    accepted_or_refused();
}
