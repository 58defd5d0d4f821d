//! Certificates: what is read of bytes, and which bytes a sink gets.
ghost use Rattle.std.specs.Prelude.{◌≡◌, ◌<◌, ◌⊎◌, ℕ, ◌++◌, ◌∷◌, [], List, Option, None, Some, length, take, map, replicate, IfOk, IfErr, IfSome, OnOk, IsErrOf, codes};
ghost use Rattle.std.specs.Option.{option_copied};
ghost use Rattle.crp_plan.specs.BayNames.{YardBay, IsYardBay};
ghost use Rattle.crp_plan.specs.Rows.{tallest};
ghost use Rattle.crp_plan.specs.Bay.{Problem as Stated, IsProblem, Position};
ghost use Rattle.crp_plan.specs.Plans.{ProblemPath};
ghost use Rattle.crp_plan.specs.Faults.{IsPlanPath};
ghost use Rattle.crp_plan.specs.Devices.{CountsOne};
ghost use Rattle.crp_tree.specs.Tree.{Tree};
ghost use Rattle.crp_tree.specs.Mark.{X, B, L};
ghost use Rattle.crp_tree.specs.Trees.{nodes, Fits};
ghost use Rattle.crp_tree.specs.Claims.{path_in, names};
ghost use Rattle.crp_tree.specs.Parts.{Certificate, IsAbout, claimed, part_of};
ghost use Rattle.crp_cert.specs.declared.claim.Claim.TheVariants.{AtLeast};
ghost use Rattle.crp_cert.specs.declared.head.Head.{Head};
ghost use Rattle.crp_cert.specs.declared.script.Script.{Script as Said};
ghost use Rattle.crp_cert.specs.Text.{head_text, IsHead, IsHeadOf};
ghost use Rattle.crp_cert.specs.Faults.{IsFirstFault};
ghost use Rattle.crp_cert.specs.Script.{symbols_of, IsScriptOf, claim_of};
ghost use Rattle.crp_cert.specs.ScriptFaults.{IsFirstFaultOfScript};
ghost use Rattle.crp_cert.specs.Writing.{certificate_text, first_certificate_text, head_for, version_under};
ghost use Rattle.crp_callers.specs.SmallBay.{lines, head_lines, small_head};

use crp_cert::{
    CertFault, Script, cert_text, head_or_fault, one_head, one_script, read_cert, read_head,
    script_or_fault, symbols_are_marks, write_cert, write_first, written_is_read,
};
use crp_plan::{BayName, Plan, Problem, Received, WriteFault, begins_somewhere};
use crp_tree::{Cert, claims_are_accepted};
use std::alloc::Global;

/// No bytes are no certificate: the first line is missing.
pub fn read_no_bytes(alloc: Global) -> CertFault
    ensures { (result ≡ CertFault.Opening 1) ⊎ (result ≡ CertFault.Memory) }
{
    match read_cert(alloc, b"") {
        Ok(_) => unreachable!(),
        Err(fault) => fault,
    }
}

/// Nor are they a head.
pub fn read_no_head(alloc: Global) -> CertFault
    ensures { (result ≡ CertFault.Opening 1) ⊎ (result ≡ CertFault.Memory) }
{
    match read_head(alloc, b"") {
        Ok(_) => unreachable!(),
        Err(fault) => fault,
    }
}

/// Reads the certificate of the small bay: exactly its head and its one part, unless memory runs out.
pub fn read_small(alloc: Global) -> Result<Script, CertFault>
    ensures read { IfOk result (λ script. (script.head ≡ small_head) × (names script.parts ≡ [] ∷ [])
        × (map (λ part. symbols_of part.tree) script.parts ≡ codes "L" ∷ [])) }
    ensures refused { IfErr result (λ fault. fault ≡ CertFault.Memory) }
{
    begins_somewhere();
    one_script();
    script_or_fault();
    read_cert(
        alloc,
        b"CRP-CERT 1\nbay A 1\nsize 2 2 2 3\nrow 1 3\nrow 2\nat least 2\nplan 2 1\npart /: L\nend 1\n",
    )
}

/// Writes a certificate and reads it again: the script that is read has the head and the parts of what was written, and nothing but want of memory
/// keeps it from being read.
pub fn read_written(
    alloc: Global,
    bay: &BayName,
    problem: &Problem,
    cert: &Cert,
    plan: Option<&Plan>,
) -> Result<Script, CertFault>
    requires about { IsAbout problem.now cert.now }
    requires plan { IfSome (path_in (option_copied plan)) (IsPlanPath problem.now) }
    ensures same { IfOk result (λ script. (script.head ≡ head_for (version_under problem.now (AtLeast cert.now.lower) (map part_of cert.now.parts)) bay.now problem.now (AtLeast cert.now.lower) (option_copied plan.entry))
        × (names script.parts ≡ names (map part_of cert.now.parts))
        × (map (λ part. symbols_of part.tree) script.parts ≡ map (λ part. symbols_of part.tree) (map part_of cert.now.parts))) }
    ensures refused { IfErr result (λ fault. fault ≡ CertFault.Memory) }
{
    claims_are_accepted();
    written_is_read();
    one_script();
    script_or_fault();
    let _named = bay.bay();
    match cert_text(alloc, bay, problem, cert, plan) {
        Ok(text) => read_cert(alloc, &text),
        Err(_) => Err(CertFault::Memory),
    }
}

/// Writes a certificate behind what the sink has. It gets the text of the certificate; or, where the sink finds no memory, a front that is not all of it,
/// and one failure more; or nothing, where there is no memory for the text.
pub fn receive_certificate(
    alloc: Global,
    sink: &mut Received,
    bay: &BayName,
    problem: &Problem,
    cert: &Cert,
    plan: Option<&Plan>,
) -> Result<(), WriteFault>
    ensures all { OnOk result (sink.new.bytes.items ≡ sink.old.bytes.items ++ certificate_text bay.now problem.now cert.now (option_copied plan.entry)) }
    ensures part { IsErrOf result WriteFault.Failed → (n : ℕ) × (n < length (certificate_text bay.now problem.now cert.now (option_copied plan.entry)))
        × (sink.new.bytes.items ≡ sink.old.bytes.items ++ take n (certificate_text bay.now problem.now cert.now (option_copied plan.entry))) }
    ensures memory { IsErrOf result WriteFault.Memory → sink.new ≡ sink.old }
    ensures no_failure { OnOk result (sink.new.failed ≡ sink.old.failed) }
    ensures one_failure { IsErrOf result WriteFault.Failed → CountsOne sink.old.failed sink.new.failed }
{
    write_cert(alloc, sink, bay, problem, cert, plan)
}

/// The same of a certificate that claims its plan to be the first best one.
pub fn receive_first_certificate(
    alloc: Global,
    sink: &mut Received,
    bay: &BayName,
    problem: &Problem,
    cert: &Cert,
    plan: &Plan,
) -> Result<(), WriteFault>
    ensures all { OnOk result (sink.new.bytes.items ≡ sink.old.bytes.items ++ first_certificate_text bay.now problem.now cert.now plan.now) }
    ensures part { IsErrOf result WriteFault.Failed → (n : ℕ) × (n < length (first_certificate_text bay.now problem.now cert.now plan.now))
        × (sink.new.bytes.items ≡ sink.old.bytes.items ++ take n (first_certificate_text bay.now problem.now cert.now plan.now)) }
    ensures memory { IsErrOf result WriteFault.Memory → sink.new ≡ sink.old }
    ensures no_failure { OnOk result (sink.new.failed ≡ sink.old.failed) }
    ensures one_failure { IsErrOf result WriteFault.Failed → CountsOne sink.old.failed sink.new.failed }
{
    write_first(alloc, sink, bay, problem, cert, plan)
}

/// These lines are the head of the small bay's certificate, and of no other; what stands behind them does not change that.
pub fn head_of_lines()
    ensures { (head : Head) (rest more : List ℕ) → IsHead head → lines head_lines ++ more ≡ head_text head ++ rest → (head ≡ small_head) × (rest ≡ more) }
{
    one_head();
}

/// Bytes that begin with a head have no first fault of one, and other bytes have one and no other.
pub fn heads_or_faults()
    ensures none { (head : Head) (rest : List ℕ) (fault : CertFault) → IsHead head → IsFirstFault (head_text head ++ rest) fault → ⊥ }
    ensures one { (bytes : List ℕ) → ((head : Head) → IsHeadOf bytes head → ⊥)
        → (fault : CertFault) × IsFirstFault bytes fault × ((other : CertFault) → IsFirstFault bytes other → other ≡ fault) }
{
    head_or_fault();
}

/// Bytes that are no certificate have a first fault, and no other.
pub fn one_fault_of_certificate()
    ensures { (bytes : List ℕ) → ((script : Said) → IsScriptOf bytes script → ⊥)
        → (fault : CertFault) × IsFirstFaultOfScript bytes fault × ((other : CertFault) → IsFirstFaultOfScript bytes other → other ≡ fault) }
{
    script_or_fault();
}

/// A certificate whose first line is that of version 1 is one of a bay whose rows have one height.
pub fn one_height_in_version_one()
    ensures { (bay : YardBay) (p : Stated) (cert : Certificate) (plan : Option ProblemPath) (rest : List ℕ) → IsProblem p
        → certificate_text bay p cert plan ≡ lines (codes "CRP-CERT 1" ∷ []) ++ rest → p.heights ≡ replicate (length p.stacks) (tallest p.heights) }
{
    written_is_read();
}

/// What is written of a certificate about a problem, with a plan of it or none, is read as what it claims.
pub fn written_claims_are_read()
    ensures { (bay : YardBay) (p : Stated) (cert : Certificate) (plan : Option ProblemPath) → IsYardBay bay → IsAbout p cert
        → IfSome (path_in plan) (IsPlanPath p)
        → (script : Said) × IsScriptOf (certificate_text bay p cert plan) script × (claim_of script ≡ claimed p cert (path_in plan)) }
{
    claims_are_accepted();
    written_is_read();
}

/// So it is with what is written of one that claims its plan to be the first best one.
pub fn first_claims_are_read()
    ensures { (bay : YardBay) (p : Stated) (cert : Certificate) (plan : ProblemPath) → IsYardBay bay → IsAbout p cert → IsPlanPath p plan.path
        → (script : Said) × IsScriptOf (first_certificate_text bay p cert plan) script × (claim_of script ≡ claimed p cert (Some plan.path)) }
{
    claims_are_accepted();
    written_is_read();
}

/// The symbols XBL stand for a branch, a cut by the blocking bound and a cut by the look-ahead bound, in this order.
pub fn symbols_say_marks()
    ensures { (path : List ℕ) (s : Position) (tree : Tree) → Fits s tree → symbols_of tree ≡ codes "XBL"
        → map (λ node. node.mark) (nodes path s tree) ≡ X ∷ B ∷ L ∷ [] }
{
    symbols_are_marks();
}
