//! What to look at after a fault of a certificate or of its plan.
ghost use Rattle.crp_jobs.specs.Advice.{IsPlainLine};

use crate::advice::MEMORY;
use crp_cert::CertFault;
use crp_checker::Refused;
use crp_plan::PlanFault;

/// Of a certificate's text.
pub(crate) fn advice_on_certificate(fault: &CertFault) -> &'static str
    ensures { IsPlainLine result.now }
{
    match fault {
        CertFault::Opening { .. } => {
            "a certificate begins with the lines CRP-CERT 1 (or 2) and bay BLOCK BAY: single spaces, and LF alone as line end"
        }
        CertFault::Size { .. } => {
            "size ROWS TIERS N M has 1 to 12 rows, 1 to 8 tiers, N <= M <= ROWS*TIERS; heights has one a row, the largest is TIERS"
        }
        CertFault::Row { .. } => {
            "a row line is row and its ranks from bottom to top, no more than fit; each rank from 1 to M stands in one place"
        }
        CertFault::Claim { .. } => {
            "this line must be the claim, such as at least 3 (or first 3, in version 2), and its number at most N*(TIERS-1)+1"
        }
        CertFault::Plan { .. } => {
            "this line must be plan and the rows that containers go to (at most 672, one or two digits each), or plan -"
        }
        CertFault::Part { .. } => {
            "this line must be part NAME: SYMBOLS, where NAME is / or at most 8 legal rows joined by points, as 2.12.1"
        }
        CertFault::Order { .. } => {
            "parts must stand in the rising order of their names, and no name may come twice"
        }
        CertFault::Symbol { .. } => {
            "the symbols of a part must be B, L, X or G, and the first must not be G"
        }
        CertFault::Unfinished { .. } => {
            "symbols are missing: behind an X there must be a tree for each legal row"
        }
        CertFault::Trailing { .. } => "symbols are left over: the tree ends before the line does",
        CertFault::End { .. } => {
            "this line must be a part, or the last line, end COUNT, where COUNT is the number of parts"
        }
        CertFault::Memory => MEMORY,
    }
}

/// Of a head's plan.
pub(crate) fn advice_on_plan(fault: &PlanFault) -> &'static str
    ensures { IsPlainLine result.now }
{
    match fault {
        PlanFault::NoSuchRow { .. } => {
            "the plan line names a row at that step that the bay does not have"
        }
        PlanFault::NotLegal { .. } => {
            "the plan line names a row at that step that is full, or that the next container to leave stands in"
        }
        PlanFault::LeftOver { .. } => {
            "the plan line goes on where all that are to leave have left: it must end before that step"
        }
        PlanFault::Incomplete => {
            "the plan line ends where containers that are to leave still stand in the bay"
        }
    }
}

// Of the plan of a certificate that is checked.
fn advice_on_checked_plan(fault: &PlanFault) -> &'static str
    ensures { IsPlainLine result.now }
{
    match fault {
        PlanFault::NoSuchRow { .. } => {
            "the certificate's plan is none of its bay: at that step it goes to a row that the bay does not have"
        }
        PlanFault::NotLegal { .. } => {
            "the certificate's plan is none of its bay: at that step the row is full, or the next container to leave is in it"
        }
        PlanFault::LeftOver { .. } => {
            "the certificate's plan is none of its bay: before that step all that are to leave have left"
        }
        PlanFault::Incomplete => {
            "the certificate's plan is none of its bay: at its end containers that are to leave still stand there"
        }
    }
}

/// Of a certificate that is checked.
pub(crate) fn advice_on_refused(refused: &Refused) -> &'static str
    ensures { IsPlainLine result.now }
{
    match refused {
        Refused::Cert(fault) => advice_on_certificate(fault),
        Refused::OtherProblem =>
            "the certificate states another problem than the one that was asked for",
        Refused::Plan(fault) => advice_on_checked_plan(fault),
        Refused::NoFirstPlan => {
            "the first best plan is claimed: the plan line must give a plan, and of as many relocations as the claim"
        }
        Refused::Low { .. } => {
            "the certificate does not show its claim: at this symbol (B or L) the bound is below what the claim needs"
        }
        Refused::Finished { .. } => {
            "this symbol is an X where all that are to leave have left: only B, L or G may stand there"
        }
        Refused::Unshown { .. } => {
            "the certificate does not show its claim: these reasons do not show as many relocations as their number says"
        }
        Refused::Missing { .. } => {
            "the part of this name is missing: the part / must be there, and one for each G of another part"
        }
        Refused::Unneeded { .. } => "no G of another part gives this name: its part must go",
        Refused::Memory => MEMORY,
    }
}
