ghost use Rattle.std.specs.Prelude.{◌≡◌};
ghost use Rattle.crp_c.specs.Faults.{at, step_of, fault_in_text, fault_of};

use crp_cert::CertFault;
use crp_checker::Refused;
use crp_plan::PlanFault;

/// Why a certificate is refused.
#[repr(C)]
#[derive(Clone, Copy)]
pub struct Fault {
    /// 1 to 11 for C1 to C11, 101 to 108 for K1 to K8, or 0 for none.
    pub number: u32,
    /// The line of C1 to C11, the step of the plan of K2, the symbol of its part of K3, K4 and K8, from 1; or else 0.
    pub place: u64,
}

pub(crate) fn at(number: u32, place: u64) -> Fault
    ensures { result ≡ at number place }
{
    Fault { number, place }
}

fn step_of(fault: PlanFault) -> u32
    ensures { result ≡ step_of fault }
{
    match fault {
        PlanFault::LeftOver { step } => step,
        PlanFault::NoSuchRow { step } => step,
        PlanFault::NotLegal { step } => step,
        PlanFault::Incomplete => 0,
    }
}

fn fault_in_text(fault: CertFault) -> Fault
    ensures { result ≡ fault_in_text fault }
{
    match fault {
        CertFault::Opening { line } => at(1, line as u64),
        CertFault::Size { line } => at(2, line as u64),
        CertFault::Row { line } => at(3, line as u64),
        CertFault::Claim { line } => at(4, line as u64),
        CertFault::Plan { line } => at(5, line as u64),
        CertFault::Part { line } => at(6, line as u64),
        CertFault::Order { line } => at(7, line as u64),
        CertFault::Symbol { line } => at(8, line as u64),
        CertFault::Unfinished { line } => at(9, line as u64),
        CertFault::Trailing { line } => at(10, line as u64),
        CertFault::End { line } => at(11, line as u64),
        CertFault::Memory => at(0, 0),
    }
}

/// Why a certificate is refused, in numbers; none where no memory was left.
pub(crate) fn fault_of(refused: &Refused) -> Fault
    ensures { result ≡ fault_of refused.now }
{
    match refused {
        Refused::Cert(fault) => fault_in_text(*fault),
        Refused::OtherProblem => at(101, 0),
        Refused::Plan(fault) => at(102, step_of(*fault) as u64),
        Refused::NoFirstPlan => at(102, 0),
        Refused::Low { symbol, .. } => at(103, *symbol),
        Refused::Finished { symbol, .. } => at(104, *symbol),
        Refused::Missing { .. } => at(105, 0),
        Refused::Unneeded { .. } => at(106, 0),
        Refused::Unshown { symbol, .. } => at(108, *symbol),
        Refused::Memory => at(0, 0),
    }
}
