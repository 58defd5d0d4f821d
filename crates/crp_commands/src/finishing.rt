//! How a call ends that wrote files.
ghost use Rattle.std.specs.Prelude.{◌≡◌, Ok, Err, IfOk, IfErr, OnOk, OnErr};
ghost use Rattle.crp_jobs.specs.declared.outcome.ToolFault.TheVariants.{Run};

use crp_files::NotFinished;
use crp_jobs::ToolFault;
use crp_report::{Fault, Status};

/// The answer, but where all was done and then a file could not be finished, this fault.
pub fn unless_unfinished<E: Drop>(
    answer: Result<Status, E>,
    finished: Result<(), NotFinished>,
    fault: E,
) -> Result<Status, E>
    ensures failed { IfErr answer (λ f. result ≡ Err f) }
    ensures done { OnOk answer (OnOk finished (result ≡ answer)) }
    ensures unfinished { OnOk answer (OnErr finished (result ≡ Err fault)) }
{
    let status = answer?;
    match finished {
        Ok(()) => Ok(status),
        Err(_) => Err(fault),
    }
}

/// How a run ended, as its job states it.
pub fn of_job(answer: Result<Status, Fault>) -> Result<Status, ToolFault>
    ensures done { IfOk answer (λ ended. result ≡ Ok ended) }
    ensures failed { IfErr answer (λ f. result ≡ Err (Run f)) }
{
    match answer {
        Ok(status) => Ok(status),
        Err(fault) => Err(ToolFault::Run(fault)),
    }
}
