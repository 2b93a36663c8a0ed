//! Why a job is refused.
ghost use Rattle.std.specs.Prelude.{◌≡◌};
ghost use Rattle.report.specs.declared.fault.JobFault.TheVariants as job;
ghost use Rattle.report.specs.Faults.{fault_number};

use reader::fault::FileFault;
use refusal::Numbered;
use text::fault::TextFault;
use thiserror::Error;

/// Why a job is refused; a fault of its model file or its question is held whole.
#[derive(Clone, Copy, PartialEq, Eq, Debug, Error)]
pub enum JobFault {
    #[error("the list has fewer than 512 places")]
    Places,
    #[error("the job is longer than 16,384 bytes")]
    Length,
    #[error("the model file is refused: {0}")]
    Model(FileFault),
    #[error("the question is refused: {0}")]
    Question(TextFault),
}

// kept: the derive's From has no contract
impl From<FileFault> for JobFault {
    ghost from_gives = { λ x y. y ≡ job.Model x };

    fn from(fault: FileFault) -> JobFault {
        JobFault::Model(fault)
    }
}

// kept: the derive's From has no contract
impl From<TextFault> for JobFault {
    ghost from_gives = { λ x y. y ≡ job.Question x };

    fn from(fault: TextFault) -> JobFault {
        JobFault::Question(fault)
    }
}

impl Numbered for JobFault {
    ghost number_of = { fault_number };

    fn number(self) -> u8 {
        // kept: a case with a value has no number that `as` could read
        match self {
            JobFault::Places => 41,
            JobFault::Length => 42,
            JobFault::Model(_) => 44,
            JobFault::Question(_) => 46,
        }
    }
}
