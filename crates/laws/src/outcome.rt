//! What a call tells.

use refusal::Refusal;
use session::state::{Reading, Standing};

/// What a call tells that is not refused.
#[derive(Clone, Copy, Debug, PartialEq, Eq)]
pub enum Outcome {
    Done,
    Read(Reading),
    Stands(Standing),
}

pub type Told = Result<Outcome, Refusal>;
