//! The answers of a loop.
ghost use Rattle.std.specs.Prelude.{◌≡◌, ◌≢◌, ◌++◌, ◌∷◌, [], OnOk, IfErr, IsErrOf, option_to_list};

use crate::error::OfficeError;
use crate::gate::Gate;
use crate::job::Job;
use crate::outcome::Outcome;
use crate::pairs::Pairs;
use crate::source::{Source, push_some};

/// Appends an answer to those found before, and what was seen for it, if anything. Tells the gate that the job is done.
pub(crate) fn keep_answer<N: Pairs, G: Gate>(
    gate: &G,
    found: &mut (Vec<(Job, Outcome)>, Vec<Source<N>>),
    answer: (Job, Outcome),
    source: Option<Source<N>>,
) -> Result<(), OfficeError>
    ensures answers { OnOk result (found.new.0.items ≡ found.old.0.items ++ answer ∷ []) }
    ensures sources { OnOk result (found.new.1.items ≡ found.old.1.items ++ option_to_list source) }
    ensures closed { IsErrOf result OfficeError.GateClosed → G.may_close }
    ensures channel { IfErr result (λ e. e ≢ OfficeError.ChannelClosed) }
{
    let number = answer.0.number;
    push_some(&mut found.1, source)?;
    found.0.push(answer)?;
    if !gate.done(number) {
        return Err(OfficeError::GateClosed);
    }
    Ok(())
}
