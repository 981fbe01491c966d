//! Gathering what the threads returned.
ghost use Rattle.std.specs.Prelude.{◌≡◌, map, All, IfOk, IfErr, IsTrue};
ghost use Rattle.itip_office.specs.Texts.{desk_of, AreThere};
ghost use Rattle.itip_office.specs.Answers.{AnswersAlone};
ghost use Rattle.itip_office.specs.Merged.{HasMerged};
ghost use Rattle.itip_office.specs.Published.{AreShown, HasShown, publication_of};
ghost use Rattle.itip_office.specs.Ended.{AreGathered};
ghost use Rattle.itip_office.specs.Exchanged.{AreNoLoops};

use crate::error::OfficeError;
use crate::job::Job;
use crate::outcome::Outcome;
use crate::team::{Done, Merged};
use itip_desk::Desk;
use std::sync::Wait;

/// All answers in one list, and the desks of texts of all keepers. Fails with 44 if a keeper answered a job that is for another desk or
/// that names a desk that isn't there.
pub(crate) fn gather<R: AllocGlobal + Wait + Copy>(
    rt: &R,
    desks: usize,
    done: Done<R>,
) -> Result<(Vec<(Job, Outcome)>, Vec<Desk>), OfficeError>
    requires alone { All (λ a. AnswersAlone desks a.0.work a.1) done.alone.items }
    requires kept { All (λ k. HasMerged k.desk k.answers.items k.held.texts) done.kept.items }
    requires shown { AreShown desks done.alone.items (map (λ k. publication_of k.desk k.answers.items k.held.shown) done.kept.items) }
    ensures gathered { IfOk result (λ r. AreGathered desks r.0.items r.1.items) }
    ensures shown { IfOk result (λ r. HasShown desks r.0.items) }
    ensures causes { IfErr result AreNoLoops }
{
    let Done { alone, kept } = done;
    let mut answers = alone;
    let mut texts = Vec::new(rt.alloc());
    for one in kept {
        let Merged {
            desk,
            held,
            answers: mut merged,
        } = one;
        if !are_for(desk, desks as u64, &merged) {
            return Err(OfficeError::StrangeDone);
        }
        answers.append(&mut merged)?;
        texts.push(held.into_texts())?;
    }
    Ok((answers, texts))
}

// Whether all these jobs are for this desk, and all desks that they name are below `desks`.
fn are_for(desk: u64, desks: u64, answers: &[(Job, Outcome)]) -> bool
    ensures { IsTrue result → All (λ a. (desk_of a.0.work ≡ desk) × AreThere desks a.0.work) answers.now }
{
    answers.iter().all(|answer| answer.0.desk() == desk && answer.0.is_within(desks))
}
