//! The law of what an office ends with. The function does nothing: its contract is the law.
ghost use Rattle.std.specs.Prelude.{◌≡◌, ℕ, List, IsPermutation};
ghost use Rattle.std.specs.List.{Contains};
ghost use Rattle.itip_state.specs.Kept.{SameItems};
ghost use Rattle.itip_desk.specs.Desk.{Shown};
ghost use Rattle.itip_office.specs.declared.job.Job.{Job};
ghost use Rattle.itip_office.specs.declared.outcome.Outcome.{Outcome};
ghost use Rattle.itip_office.specs.Texts.{IsText};
ghost use Rattle.itip_office.specs.Ended.{HasEnded};

/// Offices with the same number of desks that end with the same jobs, handed in in any order, keep the same at all desks and answer each
/// text alike, whatever the workers, the schedule and what carries brought (our own rule).
pub fn one_end()
    ensures desks { (desks : ℕ) (jobs others : List Job) (replies answered : List (ℕ × Outcome)) (ended apart : List Shown) →
        IsPermutation jobs others → HasEnded desks jobs replies ended → HasEnded desks others answered apart →
        (desk other : Shown) → Contains ended desk → Contains apart other → SameItems desk.kept other.kept }
    ensures texts { (desks : ℕ) (jobs others : List Job) (replies answered : List (ℕ × Outcome)) (ended apart : List Shown)
        (one : HasEnded desks jobs replies ended) (two : HasEnded desks others answered apart) →
        (job : Job) (outcome other : Outcome) → IsText job.work → Contains one.answers (job, outcome) → Contains two.answers (job, other) →
        outcome ≡ other }
    ensures replies { (desks : ℕ) (jobs others : List Job) (replies answered : List (ℕ × Outcome)) (ended apart : List Shown)
        (one : HasEnded desks jobs replies ended) (two : HasEnded desks others answered apart) → IsPermutation jobs others →
        (job : Job) (outcome other : Outcome) → Contains jobs job → IsText job.work → Contains replies (job.number, outcome) →
        Contains answered (job.number, other) → outcome ≡ other }
{}
