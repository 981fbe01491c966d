//! Laws of the definitions, each the contract of a function that does nothing.
ghost use Rattle.std.specs.Prelude.{◌≡◌, ℕ, ℤ, List, Option, Some, IfSome, IfNone};
ghost use Rattle.std.specs.Cmp.{IsTotalOrder};
ghost use Rattle.std.proofs.lemmas.Map.Lookups.{CmpEqualImpliesEq};
ghost use Rattle.itip_moment.specs.declared.moment.Moment.{Moment};
ghost use Rattle.itip_moment.specs.declared.stamp.Stamp.{Stamp};
ghost use Rattle.itip_moment.specs.Order.{stamp_cmp, moment_cmp};
ghost use Rattle.itip_moment.specs.Shift.{IsShifted};
ghost use Rattle.itip_moment.specs.Spelling.{IsDateText, IsStampText, MomentText};
ghost use Rattle.itip_moment.specs.Written.{date_text, stamp_text, moment_text, moment_tzid};
ghost use Rattle.itip_moment.specs.Years.{IsDayNumber};

/// What is written spells the value itself, beside its own TZID.
pub fn written_texts_are_read_back()
    ensures date { (day : ℤ) → IsDayNumber day → IsDateText (date_text day) day }
    ensures stamp { (s : Stamp) → IsStampText (stamp_text s) s }
    ensures moment { (m : Moment) → MomentText (moment_text m) (moment_tzid m) m }
{}

/// Any result that meets the contract of `read_stamp` or `read_moment` gives back what was written.
pub fn readers_give_back_what_was_written()
    ensures stamp { (r : Option Stamp) (s : Stamp) → IfSome r (IsStampText (stamp_text s))
        → IfNone r ((t : Stamp) → IsStampText (stamp_text s) t → ⊥) → r ≡ Some s }
    ensures moment { (r : Option Moment) (m : Moment) → IfSome r (MomentText (moment_text m) (moment_tzid m))
        → IfNone r ((n : Moment) → MomentText (moment_text m) (moment_tzid m) n → ⊥)
        → r ≡ Some m }
{}

/// A text spells at most one value.
pub fn texts_spell_one_value()
    ensures date { (text : List ℕ) (a b : ℤ) → IsDateText text a → IsDateText text b → a ≡ b }
    ensures stamp { (text : List ℕ) (s t : Stamp) → IsStampText text s → IsStampText text t → s ≡ t }
    ensures moment { (text : List ℕ) (tzid : Option (List ℕ)) (m n : Moment)
        → MomentText text tzid m → MomentText text tzid n → m ≡ n }
{}

/// The orders are total, and values that compare as `Equal` are one value.
pub fn orders_tell_values_apart()
    ensures stamps_total { IsTotalOrder stamp_cmp }
    ensures stamps { CmpEqualImpliesEq stamp_cmp }
    ensures moments_total { IsTotalOrder moment_cmp }
    ensures moments { CmpEqualImpliesEq moment_cmp }
{}

/// Moving a moment by days and seconds has at most one result.
pub fn sums_are_one_moment()
    ensures { (old : Moment) (days seconds : ℤ) (a b : Moment)
        → IsShifted old days seconds a → IsShifted old days seconds b → a ≡ b }
{}
