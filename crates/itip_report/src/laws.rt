//! The laws of reports, for every finite set of items. They need no code: each function is empty.
ghost use Rattle.std.specs.Prelude.{◌≡◌, ◌∷◌, [], ℕ, List, Option};
ghost use Rattle.itip_message.specs.Message.{ReadsMessage};
ghost use Rattle.itip_items.specs.declared.item.Item.{Item};
ghost use Rattle.itip_view.specs.OfKept.{FollowsFromKept};
ghost use Rattle.itip_view.specs.declared.window.Window.{Window};
ghost use Rattle.itip_report.specs.Reports.{AreReportLines};
ghost use Rattle.itip_report.specs.Named.{IsReportOf};
ghost use Rattle.itip_report.specs.Resending.{IsResend, IsResendOf};
ghost use Rattle.itip_report.specs.NextSequence.{IsNext};
ghost use Rattle.itip_report.specs.declared.report.Report.{Report};
ghost use Rattle.itip_report.specs.declared.report_name.ReportName.{ReportName};

/// What the reports say of what is kept is what they say of all that was heard (our own rules).
pub fn reports_of_kept()
    ensures lines { (report : Report) (lines : List (List ℕ)) → FollowsFromKept (λ heard. AreReportLines report heard lines) }
    ensures named { (name : ReportName) (window : Window) (lines : List (List ℕ))
        → FollowsFromKept (λ heard. IsReportOf name heard window lines) }
    ensures resend { (uid : List ℕ) (bytes : Option (List ℕ)) → FollowsFromKept (λ heard. IsResendOf heard uid bytes) }
    ensures next { (uid : List ℕ) (next : Option ℕ) → FollowsFromKept (λ heard. IsNext heard uid next) }
{}

/// Each report has at most one answer (our own rules).
pub fn one_report()
    ensures lines { (heard : List Item) (report : Report) (lines others : List (List ℕ)) → AreReportLines report heard lines
        → AreReportLines report heard others → lines ≡ others }
    ensures named { (heard : List Item) (name : ReportName) (window : Window) (lines others : List (List ℕ))
        → IsReportOf name heard window lines → IsReportOf name heard window others → lines ≡ others }
    ensures resend { (heard : List Item) (uid : List ℕ) (bytes others : Option (List ℕ)) → IsResendOf heard uid bytes
        → IsResendOf heard uid others → bytes ≡ others }
    ensures next { (heard : List Item) (uid : List ℕ) (next other : Option ℕ) → IsNext heard uid next
        → IsNext heard uid other → next ≡ other }
{}

/// If no instance and no range of a to-do stands, what is sent again of it is a message that is read as one item, that of the series.
pub fn resend_is_read()
    ensures { (heard : List Item) (uid bytes : List ℕ) (sent : IsResend heard uid bytes)
        → sent.overrides ≡ [] → ReadsMessage bytes (sent.series ∷ []) }
{}
