//! What holds of the messages that are written, whatever finite set of items was heard before. The functions do nothing: their
//! contracts are the laws.
ghost use Rattle.std.specs.Prelude.{◌≡◌, ◌≤◌, ◌++◌, ◌∷◌, [], ℕ, List, Option, Some, None, map};
ghost use Rattle.std.specs.List.{AllByRecursion, Contains};
ghost use Rattle.itip_moment.specs.declared.moment.Moment.{Moment};
ghost use Rattle.itip_moment.specs.declared.stamp.Stamp.{Stamp};
ghost use Rattle.itip_todo.specs.PartsOf.{parts_of};
ghost use Rattle.itip_todo.specs.declared.property_name.PropertyName.{PropertyName};
ghost use Rattle.itip_todo.specs.declared.todo.Todo.{Todo};
ghost use Rattle.itip_items.specs.Given.{AreItemsOf};
ghost use Rattle.itip_items.specs.Items.{drafts};
ghost use Rattle.itip_items.specs.MethodNeeds.{Suits};
ghost use Rattle.itip_items.specs.declared.item.Item.{Item};
ghost use Rattle.itip_items.specs.declared.kind.Method.TheVariants as method;
ghost use Rattle.itip_items.specs.declared.kind.Method.{Method};
ghost use Rattle.itip_message.specs.Message.{ReadsMessage};
ghost use Rattle.itip_report.specs.Reports.{IsWanted};
ghost use Rattle.itip_view.specs.OfKept.{FollowsFromKept};
ghost use Rattle.itip_view.specs.declared.row.Row.{Row};
ghost use Rattle.itip_view.specs.declared.window.Window.{Window};
ghost use Rattle.itip_writing.specs.Errands.{CannotBeWritten, IsWritten, LacksOf};
ghost use Rattle.itip_writing.specs.Refreshing.{IsRefresh, NoneSequenced};
ghost use Rattle.itip_writing.specs.Replying.{IsReply, IsAnswered, AsksWhole, ShowsAnswer};
ghost use Rattle.itip_writing.specs.Sent.{sent_octets};
ghost use Rattle.itip_writing.specs.declared.answer.Answer.{Answer};
ghost use Rattle.itip_writing.specs.declared.errand.Errand.{Errand};
ghost use Rattle.itip_writing.specs.declared.error.WritingError.{WritingError};

/// A message that is written and read back gives the items that it was made of. If it was made of arbitrary to-dos, each has to be what
/// the method needs, and none of their lines may begin or end a component. A REFRESH has no SEQUENCE, which is read as 0.
pub fn messages_are_read()
    ensures todos { (m : Method) (all : List Todo) (items : List Item) → AllByRecursion (Suits m) (map parts_of all)
        → (m ≡ method.Refresh → (todo : Todo) → Contains all todo → todo.seq ≡ 0)
        → ReadsMessage (sent_octets m (map parts_of all)) items → AreItemsOf (drafts m (map parts_of all)) items }
    ensures reply { (heard : List Item) (uid : List ℕ) (id : Option Moment) (answer : Answer) (at : Stamp) (octets : List ℕ)
        (sent : IsReply heard uid id answer at octets) (items : List Item) → ((n : ℕ) → answer.percent ≡ Some n → n ≤ 100)
        → ReadsMessage octets items → AreItemsOf (drafts method.Reply (sent.parts ∷ [])) items }
    ensures refresh { (heard : List Item) (uid : List ℕ) (id : Option Moment) (address : List ℕ) (at : Stamp) (octets : List ℕ)
        (sent : IsRefresh heard uid id address at octets) (items : List Item)
        → ReadsMessage octets items → AreItemsOf (drafts method.Refresh (sent.parts ∷ [])) items }
{}

/// A desk that has heard what the sender had heard, and then the answer, shows it in the row in question. If the answer is to the
/// to-do as a whole, each row that the series item governs shows it too, unless an answer of the attendee to the row's own instance
/// counts there.
pub fn answers_are_shown()
    ensures question { (heard : List Item) (uid : List ℕ) (id : Option Moment) (answer : Answer) (at : Stamp) (octets : List ℕ)
        (items : List Item) → IsReply heard uid id answer at octets → ((n : ℕ) → answer.percent ≡ Some n → n ≤ 100)
        → ReadsMessage octets items → IsAnswered (heard ++ items) uid id answer }
    ensures series { (heard : List Item) (uid : List ℕ) (answer : Answer) (at : Stamp) (octets : List ℕ) (items : List Item)
        → IsReply heard uid None answer at octets → ((n : ℕ) → answer.percent ≡ Some n → n ≤ 100) → ReadsMessage octets items
        → (window : Window) (row : Row) → row.uid ≡ uid
        → AsksWhole (heard ++ items) window answer.attendee.now row → ShowsAnswer answer row.attendees }
{}

/// A desk that has heard what the sender had heard, and then the refresh request, reports it as wanted, if no refresh request of this
/// attendee with a SEQUENCE above 0 was kept.
pub fn refreshes_are_wanted()
    ensures { (heard : List Item) (uid : List ℕ) (id : Option Moment) (address : List ℕ) (at : Stamp) (octets : List ℕ)
        (items : List Item) → IsRefresh heard uid id address at octets → NoneSequenced heard uid id address
        → ReadsMessage octets items → (item : Item) × (items ≡ item ∷ []) × IsWanted (heard ++ items) item }
{}

/// What is written, and why nothing is, depends only on what is kept (our own rules).
pub fn writing_of_kept()
    ensures written { (errand : Errand) (at : Stamp) (octets : List ℕ) → FollowsFromKept (λ heard. IsWritten errand heard at octets) }
    ensures lacking { (errand : Errand) (lacking : List PropertyName) → FollowsFromKept (λ heard. LacksOf errand heard lacking) }
    ensures fault { (errand : Errand) (at : Stamp) (error : WritingError)
        → FollowsFromKept (λ heard. CannotBeWritten errand heard at error) }
{}
