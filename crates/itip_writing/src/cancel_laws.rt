//! What holds of messages that cancel or remove attendees, whatever finite set of items was heard before. The functions do nothing:
//! their contracts are the laws.
ghost use Rattle.std.specs.Prelude.{◌≡◌, ◌++◌, ◌∷◌, [], ℕ, List, Option, Some, None};
ghost use Rattle.std.specs.List.{Contains};
ghost use Rattle.itip_moment.specs.declared.moment.Moment.{Moment};
ghost use Rattle.itip_moment.specs.declared.stamp.Stamp.{Stamp};
ghost use Rattle.itip_todo.specs.Table.{attendee_key};
ghost use Rattle.itip_todo.specs.declared.property_name.PropertyName.{PropertyName};
ghost use Rattle.itip_items.specs.Given.{AreItemsOf};
ghost use Rattle.itip_items.specs.Items.{drafts};
ghost use Rattle.itip_items.specs.declared.item.Item.{Item};
ghost use Rattle.itip_items.specs.declared.kind.Method.TheVariants as method;
ghost use Rattle.itip_message.specs.Message.{ReadsMessage};
ghost use Rattle.itip_view.specs.InQuestion.{ShowsInQuestion};
ghost use Rattle.itip_view.specs.OfKept.{FollowsFromKept};
ghost use Rattle.itip_view.specs.Rows.{IsRow, moment_of};
ghost use Rattle.itip_view.specs.Showing.{Shows};
ghost use Rattle.itip_view.specs.Standing.{Reaches};
ghost use Rattle.itip_view.specs.declared.row.Row.{Row};
ghost use Rattle.itip_view.specs.declared.row.ShownAttendee.{ShownAttendee};
ghost use Rattle.itip_view.specs.declared.window.Window.{Window};
ghost use Rattle.itip_writing.specs.Cancelling.{CannotCancel, CannotCancelOnward, IsCancelling, IsCancellingOnward, IsOnwardLacking};
ghost use Rattle.itip_writing.specs.Removing.{CannotRemove, IsRemoving};
ghost use Rattle.itip_writing.specs.Replying.{AsksWhole, IsLacking};
ghost use Rattle.itip_writing.specs.declared.error.WritingError.{WritingError};

/// A message that cancels or removes attendees gives, when it is read, the items of the to-dos that it was made of.
pub fn cancellations_are_read()
    ensures cancelled { (heard : List Item) (uid : List ℕ) (id : Option Moment) (at : Stamp) (octets : List ℕ)
        (sent : IsCancelling heard uid id at octets) (items : List Item) → ReadsMessage octets items
        → AreItemsOf (drafts method.Cancel (sent.parts ∷ [])) items }
    ensures onward { (heard : List Item) (uid : List ℕ) (from : Moment) (at : Stamp) (octets : List ℕ)
        (sent : IsCancellingOnward heard uid from at octets) (items : List Item) → ReadsMessage octets items
        → AreItemsOf (drafts method.Cancel sent.all) items }
    ensures removed { (heard : List Item) (uid : List ℕ) (id : Option Moment) (addresses : List (List ℕ)) (at : Stamp)
        (octets : List ℕ) (sent : IsRemoving heard uid id addresses at octets) (items : List Item) → ReadsMessage octets items
        → AreItemsOf (drafts method.Cancel (sent.parts ∷ [])) items }
{}

/// A desk that has heard what the sender had heard, and then the cancellation, has in no window a row of the to-do; or none at the
/// instance that is cancelled; or, if all is cancelled from a moment on, none from that moment on, of its form and zone.
pub fn cancelled_is_gone()
    ensures whole { (heard : List Item) (uid : List ℕ) (at : Stamp) (octets : List ℕ) (items : List Item)
        → IsCancelling heard uid None at octets → ReadsMessage octets items
        → (window : Window) (row : Row) → IsRow (heard ++ items) window row → row.uid ≡ uid → ⊥ }
    ensures instance { (heard : List Item) (uid : List ℕ) (id : Moment) (at : Stamp) (octets : List ℕ) (items : List Item)
        → IsCancelling heard uid (Some id) at octets → ReadsMessage octets items
        → (window : Window) (row : Row) → IsRow (heard ++ items) window row → row.uid ≡ uid → moment_of row.id ≡ Some id → ⊥ }
    ensures onward { (heard : List Item) (uid : List ℕ) (from : Moment) (at : Stamp) (octets : List ℕ) (items : List Item)
        → IsCancellingOnward heard uid from at octets → ReadsMessage octets items
        → (window : Window) (row : Row) → IsRow (heard ++ items) window row → row.uid ≡ uid
        → (id : Moment) → moment_of row.id ≡ Some id → Reaches from id → ⊥ }
{}

/// A desk that has heard what the sender had heard, and then the removal, doesn't show the attendee in the row in question. If they are
/// removed from the to-do as a whole, no row that the series item governs shows them either, unless an answer of theirs to the row's
/// own instance counts there.
pub fn removed_are_gone()
    ensures question { (heard : List Item) (uid : List ℕ) (id : Option Moment) (addresses : List (List ℕ)) (at : Stamp)
        (octets : List ℕ) (items : List Item) → IsRemoving heard uid id addresses at octets → ReadsMessage octets items
        → (address : List ℕ) → Contains addresses address → (item : Item) (shown : List ShownAttendee)
        → ShowsInQuestion (heard ++ items) uid id item shown → (attendee : ShownAttendee) → Contains shown attendee
        → attendee_key attendee.address ≡ attendee_key address → ⊥ }
    ensures series { (heard : List Item) (uid : List ℕ) (addresses : List (List ℕ)) (at : Stamp) (octets : List ℕ)
        (items : List Item) → IsRemoving heard uid None addresses at octets → ReadsMessage octets items
        → (address : List ℕ) → Contains addresses address → (window : Window) (row : Row) → row.uid ≡ uid
        → AsksWhole (heard ++ items) window address row → Shows address row → ⊥ }
{}

/// The messages that cancel or remove attendees, what they lack, and why there is none, depend only on what is kept (our own rules).
pub fn cancelling_of_kept()
    ensures cancelled { (uid : List ℕ) (id : Option Moment) (at : Stamp) (octets : List ℕ)
        → FollowsFromKept (λ heard. IsCancelling heard uid id at octets) }
    ensures uncancelled { (uid : List ℕ) (id : Option Moment) (at : Stamp) (error : WritingError)
        → FollowsFromKept (λ heard. CannotCancel heard uid id at error) }
    ensures onward { (uid : List ℕ) (from : Moment) (at : Stamp) (octets : List ℕ)
        → FollowsFromKept (λ heard. IsCancellingOnward heard uid from at octets) }
    ensures not_onward { (uid : List ℕ) (from : Moment) (at : Stamp) (error : WritingError)
        → FollowsFromKept (λ heard. CannotCancelOnward heard uid from at error) }
    ensures onward_lacking { (uid : List ℕ) (from : Moment) (lacking : List PropertyName)
        → FollowsFromKept (λ heard. IsOnwardLacking heard uid from lacking) }
    ensures removed { (uid : List ℕ) (id : Option Moment) (addresses : List (List ℕ)) (at : Stamp) (octets : List ℕ)
        → FollowsFromKept (λ heard. IsRemoving heard uid id addresses at octets) }
    ensures unremoved { (uid : List ℕ) (id : Option Moment) (addresses : List (List ℕ)) (at : Stamp) (error : WritingError)
        → FollowsFromKept (λ heard. CannotRemove heard uid id addresses at error) }
    ensures lacking { (uid : List ℕ) (id : Option Moment) (lacking : List PropertyName)
        → FollowsFromKept (λ heard. IsLacking heard uid id lacking) }
{}
