//! What holds for messages. The functions do nothing: their contracts are the laws.
ghost use Rattle.std.specs.Prelude.{◌≡◌, ◌⊎◌, ◌∷◌, [], List, ℕ, map};
ghost use Rattle.std.specs.List.{AllByRecursion};
ghost use Rattle.itip_message.specs.Cutting.{IsCutInto};
ghost use Rattle.itip_message.specs.Message.{ReadsMessage, ReadsMessageWithin, RefusesMessage};
ghost use Rattle.itip_message.specs.Several.{ReadsMessagesWithin};
ghost use Rattle.itip_message.specs.Drafts.{ReadsDraft, RefusesDraft, IsUndated, HasCanonicalBase};
ghost use Rattle.itip_message.specs.CauseLines.{NamesPlace};
ghost use Rattle.itip_message.specs.declared.error.MessageRefusal.{MessageRefusal};
ghost use Rattle.itip_items.specs.MethodNeeds.{Suits};
ghost use Rattle.itip_items.specs.declared.item.Item.{Item};
ghost use Rattle.itip_items.specs.declared.kind.Method.TheVariants as method;
ghost use Rattle.itip_todo.specs.Limits.{present, before_ranges};
ghost use Rattle.itip_todo.specs.PartsOf.{parts_of};
ghost use Rattle.itip_todo.specs.declared.todo.Todo.{Todo};

/// Bytes are cut into messages in exactly one way.
pub fn message_cutting()
    ensures some { (bytes : List ℕ) → (messages : List (List ℕ)) × IsCutInto bytes messages }
    ensures one { (bytes : List ℕ) (messages others : List (List ℕ))
        → IsCutInto bytes messages → IsCutInto bytes others → messages ≡ others }
{}

/// The canonical bytes of an item are a message that gives this one item.
pub fn read_again()
    ensures { (item : Item) → ReadsMessage item.bytes (item ∷ []) }
{}

/// A text is either read as one list of items or refused for one cause in one place. The place is a to-do exactly if the cause is one of
/// a to-do.
pub fn one_reading()
    ensures some { (bytes : List ℕ)
        → ((items : List Item) × ReadsMessage bytes items) ⊎ ((refusal : MessageRefusal) × RefusesMessage bytes refusal) }
    ensures items { (bytes : List ℕ) (items others : List Item)
        → ReadsMessage bytes items → ReadsMessage bytes others → items ≡ others }
    ensures refusal { (bytes : List ℕ) (refusal other : MessageRefusal)
        → RefusesMessage bytes refusal → RefusesMessage bytes other → refusal ≡ other }
    ensures apart { (bytes : List ℕ) (items : List Item) (refusal : MessageRefusal)
        → ReadsMessage bytes items → RefusesMessage bytes refusal → ⊥ }
    ensures place { (bytes : List ℕ) (refusal : MessageRefusal) → RefusesMessage bytes refusal → NamesPlace refusal }
{}

/// A message that was read before instances had ranges is read as the same items, and so are the messages of a delta. Back then, RANGE
/// was refused, and so were more than 500 attendees of a to-do. The two readings differ only in their limits.
pub fn read_as_before()
    ensures message { (bytes : List ℕ) (items : List Item) → ReadsMessageWithin before_ranges bytes items → ReadsMessage bytes items }
    ensures messages { (bytes : List ℕ) (given : List (List Item))
        → ReadsMessagesWithin before_ranges bytes given → ReadsMessagesWithin present bytes given }
{}

/// A text is either read as the to-dos of one draft or refused for one cause in one place. None of the to-dos has a DTSTAMP or a SEQUENCE
/// of its own, each has its X-DESK-BASE in canonical form, and each may be sent in a REQUEST.
pub fn one_draft()
    ensures some { (bytes : List ℕ)
        → ((all : List Todo) × ReadsDraft bytes all) ⊎ ((refusal : MessageRefusal) × RefusesDraft bytes refusal) }
    ensures todos { (bytes : List ℕ) (all others : List Todo) → ReadsDraft bytes all → ReadsDraft bytes others → all ≡ others }
    ensures refusal { (bytes : List ℕ) (refusal other : MessageRefusal)
        → RefusesDraft bytes refusal → RefusesDraft bytes other → refusal ≡ other }
    ensures apart { (bytes : List ℕ) (all : List Todo) (refusal : MessageRefusal)
        → ReadsDraft bytes all → RefusesDraft bytes refusal → ⊥ }
    ensures place { (bytes : List ℕ) (refusal : MessageRefusal) → RefusesDraft bytes refusal → NamesPlace refusal }
    ensures undated { (bytes : List ℕ) (all : List Todo) → ReadsDraft bytes all → AllByRecursion IsUndated all }
    ensures base { (bytes : List ℕ) (all : List Todo) → ReadsDraft bytes all → AllByRecursion HasCanonicalBase all }
    ensures suits { (bytes : List ℕ) (all : List Todo) → ReadsDraft bytes all → AllByRecursion (Suits method.Request) (map parts_of all) }
{}
