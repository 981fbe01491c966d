//! What holds of requests, whatever finite set of items was heard before. The functions do nothing: their contracts are the laws.
ghost use Rattle.std.specs.Prelude.{◌≡◌, ◌≢◌, ◌++◌, ℕ, List, map};
ghost use Rattle.std.specs.List.{AllByRecursion, AllZip};
ghost use Rattle.itip_moment.specs.declared.stamp.Stamp.{Stamp};
ghost use Rattle.itip_todo.specs.PartsOf.{parts_of};
ghost use Rattle.itip_todo.specs.declared.todo.Todo.{Todo};
ghost use Rattle.itip_items.specs.MethodNeeds.{Suits};
ghost use Rattle.itip_items.specs.declared.item.Item.{Item};
ghost use Rattle.itip_items.specs.declared.kind.Method.TheVariants as method;
ghost use Rattle.itip_message.specs.Message.{ReadsMessage};
ghost use Rattle.itip_writing.specs.Requesting.{IsRequest, CannotRequest, StandsLive, key_of};
ghost use Rattle.itip_writing.specs.declared.error.WritingError.{WritingError};
ghost use Rattle.itip_writing.specs.declared.error.WritingError.TheVariants as error;

/// At a desk that has heard what the writer had heard, and then the request, each to-do of the draft is the latest of its key, and
/// stands. This assumes that no line of the draft begins or ends a component, as in a draft that was read
/// ([`one_draft`](itip_message::one_draft)).
pub fn request_stands()
    ensures { (heard items : List Item) (draft : List Todo) (at : Stamp) (octets : List ℕ)
        → AllByRecursion (Suits method.Request) (map parts_of draft) → IsRequest heard draft at octets → ReadsMessage octets items
        → AllZip (λ todo item. StandsLive (heard ++ items) (key_of todo) item) draft items }
{}

/// A draft has at most one request, and at most one cause other than `NoMemory` why there is none, and never both.
pub fn one_request()
    ensures octets { (heard : List Item) (draft : List Todo) (at : Stamp) (octets others : List ℕ) → IsRequest heard draft at octets
        → IsRequest heard draft at others → octets ≡ others }
    ensures apart { (heard : List Item) (draft : List Todo) (at : Stamp) (octets : List ℕ) (e : WritingError)
        → IsRequest heard draft at octets → CannotRequest heard draft at e → e ≡ error.NoMemory }
    ensures cause { (heard : List Item) (draft : List Todo) (at : Stamp) (e f : WritingError) → CannotRequest heard draft at e
        → CannotRequest heard draft at f → e ≢ error.NoMemory → f ≢ error.NoMemory → e ≡ f }
{}
