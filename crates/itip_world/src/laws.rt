//! The laws of the output of a script, and of a stream. The functions are empty: their contracts are the laws.
ghost use Rattle.std.specs.Prelude.{◌≡◌, ◌++◌, ℕ, Bool, List, Option};
ghost use Rattle.std.specs.List.{All};
ghost use Rattle.itip_desk.specs.Desk.{Shown};
ghost use Rattle.itip_desk.specs.DeskFile.{IsTold};
ghost use Rattle.itip_script.specs.Orders.{Order};
ghost use Rattle.itip_world.specs.Running.{IsOutput, Writes};
ghost use Rattle.itip_world.specs.Serving.{Served, RunsStream};
ghost use Rattle.itip_view.specs.declared.window.Window.{Window};

/// A script has one output, and what a prefix of its commands writes is a prefix of that output.
pub fn one_output()
    ensures output { (window : Window) (desks : ℕ) (script first second : List ℕ) (refusal other : Bool) →
        IsOutput window desks script first refusal → IsOutput window desks script second other → (first ≡ second) × (refusal ≡ other) }
    ensures front { (window : Window) (desks : ℕ) (done left : List Order) (output part : List ℕ) (refusal other : Bool) →
        Writes window desks (done ++ left) output refusal → Writes window desks done part other →
        (rest : List ℕ) × (output ≡ part ++ rest) }
{}

/// If each desk of a stream began with nothing or with what a file told, its file tells it completely whenever it is saved: a desk that
/// begins with that file keeps the same, and sends the same since every tick.
pub fn desks_saved_whole()
    ensures { (window : Window) (input left : Option (List ℕ)) (desks after : List Shown) (served : List Served) →
        RunsStream window input desks served left after → All IsTold desks → All IsTold after }
{}
