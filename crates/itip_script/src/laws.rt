//! The laws of the format. They need no code: each function is empty.
ghost use Rattle.std.specs.Prelude.{◌≡◌, ℕ, List, Some};
ghost use Rattle.itip_script.specs.Lines.{lines_of};
ghost use Rattle.itip_script.specs.Cutting.{IsCutting};
ghost use Rattle.itip_script.specs.Orders.{Order, spelled};
ghost use Rattle.itip_script.specs.Spelling.{Spells};

/// A script has exactly one cutting into physical lines.
pub fn one_cutting()
    ensures cut { (bytes : List ℕ) → IsCutting bytes (lines_of bytes) }
    ensures only { (bytes : List ℕ) (lines : List (List ℕ)) → IsCutting bytes lines → lines ≡ lines_of bytes }
{}

/// A line gives the command that it spells, and no line spells two.
pub fn one_spelling()
    ensures found { (line message : List ℕ) (order : Order) → spelled line message ≡ Some order → Spells line message order }
    ensures all { (line message : List ℕ) (order : Order) → Spells line message order → spelled line message ≡ Some order }
{}
