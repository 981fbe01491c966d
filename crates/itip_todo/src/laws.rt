//! Laws of reading and writing. The functions do nothing: their contracts are the laws.
ghost use Rattle.std.specs.Prelude.{◌≡◌, ◌⊎◌, ◌↔◌, false, List, map, None};
ghost use Rattle.itip_lines.specs.Reading.{plain_lines};
ghost use Rattle.itip_lines.specs.declared.line.Line.{Line};
ghost use Rattle.itip_lines.specs.declared.line.NumberedLine.{NumberedLine};
ghost use Rattle.itip_todo.specs.Limits.{before_ranges};
ghost use Rattle.itip_todo.specs.PartsOf.{parts_of};
ghost use Rattle.itip_todo.specs.Reading.{ReadsTodo, ReadsTodoWithin, RefusesTodo};
ghost use Rattle.itip_todo.specs.Written.{content_of, parts_contents};
ghost use Rattle.itip_todo.specs.declared.error.TodoCause.TheVariants as cause;
ghost use Rattle.itip_todo.specs.declared.error.TodoRefusal.{TodoRefusal};
ghost use Rattle.itip_todo.specs.declared.property_name.PropertyName.{PropertyName};
ghost use Rattle.itip_todo.specs.declared.todo.Todo.{Todo};

/// Lines are either read as exactly one to-do, or refused for exactly one cause, in one place unless a property is missing. What
/// was read before instances had ranges is read as the same to-do, which has no range.
pub fn reading_laws()
    ensures some { (lines : List NumberedLine)
        → ((todo : Todo) × ReadsTodo (plain_lines lines) todo) ⊎ ((refusal : TodoRefusal) × RefusesTodo lines refusal) }
    ensures one_todo { (lines : List Line) (a b : Todo) → ReadsTodo lines a → ReadsTodo lines b → a ≡ b }
    ensures read_or_refused { (lines : List NumberedLine) (todo : Todo) (refusal : TodoRefusal)
        → ReadsTodo (plain_lines lines) todo → RefusesTodo lines refusal → ⊥ }
    ensures one_refusal { (lines : List NumberedLine) (refusal other : TodoRefusal)
        → RefusesTodo lines refusal → RefusesTodo lines other → refusal ≡ other }
    ensures place { (lines : List NumberedLine) (refusal : TodoRefusal) → RefusesTodo lines refusal
        → (refusal.line ≡ None) ↔ ((p : PropertyName) × (refusal.cause ≡ cause.Missing p)) }
    ensures as_before { (lines : List Line) (todo : Todo) → ReadsTodoWithin before_ranges lines todo → ReadsTodo lines todo }
    ensures no_range { (lines : List Line) (todo : Todo) → ReadsTodoWithin before_ranges lines todo → todo.range ≡ false }
{}

/// The lines that a to-do is written as, between BEGIN and END, are read back as this to-do.
pub fn writing_laws()
    ensures read_again { (lines : List Line) (todo : Todo) → map content_of lines ≡ parts_contents (parts_of todo) → ReadsTodo lines todo }
{}
