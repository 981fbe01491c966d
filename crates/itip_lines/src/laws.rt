//! Laws of reading and writing. The functions do nothing: their contracts are the laws.
ghost use Rattle.std.specs.Prelude.{◌≡◌, ◌≤◌, ◌⊎◌, ◌↔◌, ◌∷◌, [], List, ℕ, None, length};
ghost use Rattle.itip_lines.specs.UnfoldedLines.{Piece, IsCutting, lines_of, numbered_lines_of, texts_of};
ghost use Rattle.itip_lines.specs.Reading.{Reads, ReadsLines, Refused, line_at};
ghost use Rattle.itip_lines.specs.FoldedPieces.{AreFoldedPieces, with_breaks};
ghost use Rattle.itip_lines.specs.Writing.{unfolded_text, written, all_written};
ghost use Rattle.itip_lines.specs.declared.line.Line.{Line};
ghost use Rattle.itip_lines.specs.declared.line.NumberedLine.{NumberedLine};
ghost use Rattle.itip_lines.specs.declared.error.LineCause.TheVariants.{TooLong};
ghost use Rattle.itip_lines.specs.declared.error.LineRefusal.{LineRefusal};

/// A text is cut at its line breaks in exactly one way (RFC 5545 3.1). Without the numbers, its numbered lines are its lines.
pub fn cutting_laws()
    ensures some { (bytes : List ℕ)
        → (pieces : List Piece) × (last : List ℕ) × IsCutting bytes pieces last }
    ensures one { (bytes : List ℕ) (pieces others : List Piece) (last end : List ℕ)
        → IsCutting bytes pieces last → IsCutting bytes others end
        → (pieces ≡ others) × (last ≡ end) }
    ensures numbered { (pieces : List Piece) (last : List ℕ)
        → texts_of (numbered_lines_of pieces last) ≡ lines_of pieces last }
{}

/// A text is either read as exactly one list of lines, or refused for exactly one cause, in one place unless it is too long.
pub fn reading_laws()
    ensures some { (bytes : List ℕ)
        → ((lines : List NumberedLine) × Reads bytes lines) ⊎ ((refusal : LineRefusal) × Refused bytes refusal) }
    ensures one_reading { (bytes : List ℕ) (lines others : List NumberedLine)
        → Reads bytes lines → Reads bytes others → lines ≡ others }
    ensures one_refusal { (bytes : List ℕ) (refusal other : LineRefusal)
        → Refused bytes refusal → Refused bytes other → refusal ≡ other }
    ensures apart { (bytes : List ℕ) (lines : List NumberedLine) (refusal : LineRefusal)
        → Reads bytes lines → Refused bytes refusal → ⊥ }
    ensures place { (bytes : List ℕ) (refusal : LineRefusal)
        → Refused bytes refusal → (refusal.line ≡ None) ↔ (refusal.cause ≡ TooLong) }
{}

/// Written lines are read back as the same lines if they are within the limits of a text, as a single line always is. A line is
/// written in pieces of at most 75 octets that split no character (RFC 5545 3.1), each as long as possible: there is only one way.
pub fn writing_laws()
    ensures read_again { (lines : List Line)
        → length lines ≤ 20000 → length (all_written lines) ≤ 1048576
        → ReadsLines (all_written lines) lines }
    ensures pieces { (line : Line)
        → (pieces : List (List ℕ)) × AreFoldedPieces [] (unfolded_text line) pieces
        × (written line ≡ with_breaks pieces) }
    ensures one_folding { (text : List ℕ) (pieces others : List (List ℕ))
        → AreFoldedPieces [] text pieces → AreFoldedPieces [] text others → pieces ≡ others }
    ensures one_line { (line : Line) → Reads (written line) (line_at 1 line ∷ []) }
{}
