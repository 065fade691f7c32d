//! Laws over the definitions.

ghost use Rattle.std.specs.Prelude.{◌≡◌, ℕ, List, [], length, map};
ghost use Rattle.source_skip.specs.Laws.{IsPlain, is_line_end};
ghost use Rattle.source_skip.specs.Pieces.{loose_tokens};
ghost use Rattle.source_skip.specs.Skipped.{goes, skipped};

/// A text without custom options has the length of the text.
pub fn skipping_keeps_lengths()
    ensures { (text : List ℕ) → length (skipped text) ≡ length text }
{}

/// A text without custom options has its line ends where the text has them. So a place has the line and the column that it
/// has in the text.
pub fn skipping_keeps_lines()
    ensures { (text : List ℕ) → map is_line_end (skipped text) ≡ map is_line_end text }
{}

/// A text of which no token goes stays as it is. So does a text in which no two tokens in a row are such as something that goes
/// may begin with: `option` before `(` or a name that no table has, `extend` before a name, `import weak`, and `[` or a comma
/// before `(` or a name that no table has.
pub fn plain_texts_stay()
    ensures none_goes { (text : List ℕ) → goes (loose_tokens text) ≡ [] → skipped text ≡ text }
    ensures none_begins { (text : List ℕ) → IsPlain (loose_tokens text) → skipped text ≡ text }
{}
