//! Theorems on the definitions of the text.

ghost use Rattle.std.specs.Prelude.{◌≡◌, ◌≢◌, ℕ, List, [], ◌∷◌, ◌++◌, ◌↔◌, ◌<◌, length, Some};
ghost use Rattle.indexset_bench.specs.declared.command.Command.{Command};
ghost use Rattle.indexset_bench.specs.Command.{FitsU64, meaning, spelling};
ghost use Rattle.indexset_bench.specs.declared.pair_command.PairCommand.{PairCommand};
ghost use Rattle.indexset_bench.specs.PairCommand.{CommandFits, pair_meaning, pair_spelling};
ghost use Rattle.indexset_lines.specs.Lines.{HasNoEnd, lines_of};

use crate::key::Key;

/// A line means a command if and only if it is the spelling of that command.
pub fn meaning_is_spelling()
    ensures spelled { (line : List ℕ) (command : Command) → FitsU64 command
        → (meaning line ≡ Some command) ↔ (line ≡ spelling command) }
    ensures fits { (line : List ℕ) (command : Command)
        → meaning line ≡ Some command → FitsU64 command }
{}

/// A line means a command to the map if and only if it is the spelling of that command.
///
/// No line means both a command to the set and a command to the map.
pub fn pair_meaning_is_spelling<T: Key>()
    ensures spelled { (line : List ℕ) (command : PairCommand T) → CommandFits T.texts command
        → (pair_meaning T.texts line ≡ Some command) ↔ (line ≡ pair_spelling T.texts command) }
    ensures fits { (line : List ℕ) (command : PairCommand T)
        → pair_meaning T.texts line ≡ Some command → CommandFits T.texts command }
    ensures apart { (command : Command) (without_pair_numbers : PairCommand T)
        → spelling command ≢ pair_spelling T.texts without_pair_numbers }
{}

/// A byte 10 ends a line. The bytes after the last byte 10 are a line unless there are none.
pub fn lines_are_parts()
    ensures none { lines_of [] ≡ [] }
    ensures ended { (line rest : List ℕ) → HasNoEnd line
        → lines_of (line ++ 10 ∷ rest) ≡ line ∷ lines_of rest }
    ensures last { (line : List ℕ) → HasNoEnd line → 0 < length line
        → lines_of line ≡ line ∷ [] }
{}
