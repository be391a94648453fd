//! The lines of a row's block.

ghost use Rattle.std.specs.Prelude.{ℕ, List, ◌≡◌};
ghost use Rattle.std.specs.Str.Lines.{lines, lines_of_parts};
ghost use Rattle.tracing_tree_drawing.specs.Format.Picture.{AreParts, parts_of};

/// The parts of a block are the only list of strings without line ends that yields the block when
/// joined by line ends. Its lines are these parts, without the last if that is empty, and without a
/// carriage return at the end of each other part.
pub fn parts_join_to_the_block()
    ensures parts { (block : List ℕ) → AreParts block (parts_of block) }
    ensures only { (block : List ℕ) (parts : List (List ℕ)) → AreParts block parts
        → parts ≡ parts_of block }
    ensures lines { (block : List ℕ) → lines block ≡ lines_of_parts (parts_of block) }
{}
