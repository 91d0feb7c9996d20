//! States what the text means to a reader that knows the Ninja manual, and to a shell that reads the commands. The functions do nothing,
//! and their contracts hold.
ghost use Rattle.std.specs.Prelude.{◌≡◌, ℕ, List, ◌∷◌, ◌++◌, Option, Some, true};
ghost use Rattle.std.specs.List.{list_all};
ghost use Rattle.build.specs.edge.Data.{EdgeData};
ghost use Rattle.build.specs.edge.Holding.{is_path, is_writable, are_writable};
ghost use Rattle.ninja.specs.Escapes.{value_text};
ghost use Rattle.ninja.specs.Words.{words_text};
ghost use Rattle.ninja.specs.Writing.{edge_text, file_text};
ghost use Rattle.ninja.specs.Pieces.{Scope, value_read};
ghost use Rattle.ninja.specs.Reading.{Manifest, reads_from, manifest_of};
ghost use Rattle.ninja.specs.Commands.{shell_command};
ghost use Rattle.ninja.specs.Meaning.{after_reading, with_edge, edge_seen, file_seen, six_rules, RunsWords, EachRunsWords};

/// Proves that a shell reads the text of words as these words.
pub fn words_law()
    ensures { (w : List ℕ) (ws : List (List ℕ)) (redirect : Option (List ℕ))
        → shell_command (words_text (w ∷ ws) redirect) ≡ Some (record { words = w ∷ ws; redirect = redirect }) }
{}

/// Proves that a value is read as it was written, whatever the values of variables.
pub fn value_law()
    ensures { (scope : Scope) (v : List ℕ) → value_read scope (value_text v) ≡ Some v }
{}

/// Proves that the block of a writable edge is read as the edge, whatever comes before and after it, and that its command is its words
/// under the six rules.
pub fn edge_law()
    ensures read { (m : Manifest) (e : EdgeData) (rest : List ℕ) → is_writable e ≡ true
        → reads_from (after_reading m) (edge_text e ++ rest) ≡ reads_from (after_reading (with_edge m (edge_seen e))) rest }
    ensures runs { (m : Manifest) (e : EdgeData) → m.rules ≡ six_rules → is_writable e ≡ true → RunsWords m e }
{}

/// Proves that the whole file of writable edges is read as the six rules, its edges, the edge `all` and the default `all`, and each command
/// as its edge's words.
pub fn file_law()
    ensures read { (es : List EdgeData) (paths : List (List ℕ)) → are_writable es ≡ true → list_all is_path paths ≡ true
        → manifest_of (file_text es paths) ≡ Some (file_seen es paths) }
    ensures runs { (es : List EdgeData) (paths : List (List ℕ)) → are_writable es ≡ true → EachRunsWords (file_seen es paths) es }
{}
