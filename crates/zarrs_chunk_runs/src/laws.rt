//! What holds of edges and their runs, and of binary digits.
ghost use Rattle.std.specs.Prelude.{◌≡◌, ℕ, ◌<◌, ◌≤◌, List, length};
ghost use Rattle.zarrs_chunk_base.specs.RunLength.{Element, joined};
ghost use Rattle.zarrs_chunk_runs.specs.Forms.{HasRuns, IsFormOf};
ghost use Rattle.zarrs_chunk_runs.specs.Runs.{AreMerged};
ghost use Rattle.zarrs_chunk_runs.specs.Search.{HasDigits};
ghost use Rattle.zarrs_chunk_runs.specs.declared.run_edges.RunEdges.{RunEdges};
ghost use Rattle.zarrs_chunk_runs.specs.seen.RunEdges.{expanded, runs_of};

/// No two runs that stand side by side have the same edge.
pub fn neighbours_differ()
    ensures { (edges : RunEdges) → AreMerged (runs_of edges) }
{}

/// There is a run.
pub fn there_is_a_run()
    ensures { (edges : RunEdges) → 0 < length (runs_of edges) }
{}

/// Edges have one run-length form.
pub fn edges_have_one_run_length_form()
    ensures there_is_one { (edges : List ℕ) → (elements : List Element) × IsFormOf edges elements }
    ensures no_other { (edges : List ℕ) (one other : List Element)
        → IsFormOf edges one → IsFormOf edges other → one ≡ other }
{}

/// No elements of the same edges are fewer than those of their run-length form.
pub fn the_run_length_form_is_the_shortest()
    ensures { (edges : List ℕ) (form others : List Element) → IsFormOf edges form
        → joined others ≡ edges → length form ≤ length others }
{}

/// There are as many runs as the run-length form has elements.
pub fn runs_are_those_of_the_run_length_form()
    ensures { (edges : RunEdges) → HasRuns (expanded edges) (length (runs_of edges)) }
{}

/// A number has so many binary digits, and not another number of them.
pub fn a_number_has_its_binary_digits()
    ensures some { (n : ℕ) → (d : ℕ) × HasDigits n d }
    ensures no_others { (n d e : ℕ) → HasDigits n d → HasDigits n e → d ≡ e }
{}
