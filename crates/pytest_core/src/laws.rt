// What the definition of the report is known to say.

ghost use Rattle.std.specs.Prelude.{◌≡◌, List, ℕ};
ghost use Rattle.edge_io.specs.Files.{File};
ghost use Rattle.worker_sessions.specs.collect_tree.file_source.Sources.{HoldsSource};
ghost use Rattle.pytest_core.specs.Profile.{profile};
ghost use Rattle.pytest_core.specs.Report.{IsTreeReport, OfKept};
ghost use Rattle.worker_sessions.specs.run_items.report_rules.Answer.{PrintedAnswer};
ghost use Rattle.worker_sessions.specs.run_items.report_rules.Headline.{Headline};
ghost use Rattle.worker_sessions.specs.run_items.report_rules.Report.{IsOfOneThread, IsReportBy};
ghost use Rattle.worker_sessions.specs.run_items.source_meaning.py_world.Resuming.{is_out};

use edge_io::one_list_of_kept_files;
use session_frames::{
    collection_leaves_no_frame_out, hooks_have_the_built_ins, sources_keep_their_frames,
};
use worker_sessions::what_is_collected_fits;

/// A law: words that ask for no workers have one report over the files of a tree.
pub fn one_report()
    ensures { (words : List (List ℕ)) (tree : List File) (a b : PrintedAnswer) → IsOfOneThread words → IsTreeReport words tree a → IsTreeReport words tree b → a ≡ b }
{
    one_list_of_kept_files();
}

/// A law: by the groups that workers took, words have one report over the files of a tree.
pub fn one_report_by()
    ensures { (taken words : List (List ℕ)) (tree : List File) (a b : PrintedAnswer) → OfKept (IsReportBy HoldsSource profile taken words) tree a → OfKept (IsReportBy HoldsSource profile taken words) tree b → a ≡ b }
{
    one_list_of_kept_files();
}

/// A law: words have a report over the files of a tree.
pub fn has_report()
    ensures { (words : List (List ℕ)) (tree : List File) → (a : PrintedAnswer) × IsTreeReport words tree a }
{}

/// A law, the headline: the report of words over a tree, by its kept files, is a text that the words ask for, a refusal, that of a
/// conftest that failed, or the report of what collection selects of these files. There, the selected items are distinct and reported
/// each once, in the stated order; in each hook call around one the built-in is called once, unless another raised before it; the journal
/// of each session is lawful; behind each session no body stands at its `yield`, and each that stood there went on once. With workers, by some way
/// to share the groups of files among them, each report has the place of its worker, and each worker's are those of one thread on the files
/// that it drew.
pub fn what_a_report_tells()
    ensures { (words : List (List ℕ)) (tree : List File) (answer : PrintedAnswer) → IsTreeReport words tree answer → OfKept (λ files a. (taken : List (List ℕ)) × Headline HoldsSource is_out profile taken words files a) tree answer }
{
    what_is_collected_fits();
    sources_keep_their_frames();
    collection_leaves_no_frame_out();
    hooks_have_the_built_ins();
}
