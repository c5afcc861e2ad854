ghost use Rattle.std.specs.Prelude.{◌≡◌, ◌++◌, [], List, false};
ghost use Rattle.cli_words.specs.declared.options.Options.{Options};
ghost use Rattle.report_parts.specs.declared.report.ItemReport.{ItemReport};
ghost use Rattle.report_pieces.specs.Pieces.{pieces_end, pieces_of};
ghost use Rattle.report_text.specs.Progress.{progress_of};

/// A law: where items run, the progress is the pieces of the reports, one behind another, and what ends them; and the pieces of the first
/// reports stand in front.
pub fn progress_is_its_pieces()
    ensures whole { (options : Options) (reports : List ItemReport) → options.collect_only ≡ false → progress_of options reports [] ≡ pieces_of options [] reports ++ pieces_end options (pieces_of options [] reports) }
    ensures front { (options : Options) (before front rest : List ItemReport) → pieces_of options before (front ++ rest) ≡ pieces_of options before front ++ pieces_of options (before ++ front) rest }
{}
