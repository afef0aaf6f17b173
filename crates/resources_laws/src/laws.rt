ghost use Rattle.std.specs.Prelude.{ℕ, List};
ghost use Rattle.command_ends.specs.Ports.{Told};
ghost use Rattle.group_resources.specs.Lines.{AreLines, IsDocument};
ghost use Rattle.group_resources.specs.declared.line.MergedLine.{MergedLine};
ghost use Rattle.resource_fetch.specs.declared.listing.Listing.{Listing};
ghost use Rattle.resources_command.specs.Config.{Configures};
ghost use Rattle.resources_command.specs.Run.{FetchesAll, asked, merged, order};
ghost use Rattle.resources_command.specs.declared.settings.Settings.{Settings};
ghost use Rattle.resources_laws.specs.Runs as spec;
ghost use Rattle.service_calls.specs.Calls.{DialState};

use apiservice_table::read_rows_fit;
use group_resources::{documents_are_read_back, listed_arrays_are_arrays, merged_lines_are_lines};

/// Lines that are merged by what words and files say, and by what came of each server, may stand in a document: their group versions are
/// UTF-8 and differ, and their resources are arrays. So what a run wrote, whose status says that it wrote all lines, is a document.
pub fn whole_runs_write_documents()
    ensures lines { (words : List (List ℕ)) (told : Told) (settings : Settings) (m n : DialState) (gots : List Listing)
        → Configures words told settings → FetchesAll (asked settings (order settings)) m n gots
        → AreLines (merged settings.previous (order settings) gots) }
    ensures document { (ran : spec.Ran) (bytes : List ℕ) → spec.Wrote ran bytes → spec.WroteDocument ran bytes }
{
    read_rows_fit();
    listed_arrays_are_arrays();
    merged_lines_are_lines();
}

/// A run that has a document as its earlier one begins with exactly its lines, or ends before it asks any server. Where memory suffices, it
/// refuses none of the lines.
pub fn later_runs_read_them()
    ensures { (later : spec.Ran) (bytes : List ℕ) (lines : List MergedLine) → IsDocument bytes lines → spec.BeginsWith later bytes
        → spec.IsRun later → spec.GoesOn later bytes lines }
{
    documents_are_read_back();
}
