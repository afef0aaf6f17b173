ghost use Rattle.std.specs.Prelude.{◌≡◌, ◌++◌, ℕ, true, List, Option, Some, IfSome, Result};
ghost use Rattle.std.specs.Str.{is_utf8};
ghost use Rattle.group_resources.specs.Lines.{AreLines, IsArray, IsDocument, IsLine, line_text};
ghost use Rattle.group_resources.specs.Lists.{Lists};
ghost use Rattle.group_resources.specs.Merged.{merged_of};
ghost use Rattle.group_resources.specs.Reading.{Answers, AreBack, line_at};
ghost use Rattle.group_resources.specs.declared.line.MergedLine.{MergedLine};
ghost use Rattle.group_resources.specs.declared.merged.MergedFault.{MergedFault};

use event_members::members_read_back;
use json_span::{compact_keeps_the_value, one_length};

// A line that was written is read again, whatever follows it.
pub fn lines_are_read_back()
    ensures { (line : MergedLine) (after : List ℕ) → IsLine line → line_at (line_text line ++ after) ≡ Some line }
{
    members_read_back();
    one_length();
}

/// A document that was written is read as its lines, and is refused only where memory runs out. No other lines have its bytes.
pub fn documents_are_read_back()
    ensures back { (bytes : List ℕ) (lines : List MergedLine) (answer : Result (List MergedLine) MergedFault)
        → IsDocument bytes lines → Answers bytes answer → AreBack lines answer }
    ensures one { (bytes : List ℕ) (a b : List MergedLine) → IsDocument bytes a → IsDocument bytes b → a ≡ b }
{
    lines_are_read_back();
}

/// The array that a reply lists is one that lines may have.
pub fn listed_arrays_are_arrays()
    ensures { (version : List ℕ) (status : ℕ) (body resources : List ℕ) → Lists version status body resources → IsArray resources }
{
    compact_keeps_the_value();
}

/// What is written of a group version is a line, by the lines of a document and by an array that was fetched, if one was.
pub fn merged_lines_are_lines()
    ensures { (version : List ℕ) (fetched : Option (List ℕ)) (previous : List MergedLine) → is_utf8 version ≡ true
        → IfSome fetched IsArray → AreLines previous → IsLine (merged_of version fetched previous) }
{}
