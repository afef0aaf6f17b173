// The lines of a document.
ghost use Rattle.std.specs.Prelude.{◌≡◌, ◌++◌, OnOk, codes};
ghost use Rattle.json_span.specs.Quote.{quoted};
ghost use Rattle.group_resources.specs.Lines as spec;
ghost use Rattle.group_resources.specs.Reading.{state_of};

use front_base::{Bytes, Text};
use json_span::push_quoted;
use std::alloc::AllocError;

/// Where the resources of a line come from.
#[derive(Clone, Copy, Debug, PartialEq, Eq)]
pub enum State {
    /// A server listed them now.
    Fresh,
    /// No server did, and an earlier document has them.
    Stale,
    /// They are not known, and an empty array stands for them.
    Missing,
}

/// The resources of one group version.
#[derive(Debug, Drop)]
pub struct MergedLine {
    /// As `apps/v1`, and `v1` for the core group.
    pub group_version: Text,
    pub state: State,
    /// A JSON array without white space.
    pub resources: Bytes,
}

fn word_of(state: State) -> &'static str
    ensures { result.now ≡ spec.state_word state }
{
    match state {
        State::Fresh => "fresh",
        State::Stale => "stale",
        State::Missing => "missing",
    }
}

// The state that a word names.
pub fn state_of(word: &str) -> Option<State>
    ensures { result ≡ state_of word.now }
{
    match word {
        "fresh" => Some(State::Fresh),
        "stale" => Some(State::Stale),
        "missing" => Some(State::Missing),
        _ => None,
    }
}

// Writes a label, and after it a text as a string.
fn push_member(out: &mut Vec<u8>, label: &[u8], text: &str) -> Result<(), AllocError>
    ensures { OnOk result (out.new.items ≡ out.old.items ++ (label.now ++ quoted text.now)) }
{
    out.extend_from_slice(label)?;
    push_quoted(out, text)?;
    Ok(())
}

fn push_resources(out: &mut Vec<u8>, resources: &[u8]) -> Result<(), AllocError>
    ensures { OnOk result (out.new.items ≡ out.old.items ++ (codes ",\"resources\":" ++ (resources.now ++ codes "}\n"))) }
{
    out.extend_from_slice(b",\"resources\":")?;
    out.extend_from_slice(resources)?;
    out.extend_from_slice(b"}\n")?;
    Ok(())
}

// Writes a line after what is there, with its line feed.
#[tactic(auto, unfolding(crate::specs::Lines::line_of))]
pub fn push_line(
    out: &mut Vec<u8>,
    version: &str,
    state: State,
    resources: &[u8],
) -> Result<(), AllocError>
    ensures { OnOk result (out.new.items ≡ out.old.items ++ spec.line_of version.now state resources.now) }
{
    push_member(out, b"{\"groupVersion\":", version)?;
    push_member(out, b",\"state\":", word_of(state))?;
    push_resources(out, resources)
}
