// What is written of a group version.
ghost use Rattle.std.specs.Prelude.{◌≡◌, ◌++◌, None, IfOk, OnOk, option_map};
ghost use Rattle.group_resources.specs.Lines.{line_text};
ghost use Rattle.group_resources.specs.Merged as spec;

use crate::line::{MergedLine, State, push_line};
use crate::merged::Merged;
use front_base::{Bytes, NoMemory};
use std::alloc::{AllocError, Global};

fn kept_of<'a>(version: &str, lines: &'a [MergedLine]) -> Option<&'a [u8]>
    ensures { option_map (λ kept. kept.now) result ≡ spec.kept_of version.now lines.now }
{
    for line in lines {
        if line.group_version.as_str() == version && !matches!(line.state, State::Missing) {
            return Some(line.resources.as_slice());
        }
    }
    None
}

// Writes the line of a group version of which nothing was fetched.
fn push_kept(out: &mut Vec<u8>, version: &str, kept: Option<&[u8]>) -> Result<(), AllocError>
    ensures { OnOk result (out.new.items
        ≡ out.old.items ++ line_text (spec.merged_by version.now None (option_map (λ k. k.now) kept.entry))) }
{
    match kept {
        Some(kept) => push_line(out, version, State::Stale, kept),
        None => push_line(out, version, State::Missing, b"[]"),
    }
}

/// The line of a group version, with its line feed: fresh with what was fetched, which is a JSON array without white space; else stale with
/// what the earlier document has; else missing.
pub fn merged_line(
    alloc: Global,
    group_version: &str,
    fetched: Option<&[u8]>,
    previous: &Merged,
) -> Result<Bytes, NoMemory>
    ensures { IfOk result (λ text. text ≡ line_text (spec.merged_of group_version.now (option_map (λ f. f.now) fetched.entry) previous.now)) }
{
    let mut text = Vec::new(alloc);
    match fetched {
        Some(fetched) => push_line(&mut text, group_version, State::Fresh, fetched)?,
        None => push_kept(
            &mut text,
            group_version,
            kept_of(group_version, previous.as_slice()),
        )?,
    }
    Ok(Bytes::new(text))
}
