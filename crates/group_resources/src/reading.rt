// One line of a document, read back.
ghost use Rattle.std.specs.Prelude.{◌≡◌, true, false, IfOk, IfErr};
ghost use Rattle.std.specs.Str.{is_utf8};
ghost use Rattle.event_members.specs.TextMembers.{Gives};
ghost use Rattle.group_resources.specs.Lines.{IsLine, has_version, line_text};
ghost use Rattle.group_resources.specs.Reading as spec;

use crate::array::is_of_state;
use crate::laws::lines_are_read_back;
use crate::line::{MergedLine, push_line, state_of};
use event_members::{EventFault, after, text_member};
use front_base::{Bytes, Text};
use json_span::value_len;
use std::alloc::{AllocError, Global};

// Why no line was read that may follow.
#[derive(Clone, Copy, Debug, PartialEq, Eq)]
pub enum LineStop {
    Bad,
    NoMemory,
}

#[tactic(auto, unfolding(crate::specs::Reading::line_at))]
fn line_of(alloc: Global, bytes: &[u8]) -> Result<MergedLine, EventFault>
    ensures { Gives (λ line. line) result (spec.line_at bytes.now) }
{
    let (group_version, rest) = text_member(alloc, bytes, b"{\"groupVersion\":")?;
    let (word, rest) = text_member(alloc, rest, b"\"state\":")?;
    let value = after(rest, b"\"resources\":")?;
    let Some(state) = state_of(word.as_str()) else {
        return Err(EventFault::NotAnEvent);
    };
    let resources = Bytes::new(value[..value_len(value)].to_vec(alloc)?);
    Ok(MergedLine {
        group_version,
        state,
        resources,
    })
}

fn text_fits(text: &Text)
    ensures { is_utf8 text.now ≡ true }
{
    let _text = text.as_str();
}

fn is_line(alloc: Global, line: &MergedLine) -> Result<bool, EventFault>
    ensures { spec.Tells (IsLine line.now) result }
{
    text_fits(&line.group_version);
    is_of_state(alloc, line.state, line.resources.as_slice())
}

fn text_of(alloc: Global, line: &MergedLine) -> Result<Vec<u8>, AllocError>
    ensures { IfOk result (λ text. text.items ≡ line_text line.now) }
{
    let mut text = Vec::new(alloc);
    push_line(
        &mut text,
        line.group_version.as_str(),
        line.state,
        line.resources.as_slice(),
    )?;
    Ok(text)
}

// How many bytes at the front are the text of that line, if they are.
fn size_at(alloc: Global, bytes: &[u8], line: &MergedLine) -> Result<usize, EventFault>
    ensures ok { IfOk result (λ size. spec.Stands bytes.now line.now size) }
    ensures err { IfErr result (spec.NotAt bytes.now line.now) }
{
    if !is_line(alloc, line)? {
        return Err(EventFault::NotAnEvent);
    }
    let text = text_of(alloc, line)?;
    let size = text.len();
    if size <= bytes.len() && &bytes[..size] == text.as_slice() {
        Ok(size)
    } else {
        Err(EventFault::NotAnEvent)
    }
}

// The line at the front, and how many bytes its text has.
fn read_line(alloc: Global, bytes: &[u8]) -> Result<(MergedLine, usize), EventFault>
    ensures ok { IfOk result (λ read. spec.Stands bytes.now read.0 read.1) }
    ensures err { IfErr result (spec.NoneStands bytes.now) }
{
    lines_are_read_back();
    let line = line_of(alloc, bytes)?;
    let size = size_at(alloc, bytes, &line)?;
    Ok((line, size))
}

fn is_among(version: &str, lines: &[MergedLine]) -> bool
    ensures { result ≡ has_version version.now lines.now }
{
    lines
        .iter()
        .any(|line| line.group_version.as_str() == version)
}

// The line at the front, where it may follow these lines, and how many bytes its text has.
pub fn next_line(
    alloc: Global,
    bytes: &[u8],
    lines: &[MergedLine],
) -> Result<(MergedLine, usize), LineStop>
    ensures ok { IfOk result (λ read. spec.Stands bytes.now read.0 read.1) }
    ensures fresh { IfOk result (λ read. has_version read.0.group_version lines.now ≡ false) }
    ensures err { IfErr result (spec.NoneFollows bytes.now lines.now) }
{
    lines_are_read_back();
    let (line, size) = match read_line(alloc, bytes) {
        Ok(read) => read,
        Err(EventFault::NotAnEvent) => return Err(LineStop::Bad),
        Err(EventFault::NoMemory) => return Err(LineStop::NoMemory),
    };
    if is_among(line.group_version.as_str(), lines) {
        return Err(LineStop::Bad);
    }
    Ok((line, size))
}
