// Members of an object, each with the comma after it.
ghost use Rattle.std.specs.Prelude.{◌≡◌, length};
ghost use Rattle.event_members.specs.TextMembers as spec;
ghost use Rattle.event_members.specs.TextMembers.{Gives};

use crate::fault::EventFault;
use crate::json_string::{after, after_if, closed, text_of};
use front_base::{Text, Texts};
use std::alloc::Global;

pub fn skip_comma(bytes: &[u8]) -> &[u8]
    ensures { result.now ≡ spec.skip_comma bytes.now }
{
    match bytes {
        [b',', rest @ ..] => rest,
        _ => bytes,
    }
}

fn item_of(alloc: Global, bytes: &[u8]) -> Result<(Text, &[u8]), EventFault>
    ensures { Gives (λ x. (x.0, x.1.now)) result (spec.item_at bytes.now) }
{
    let (text, rest) = text_of(alloc, bytes)?;
    Ok((text, skip_comma(rest)))
}

// A member that is always there.
#[tactic(auto, unfolding(crate::specs::TextMembers::text_member_at))]
pub fn text_member<'b>(
    alloc: Global,
    bytes: &'b [u8],
    label: &[u8],
) -> Result<(Text, &'b [u8]), EventFault>
    ensures { Gives (λ x. (x.0, x.1.now)) result (spec.text_member_at label.now bytes.now) }
{
    item_of(alloc, after(bytes, label)?)
}

// A member that is left out where its text is empty.
#[tactic(auto, unfolding(crate::specs::TextMembers::text_if_at))]
pub fn text_if<'b>(
    alloc: Global,
    bytes: &'b [u8],
    label: &[u8],
) -> Result<(Text, &'b [u8]), EventFault>
    ensures { Gives (λ x. (x.0, x.1.now)) result (spec.text_if_at label.now bytes.now) }
{
    match after_if(bytes, label) {
        Some(value) => item_of(alloc, value),
        None => Ok((Text::new(String::new(alloc)), bytes)),
    }
}

fn items_of(alloc: Global, bytes: &[u8]) -> Result<(Vec<Text>, &[u8]), EventFault>
    ensures { Gives (λ x. (x.0.items, x.1.now)) result (spec.up_to 93 spec.item_at (length bytes.now) bytes.now) }
{
    let mut texts = Vec::new(alloc);
    let mut rest = bytes;
    for _ in 0..bytes.len() {
        if let Some(after) = closed(rest, b']') {
            return Ok((texts, after));
        }
        let (text, after) = item_of(alloc, rest)?;
        texts.push(text)?;
        rest = after;
    }
    Err(EventFault::NotAnEvent)
}

#[tactic(auto, unfolding(crate::specs::TextMembers::texts_at))]
fn texts_of(alloc: Global, bytes: &[u8]) -> Result<(Texts, &[u8]), EventFault>
    ensures { Gives (λ x. (x.0, x.1.now)) result (spec.texts_at bytes.now) }
{
    let (texts, rest) = items_of(alloc, after(bytes, b"[")?)?;
    Ok((Texts::new(texts), skip_comma(rest)))
}

// A list that is left out where it is empty.
#[tactic(auto, unfolding(crate::specs::TextMembers::texts_if_at))]
pub fn texts_if<'b>(
    alloc: Global,
    bytes: &'b [u8],
    label: &[u8],
) -> Result<(Texts, &'b [u8]), EventFault>
    ensures { Gives (λ x. (x.0, x.1.now)) result (spec.texts_if_at label.now bytes.now) }
{
    match after_if(bytes, label) {
        Some(value) => texts_of(alloc, value),
        None => Ok((Texts::new(Vec::new(alloc)), bytes)),
    }
}

// The end of an object.
#[tactic(auto, unfolding(crate::specs::TextMembers::object_end))]
pub fn object_end(bytes: &[u8]) -> Result<&[u8], EventFault>
    ensures { Gives (λ rest. rest.now) result (spec.object_end bytes.now) }
{
    Ok(skip_comma(after(bytes, b"}")?))
}

// Three texts that may be left out.
#[tactic(auto, unfolding(crate::specs::TextMembers::three_at))]
pub fn three_texts<'b>(
    alloc: Global,
    bytes: &'b [u8],
    one: &[u8],
    two: &[u8],
    three: &[u8],
) -> Result<((Text, Text, Text), &'b [u8]), EventFault>
    ensures { Gives (λ x. (x.0, x.1.now)) result (spec.three_at one.now two.now three.now bytes.now) }
{
    let (first, rest) = text_if(alloc, bytes, one)?;
    let (second, rest) = text_if(alloc, rest, two)?;
    let (third, rest) = text_if(alloc, rest, three)?;
    Ok(((first, second, third), rest))
}
