use crate::rows::text_of;
use case_rows::fields;
use front_base::{Level, NoMemory, Stage, cut_at, read_address, trim_slashes};
use std::alloc::Global;

/// The address that a text spells.
pub fn show_address(alloc: Global, out: &mut String, row: &str) -> Result<(), NoMemory> {
    let text = text_of(alloc, row);
    Ok(write!(out, "{:?}", read_address(text.as_str()))?)
}

/// The two parts of a text, before and after the first of a character.
pub fn show_parts(alloc: Global, out: &mut String, row: &str) -> Result<(), NoMemory> {
    let (at, text) = fields(row);
    let text = text_of(alloc, text);
    match at.as_bytes() {
        [b] if *b < 128 => Ok(write!(out, "{:?}", cut_at(text.as_str(), char::from(*b)))?),
        _ => Ok(out.push_str("no character")?),
    }
}

/// A path without the slashes at its ends.
pub fn show_path(alloc: Global, out: &mut String, row: &str) -> Result<(), NoMemory> {
    let path = text_of(alloc, row);
    Ok(write!(out, "{:?}", trim_slashes(path.as_str()))?)
}

fn push_level(out: &mut String, level: Option<Level>) -> Result<(), NoMemory> {
    match level {
        Some(level) => Ok(write!(out, "{level:?}, named {}", level.name())?),
        None => Ok(out.push_str("None of them")?),
    }
}

fn push_stage(out: &mut String, stage: Option<Stage>) -> Result<(), NoMemory> {
    match stage {
        Some(stage) => Ok(write!(out, "{stage:?}, named {}", stage.name())?),
        None => Ok(out.push_str("None of them")?),
    }
}

/// The level or the stage of a name, and how that one is named.
pub fn show_name(out: &mut String, row: &str) -> Result<(), NoMemory> {
    let (kind, name) = fields(row);
    match kind {
        "level" => push_level(out, Level::of_name(name)),
        _ => push_stage(out, Stage::of_name(name)),
    }
}
