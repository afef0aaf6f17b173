use crate::rows::input_of;
use case_rows::{fields, spelled};
use front_base::{
    AuditId, MOST_REQUESTS, Moment, NoMemory, audit_id_text, compare_versions, moment_text,
    number_of, push_audit_id, push_moment,
};
use std::alloc::Global;
use std::cmp::Ordering;

/// The number that digits spell.
pub fn show_number(alloc: Global, out: &mut String, row: &str) -> Result<(), NoMemory> {
    let text = input_of(alloc, row);
    Ok(write!(out, "{:?}", number_of(text.as_slice()))?)
}

// A boot word, a bay and a number.
fn id_of(row: &str) -> Option<AuditId> {
    let (boot, rest) = fields(row);
    let (bay, number) = fields(rest);
    let boot = number_of(boot.as_bytes())?;
    let bay = u16::try_from(number_of(bay.as_bytes())?).ok()?;
    let number = number_of(number.as_bytes())?;
    if number < MOST_REQUESTS {
        Some(AuditId { boot, bay, number })
    } else {
        None
    }
}

fn push_id(alloc: Global, out: &mut String, id: AuditId) -> Result<(), NoMemory> {
    let mut text = b"id=".to_vec(alloc)?;
    push_audit_id(&mut text, id)?;
    let text = spelled(alloc, text.as_slice());
    Ok(write!(out, "{}, {text}", audit_id_text(alloc, id)?.as_str())?)
}

/// An audit ID as a text, and as what is written after `id=`.
pub fn show_id(alloc: Global, out: &mut String, row: &str) -> Result<(), NoMemory> {
    match id_of(row) {
        Some(id) => push_id(alloc, out, id),
        None => Ok(out.push_str("no ID")?),
    }
}

fn moment_of(row: &str) -> Option<Moment> {
    match row {
        "epoch" => Some(Moment::epoch()),
        _ => Moment::new(number_of(row.as_bytes())?),
    }
}

fn push_texts(alloc: Global, out: &mut String, moment: Moment) -> Result<(), NoMemory> {
    let mut text = b"at=".to_vec(alloc)?;
    push_moment(&mut text, moment)?;
    let text = spelled(alloc, text.as_slice());
    let micros = moment.micros();
    Ok(write!(
        out,
        "{micros}, {}, {text}",
        moment_text(alloc, moment)?.as_str()
    )?)
}

/// A moment: its microseconds, its text, and what is written after `at=`.
pub fn show_moment(alloc: Global, out: &mut String, row: &str) -> Result<(), NoMemory> {
    match moment_of(row) {
        Some(moment) => push_texts(alloc, out, moment),
        None => Ok(out.push_str("None")?),
    }
}

fn sign_of(order: Ordering) -> char {
    match order {
        Ordering::Less => '<',
        Ordering::Equal => '=',
        Ordering::Greater => '>',
    }
}

/// How each version compares with each.
pub fn show_versions(out: &mut String, row: &str) -> Result<(), NoMemory> {
    for (at, one) in row.split(" | ").enumerate() {
        if at > 0 {
            out.push(' ')?;
        }
        for other in row.split(" | ") {
            out.push(sign_of(compare_versions(one, other)))?;
        }
    }
    Ok(())
}
