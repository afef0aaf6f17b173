// One record of a token file.
ghost use Rattle.std.specs.Prelude.{◌≡◌, Err, IfOk, option_map};
ghost use Rattle.csv.specs.Records.{fields_of};
ghost use Rattle.json_value.specs.Results.{found_or};
ghost use Rattle.token_users.specs.Carried as carried;
ghost use Rattle.token_users.specs.Fault.{Gives};
ghost use Rattle.token_users.specs.File as spec;

use crate::carried::{has_blank_ends, is_plain};
use crate::fault::{BadRecord, Field, TokenFault};
use crate::groups::groups_in;
use csv::ByteRecord;
use front_base::{NoMemory, Text, User};
use std::alloc::Global;

/// A token and its user, with the groups that the file gives.
#[derive(Debug, Drop)]
pub struct Record {
    pub token: Text,
    pub user: User,
}

// The fields of a row that count.
#[derive(Clone, Copy)]
struct Row<'r> {
    token: &'r str,
    user: &'r str,
    uid: &'r str,
    groups: &'r str,
}

// The field at a place, where it is there and is text.
fn text_at(row: &ByteRecord, i: usize) -> Option<&str>
    ensures { option_map (λ s. s.now) result ≡ spec.text_at (fields_of row.now) i }
{
    match str::from_utf8(row.get(i)?) {
        Ok(text) => Some(text),
        Err(_) => None,
    }
}

// The field of the groups, which may be left out.
fn groups_at(row: &ByteRecord) -> Option<&str>
    ensures { option_map (λ s. s.now) result ≡ spec.groups_at (fields_of row.now) }
{
    if row.len() < 4 {
        return Some("");
    }
    text_at(row, 3)
}

fn bad<T>(row: u32, why: BadRecord) -> Result<T, TokenFault>
    ensures { result ≡ Err (TokenFault.BadRow row why) }
{
    Err(TokenFault::BadRow { row, why })
}

fn check_count(number: u32, row: &ByteRecord) -> Result<(), TokenFault>
    ensures { Gives (λ u. u) result (spec.all_fields number (fields_of row.now)) }
{
    if row.len() < 3 {
        return bad(number, BadRecord::FewFields);
    }
    Ok(())
}

fn field_of(number: u32, field: Field, text: Option<&str>) -> Result<&str, TokenFault>
    ensures { Gives (λ s. s.now) result
        (found_or (TokenFault.BadRow number (BadRecord.NotUtf8 field)) (option_map (λ s. s.now) text.entry)) }
{
    match text {
        Some(text) => Ok(text),
        None => bad(number, BadRecord::NotUtf8(field)),
    }
}

#[tactic(auto, unfolding(crate::specs::File::row_of))]
fn row_of(number: u32, row: &ByteRecord) -> Result<Row, TokenFault>
    ensures { Gives spec.texts_in result (spec.row_of number (fields_of row.now)) }
{
    check_count(number, row)?;
    let token = field_of(number, Field::Token, text_at(row, 0))?;
    let user = field_of(number, Field::User, text_at(row, 1))?;
    let uid = field_of(number, Field::Uid, text_at(row, 2))?;
    let groups = field_of(number, Field::Groups, groups_at(row))?;
    Ok(Row {
        token,
        user,
        uid,
        groups,
    })
}

// Why no header can carry the name of a user.
fn user_fault(name: &str) -> Option<BadRecord>
    ensures { result ≡ spec.user_fault name.now }
{
    if name.is_empty() {
        Some(BadRecord::EmptyUser)
    } else if !is_plain(name) {
        Some(BadRecord::Control(Field::User))
    } else if has_blank_ends(name.as_bytes()) {
        Some(BadRecord::BlankEnds(Field::User))
    } else {
        None
    }
}

fn has_blank_group(groups: &[u8]) -> bool
    ensures { result ≡ spec.has_blank_group groups.now }
{
    groups
        .split(|b| *b == b',')
        .any(|group| has_blank_ends(group))
}

// Why no header can carry one of the groups.
fn groups_fault(groups: &str) -> Option<BadRecord>
    ensures { result ≡ spec.groups_fault groups.now }
{
    if !is_plain(groups) {
        Some(BadRecord::Control(Field::Groups))
    } else if has_blank_group(groups.as_bytes()) {
        Some(BadRecord::BlankEnds(Field::Groups))
    } else {
        None
    }
}

// The first fault of the user, and then of the groups.
fn row_fault(row: Row) -> Option<BadRecord>
    ensures { result ≡ spec.row_fault (spec.texts_in row.entry) }
{
    match user_fault(row.user) {
        None => groups_fault(row.groups),
        fault => fault,
    }
}

fn user_in(alloc: Global, row: Row) -> Result<User, NoMemory>
    ensures { IfOk result (λ user. user ≡ spec.user_in (spec.texts_in row.entry)) }
{
    Ok(User {
        name: Text::copy_of(alloc, row.user)?,
        uid: Text::copy_of(alloc, row.uid)?,
        groups: groups_in(alloc, row.groups)?,
    })
}

fn record_in(alloc: Global, row: Row) -> Result<Record, NoMemory>
    ensures { IfOk result (λ made. made ≡ spec.record_in (spec.texts_in row.entry)) }
{
    let token = Text::copy_of(alloc, row.token)?;
    match user_in(alloc, row) {
        Ok(user) => Ok(Record { token, user }),
        Err(NoMemory) => Err(NoMemory),
    }
}

/// What the row with this number says.
#[tactic(auto, unfolding(crate::specs::File::record_of))]
pub fn record_of(alloc: Global, number: u32, row: &ByteRecord) -> Result<Record, TokenFault>
    ensures { Gives (λ r. r) result (spec.record_of number (fields_of row.now)) }
{
    let row = row_of(number, row)?;
    if let Some(why) = row_fault(row) {
        return bad(number, why);
    }
    Ok(record_in(alloc, row)?)
}
