ghost use Rattle.std.specs.Prelude.{◌≡◌, ◌++◌, ◌∷◌, map, Some, IfOk, IfErr, string_bytes};
ghost use Rattle.std.specs.List.{join_with_byte};
ghost use Rattle.discovery_merge.specs.Documents as spec;
ghost use Rattle.discovery_merge.specs.Lent.{lent_versions, lent_view};
ghost use Rattle.discovery_merge.specs.declared.documents.GroupFault.TheVariants as fault;

use crate::lent::{LentGroup, groups_in, rows_in};
use apiservice_rows::Row;
use front_base::{Bytes, NoMemory};
use json_span::push_quoted;
use std::alloc::{AllocError, Global};

/// Why there is no document of a group.
#[derive(Clone, Copy, Debug, PartialEq, Eq)]
pub enum GroupFault {
    /// No row has that group.
    NoGroup,
    NoMemory,
}

impl From<NoMemory> for GroupFault {
    ghost from_gives = { λ _ e. e ≡ fault.NoMemory };

    fn from(_: NoMemory) -> Self {
        GroupFault::NoMemory
    }
}

impl From<AllocError> for GroupFault {
    ghost from_gives = { λ _ e. e ≡ fault.NoMemory };

    fn from(_: AllocError) -> Self {
        GroupFault::NoMemory
    }
}

// The name of a group, a slash and a version.
fn group_version(alloc: Global, group: &str, version: &str) -> Result<String, AllocError>
    ensures { IfOk result (λ text. string_bytes text ≡ group.now ++ 47 ∷ version.now) }
{
    format!(in alloc; "{group}/{version}")
}

fn push_version(
    alloc: Global,
    out: &mut Vec<u8>,
    group: &str,
    version: &str,
) -> Result<(), AllocError>
    ensures { IfOk result (λ _. out.new.items ≡ out.old.items ++ spec.version_text group.now version.now) }
{
    let text = group_version(alloc, group, version)?;
    out.extend_from_slice(b"{\"groupVersion\":")?;
    push_quoted(out, text.as_str())?;
    out.extend_from_slice(b",\"version\":")?;
    push_quoted(out, version)?;
    out.push(b'}')?;
    Ok(())
}

// The versions of these rows, with commas between them.
fn push_versions(
    alloc: Global,
    out: &mut Vec<u8>,
    group: &str,
    rows: &[&Row],
) -> Result<(), AllocError>
    ensures { IfOk result (λ _. out.new.items
        ≡ out.old.items ++ join_with_byte 44 (map (spec.version_text group.now) (lent_versions rows.now))) }
{
    for (i, row) in rows.iter().enumerate() {
        if i > 0 {
            out.push(b',')?;
        }
        push_version(alloc, out, group, row.version.as_str())?;
    }
    Ok(())
}

// The version of the first of these rows.
fn push_first(
    alloc: Global,
    out: &mut Vec<u8>,
    group: &str,
    rows: &[&Row],
) -> Result<(), AllocError>
    ensures { IfOk result (λ _. out.new.items ≡ out.old.items ++ spec.first_text group.now (lent_versions rows.now)) }
{
    match rows.first() {
        Some(row) => push_version(alloc, out, group, row.version.as_str()),
        None => Ok(()),
    }
}

fn push_members(alloc: Global, out: &mut Vec<u8>, group: &LentGroup) -> Result<(), AllocError>
    ensures { IfOk result (λ _. out.new.items ≡ out.old.items ++ spec.group_members (lent_view group.now)) }
{
    out.extend_from_slice(b"\"name\":")?;
    push_quoted(out, group.name)?;
    out.extend_from_slice(b",\"versions\":[")?;
    push_versions(alloc, out, group.name, group.rows.as_slice())?;
    out.extend_from_slice(b"],\"preferredVersion\":")?;
    push_first(alloc, out, group.name, group.rows.as_slice())?;
    Ok(())
}

fn push_item(alloc: Global, out: &mut Vec<u8>, group: &LentGroup) -> Result<(), AllocError>
    ensures { IfOk result (λ _. out.new.items ≡ out.old.items ++ spec.group_item (lent_view group.now)) }
{
    out.push(b'{')?;
    push_members(alloc, out, group)?;
    out.push(b'}')?;
    Ok(())
}

// The groups, with commas between them.
fn push_items(alloc: Global, out: &mut Vec<u8>, groups: &[LentGroup]) -> Result<(), AllocError>
    ensures { IfOk result (λ _. out.new.items
        ≡ out.old.items ++ join_with_byte 44 (map spec.group_item (map lent_view groups.now))) }
{
    for (i, group) in groups.iter().enumerate() {
        if i > 0 {
            out.push(b',')?;
        }
        push_item(alloc, out, group)?;
    }
    Ok(())
}

// The list of groups.
pub fn list_document(alloc: Global, groups: &[LentGroup]) -> Result<Bytes, NoMemory>
    ensures { IfOk result (λ text. text ≡ spec.list_document (map lent_view groups.now)) }
{
    let mut out = Vec::new(alloc);
    out.extend_from_slice(b"{\"kind\":\"APIGroupList\",\"apiVersion\":\"v1\",\"groups\":[")?;
    push_items(alloc, &mut out, groups)?;
    out.extend_from_slice(b"]}")?;
    Ok(Bytes::new(out))
}

// A group by itself.
pub fn document(alloc: Global, group: &LentGroup) -> Result<Bytes, NoMemory>
    ensures { IfOk result (λ text. text ≡ spec.group_document (lent_view group.now)) }
{
    let mut out = Vec::new(alloc);
    out.extend_from_slice(b"{\"kind\":\"APIGroup\",\"apiVersion\":\"v1\",")?;
    push_members(alloc, &mut out, group)?;
    out.push(b'}')?;
    Ok(Bytes::new(out))
}

/// The `APIGroupList` of `/apis`: the groups of `sorted_groups`, each with the version to prefer.
pub fn group_list(alloc: Global, rows: &[Row]) -> Result<Bytes, NoMemory>
    ensures { IfOk result (λ text. text ≡ spec.group_list_text rows.now) }
{
    let groups = groups_in(alloc, rows)?;
    let text = list_document(alloc, groups.as_slice())?;
    Ok(text)
}

/// The `APIGroup` of `/apis/{group}`. `NoGroup` is the answer where no row has the group, whatever its name: the core
/// group has the empty one.
pub fn group(alloc: Global, rows: &[Row], name: &str) -> Result<Bytes, GroupFault>
    ensures text { IfOk result (λ text. spec.group_text name.now rows.now ≡ Some text) }
    ensures refused { IfErr result (λ fault. spec.IsDue fault (spec.group_text name.now rows.now)) }
{
    let rows = rows_in(alloc, rows, name)?;
    if rows.is_empty() {
        return Err(GroupFault::NoGroup);
    }
    Ok(document(alloc, &LentGroup { name, rows })?)
}
