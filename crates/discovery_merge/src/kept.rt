// The documents of rows, kept until the rows change.
ghost use Rattle.std.specs.Prelude.{◌≡◌, ◌++◌, ℕ, List, map, if◌then◌else◌, IfOk, OnOk, option_map};
ghost use Rattle.std.specs.BTreeMap.{get_by_text};
ghost use Rattle.std.specs.Str.{bytes_eq};
ghost use Rattle.discovery_merge.specs.Documents.{group_document};
ghost use Rattle.discovery_merge.specs.Kept as spec;
ghost use Rattle.discovery_merge.specs.Lent.{lent_rows, lent_view};

use crate::documents::{document, list_document};
use crate::lent::{LentGroup, lent_groups};
use crate::order::rows_of;
use apiservice_rows::Row;
use front_base::{Bytes, NoMemory};
use std::alloc::Global;
use std::collections::BTreeMap;
use std::marker::Model;

/// The documents of a list of rows, made once and lent by name. Contracts see their texts.
#[derive(Debug, Drop)]
pub struct Documents {
    list: Bytes,
    // By the names of groups, with the core group's empty one.
    groups: BTreeMap<String, Bytes>,
}

impl Model for Documents {
    ghost use Rattle.std.specs.Prelude.{map, string_bytes};
    ghost use Rattle.discovery_merge.specs.Kept.{Kept};

    ghost Value = { Kept };

    ghost view = { λ d. record {
      list = d.list;
      groups = map (λ e. (string_bytes e.0, e.1)) d.groups.entries;
    } };
}

// Keeps the document of a group under its name.
fn keep(
    alloc: Global,
    texts: &mut BTreeMap<String, Bytes>,
    group: &LentGroup,
) -> Result<(), NoMemory>
    ensures { OnOk result ((name : List ℕ) → get_by_text texts.new name
        ≡ (if bytes_eq group.now.name.now name then Some (group_document (lent_view group.now))
        else get_by_text texts.old name)) }
{
    let text = document(alloc, group)?;
    let name = String::from_str(alloc, group.name)?;
    texts.insert(name, text)?;
    Ok(())
}

// The documents of groups, by their names.
fn texts_of(alloc: Global, groups: &[LentGroup]) -> Result<BTreeMap<String, Bytes>, NoMemory>
    ensures { IfOk result (λ texts. (name : List ℕ)
        → get_by_text texts name ≡ spec.last_document name None (map lent_view groups.now)) }
{
    let mut texts = BTreeMap::new(alloc);
    for group in groups {
        keep(alloc, &mut texts, group)?;
    }
    Ok(texts)
}

// Adds the core group, where a row has it.
fn add_core<'a>(
    alloc: Global,
    rows: &[&'a Row],
    groups: &mut Vec<LentGroup<'a>>,
) -> Result<(), NoMemory>
    ensures { OnOk result (map lent_view groups.new.items
        ≡ map lent_view groups.old.items ++ spec.core_groups (lent_rows rows.now)) }
{
    let rows = rows_of(alloc, rows, "")?;
    if rows.is_empty() {
        return Ok(());
    }
    groups.push(LentGroup { name: "", rows })?;
    Ok(())
}

impl Documents {
    /// The documents of these rows.
    pub fn new(alloc: Global, rows: &[&Row]) -> Result<Documents, NoMemory>
        ensures { IfOk result (λ documents. spec.AreOf (lent_rows rows.now) documents) }
    {
        let mut groups = lent_groups(alloc, rows)?;
        let list = list_document(alloc, groups.as_slice())?;
        add_core(alloc, rows, &mut groups)?;
        let groups = texts_of(alloc, groups.as_slice())?;
        Ok(Documents { list, groups })
    }

    /// The `APIGroupList` of `/apis`.
    pub fn list(&self) -> &[u8]
        ensures { result.now ≡ self.now.list }
    {
        self.list.as_slice()
    }

    /// The `APIGroup` of `/apis/{group}`, where a row has the group. It takes no memory.
    pub fn group(&self, name: &str) -> Option<&[u8]>
        ensures { option_map (λ text. text.now) result ≡ spec.text_of name.now self.now.groups }
    {
        match self.groups.get(name) {
            Some(text) => Some(text.as_slice()),
            None => None,
        }
    }
}
