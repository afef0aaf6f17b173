// Files of a configuration, and what loading them gives.
use crate::endings::said_of;
use crate::shelf::{Shelf, given_of, names_of};
use command_ends::load_outcome;
use front_config::{LoadFault, Loaded, load};
use std::alloc::{AllocError, Global};

/// The user of the token `a`, how many rules there are, the names of the APIServices, and the delegate.
fn summary(alloc: Global, loaded: &Loaded) -> Result<String, AllocError> {
    let user = match loaded.tokens.user(b"a") {
        Some(user) => user.name.as_str(),
        None => "-",
    };
    let rules = loaded.policy.rules.as_slice().len();
    let mut text = format!(in alloc; "user {user}, rules {rules}, APIServices")?;
    for row in loaded.table.rows() {
        text.push(' ')?;
        text.push_str(row.name.as_str())?;
    }
    let local = loaded.endpoints.of(None);
    let local = format!(in alloc; ", local {local:?}\n")?;
    text.push_str(local.as_str())?;
    Ok(text)
}

fn load_row(alloc: Global, contents: &str, row: &str) -> Result<Loaded, LoadFault> {
    let given = given_of(row);
    let names = names_of(alloc, given);
    let loaded = load(alloc, &names, &mut Shelf::new(contents, given));
    drop(names);
    loaded
}

fn summary_of(alloc: Global, loaded: Loaded) -> Result<String, AllocError> {
    let text = summary(alloc, &loaded);
    drop(loaded);
    text
}

/// What the files of a row give, or why they don't.
pub fn loaded(alloc: Global, contents: &str, row: &str) -> Result<String, AllocError> {
    match load_row(alloc, contents, row) {
        Ok(loaded) => summary_of(alloc, loaded),
        Err(fault) => {
            let text = format!(in alloc; "{fault:?}\n");
            drop(fault);
            text
        }
    }
}

/// How a run ends that is given the files of a row, and what is said of it.
pub fn refused(alloc: Global, contents: &str, row: &str) -> Result<String, AllocError> {
    match load_row(alloc, contents, row) {
        Ok(loaded) => summary_of(alloc, loaded),
        Err(fault) => {
            let names = names_of(alloc, given_of(row));
            let none: [String; 0] = [];
            said_of(alloc, none.as_slice(), load_outcome(names, fault))
        }
    }
}
