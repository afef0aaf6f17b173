use crate::sources::source_of;
use crate::tokens::{head_of, lent_user, tokens_of};
use case_rows::fields;
use front_base::{NoMemory, User};
use http_head::Head;
use std::alloc::Global;
use std::io;
use token_users::{Act, Tokens, act, who};

fn act_of(alloc: Global, tokens: &Tokens, head: &Head) -> Result<Act, NoMemory> {
    let asker = who(alloc, tokens, head)?;
    let act = act(alloc, &asker, head);
    drop(asker);
    act
}

// The user of an act, given the one that authenticated.
fn acting(alloc: Global, tokens: &Tokens, head: &Head, act: &Act) -> Result<User, NoMemory> {
    let own = lent_user(alloc, tokens, head)?;
    let user = act.user(&own).copy(alloc);
    drop(own);
    user
}

fn show_acts(rt: &HostRuntime, row: &str, tokens: &Tokens, head: &Head) -> io::Result<()> {
    let alloc = rt.alloc();
    match act_of(alloc, tokens, head) {
        Ok(act) => {
            let user = acting(alloc, tokens, head, &act);
            let shown = println!(rt; "{row} => {act:?}\n  acting {user:?}");
            drop(user);
            drop(act);
            shown
        }
        Err(NoMemory) => println!(rt; "{row} => no memory"),
    }
}

/// As whom a request acts, by a row of a token file and the header lines of a request.
pub fn show_act(rt: &HostRuntime, row: &str) -> io::Result<()> {
    let alloc = rt.alloc();
    let (source, lines) = fields(row);
    let file = source_of(rt, source);
    match tokens_of(alloc, file.as_slice()) {
        Ok(tokens) => {
            let head = head_of(alloc, lines);
            let shown = show_acts(rt, row, &tokens, &head);
            drop(head);
            drop(tokens);
            shown
        }
        Err(fault) => println!(rt; "{row} => {fault:?}"),
    }
}
