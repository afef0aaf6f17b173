//! Cases of Kubernetes' rules: what a request asks for, who asks and as whom, at which level a policy records a request, and where a
//! service is reached. Each row of a file of `data` is printed with the whole answer.
//!
//! Expected values are worked out by hand: from kube-apiserver's `RequestInfoFactory`, from Kubernetes' pages on the static
//! token file and on audit policies, from the types of `audit.k8s.io/v1`, and from the rules of docs/FORMATS.md.
//!
//! Where a row takes a file, its field is the name of one in `data` (`.csv`, `.json`), its bytes, or `-`, which is empty.
#![tactic(auto)]

mod acting;
mod endpoints;
mod policies;
mod requests;
mod sources;
mod tokens;

use case_rows::{is_row, read_cases};
use std::io;

// The files of cases, in the order in which they are shown.
const MATTERS: &str = "\
requests.txt
recorded.txt
selectors.txt
tokens.txt
acting.txt
policies.txt
decisions.txt
endpoints.txt
";

fn show(rt: &HostRuntime, matter: &str, row: &str) -> io::Result<()> {
    match matter {
        "requests.txt" => requests::show_asked(rt, row),
        "recorded.txt" => requests::show_recorded(rt, row),
        "selectors.txt" => requests::show_selected(rt, row),
        "tokens.txt" => tokens::show_asker(rt, row),
        "acting.txt" => acting::show_act(rt, row),
        "policies.txt" => policies::show_policy(rt, row),
        "decisions.txt" => policies::show_decision(rt, row),
        _ => endpoints::show_address(rt, row),
    }
}

fn show_all(rt: &HostRuntime, matter: &str) -> io::Result<()> {
    let text = read_cases(rt, matter)?;
    println!(rt; "{matter}")?;
    for line in text.lines() {
        if is_row(line) {
            show(rt, matter, line)?;
        }
    }
    Ok(())
}

fn main(rt: HostRuntime) -> io::Result<()> {
    for matter in MATTERS.lines() {
        show_all(&rt, matter)?;
    }
    Ok(())
}
