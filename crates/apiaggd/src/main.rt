//! `apiaggd`, a front door of a cluster API with audit. Each command's top call is named by the crate that its arm calls; here are the
//! handles of this process.
#![tactic(auto)]

mod rehearse;
mod streams;

use client_process::{fetched, probed, shipped};
use command_options::Asked;
use explain_command::{VERSION, checked, explained, finish_told, help_on, print_text, words_of};
use rehearse::rehearsed;
use serve_process::{no_boot_word, run_over};
use serve_start::{Ready, finish, prepare};
use std::process::ExitCode;
use streams::hold_streams;
use tcp_plant::TcpPlant;

fn main(rt: HostRuntime) -> ExitCode {
    let _streams = hold_streams(&rt);
    let words = match words_of(&rt) {
        Ok(words) => words,
        Err(ended) => return finish_told(&rt, &[], &ended, None),
    };
    let ready = match Asked::of(words.as_slice()) {
        Asked::Help(topic) => return print_text(&rt, help_on(topic)),
        Asked::Version => return print_text(&rt, VERSION),
        Asked::Explain | Asked::Unknown => return explained(&rt, &words),
        Asked::Check => return checked(&rt, &words),
        Asked::Rehearse => return rehearsed(&rt, &rt, &words),
        Asked::Ship => return shipped(&rt, &rt, &words),
        Asked::Resources => return fetched(&rt, &rt, &words),
        Asked::Probe => return probed(&rt, &rt, &words),
        Asked::Serve => prepare(&rt, &rt, &words),
    };
    let Ready {
        serve,
        gate,
        watcher,
    } = match ready {
        Ok(ready) => ready,
        Err(code) => return code,
    };
    let ending = match TcpPlant::new(&rt, &gate) {
        Ok(mut plant) => run_over(&rt, &rt, serve, &gate, &mut plant),
        Err(error) => no_boot_word(rt.alloc(), &error),
    };
    gate.close();
    watcher.join(&rt);
    finish(&rt, &ending)
}
