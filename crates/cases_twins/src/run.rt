use case_rows::{read_cases, spelled};
use case_runs::{World, WorldEnd, WorldHook, WorldLog, run_world};
use std::alloc::{AllocError, Global};
use std::sync::Wait;
use std::thread::Threads;

// Both sinks of each run: the log is written to at once, and the webhook in batches.
const SINKS: &str =
    "--audit-log-path=log --audit-webhook-url=http://127.0.0.1:9400/ --batch-max-size=2";

/// What the sinks of a run were sent: the log its lines, the webhook its posts, a line each, as `case_rows` spells bytes.
#[derive(Drop)]
pub struct Sent {
    pub log: String,
    pub posts: String,
}

fn log_text(alloc: Global, logs: &[WorldLog]) -> Result<String, AllocError> {
    let mut text = String::new(alloc);
    for log in logs {
        text.push_str(str::from_utf8(log.out().bytes()).unwrap_or("not UTF-8\n"))?;
    }
    Ok(text)
}

fn posts_text(alloc: Global, hook: &WorldHook) -> Result<String, AllocError> {
    let mut text = String::new(alloc);
    for call in hook.dial().calls().unwrap_or(&[]) {
        text.push_str(spelled(alloc, call.sent.as_slice()).as_str())?;
        text.push_str("\n")?;
    }
    Ok(text)
}

fn texts_of(alloc: Global, logs: &[WorldLog], hook: &WorldHook) -> Option<Sent> {
    let log = log_text(alloc, logs).ok()?;
    let posts = posts_text(alloc, hook).ok()?;
    Some(Sent { log, posts })
}

fn sent_of(alloc: Global, ended: &WorldEnd) -> Option<Sent> {
    match &ended.hook.drain {
        Some(drain) => texts_of(alloc, ended.log.own.as_slice(), &drain.sink),
        None => None,
    }
}

/// Runs `serve` by the policy of one file with the requests of another one. None where memory or a file is wanting.
pub fn run_file<R: Threads + Wait + Copy + Send + Sync + Drop>(
    rt: &HostRuntime,
    threads: &R,
    name: &str,
    policy: &str,
) -> Option<Sent> {
    let alloc = rt.alloc();
    let requests = read_cases(rt, name).ok()?;
    let options = format!(in alloc; "{SINKS} --audit-policy-file={policy}").ok()?;
    let world = World {
        options: options.as_str(),
        requests: requests.as_str(),
        allotment: 1_000,
        step: 0,
        log_fails: "",
        posts: "200 200 200 200 200 200 200 200",
    };
    let ended = run_world(rt, threads, &world)?;
    let sent = sent_of(alloc, &ended);
    drop(ended);
    sent
}
