// The options of each command, for what is told of a bad word.
use crate::names::{
    ALL, BATCH_BUFFER, BATCH_MAX_SIZE, BATCH_MAX_WAIT, BAYS, BURST, CONNECTIONS, DIAL_TIMEOUT,
    ENDPOINTS, EVERY, EXIT_ON_STDIN_EOF, FROM_LINE, FRONT, IDLE_TIMEOUT, LISTEN, LOG_MODE,
    LOG_PATH, MAX_BATCH_SIZE, MAX_EVENT_SIZE, METRICS_PATH, MIN_RATE, MOMENT, POLICY, PREVIOUS,
    RATE, READ_HEADER_TIMEOUT, REQUEST_TIMEOUT, RESPONSE_HEADER_TIMEOUT, RETRY_WAIT, REUSE_PORT,
    ROUNDS, ROUTES, SERVICES, SHUTDOWN_TIMEOUT, STALL_TIMEOUT, SUMMARY, THRESHOLD, TOKEN,
    TOKEN_FILE, TOKENS, TRIES, WEBHOOK_MODE, WEBHOOK_URL,
};
use crate::ranged::Ranged;

const EXPLAIN: [&str; 7] = [
    TOKENS,
    POLICY,
    SERVICES,
    ENDPOINTS,
    MAX_EVENT_SIZE,
    MOMENT,
    ROUTES,
];

const CHECK: [&str; 3] = [POLICY, SUMMARY, ALL];

const SERVE: [&str; 26] = [
    TOKENS,
    POLICY,
    SERVICES,
    ENDPOINTS,
    MAX_EVENT_SIZE,
    LISTEN,
    BAYS,
    CONNECTIONS,
    LOG_PATH,
    LOG_MODE,
    WEBHOOK_URL,
    WEBHOOK_MODE,
    BATCH_BUFFER,
    BATCH_MAX_SIZE,
    BATCH_MAX_WAIT,
    MAX_BATCH_SIZE,
    IDLE_TIMEOUT,
    READ_HEADER_TIMEOUT,
    MIN_RATE,
    STALL_TIMEOUT,
    DIAL_TIMEOUT,
    RESPONSE_HEADER_TIMEOUT,
    SHUTDOWN_TIMEOUT,
    METRICS_PATH,
    REUSE_PORT,
    EXIT_ON_STDIN_EOF,
];

const SHIP: [&str; 8] = [
    WEBHOOK_URL,
    BATCH_MAX_SIZE,
    MAX_BATCH_SIZE,
    TRIES,
    RATE,
    BURST,
    RETRY_WAIT,
    FROM_LINE,
];

const RESOURCES: [&str; 4] = [SERVICES, ENDPOINTS, PREVIOUS, REQUEST_TIMEOUT];

const PROBE: [&str; 9] = [
    SERVICES,
    ENDPOINTS,
    FRONT,
    TOKEN,
    TOKEN_FILE,
    ROUNDS,
    EVERY,
    THRESHOLD,
    REQUEST_TIMEOUT,
];

/// The names of the options of a command, without their dashes. A command of another name has none.
pub fn options_for(command: &str) -> &'static [&'static str] {
    match command {
        "explain" => &EXPLAIN,
        "check" => &CHECK,
        "serve" => &SERVE,
        "ship" => &SHIP,
        "resources" => &RESOURCES,
        "probe" => &PROBE,
        _ => &[],
    }
}

/// The name of the option that a command can't be without, if there is one.
pub fn required_by(command: &str) -> Option<&'static str> {
    match command {
        "ship" => Some(WEBHOOK_URL),
        _ => None,
    }
}

/// The first command that has an option of that name, in the order `explain`, `check`, `serve`, `ship`, `resources` and `probe`.
pub fn command_with(name: &str) -> Option<&'static str> {
    for command in ["explain", "check", "serve", "ship", "resources", "probe"] {
        if options_for(command).iter().any(|own| *own == name) {
            return Some(command);
        }
    }
    None
}

/// What the value of an option is.
#[derive(Clone, Copy, Debug, PartialEq, Eq)]
pub enum ValueKind {
    Text,
    Number,
    /// How events go to a sink: `batch`, `blocking` or `blocking-strict`.
    Mode,
    /// It has none.
    Flag,
}

/// What the value of the option of that name is.
pub fn kind_of(name: &str) -> ValueKind {
    match name {
        ROUTES | SUMMARY | ALL | REUSE_PORT | EXIT_ON_STDIN_EOF => ValueKind::Flag,
        LOG_MODE | WEBHOOK_MODE => ValueKind::Mode,
        TOKENS | POLICY | SERVICES | ENDPOINTS => ValueKind::Text,
        LISTEN | LOG_PATH | WEBHOOK_URL | METRICS_PATH => ValueKind::Text,
        PREVIOUS | FRONT | TOKEN | TOKEN_FILE => ValueKind::Text,
        _ => ValueKind::Number,
    }
}

/// The option of that name, where it has a number.
pub fn ranged_named(name: &str) -> Option<Ranged> {
    match name {
        MAX_EVENT_SIZE => Some(Ranged::MaxEventSize),
        MOMENT => Some(Ranged::Moment),
        BAYS => Some(Ranged::Bays),
        CONNECTIONS => Some(Ranged::Connections),
        BATCH_BUFFER => Some(Ranged::BatchBuffer),
        BATCH_MAX_SIZE => Some(Ranged::BatchMaxSize),
        BATCH_MAX_WAIT => Some(Ranged::BatchMaxWait),
        MAX_BATCH_SIZE => Some(Ranged::MaxBatchSize),
        IDLE_TIMEOUT => Some(Ranged::IdleTimeout),
        READ_HEADER_TIMEOUT => Some(Ranged::ReadHeaderTimeout),
        MIN_RATE => Some(Ranged::MinRate),
        STALL_TIMEOUT => Some(Ranged::StallTimeout),
        DIAL_TIMEOUT => Some(Ranged::DialTimeout),
        RESPONSE_HEADER_TIMEOUT => Some(Ranged::ResponseHeaderTimeout),
        SHUTDOWN_TIMEOUT => Some(Ranged::ShutdownTimeout),
        TRIES => Some(Ranged::Tries),
        RATE => Some(Ranged::Rate),
        BURST => Some(Ranged::Burst),
        RETRY_WAIT => Some(Ranged::RetryWait),
        FROM_LINE => Some(Ranged::FromLine),
        REQUEST_TIMEOUT => Some(Ranged::RequestTimeout),
        ROUNDS => Some(Ranged::Rounds),
        EVERY => Some(Ranged::Every),
        THRESHOLD => Some(Ranged::Threshold),
        _ => None,
    }
}

/// The option that names the sink whose mode the option of that name gives.
pub fn sink_of(name: &str) -> Option<&'static str> {
    match name {
        LOG_MODE => Some(LOG_PATH),
        WEBHOOK_MODE => Some(WEBHOOK_URL),
        _ => None,
    }
}

/// The option that the option of that name can't stand beside.
pub fn excluded_by(name: &str) -> Option<&'static str> {
    match name {
        TOKEN_FILE => Some(TOKEN),
        _ => None,
    }
}
