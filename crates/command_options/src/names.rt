//! The names of the options, without their dashes. They are kube-apiserver's where it has such an option, and else follow
//! Go's names for the same limit.

pub const TOKENS: &str = "token-auth-file";

pub const POLICY: &str = "audit-policy-file";

pub const SERVICES: &str = "apiservices";

pub const ENDPOINTS: &str = "endpoints";

pub const MAX_EVENT_SIZE: &str = "max-event-size";

pub const MOMENT: &str = "moment";

/// Of `explain`, a flag: where each request goes is written in the place of its events.
pub const ROUTES: &str = "routes";

/// Of `check`, a flag: a summary of a log that conforms is written too.
pub const SUMMARY: &str = "summary";

/// Of `check`, a flag: it goes on behind the first line that doesn't conform.
pub const ALL: &str = "all";

/// Of `serve`: the address at which it listens.
pub const LISTEN: &str = "listen";

pub const BAYS: &str = "bays";

pub const CONNECTIONS: &str = "connections";

pub const LOG_PATH: &str = "audit-log-path";

pub const LOG_MODE: &str = "audit-log-mode";

pub const WEBHOOK_URL: &str = "audit-webhook-url";

pub const WEBHOOK_MODE: &str = "audit-webhook-mode";

pub const BATCH_BUFFER: &str = "batch-buffer";

pub const BATCH_MAX_SIZE: &str = "batch-max-size";

pub const BATCH_MAX_WAIT: &str = "batch-max-wait-ms";

pub const MAX_BATCH_SIZE: &str = "max-batch-size";

pub const IDLE_TIMEOUT: &str = "idle-timeout";

pub const READ_HEADER_TIMEOUT: &str = "read-header-timeout";

pub const MIN_RATE: &str = "min-rate";

pub const STALL_TIMEOUT: &str = "stall-timeout";

pub const DIAL_TIMEOUT: &str = "dial-timeout";

pub const RESPONSE_HEADER_TIMEOUT: &str = "response-header-timeout";

pub const SHUTDOWN_TIMEOUT: &str = "shutdown-timeout";

/// Of `serve`: the file that counts are written to.
pub const METRICS_PATH: &str = "metrics-path";

/// Of `serve`, a flag: several processes may listen at one address.
pub const REUSE_PORT: &str = "reuse-port";

/// Of `serve`, a flag: an end of standard input ends the run.
pub const EXIT_ON_STDIN_EOF: &str = "exit-on-stdin-eof";

/// Of `ship`: how often a batch is posted at most.
pub const TRIES: &str = "tries";

/// Of `ship`: how many posts a second its throttle gives.
pub const RATE: &str = "rate";

/// Of `ship`: how many posts its throttle gives at once.
pub const BURST: &str = "burst";

/// Of `ship`: how long it waits before the second try of a batch.
pub const RETRY_WAIT: &str = "retry-wait-ms";

/// Of `ship`: the number of the first line that is shipped.
pub const FROM_LINE: &str = "from-line";

/// Of `resources`: the file with an earlier document.
pub const PREVIOUS: &str = "previous";

/// Of `resources` and `probe`: how long one request to a server may take.
pub const REQUEST_TIMEOUT: &str = "request-timeout-ms";

/// Of `probe`: the front door that is told.
pub const FRONT: &str = "front";

/// Of `probe`: the bearer token of the user who tells it.
pub const TOKEN: &str = "token";

/// Of `probe`: the file with that token.
pub const TOKEN_FILE: &str = "token-file";

/// Of `probe`: how often each service is asked.
pub const ROUNDS: &str = "rounds";

/// Of `probe`: the time from the beginning of a round to that of the next one.
pub const EVERY: &str = "every";

/// Of `probe`: how many probes one after another change a condition.
pub const THRESHOLD: &str = "threshold";
