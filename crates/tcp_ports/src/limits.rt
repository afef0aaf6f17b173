/// How long and how much a server waits for its peers. Times are in milliseconds.
#[derive(Clone, Copy, Debug, PartialEq, Eq, Drop)]
pub struct TcpLimits {
    /// How long a connection may be idle while no other one waits to be accepted.
    pub idle_timeout: u64,
    /// After how much idle time a connection ends while another one waits, if it was answered before and that reply didn't say
    /// that it ends.
    pub idle_grace: u64,
    /// The same of a connection before its first request.
    pub fresh_grace: u64,
    /// How long reads may wait for one head of a request in all.
    pub read_header_timeout: u64,
    /// How many bytes a second a peer has to move, 0 for no floor. Only time in which a call waits counts.
    pub min_rate: u64,
    /// How far a peer may fall behind `min_rate`, which is how long it may move nothing; and how long the body of a reply may be
    /// silent where its request isn't long-running.
    pub stall_timeout: u64,
    /// How long a connection that is handed back is read for, and its bytes dropped.
    pub linger_timeout: u64,
    /// After how many dropped bytes that ends too.
    pub linger_bytes: u64,
    /// How long opening a link may take.
    pub dial_timeout: u64,
    /// How long reads may wait for one head of a reply in all.
    pub response_header_timeout: u64,
    /// How long requests in progress may go on once the listener was closed, and for how long after the last of them links without
    /// a client are opened. The reply to a long-running request that is silent once its head has come ends within `wake_interval`.
    pub shutdown_timeout: u64,
    /// How long one wait lasts at most before the state of the listener and of the client is looked at again, at least 1.
    pub wake_interval: u64,
}

/// Those of a server that nobody tuned.
pub const DEFAULT_LIMITS: TcpLimits = TcpLimits {
    // `IdleTimeout` of net/http's server. kube-apiserver has 90 s, but a bay is scarcer than a goroutine.
    idle_timeout: 60_000,
    // A client that sends more often than that isn't cut off as it sends.
    idle_grace: 1_000,
    fresh_grace: 200,
    // `ReadHeaderTimeout` of net/http. kube-apiserver has 32 s, but a bay is scarcer than a goroutine.
    read_header_timeout: 10_000,
    // Apache's mod_reqtimeout has `MinRate` 500, by which a body of 3 MiB may hold a bay for 105 minutes; net/http has no floor.
    min_rate: 8192,
    // In place of `ReadTimeout` and `WriteTimeout` of net/http, which bound whole requests, and so end watches.
    stall_timeout: 30_000,
    // `rstAvoidanceDelay` of net/http's server.
    linger_timeout: 500,
    linger_bytes: 16_777_216,
    // `Timeout` of Go's net.Dialer. net/http has 30 s there, but backends stand in the same cluster.
    dial_timeout: 5_000,
    // `ResponseHeaderTimeout` of net/http's Transport, at kube-apiserver's `--request-timeout`.
    response_header_timeout: 60_000,
    // Two thirds of a pod's `terminationGracePeriodSeconds`.
    shutdown_timeout: 20_000,
    wake_interval: 1_000,
};
