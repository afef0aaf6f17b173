// The options that have a number.
ghost use Rattle.std.specs.Prelude.{◌≡◌, ◌≤◌, IfOk};
ghost use Rattle.command_options.specs.Options as spec;

use crate::fault::WordsFault;
use crate::given::{Options, number_in, number_or};
use crate::names::{
    BATCH_BUFFER, BATCH_MAX_SIZE, BATCH_MAX_WAIT, BAYS, BURST, CONNECTIONS, DIAL_TIMEOUT, EVERY,
    FROM_LINE, IDLE_TIMEOUT, MAX_BATCH_SIZE, MAX_EVENT_SIZE, MIN_RATE, MOMENT, RATE,
    READ_HEADER_TIMEOUT, REQUEST_TIMEOUT, RESPONSE_HEADER_TIMEOUT, RETRY_WAIT, ROUNDS,
    SHUTDOWN_TIMEOUT, STALL_TIMEOUT, THRESHOLD, TRIES,
};

/// The options whose numbers have a range. Timeouts are in milliseconds, sizes in bytes.
#[derive(Clone, Copy, Debug, PartialEq, Eq)]
pub enum Ranged {
    /// `--audit-log-truncate-max-event-size` of kube-apiserver, for both sinks, with a greater default.
    MaxEventSize,
    /// In microseconds since 1970.
    Moment,
    /// How many threads serve connections, each one at a time.
    Bays,
    /// After how many connections a bay ends, 0 for no end.
    Connections,
    /// `--audit-webhook-batch-buffer-size` of kube-apiserver, for both sinks, with its default.
    BatchBuffer,
    /// `--audit-webhook-batch-max-size` of kube-apiserver, for both sinks, with its default.
    BatchMaxSize,
    /// `--audit-webhook-batch-max-wait` of kube-apiserver, for both sinks, with its default; in milliseconds.
    BatchMaxWait,
    /// `--audit-webhook-truncate-max-batch-size` of kube-apiserver, for both sinks, with its default.
    MaxBatchSize,
    /// `IdleTimeout` of net/http's server.
    IdleTimeout,
    /// `ReadHeaderTimeout` of net/http's server.
    ReadHeaderTimeout,
    /// `MinRate` of Apache's mod_reqtimeout, in bytes a second; 0 for no floor.
    MinRate,
    /// How long a peer may move nothing of a body.
    StallTimeout,
    /// `Timeout` of Go's net.Dialer.
    DialTimeout,
    /// `ResponseHeaderTimeout` of net/http's Transport.
    ResponseHeaderTimeout,
    /// How long requests in progress may go on once the door is closed.
    ShutdownTimeout,
    /// How often a batch is posted at most.
    Tries,
    /// `--audit-webhook-batch-throttle-qps` of kube-apiserver, with its default: posts a second.
    Rate,
    /// `--audit-webhook-batch-throttle-burst` of kube-apiserver, with its default: posts at once.
    Burst,
    /// How long the second try of a batch waits after the first, in milliseconds.
    RetryWait,
    /// The number of the first line that is shipped, from 1.
    FromLine,
    /// How long one request to a server may take in all, in milliseconds.
    RequestTimeout,
    /// How often each service is asked. What it is where it isn't given depends on `Threshold` and `Every`: see `number_if_given`.
    Rounds,
    /// Seconds between the beginnings of two rounds.
    Every,
    /// How many probes one after another change a condition, as `failureThreshold` of a pod's probe.
    Threshold,
}

impl Ranged {
    /// The option's name, without its dashes.
    pub fn name(self) -> &'static str
        ensures { result.now ≡ spec.ranged_name self }
    {
        match self {
            Ranged::MaxEventSize => MAX_EVENT_SIZE,
            Ranged::Moment => MOMENT,
            Ranged::Bays => BAYS,
            Ranged::Connections => CONNECTIONS,
            Ranged::BatchBuffer => BATCH_BUFFER,
            Ranged::BatchMaxSize => BATCH_MAX_SIZE,
            Ranged::BatchMaxWait => BATCH_MAX_WAIT,
            Ranged::MaxBatchSize => MAX_BATCH_SIZE,
            Ranged::IdleTimeout => IDLE_TIMEOUT,
            Ranged::ReadHeaderTimeout => READ_HEADER_TIMEOUT,
            Ranged::MinRate => MIN_RATE,
            Ranged::StallTimeout => STALL_TIMEOUT,
            Ranged::DialTimeout => DIAL_TIMEOUT,
            Ranged::ResponseHeaderTimeout => RESPONSE_HEADER_TIMEOUT,
            Ranged::ShutdownTimeout => SHUTDOWN_TIMEOUT,
            Ranged::Tries => TRIES,
            Ranged::Rate => RATE,
            Ranged::Burst => BURST,
            Ranged::RetryWait => RETRY_WAIT,
            Ranged::FromLine => FROM_LINE,
            Ranged::RequestTimeout => REQUEST_TIMEOUT,
            Ranged::Rounds => ROUNDS,
            Ranged::Every => EVERY,
            Ranged::Threshold => THRESHOLD,
        }
    }

    /// The least number that it may have.
    pub fn least(self) -> u64
        ensures { result ≡ spec.least self }
    {
        match self {
            Ranged::MaxEventSize | Ranged::MaxBatchSize => 256,
            Ranged::Moment | Ranged::Connections | Ranged::BatchMaxWait => 0,
            Ranged::MinRate | Ranged::ShutdownTimeout => 0,
            Ranged::Bays | Ranged::BatchBuffer | Ranged::BatchMaxSize => 1,
            Ranged::IdleTimeout | Ranged::ReadHeaderTimeout | Ranged::StallTimeout => 1,
            Ranged::DialTimeout | Ranged::ResponseHeaderTimeout => 1,
            Ranged::Tries | Ranged::Rate | Ranged::Burst | Ranged::RetryWait => 1,
            Ranged::FromLine | Ranged::RequestTimeout => 1,
            Ranged::Rounds | Ranged::Every | Ranged::Threshold => 1,
        }
    }

    /// The greatest number that it may have.
    pub fn most(self) -> u64
        ensures { result ≡ spec.most self }
    {
        match self {
            Ranged::MaxEventSize => 4_194_304,
            Ranged::Moment => 253_370_764_799_999_999,
            Ranged::Bays => 1_024,
            Ranged::Connections => u64::MAX,
            Ranged::BatchBuffer => 100_000,
            Ranged::BatchMaxSize => 10_000,
            Ranged::MaxBatchSize => 67_108_864,
            Ranged::MinRate => 1_000_000,
            // An hour.
            Ranged::BatchMaxWait | Ranged::IdleTimeout | Ranged::ReadHeaderTimeout => 3_600_000,
            Ranged::StallTimeout | Ranged::DialTimeout => 3_600_000,
            Ranged::ResponseHeaderTimeout | Ranged::ShutdownTimeout => 3_600_000,
            Ranged::Tries | Ranged::Threshold => 10,
            Ranged::Rate | Ranged::Burst => 1_000,
            Ranged::RetryWait => 30_000,
            // As many lines as a run can number.
            Ranged::FromLine => 281_474_976_710_656,
            Ranged::RequestTimeout => 600_000,
            Ranged::Rounds => 1_000_000,
            // A day.
            Ranged::Every => 86_400,
        }
    }

    /// The number that it has where it isn't given; of `Every` 0, which stands for none, and of `Rounds` the one without `--every` and
    /// `--threshold`.
    pub fn default_number(self) -> u64
        ensures { result ≡ spec.default_of self }
    {
        match self {
            Ranged::MaxEventSize => 1_048_576,
            Ranged::Moment | Ranged::Connections | Ranged::Every => 0,
            Ranged::Bays => 64,
            Ranged::BatchBuffer => 10_000,
            Ranged::BatchMaxSize => 400,
            Ranged::BatchMaxWait | Ranged::StallTimeout => 30_000,
            Ranged::MaxBatchSize => 10_485_760,
            Ranged::IdleTimeout | Ranged::ResponseHeaderTimeout => 60_000,
            Ranged::ReadHeaderTimeout | Ranged::RequestTimeout => 10_000,
            Ranged::MinRate => 8_192,
            Ranged::DialTimeout => 5_000,
            Ranged::ShutdownTimeout => 20_000,
            Ranged::Tries | Ranged::Threshold | Ranged::Rounds => 3,
            Ranged::Rate => 10,
            Ranged::Burst => 15,
            Ranged::RetryWait => 1_000,
            Ranged::FromLine => 1,
        }
    }
}

/// The number that is given to an option, or its default. A text of another kind makes the words no command line.
pub fn number_given(option: Ranged, options: &Options) -> Result<u64, WordsFault>
    ensures { result ≡ spec.number_given option options.now }
{
    number_or(option.default_number(), option.name(), options)
}

/// The number that is given to an option, if one is, whatever its range. A text of another kind makes the words no command line.
pub fn number_if_given(option: Ranged, options: &Options) -> Result<Option<u64>, WordsFault>
    ensures { result ≡ spec.number_if_given option options.now }
{
    number_in(option.name(), options)
}

/// Each of the options that is given has a number.
pub fn have_numbers(numbers: &[Ranged], options: &Options) -> bool
    ensures { result ≡ spec.have_numbers numbers.now options.now }
{
    for option in numbers {
        if number_given(*option, options).is_err() {
            return false;
        }
    }
    true
}

/// A number that is in the range of its option.
pub fn in_range(option: Ranged, number: u64) -> Result<u64, WordsFault>
    ensures gives { result ≡ spec.in_range option number }
    ensures least { IfOk result (λ n. spec.least option ≤ n) }
    ensures most { IfOk result (λ n. n ≤ spec.most option) }
{
    if number < option.least() || option.most() < number {
        return Err(WordsFault::Limits { option, number });
    }
    Ok(number)
}
