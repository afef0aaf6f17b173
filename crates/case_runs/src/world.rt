/// What a run is made of.
#[derive(Clone, Copy, Debug, Drop)]
pub struct World<'a> {
    /// The options of `serve` with blanks between them, but for those of the bays and of the files other than the policy.
    pub options: &'a str,
    /// A row for each connection: all that its client sends, and the reply of the backend, if one is asked.
    pub requests: &'a str,
    /// How many lines the buffer of a sink takes over the whole run.
    pub allotment: u64,
    /// By how many microseconds each clock goes on at each call.
    pub step: u64,
    /// The numbers of the log's writes that fail, from 1, with blanks between them.
    pub log_fails: &'a str,
    /// What becomes of each post of the webhook, with blanks between these words: `dial` and `write` fail there, `bad` is an answer that
    /// isn't HTTP, `503` refuses the lines, and any other word takes them. A dial after the last one fails.
    pub posts: &'a str,
}
