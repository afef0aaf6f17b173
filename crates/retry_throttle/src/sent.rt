use truncate_backend::SinkFault;

/// What became of a batch, and how often it was posted.
#[derive(Clone, Copy, Debug, PartialEq, Eq)]
pub enum Sent {
    /// Its last post is done.
    Done { posts: u32 },
    /// Each post that there may be failed, the last one so.
    GaveUp { posts: u32, last: SinkFault },
    /// The bucket was asked as often as it may be, and gave no token for one more post.
    Throttled { posts: u32 },
}
