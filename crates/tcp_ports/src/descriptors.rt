use libc::types::rlimit;

/// How many descriptors the process may have open at once (`RLIMIT_NOFILE`), or none where the system has no limit, or doesn't say.
/// `ulimit -n` and systemd's `LimitNOFILE` set it.
pub fn most_descriptors() -> Option<u64> {
    let mut limit = rlimit {
        rlim_cur: 0,
        rlim_max: 0,
    };
    if libc::getrlimit(libc::RLIMIT_NOFILE, &mut limit) < 0 || limit.rlim_cur == u64::MAX {
        return None;
    }
    Some(limit.rlim_cur)
}
