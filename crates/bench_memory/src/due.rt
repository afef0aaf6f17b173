// What a run of two connections owes.

/// What is due to a run where no memory is refused: a script with a client and a second one, and what comes of these two.
#[derive(Drop)]
pub struct Due {
    pub script: String,
    /// The lines that the requests of the first client owe the log, and those of the second one.
    pub log: String,
    pub second_log: String,
    /// The bytes that the first client gets, and those of the second one.
    pub client: String,
    pub second_client: String,
}

// What the audit IDs of this run begin with. One digit comes after it, which is the number of the request.
const ID: &str = "00000000-0000-0001-0000-00000000000";

// Whether two texts of one request are equal but for its number.
fn are_alike(own: &str, due: &str) -> bool {
    match (own.split_once(ID), due.split_once(ID)) {
        (Some((before, after)), Some((due_before, due_after))) => {
            before == due_before && after.get(1..) == due_after.get(1..)
        }
        _ => false,
    }
}

fn are_alike_lines(own: &str, due: &str) -> bool {
    own.lines().count() == due.lines().count()
        && own
            .lines()
            .zip(due.lines())
            .all(|(own, due)| are_alike(own, due))
}

/// What was seen of one connection.
#[derive(Clone, Copy, Debug, Drop)]
pub struct Seen<'t> {
    pub log: &'t str,
    pub client: &'t str,
}

impl Due {
    // Whether the first connection was served whole, or stopped at some place.
    fn is_first(&self, seen: &Seen, stopped: bool) -> bool {
        if stopped {
            self.log.starts_with(seen.log) && self.client.starts_with(seen.client)
        } else {
            self.log.as_str() == seen.log && self.client.as_str() == seen.client
        }
    }

    // The same of the second one. Its request has an earlier number where the first connection was stopped.
    fn is_second(&self, seen: &Seen, stopped: bool) -> bool {
        if stopped {
            self.second_log.starts_with(seen.log) && self.second_client.starts_with(seen.client)
        } else {
            are_alike_lines(seen.log, self.second_log.as_str())
                && are_alike(seen.client, self.second_client.as_str())
        }
    }

    /// Whether these connections were served, of which memory stopped one at most.
    pub fn is_served(&self, first: &Seen, second: &Seen, is_stopped: bool) -> bool {
        let whole = self.is_first(first, false) && self.is_second(second, false);
        if !is_stopped {
            return whole;
        }
        self.is_first(first, true) && self.is_second(second, false)
            || self.is_first(first, false) && self.is_second(second, true)
    }
}
