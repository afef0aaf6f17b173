// Which run is made, and where memory is refused in it.
use case_rows::fields;
use front_base::number_of;
use std::alloc::Global;

/// What standard input asks for: `explain | 90 | 10`.
#[derive(Clone, Copy, Debug, Drop)]
pub struct Order<'t> {
    /// Which run: both without a name.
    pub name: &'t str,
    /// How many allocations are made right before it.
    skip: u64,
    /// Within how many more one is refused. None is refused where this is 0.
    within: u64,
}

fn number(text: &str) -> u64 {
    number_of(text.as_bytes()).unwrap_or(0)
}

/// Reads an order.
pub fn order_of(text: &str) -> Order<'_> {
    let (name, numbers) = fields(text.trim_end());
    let (skip, within) = fields(numbers);
    Order {
        name,
        skip: number(skip),
        within: number(within),
    }
}

// Makes so many allocations, gives each back, and says whether one was refused.
fn is_one_refused(alloc: Global, count: u64) -> bool {
    for _ in 0..count {
        if Box::new(alloc, 0u64).is_err() {
            return true;
        }
    }
    false
}

impl<'t> Order<'t> {
    /// Makes the allocations that come before the run. Whether memory was refused there, and isn't any more in the run.
    pub fn begin(&self, alloc: Global) -> bool {
        is_one_refused(alloc, self.skip)
    }

    /// Whether memory was refused in the run that has just ended: it is refused behind it otherwise.
    pub fn end(&self, alloc: Global) -> bool {
        self.within > 0 && !is_one_refused(alloc, self.within)
    }
}
