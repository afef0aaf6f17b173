use std::alloc::{AllocError, Global};

/// The pieces that inputs come in: each size to the first number, and then the second.
pub const EACH_SIZE: u32 = 40;

pub const LAST_SIZE: u32 = 5000;

/// Answers for one size after another. Those that are equal, one after another, are shown once.
#[derive(Drop)]
pub struct Runs {
    // What the sizes are.
    label: &'static str,
    answer: String,
    from: u32,
    to: u32,
    any: bool,
}

impl Runs {
    pub fn new(alloc: Global, label: &'static str) -> Runs {
        Runs {
            label,
            answer: String::new(alloc),
            from: 0,
            to: 0,
            any: false,
        }
    }

    // Another answer than the one before.
    fn begin(&mut self, size: u32, answer: &str) -> Result<(), AllocError> {
        self.from = size;
        self.to = size;
        self.any = true;
        self.answer.clear();
        self.answer.push_str(answer)
    }

    /// The answer for the next size.
    pub fn add(&mut self, out: &mut String, size: u32, answer: &str) -> Result<(), AllocError> {
        if self.any && self.answer.as_str() == answer {
            self.to = size;
            return Ok(());
        }
        if self.any {
            self.end(out)?;
            out.push_str("; ")?;
        }
        self.begin(size, answer)
    }

    /// Shows the answer for the sizes up to the last one.
    pub fn end(&self, out: &mut String) -> Result<(), AllocError> {
        let label = self.label;
        write!(
            out,
            "{} {label} {}..{}",
            self.answer.as_str(),
            self.from,
            self.to
        )
    }
}
