/// What is told of a run.
#[derive(Clone, Copy, Debug, Drop)]
pub struct Told {
    /// Whether it kept its promise.
    pub kept: bool,
    /// How it ended.
    pub how: &'static str,
    /// Whether memory was refused in it.
    pub refused: bool,
}

impl Told {
    /// A run for which memory was refused before it began.
    pub fn before() -> Told {
        Told {
            kept: true,
            how: "not begun",
            refused: false,
        }
    }
}
