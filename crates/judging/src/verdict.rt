// The verdict: kept; missing, with an entry and a row that has no partner; or one of two kinds with a pair of entries.
#[derive(Clone, Copy, Drop)]
pub enum Verdict {
    Kept,
    Missing { entry: usize, row: usize },
    Apart { first: usize, second: usize },
    Unsure { first: usize, second: usize },
}
