// Whether and how the residuals of a block are summed up. What the block tools give stands in specs/, with small examples of it.
#![tactic(auto)]

#[derive(Clone, Copy)]
pub enum Accumulate {
    Off,
    AlongRows,
    DownColumns,
}
