//! The tasks of an import that lead from inputs to partitions, as functions of bytes and rows: map counts an input's
//! rows, plan cuts all counts into partitions, split tells an input's rows by partition, reduce makes a partition's file.
#![tactic(auto)]

mod counting;
mod mapping;
mod placing;
mod planning;
mod reducing;
mod refusal;
mod sorting;
mod splitting;
#[cfg(test)]
mod tests;

pub use mapping::map_task;
pub use planning::plan_task;
pub use reducing::reduce_task;
pub use refusal::WorkRefusal;
pub use splitting::split_task;
