// The module's parts as C symbols, for the comparisons and the benchmarks.
#![tactic(auto)]

mod answers;
mod densify_calls;
mod leaves;
mod register_calls;
mod scene_calls;
