// The step: the refusals in order, then acting, settling and the result.
#![tactic(auto)]

pub mod refusal;
pub mod stepping;
