// Tables that hang together: document 01's section of that name, a module for each subject and a function for each sentence.
// Only rows within the sizes are judged.
#![tactic(auto)]

pub mod finding;
pub mod hanging;
pub mod limits;
pub mod mailbox_rules;
pub mod place_rules;
pub mod pool_rules;
pub mod reference_rules;
pub mod row_rules;
pub mod searching;
pub mod walking;
pub mod word_rules;
