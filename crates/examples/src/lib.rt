// Worked examples, proved from the definitions: what the specs say of a sample book and of some texts and patterns.
#![tactic(auto)]

pub mod laws;
