// Worked examples of stream sets, run: series of calls over the sets and layers, compared with lists made by hand.
#![tactic(auto)]

#[cfg(test)]
mod series;
