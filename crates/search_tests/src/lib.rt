// Tests of the search over small sets: examples worked out by hand, comparisons with a brute force, and the number of calls on a set.
#![tactic(auto)]

#[cfg(test)]
mod books;
#[cfg(test)]
mod brute;
#[cfg(test)]
mod comparison;
#[cfg(test)]
mod costs;
#[cfg(test)]
mod examples;
#[cfg(test)]
mod plans;
