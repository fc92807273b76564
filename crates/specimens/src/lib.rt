// Worked examples and limits, run through the public calls.
#![tactic(auto)]

#[cfg(test)]
mod books;
#[cfg(test)]
mod finder;
#[cfg(test)]
mod places;
#[cfg(test)]
mod searches;
