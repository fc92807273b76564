// Worked examples of sheets, run: the sheet of `<b><p><n/></p><p></p></b>`, byte by byte, and what becomes of it when it is
// cut, lengthened or changed.
#![tactic(auto)]

#[cfg(test)]
mod book;
#[cfg(test)]
mod damage;
#[cfg(test)]
mod encoding;
#[cfg(test)]
mod viewing;
