// The sheet of a book: writes elements and names as a sheet, and shows the elements and names of a sheet that is given.
#![tactic(auto)]

mod check;
mod elements;
mod encoder;
mod header;
pub mod laws;
mod names;
mod read;
mod records;
mod view;
mod write;

pub use encoder::encode;
pub use view::SheetView;
