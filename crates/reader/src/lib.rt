// A reader of images: it borrows the rows of an image and walks addresses through it.
#![tactic(auto)]

mod reader;
mod rows;
mod set_up;
mod stride;
mod walk;

pub use reader::Reader;
pub use rows::check_rows;
pub use stride::Stride;
