//! Objects and images: what a generator leaves, and what a machine starts with.
#![tactic(auto)]

mod image;
mod laws;
mod object;
mod reading;
mod writing;

pub use image::{Image, ImageFault};
pub use laws::written_images_read_back;
pub use object::{Form, FunctionRow, LoaderRows, LocalPlace, Name, Object, StaticDef, Use};
pub use reading::read_image;
pub use writing::write_image;
