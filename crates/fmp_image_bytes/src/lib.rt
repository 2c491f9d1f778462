//! The bytes of images, stored and loaded: the header and the end, a system, row by row of its tables, and the code of
//! its bodies. All numbers have their ranges and their widths by the version of the image.
#![tactic(auto)]

mod bodies;
pub mod fault;
pub mod fields;
mod header;
pub mod heads;
pub mod image;
mod instructions;
pub mod keys;
mod laws;
mod loading;
mod objects;
mod ranges;
mod rows;
mod storing;
mod tasks;
pub mod versions;

pub use fault::{ImageFault, LoadFault};
pub use heads::{BodyHead, BodyKind};
pub use image::Image;
pub use laws::{older_images_keep_their_names, older_images_mean_the_same, one_spelling};
pub use loading::load;
pub use rows::Row;
pub use storing::store;
