// Program images: bytes that list words of a memory, how they are read, and what they set.
#![tactic(auto)]

mod image;
mod listing;
mod loading;
mod number;
mod part;
mod reading;
mod refusal;
mod segments;
mod walk;
mod words;

pub use image::Image;
pub use loading::load;
pub use part::ImagePart;
pub use reading::read;
pub use refusal::ImageRefusal;
pub use segments::Segments;
pub use words::Words;
