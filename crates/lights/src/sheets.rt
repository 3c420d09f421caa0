// Sheets, images and words: read, checked and written.
pub mod checking;
pub mod images;
pub mod loading;
pub mod ops;
pub mod plans;
pub mod reading;
pub mod runs;
