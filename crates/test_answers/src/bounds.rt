//! Lower bounds, and answers that are assessed by them.
mod cases;
mod devices;
mod growths;
