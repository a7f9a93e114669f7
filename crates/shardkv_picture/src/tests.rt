//! The picture of a trace as whoever has a trace meets it: a table's text and a trace's text go in, and SVG and a status
//! come out.
//!
//! Where things stand follows from the geometry of a picture and the rules of stamps; none of it was taken from a picture.

mod pictures;
mod refusals;
