//! A picture of a run: its facts, the shapes that show them, and their text.
//!
//! A run's facts are plain data (`RunFacts`): what happened to whom at which step. `picture_of` draws those of a window of
//! steps as shapes, and `write_svg` writes these as SVG, a line a shape.
#![tactic(auto)]

mod arrows;
mod bands;
mod canvas;
mod drawn;
mod element;
mod facts;
mod frame;
mod heading;
mod label;
mod lanes;
mod layers;
mod legend;
mod marks;
mod packets;
mod receipts;
mod requests;
mod shape;
mod style;
mod svg;
mod titles;
mod ways;

pub use drawn::{Picture, picture_of};
pub use facts::{
    Asked, ConnectionFacts, DeliveryFacts, JobFacts, LayerFacts, PacketFacts, ReceiptFacts,
    ReplyFacts, RequestFacts, RunFacts, StepWord,
};
pub use label::{ARROW, ELLIPSIS, MIDDLE_DOT, Piece, cut, put_pieces};
pub use shape::{Form, Path, Point, Shape};
pub use svg::{SvgFault, write_svg};
