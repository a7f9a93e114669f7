//! The strips and bands of layers.

ghost use Rattle.std.specs.Prelude.{◌≡◌, ◌++◌, ◌∷◌, [], map, codes, OnOk, IfOk};
ghost use Rattle.std.specs.List.{flat_map};
ghost use Rattle.picture_shapes.specs.Bands.{band_at, bands_of, layer_bands, layer_bar};
ghost use Rattle.picture_shapes.specs.Frames.{strip_of};

use crate::facts::{LayerFacts, RunFacts};
use crate::frame::{Frame, LANE};
use crate::label::Piece;
use crate::shape::{Look, Shape, bar, put_shape};
use std::alloc::{AllocError, Global};

/// How high the strip of layers is.
const STRIP: u64 = 16;

/// The strips and bands of a run's layers within a frame.
pub(super) fn bands_of(
    alloc: Global,
    run: &RunFacts,
    frame: &Frame,
) -> Result<Vec<Shape>, AllocError>
    ensures { IfOk result (λ bands. bands.items ≡ bands_of frame.now run.now) }
{
    let mut bands = Vec::new(alloc);
    for layer in &run.layers {
        put_layer(layer, frame, &mut bands)?;
    }
    Ok(bands)
}

/// Appends the strip and the bands of a layer that is there within the window.
fn put_layer(layer: &LayerFacts, frame: &Frame, bands: &mut Vec<Shape>) -> Result<(), AllocError>
    ensures { OnOk result (bands.new.items ≡ bands.old.items ++ layer_bands frame.now layer.now) }
{
    if layer.take >= frame.to() || frame.is_past(layer.settle) {
        return Ok(());
    }
    put_bar("strip", layer, frame.strip(), STRIP, frame, bands)?;
    put_bands(layer, frame, bands)
}

/// Appends the bands of a layer, one in each lane that it touches.
fn put_bands(layer: &LayerFacts, frame: &Frame, bands: &mut Vec<Shape>) -> Result<(), AllocError>
    ensures { OnOk result (bands.new.items ≡ bands.old.items ++ map (band_at frame.now layer.now) layer.now.groups) }
{
    for group in layer.groups.iter() {
        put_bar("band", layer, frame.top(group), LANE - 6, frame, bands)?;
    }
    Ok(())
}

/// Appends a bar of this name, as long as a layer, at this place and so high.
fn put_bar(
    name: &'static str,
    layer: &LayerFacts,
    y: u64,
    height: u64,
    frame: &Frame,
    bands: &mut Vec<Shape>,
) -> Result<(), AllocError>
    ensures { OnOk result (bands.new.items ≡ bands.old.items ++ layer_bar name.now frame.now layer.now y height ∷ []) }
{
    let form = bar(frame.x(layer.take), y, frame.x_or_end(layer.settle), height);
    put_shape(
        bands,
        Look::plain(name),
        form,
        &[
            Piece::Text(b"layer "),
            Piece::Number(layer.number as u64),
            Piece::Text(b", taken at step "),
            Piece::Number(layer.take as u64),
            Piece::Text(b", requests: "),
            Piece::Number(layer.jobs.as_slice().len() as u64),
        ],
    )
}
