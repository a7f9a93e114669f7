//! What holds of layers and of popping them, whatever the queues.
ghost use Rattle.delivery.specs.Taking.{LayersCanBePopped, PoppedIsLeft, LayersAreUnits};

/// The laws of layers, by which `ready` and `pop` fit together: a layer's requests can be popped in their order, each
/// being ready when its turn comes; then each queue is left as the layer leaves it; and no group is in two units of a
/// layer. It does nothing: its contract states them.
pub fn laws_of_layers()
    ensures can_be_popped { LayersCanBePopped }
    ensures popped_is_left { PoppedIsLeft }
    ensures are_units { LayersAreUnits }
{}
