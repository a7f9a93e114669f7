//! Laws of the grammar, each the contract of a function that does nothing.
//!
//! They speak of the definitions in `specs/` alone, which are the RESP2 specification's, and hold of every input.

ghost use Rattle.resp_decoder.specs.Laws.{EachStreamDecodes, DecodingsAgree, FaultsAgree, OpenHasNoFault};
ghost use Rattle.resp_decoder.specs.Laws.{KnownTexts, KnownFaults};

/// Any bytes are read as requests up to an open rest or a fault, and in one way alone.
pub fn one_decoding()
    ensures exists { EachStreamDecodes }
    ensures unique { DecodingsAgree }
{}

/// At most one fault stands in a rest, and none where more bytes could complete a request.
pub fn one_fault()
    ensures unique { FaultsAgree }
    ensures none_in_open { OpenHasNoFault }
{}

/// The definitions at known requests and known faults.
pub fn known_texts()
    ensures requests { KnownTexts }
    ensures faults { KnownFaults }
{}
