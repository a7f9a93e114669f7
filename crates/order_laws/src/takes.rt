//! What the Takes of a history handed out.
ghost use Rattle.order_laws.specs.Takes.{EachTakeHandsOut, TakesStay, TakesAgree, OutIsOfLastTake, AskedStays};

/// Each Take of a history hands out a layer. That stays as steps are added, so in two histories that begin one list the Takes of
/// one number handed out one layer; and what was asked stays. A layer that waits to be run is that of the Take whose number says how
/// many were settled before. It does nothing: its contract states the laws.
pub fn takes_of_layers()
    ensures each_hands_out { EachTakeHandsOut }
    ensures takes_stay { TakesStay }
    ensures takes_agree { TakesAgree }
    ensures out_is_of_last { OutIsOfLastTake }
    ensures asked_stays { AskedStays }
{}
