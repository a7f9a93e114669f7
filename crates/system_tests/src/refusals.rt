//! When a step isn't made, and what then is as it was.

use crate::answers::{Row, follow, follow_rows};
use crate::tables::system_of;
use crate::trouble::Trouble;
use groups::SkipId;
use placement::Table;
use shard_workers::{Gate, InTurn, Load, Ran, Refused, Room, Workers};
use std::alloc::{AllocError, Global};
use std::num::NonZeroUsize;
use std::process::Abort;
use std::test::Fail;
use system::System;

const ONE: InTurn = InTurn(NonZeroUsize::MIN);

/// A connection has one request at a time, from its submit to its collect.
const BUSY: Row = Row {
    shards: 2,
    max_steps: 1000,
    script: "open; open => opened 1; opened 2
submit 1 SET a 1 => submitted 1.1
submit 1 SET a 2 => Busy
submit 2 PING => submitted 2.1
submit 2 SET a 2 => Busy
deliver 0 => made
submit 1 SET a 2 => Busy
take; submit 1 SET a 2 => made; Busy
run; submit 1 SET a 2 => ran; Busy
settle; submit 1 SET a 2 => made; Busy
collect 1 => 1.1 at 1.0 +OK|
submit 1 SET a 2 => submitted 1.2
submit 1 FOO => Busy
collect 2 => 2.1 +PONG|
submit 2 SET a 2 => submitted 2.2",
};

/// Steps of a connection that was never opened, and of one that was closed.
const NO_CONN: Row = Row {
    shards: 2,
    max_steps: 1000,
    script: "submit 1 SET a 1 => NoConn
collect 1 => NoConn
close 1 => NoConn
open => opened 1
submit 9 SET a 1 => NoConn
submit 9 PING => NoConn
submit 0 SET a 1 => NoConn
collect 2 => NoConn
close 18446744073709551615 => NoConn
submit 1 SET a 1 => submitted 1.1
close 1 => made
submit 1 SET a 1 => NoConn
collect 1 => NoConn
close 1 => NoConn
steps => 3",
};

const NO_PACKET: Row = Row {
    shards: 2,
    max_steps: 1000,
    script: "deliver 0 => NoPacket
repeat 0 => NoPacket
open; submit 1 MSET a 1 c 2 => opened 1; submitted 1.1
deliver 2 => NoPacket
repeat 2 => NoPacket
deliver 18446744073709551615 => NoPacket
repeat 18446744073709551615 => NoPacket
deliver 1; deliver 1 => made; made
deliver 2 => NoPacket
repeat 1 => NoPacket
deliver 0; deliver 0 => made; made
deliver 0 => NoPacket
repeat 0 => NoPacket
steps => 6",
};

/// Repeats are steps, and there is a place more behind each.
const REPEATS: Row = Row {
    shards: 2,
    max_steps: 4,
    script: "open; submit 1 SET a 1 => opened 1; submitted 1.1
repeat 1 => NoPacket
repeat 0 => made
repeat 2 => NoPacket
repeat 1 => made
steps => 4
packets => 3
repeat 2 => Exhausted
repeat 3 => Exhausted
deliver 0 => Exhausted
steps => 4
packets => 3",
};

/// One layer at a time is under way, from its take to its settle. That one is comes before that none is ready.
const LAYERS: Row = Row {
    shards: 2,
    max_steps: 1000,
    script: "open; open => opened 1; opened 2
take => NoLayer
run => NoLayer
settle => NoLayer
submit 1 SET a 1; submit 2 MSET a 2 c 2 => submitted 1.1; submitted 2.1
take => NoLayer
deliver 0; deliver 0; deliver 0; deliver 0; deliver 0 => made; made; made; made; made
run => NoLayer
settle => NoLayer
take => made
take => InFlight
settle => NoLayer
run => ran
take => InFlight
run => NoLayer
run 2.1 => NoLayer
settle => made
settle => NoLayer
run => NoLayer
take => made
take => InFlight
run => ran
take => InFlight
settle => made
take => NoLayer
row 0 => 1.1 at 1.0 SET a 1 +OK|
row 1 => 2.1 at 2.0 MSET a 2 c 2 +OK|
steps => 15",
};

/// One step and no more.
const ONE_STEP: Row = Row {
    shards: 2,
    max_steps: 1,
    script: "open => opened 1
open => Exhausted
submit 1 SET a 1 => Exhausted
deliver 0 => Exhausted
take => Exhausted
run => Exhausted
settle => Exhausted
collect 1 => Exhausted
close 1 => Exhausted
repeat 0 => Exhausted
steps => 1",
};

/// Two steps: what isn't made doesn't count, and behind the two no step's own fault is told.
const TWO_STEPS: Row = Row {
    shards: 2,
    max_steps: 2,
    script: "open => opened 1
submit 9 SET a 1 => NoConn
deliver 0 => NoPacket
repeat 0 => NoPacket
take => NoLayer
steps => 1
submit 1 SET a 1 => submitted 1.1
steps => 2
open => Exhausted
submit 1 SET a 1 => Exhausted
submit 9 SET a 1 => Exhausted
deliver 0 => Exhausted
deliver 9 => Exhausted
take => Exhausted
run => Exhausted
settle => Exhausted
collect 1 => Exhausted
collect 9 => Exhausted
close 1 => Exhausted
close 9 => Exhausted
repeat 0 => Exhausted
repeat 9 => Exhausted
steps => 2
packets => 1",
};

/// A run ends at the first step that isn't made: the state is that behind the steps before it.
const FIRST_FAULT: Row = Row {
    shards: 2,
    max_steps: 1000,
    script: "open; deliver 0; open => opened 1; NoPacket
steps => 1
submit 1 SET a 1; deliver 0; deliver 0; take => submitted 1.1; made; NoPacket
steps => 3
take; run; take; settle => made; ran; InFlight
settle => made
steps => 6
collect 1; collect 2; close 1 => 1.1 at 1.0 +OK|; NoConn
close 1 => made",
};

const REFUSALS: [Row; 8] = [
    BUSY,
    NO_CONN,
    NO_PACKET,
    REPEATS,
    LAYERS,
    ONE_STEP,
    TWO_STEPS,
    FIRST_FAULT,
];

#[test]
fn steps_are_refused_in_turn(rt: HostRuntime) -> Result<(), Fail> {
    follow_rows(&rt, rt.alloc(), &REFUSALS, &ONE)?;
    Ok(())
}

/// Two workers of which none can be started.
#[derive(Drop)]
struct Unwilling;

impl Workers for Unwilling {
    ghost use Rattle.std.specs.Prelude.{true};

    ghost count = { λ _. 2 };

    ghost may_refuse = { λ _. true };

    ghost has_room = { λ _ _. Unit {0} };

    fn number(&self) -> NonZeroUsize {
        NonZeroUsize::MIN.saturating_add(1)
    }

    fn reserve<'s>(&self, alloc: Global, loads: usize) -> Result<Room<'s>, AllocError> {
        InTurn(NonZeroUsize::MIN).reserve(alloc, loads)
    }

    fn run_loads<'s>(
        &self,
        _alloc: Global,
        _table: &Table,
        _skip: &'s [SkipId],
        _gate: &(dyn Gate + Sync),
        _room: Room<'s>,
        _loads: Vec<Load>,
    ) -> Result<Vec<Vec<Ran>>, Refused> {
        Err(Refused)
    }
}

/// A layer of one request needs no start, nor does one of two that name no large sets; then a layer of two is taken of which
/// one does.
const BEFORE_THE_START: &str = "open; open => opened 1; opened 2
ask 1 SADD x 00..99 => 1.1 at 1.1 :100|
submit 1 SET b 0; submit 2 SET c 2 => submitted 1.2; submitted 2.1
deliver 0; deliver 0; take; run; settle => made; made; made; ran; made
collect 1; collect 2 => 1.2 at 2.0 +OK|; 2.1 at 2.1 +OK|
submit 1 SET a 1; submit 2 EXISTS x*100 => submitted 1.3; submitted 2.2
deliver 0; deliver 0; take => made; made; made
steps => 22";

/// The rows stay, and no step is made any more, whoever works.
const AFTER_THE_START: &str = "open => Failed
submit 1 SET a 1 => Failed
submit 9 SET a 1 => Failed
deliver 0 => Failed
take => Failed
run => Failed
settle => Failed
collect 1 => Failed
collect 9 => Failed
close 1 => Failed
repeat 0 => Failed
rows => 3
row 1 => 1.2 at 2.0 SET b 0 +OK|
starved => 0:
steps => 22";

fn fails_for_good(rt: &impl Abort, alloc: Global, system: &mut System) -> Result<(), Trouble> {
    follow(rt, alloc, system, BEFORE_THE_START, &Unwilling)?;
    follow(rt, alloc, system, "run => Failed", &Unwilling)?;
    follow(rt, alloc, system, AFTER_THE_START, &ONE)
}

#[test]
fn a_refused_start_is_for_good(rt: HostRuntime) -> Result<(), Fail> {
    let mut system = system_of(rt.alloc(), 2, 1000)?;
    fails_for_good(&rt, rt.alloc(), &mut system)?;
    Ok(())
}
