//! A whole stream that comes in pieces. Its contract is the law that the requests and the fault don't depend on where a
//! stream is cut; tests and tools read a stream by it.

ghost use Rattle.std.specs.Prelude.{◌≡◌, ℕ, List, ◌++◌, None, IfOk};
ghost use Rattle.resp_decoder.specs.Texts.{Decodes};
ghost use Rattle.resp_decoder.specs.Pieces.{whole, TakesAll};

use crate::decoder::Decoder;
use crate::fault::Fault;
use crate::limits::Limits;
use resp::Request;
use std::alloc::{AllocError, Global};

/// What a stream of requests gives: the requests, and the fault behind them if one stands there.
#[derive(Drop)]
pub struct Decoded {
    pub requests: Vec<Request>,
    pub fault: Option<Fault>,
}

/// The requests and the fault of a stream that comes in these pieces. `AllocError` where there is no memory for them.
pub fn decode_all(alloc: Global, limits: Limits, pieces: &[&[u8]]) -> Result<Decoded, AllocError>
    // The stream has no other reading (`one_decoding`), so it doesn't matter how it is cut into pieces.
    ensures { IfOk result (λ decoded. Decodes limits (whole pieces.now) decoded.requests.items decoded.fault) }
{
    let mut decoder = Decoder::new(alloc, limits);
    let mut requests = Vec::new(alloc);
    for piece in pieces {
        decoder.feed(piece)?;
        let fault = take_all(&mut decoder, &mut requests)?;
        if fault.is_some() {
            return Ok(Decoded { requests, fault });
        }
    }
    Ok(Decoded {
        requests,
        fault: None,
    })
}

/// Takes the requests that the decoder has, up to its fault if one stands there.
fn take_all(decoder: &mut Decoder, requests: &mut Vec<Request>) -> Result<Option<Fault>, AllocError>
    requires { decoder.old.held.fault ≡ None }
    ensures { IfOk result (λ fault. (list : List (List (List ℕ))) × (requests.new.items ≡ requests.old.items ++ list)
        × TakesAll decoder.old.held list fault decoder.new.held) }
{
    loop {
        match decoder.next() {
            Ok(Some(request)) => requests.push(request)?,
            Ok(None) => return Ok(None),
            Err(fault) => match fault {
                Fault::Memory => return Err(AllocError),
                _ => return Ok(Some(fault)),
            },
        }
    }
}
