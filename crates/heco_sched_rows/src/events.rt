use heco_circuit::{Circuit, read};
use heco_sched::{Board, Event};
use std::alloc::Global;
use std::test::Fail;

/// The circuit of a file in hex.
pub fn circuit_of(alloc: Global, text: &str) -> Result<Circuit, Fail> {
    let file = hex::decode(alloc, text)?;
    Ok(read(alloc, file.as_slice())?)
}

/// The board of the circuit of a file in hex, with four workers.
pub fn board_of(alloc: Global, text: &str) -> Result<Board, Fail> {
    let circuit = circuit_of(alloc, text)?;
    Ok(Board::open(alloc, &circuit, 4)?)
}

/// The event of a line: its kind, its worker, and the gate that is claimed.
pub fn event_of(line: &str) -> Result<Event, Fail> {
    let mut words = line.split(' ').skip(1);
    let worker = words.next().unwrap_or("no worker").parse::<u8>()?;
    match words.next() {
        None => Ok(Event::Finish { worker }),
        Some(gate) => {
            let gate = gate.parse::<u32>()?;
            Ok(Event::Claim { worker, gate })
        }
    }
}
